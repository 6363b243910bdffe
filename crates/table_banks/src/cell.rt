// Where the cells of a bank stand in a list, a row of cells to each writer.
ghost use Rattle.std.specs.Prelude.{◌≡◌, ◌≤◌};
ghost use Rattle.table_banks.specs.Cells.{cell};

// The place of a cell, with so many cells to a writer.
pub fn place_of(width: u8, writer: u8, reader: u8) -> usize
    requires { (1 ≤ writer) × (1 ≤ reader) }
    ensures { result ≡ cell width writer reader }
{
    (writer as usize - 1) * width as usize + (reader as usize - 1)
}
