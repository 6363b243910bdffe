// What the table of a bank at the bottom offers: a trait over the bank's notes and the records of its cells.
ghost use Rattle.std.specs.Prelude.{◌≡◌, ◌≤◌, ℕ, Bool, List, Some, vec_len};
ghost use Rattle.banks.specs.Meanings.{Stationed, filled, started, finished, marked};
ghost use Rattle.banks.specs.Marks.{is_up};
ghost use Rattle.table_banks.specs.Notes.{HasCell, seen};
ghost use Rattle.table_banks.specs.Bottoms.{Held, meant, spare};

use crate::notes::Notes;
use banks::bank::Mark;

// Lines with the records of all cells, and then the spare lines. Cells are named by writer and reader.
// The notes stand in the table and not in the bank, since a type that owns lines can ask for lines enough only of its own fields.
pub trait Table {
    type Record: Copy;

    type Line;

    ghost holds: { Self → Held Self.Record };

    ghost lines_of: { Self → List Self.Line };

    // The lines behind those that the stations need.
    ghost spare_lines: { Self → List Self.Line };

    // How many lines so many stations need.
    ghost needs: { ℕ → ℕ };

    // Of a writer's open record and the settled one, whether a read answers the open one.
    const ANSWERS_OPEN: bool;

    ghost ANSWERS_OPEN: { Bool };

    fn needed(stations: u8) -> usize
        ensures { result ≡ needs stations };

    // The notes over the lines, of which there are enough.
    fn over(notes: Notes, lines: Vec<Self::Line>) -> Self
        requires { needs notes.count ≤ vec_len lines }
        ensures noted { (holds result).notes ≡ seen notes }
        ensures kept { spare_lines result ≡ spare (needs notes.count) lines.items };

    fn into_lines(self) -> Vec<Self::Line>
        ensures { result.items ≡ lines_of self };

    fn notes(&self) -> &Notes
        ensures { seen result.now ≡ (holds self.now).notes };

    fn settled(&self, writer: u8, reader: u8) -> Self::Record
        requires { HasCell (holds self.now).notes writer reader }
        ensures { (holds self.now).settled writer reader ≡ Some result };

    fn opened(&self, writer: u8, reader: u8) -> Self::Record
        requires { HasCell (holds self.now).notes writer reader }
        ensures { (holds self.now).opened writer reader ≡ Some result };

    // Every cell settles on the record, nothing is open, all cells are reachable.
    fn refill(&mut self, x: Self::Record)
        ensures after { meant (holds self.new) ≡ filled (meant (holds self.old)) x }
        ensures kept { spare_lines self.new ≡ spare_lines self.old };

    // The writer has the record open for the reader.
    fn put_open(&mut self, writer: u8, reader: u8, x: Self::Record)
        requires { HasCell (holds self.old).notes writer reader }
        ensures after { meant (holds self.new) ≡ started (meant (holds self.old)) writer reader x }
        ensures kept { spare_lines self.new ≡ spare_lines self.old };

    // The cell settles on the record, and its writer has nothing open.
    fn settle(&mut self, writer: u8, reader: u8, x: Self::Record)
        requires { HasCell (holds self.old).notes writer reader }
        ensures after { meant (holds self.new) ≡ finished (meant (holds self.old)) writer reader x }
        ensures kept { spare_lines self.new ≡ spare_lines self.old };

    // The cell is reachable or not.
    fn put_mark(&mut self, writer: u8, reader: u8, mark: Mark)
        requires { HasCell (holds self.old).notes writer reader }
        ensures after { meant (holds self.new) ≡ marked (meant (holds self.old)) writer reader (is_up mark) }
        ensures kept { spare_lines self.new ≡ spare_lines self.old };

    ghost stationed: { (t : Self) → Stationed (meant (holds t)) };
}
