// The board bank: keeps both records of a cell, and answers the open one while there is one.
ghost use Rattle.std.specs.Prelude.{◌*◌, ◌≤◌, vec_len};

use crate::bank::TableBank;
use crate::notes::Notes;

pub mod calls;

// The two records of a cell. The open one counts only while the bank has it noted.
#[derive(Clone, Copy)]
pub struct BoardLine<R> {
    pub settled: R,
    pub opened: R,
}

// A line for every cell, a writer's lines in a row, and then the spare lines.
#[derive(Drop)]
pub struct BoardTable<R> {
    notes: Notes,
    lines: Vec<BoardLine<R>>,
    ghost room: { notes.count * notes.count ≤ vec_len lines },
}

pub type Board<R> = TableBank<BoardTable<R>>;
