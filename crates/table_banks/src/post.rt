// The post bank: keeps settled records and one outgoing record for each writer, and answers the settled one.
ghost use Rattle.std.specs.Prelude.{◌+◌, ◌*◌, ◌≤◌, vec_len};

use crate::bank::TableBank;
use crate::notes::Notes;

pub mod calls;

// A line for every cell, a writer's lines in a row, a line for every writer's outgoing record, and then the spare lines.
#[derive(Drop)]
pub struct PostTable<R> {
    notes: Notes,
    lines: Vec<R>,
    ghost room: { notes.count * notes.count + notes.count ≤ vec_len lines },
}

pub type Post<R> = TableBank<PostTable<R>>;
