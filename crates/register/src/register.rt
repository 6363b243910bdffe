// What a register keeps itself: its bank and its journal are handed to its calls.
ghost use Rattle.std.specs.Prelude.{◌+◌, ◌*◌, ◌≤◌, sum_by};
ghost use Rattle.register.specs.Owing.{owed, past};

use crate::table::Table;
use banks::record::Record;

pub mod calls;
pub mod counts;
pub mod make;
mod operation;

// The most lines of a journal.
pub const LINES: u64 = 4096;

// The moment counts the accepted opens and steps. An operation has at most 49 of them, so it never passes 49 × 4096.
#[derive(Drop)]
pub struct Register<S, V> {
    stations: u8,
    // how many journal lines it may use, and how many it does
    size: u64,
    used: u64,
    moment: u64,
    origin: Record<S, V>,
    table: Table,
    ghost manned: { stations ≤ 16 },
    ghost sized: { size ≤ 4096 },
    ghost within: { used ≤ size },
    ghost timely: { moment + sum_by (owed stations) table.rows ≤ 49 * used },
    ghost running: { sum_by (past stations) table.rows ≤ 0 },
}
