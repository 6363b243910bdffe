// What a command comes to.
use crate::game::Cell;

// What an accepted command comes to.
#[derive(Clone, Copy)]
pub enum Outcome {
    Accepted,
    // the last finish of an operation: its record
    Done(Cell),
    // the journal is to be listed
    Listed,
}
