// A station's row in the register's table.

// Idle, or the line number of the open operation and its progress: how many steps it has taken.
#[derive(Clone, Copy, PartialEq, Eq, Debug)]
pub enum Row {
    Idle,
    Busy { line: u64, progress: u64 },
}
