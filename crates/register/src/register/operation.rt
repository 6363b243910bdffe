// The open operations of a register.

// An operation that is open: its station, the number of its line, and its progress, which is how many steps it has taken.
// That it is open speaks of its register too, and holds until its next step, so IsOpen is a clause of the calls that take one.
#[derive(Clone, Copy)]
pub(crate) struct Operation {
    pub(crate) station: u8,
    pub(crate) number: u64,
    pub(crate) progress: u64,
}
