// The split layer: writers up to a split point lie in the first of two banks, the others in the second.
pub mod calls;

// Two banks of one station count.
#[derive(Drop)]
pub struct Split<B, C> {
    first: B,
    second: C,
    point: u8,
}
