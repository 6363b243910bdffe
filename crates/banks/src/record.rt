// What a cell of a register holds.

// A tag, as a stamp, and a value.
#[derive(Clone, Copy)]
pub struct Record<T, V> {
    pub tag: T,
    pub value: V,
}
