// The renumbering layer: a bank under other station numbers.
use crate::permutation::Permutation;

pub mod calls;

// Cell (w, r) is the cell below whose numbers stand at positions w and r.
#[derive(Drop)]
pub struct Renumbering<B> {
    below: B,
    map: Permutation,
}
