// Numbers of stations in another order, with the way back.
ghost use Rattle.std.specs.Prelude.{◌≤◌};
ghost use Rattle.layers.specs.Permutations.{Pairs};

mod calls;

// The number at every position, and the position of every number, each from 1 to a size of at most 16. Arrays, as a layer allocates nothing.
#[derive(Clone, Copy)]
pub struct Permutation {
    size: u8,
    numbers: [u8; 16],
    positions: [u8; 16],
    ghost range: { size ≤ 16 },
    ghost there: { Pairs size numbers positions },
    ghost back: { Pairs size positions numbers },
}
