// Pair stamps: a count and an owner, each a number of its own.
ghost use Rattle.std.specs.Prelude.{◌≤◌};

pub mod calls;

// Compared by count and then by owner.
#[derive(Clone, Copy, PartialEq, Eq, PartialOrd, Ord, Debug)]
pub struct PairStamp {
    count: u32,
    owner: u8,
    ghost bounded: { owner ≤ 16 },
}
