// Layers over banks, each a bank again: renumbering and split.
#![tactic(auto)]

mod layer;
mod permutation;
pub mod renumbering;
pub mod split;
