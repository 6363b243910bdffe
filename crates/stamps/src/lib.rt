// Stamps: what orders the records of a register. A trait with laws, and two makes of stamp.
#![tactic(auto)]

pub mod number;
pub mod pair;
pub mod stamp;
#[cfg(test)]
mod tests;
pub mod worked;

pub use number::NumberStamp;
pub use pair::PairStamp;
pub use stamp::Stamp;
