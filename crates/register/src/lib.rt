// The register: up to 16 stations hold one value together, each able to replace it.
#![tactic(auto)]

pub mod cells;
pub mod journal;
pub mod marks;
pub mod register;
pub mod stage;
pub mod table;
