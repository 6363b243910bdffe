// The register as a plain machine: what its code and its definitions share.
#![tactic(auto)]

pub mod law;
pub mod line;
pub mod row;
