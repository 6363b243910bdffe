// The words that all layers share: refusals, policy numbers and policy entries.
#![tactic(auto)]

pub mod entry;
pub mod refusal;
