// Banks of cells, each written by one station and read by one: what every bank offers and means.
#![tactic(auto)]

pub mod bank;
pub mod laws;
pub mod record;
