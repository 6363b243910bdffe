// A command file played: every command carried out on a register, and its outcome written into pages.
#![tactic(auto)]

mod bank;
mod carry;
mod found;
mod game;
mod outcome;
pub mod page;
pub mod play;
pub mod player;
mod turn;
