// The command file: commands, their bytes and their words, and the way back from bytes.
#![tactic(auto)]

pub mod bank;
pub mod command;
pub mod decode;
pub mod file;
pub mod input;
