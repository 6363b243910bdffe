// The banks at the bottom of a pile, over tables that are handed in: the board and the post.
#![tactic(auto)]

pub mod bank;
pub mod board;
mod cell;
mod lines;
mod notes;
pub mod post;
mod table;
