// Trials of the register: every refusal of every call, at its edge, over a board and a post.
#![tactic(auto)]

#[cfg(test)]
mod tests;
