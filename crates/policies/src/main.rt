// Registers of policies at work: prints each call with its answer, and the journals as they then stand.
#![tactic(auto)]

mod account;
mod calls;
mod scenes;
mod show;
mod turns;

use crate::scenes::{entries, numbers};

fn main(rt: HostRuntime) -> anyhow::Result<()> {
    entries(&rt)?;
    numbers(&rt)
}
