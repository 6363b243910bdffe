// Steps a register of 16 stations over a board through rounds of operations, and prints how many steps were accepted: what bench/run counts the instructions of.
#![tactic(auto)]

mod rounds;

use crate::rounds::drive;
use anyhow::Context;
use std::env;

fn number(word: Option<String>) -> anyhow::Result<u64> {
    let word = word.context("two numbers: journal lines, rounds")?;
    Ok(word.as_str().parse::<u64>()?)
}

fn main(rt: HostRuntime) -> anyhow::Result<()> {
    let mut args = env::args(&rt)?;
    let _program = args.next();
    let lines = number(args.next())?;
    let rounds = number(args.next())?;
    let steps = drive(rt.alloc(), lines, rounds)?;
    println!(rt; "{steps}")?;
    Ok(())
}
