// A command file in words: reads it from standard input and prints a line for each command.
#![tactic(auto)]

mod texts;

use crate::texts::explain;
use commands::input::{LIMIT, read_file};
use std::io::Write;

fn main(rt: HostRuntime) -> anyhow::Result<()> {
    let heap = rt.alloc();
    let input = read_file(heap, rt.stdin())?;
    let text = explain(heap, &input)?;
    rt.stdout().write_all(text.as_bytes())?;
    if input.len() == LIMIT {
        eprintln!(rt; "explain: {LIMIT} bytes were read; what follows them was not")?;
    }
    Ok(())
}
