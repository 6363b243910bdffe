// Calls on a bank, each printed with what it answers.
use banks::bank::{Bank, Mark};
use banks::record::Record;
use policy::refusal::Refusal;
use std::fmt::Debug;
use std::io;

// A record as its tag and value. One function for the three kinds of answers would want a type with a Display for each.
fn show_read<V: Copy + Debug>(
    rt: &impl Print,
    writer: u8,
    reader: u8,
    answer: Result<Record<u32, V>, Refusal>,
) -> io::Result<()> {
    match answer {
        Ok(x) => {
            let tag = x.tag;
            let value = x.value;
            println!(rt; "read {writer} {reader}: {tag} {value:?}")
        }
        Err(refusal) => println!(rt; "read {writer} {reader}: no {refusal}"),
    }
}

fn show_done(rt: &impl Print, call: &str, answer: Result<(), Refusal>) -> io::Result<()> {
    match answer {
        Ok(()) => println!(rt; "{call}: ok"),
        Err(refusal) => println!(rt; "{call}: no {refusal}"),
    }
}

fn show_place<V: Copy, B: Bank<Record<u32, V>>>(
    rt: &impl Print,
    bank: &B,
    writer: u8,
    reader: u8,
) -> io::Result<()> {
    match bank.place(writer, reader) {
        Ok((depth, w, r)) => println!(rt; "place {writer} {reader}: {depth} {w} {r}"),
        Err(refusal) => println!(rt; "place {writer} {reader}: no {refusal}"),
    }
}

// Both writers' cells for reader 2 are read, the first from the board, the second from the post.
fn read_both<V: Copy + Debug, B: Bank<Record<u32, V>>>(
    rt: &impl Print,
    bank: &mut B,
) -> io::Result<()> {
    let first = bank.read(1, 2);
    show_read(rt, 1, 2, first)?;
    let second = bank.read(3, 2);
    show_read(rt, 3, 2, second)
}

// A pile of three stations through start, read by both sides, mark, finish and refusals.
pub fn account<V: Copy + Debug, B: Bank<Record<u32, V>>>(
    rt: &impl Print,
    bank: &mut B,
    x: Record<u32, V>,
) -> io::Result<()> {
    show_place(rt, bank, 1, 2)?;
    show_place(rt, bank, 3, 2)?;
    show_place(rt, bank, 4, 2)?;
    read_both(rt, bank)?;
    show_done(rt, "start 1 2", bank.start(1, 2, x))?;
    show_done(rt, "start 3 2", bank.start(3, 2, x))?;
    show_done(rt, "start 1 3", bank.start(1, 3, x))?;
    read_both(rt, bank)?;
    show_done(rt, "down 1 2", bank.mark(1, 2, Mark::Down))?;
    show_done(rt, "finish 1", bank.finish(1))?;
    show_done(rt, "finish 3", bank.finish(3))?;
    show_done(rt, "finish 3", bank.finish(3))?;
    read_both(rt, bank)?;
    show_done(rt, "up 1 2", bank.mark(1, 2, Mark::Up))?;
    show_done(rt, "finish 1", bank.finish(1))?;
    read_both(rt, bank)?;
    show_done(rt, "finish 0", bank.finish(0))
}
