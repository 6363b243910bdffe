// Two registers of three stations, each from its make through its turns.
use crate::account::Turn;
use crate::calls::Running;
use crate::turns::{ENTRY_TURNS, NUMBER_TURNS, OLD};
use anyhow::{Context, anyhow};
use banks::bank::Bank;
use banks::record::Record;
use heap_banks::make::board;
use heap_banks::pile::pile;
use machine::line::Line;
use policy::entry::PolicyNumber;
use register::journal::Journal;
use register::register::Register;
use stamps::{NumberStamp, PairStamp, Stamp};
use std::fmt::Display;

const STATIONS: u8 = 3;

// A journal is handed one line more than the register may use.
const HANDED: usize = 6;

// A register that starts from a record whose stamp is a first one, with five journal lines.
fn scene<S: Stamp + Clone + Display, V: Copy + Clone + Display, B: Bank<Record<S, V>> + Drop>(
    rt: &HostRuntime,
    mut bank: B,
    origin: Record<S, V>,
    turns: &[Turn<V>],
) -> anyhow::Result<()> {
    let Record { tag, value } = origin;
    let mut lines = vec![in rt.alloc(); Line::unused(origin); HANDED]?;
    let journal = Journal::new(lines.as_mut_slice());
    let register = Register::make(&mut bank, &journal, STATIONS, tag.count(), value, 5).map_err(
        |_| anyhow!("the register was refused"),
    )?;
    println!(rt; "make {tag} {value}: ok")?;
    let mut running = Running {
        register,
        bank,
        journal,
    };
    running.account(rt, turns)?;
    Ok(())
}

// Policy entries with number stamps, over a pile. The starting count is the last but one, so a second round of writes is spent.
pub fn entries(rt: &HostRuntime) -> anyhow::Result<()> {
    let tag = NumberStamp::first(134217726).context("no such number stamp")?;
    let origin = Record { tag, value: OLD };
    let bank = pile(rt.alloc(), origin)?;
    println!(rt; "policy entries over a pile, with number stamps")?;
    scene(rt, bank, origin, &ENTRY_TURNS)
}

// Policy numbers with pair stamps, over a board.
pub fn numbers(rt: &HostRuntime) -> anyhow::Result<()> {
    let tag = PairStamp::first(0).context("no such pair stamp")?;
    let origin = Record {
        tag,
        value: PolicyNumber(7),
    };
    let bank = board(rt.alloc(), STATIONS, origin)?;
    println!(rt; "policy numbers over a board, with pair stamps")?;
    scene(rt, bank, origin, &NUMBER_TURNS)
}
