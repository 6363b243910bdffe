// Rounds of operations: every station opens one, and takes its steps.
ghost use Rattle.std.specs.Prelude.{◌≡◌, IfOk};

use anyhow::{Context, anyhow};
use banks::record::Record;
use heap_banks::make::{board, repeated};
use machine::line::Line;
use policy::entry::PolicyNumber;
use policy::refusal::Refusal;
use register::journal::Journal;
use register::register::Register;
use stamps::{PairStamp, Stamp};
use std::alloc::Global;
use table_banks::board::Board;

const STATIONS: u8 = 16;

const VALUE: PolicyNumber = PolicyNumber(7);

type Cell = Record<PairStamp, PolicyNumber>;

type Entry = Line<PairStamp, PolicyNumber>;

// Every station opens an operation, writes and reads in turn.
fn open_all(
    register: &mut Register<PairStamp, PolicyNumber>,
    journal: &mut Journal<'_, Entry>,
    turn: u64,
) -> Result<(), Refusal> {
    for station in 1..=STATIONS {
        if (turn % 2 + u64::from(station)) % 2 == 0 {
            let value = PolicyNumber(u32::from(station));
            register.open_write(journal, station, value)?;
        } else {
            register.open_read(journal, station)?;
        }
    }
    Ok(())
}

// Every station takes the steps of its operation in turn; answers how many were accepted.
// Register, bank and journal stay apart: in one struct a step took 92.6 instructions.
fn step_all(
    register: &mut Register<PairStamp, PolicyNumber>,
    bank: &mut Board<Cell>,
    journal: &mut Journal<'_, Entry>,
) -> Result<u64, Refusal>
    ensures { IfOk result (λ k. k ≡ 768) }
{
    let mut accepted = 0;
    for _ in 0..3 * STATIONS {
        for station in 1..=STATIONS {
            register.step(bank, journal, station)?;
            accepted += 1;
        }
    }
    Ok(accepted)
}

// How many steps are accepted in so many rounds, with a journal of so many lines.
pub fn drive(heap: Global, lines: u64, rounds: u64) -> anyhow::Result<u64> {
    let tag = PairStamp::first(0).context("no such stamp")?;
    let origin = Record { tag, value: VALUE };
    let mut bank = board(heap, STATIONS, origin)?;
    let mut table = repeated(heap, Line::unused(origin), lines as usize)?;
    let mut journal = Journal::new(table.as_mut_slice());
    let mut register = Register::make(&mut bank, &journal, STATIONS, 0, VALUE, lines).map_err(
        |_| anyhow!("the register was refused"),
    )?;
    let mut accepted = 0u64;
    for turn in 0..rounds {
        open_all(&mut register, &mut journal, turn).map_err(|_| anyhow!("an open was refused"))?;
        let steps = step_all(&mut register, &mut bank, &mut journal).map_err(|_| anyhow!(
            "a step was refused"
        ))?;
        accepted = accepted.wrapping_add(steps);
    }
    Ok(accepted)
}
