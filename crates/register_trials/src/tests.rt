// A register of two stations, for every bank; and these trials over a board and a post, with pair stamps.
use banks::bank::{Bank, Mark};
use banks::record::Record;
use heap_banks::make::{board, post};
use machine::line::{Kind, Line, LineState};
use policy::refusal::Refusal;
use register::journal::Journal;
use register::register::Register;
use stamps::{PairStamp, Stamp};
use std::alloc::Global;
use std::process::Abort;
use std::test::Fail;

const UNKNOWN: Refusal = Refusal::UnknownStation;

const SHORT: Refusal = Refusal::JournalSize;

// What the registers of a trial stand over: a bank, and a journal of 4096 lines.
#[derive(Drop)]
struct Trial<'a, S, B> {
    bank: B,
    journal: Journal<'a, Line<S, u32>>,
    // the greatest count of the stamps
    greatest: u64,
}

impl<S: Stamp, B: Bank<Record<S, u32>>> Trial<'_, S, B> {
    // A make from the value 7, and only how it is refused.
    fn made(&mut self, stations: u8, count: u64, size: u64) -> Result<(), Refusal> {
        let _register = Register::make(&mut self.bank, &self.journal, stations, count, 7, size)?;
        Ok(())
    }

    // A make of two stations that is accepted.
    fn make(&mut self, count: u64, size: u64) -> Result<Register<S, u32>, Fail> {
        Ok(Register::make(&mut self.bank, &self.journal, 2, count, 7, size)?)
    }

    // A step: the value of an operation that is done, or that it goes on.
    fn step(
        &mut self,
        register: &mut Register<S, u32>,
        station: u8,
    ) -> Result<Option<u32>, Refusal> {
        let done = register.step(&mut self.bank, &mut self.journal, station)?;
        Ok(done.map(|record| record.value))
    }

    // Each refusal of a make stands before those behind it.
    fn makes(&mut self, rt: &impl Abort) {
        let greatest = self.greatest;
        assert_eq!(rt; self.made(0, 0, 1), Err(Refusal::StationCount));
        assert_eq!(rt; self.made(17, u64::MAX, 4097), Err(Refusal::StationCount));
        assert_eq!(rt; self.made(16, u64::MAX, 4097), Err(Refusal::CountsDiffer));
        assert_eq!(rt; self.made(2, u64::MAX, 4097), Err(Refusal::StartingCount));
        assert_eq!(rt; self.made(2, greatest, 4097), Err(SHORT));
        assert_eq!(rt; self.made(2, greatest, 4096), Ok(()));
    }

    fn opens(&mut self, rt: &impl Abort) -> Result<(), Fail> {
        let mut register = self.make(0, 1)?;
        assert_eq!(rt; register.open_write(&mut self.journal, 0, 9), Err(UNKNOWN));
        assert_eq!(rt; register.open_read(&mut self.journal, 3), Err(UNKNOWN));
        assert_eq!(rt; register.open_write(&mut self.journal, 2, 9), Ok(1));
        assert_eq!(rt;
            register.open_read(&mut self.journal, 2),
            Err(Refusal::Busy)
        );
        assert_eq!(rt;
            register.open_read(&mut self.journal, 1),
            Err(Refusal::JournalFull)
        );
        let mut lineless = self.make(0, 0)?;
        assert_eq!(rt; lineless.open_write(&mut self.journal, 3, 9), Err(UNKNOWN));
        assert_eq!(rt;
            lineless.open_write(&mut self.journal, 2, 9),
            Err(Refusal::JournalFull)
        );
        Ok(())
    }

    fn steps(&mut self, rt: &impl Abort) -> Result<(), Fail> {
        let mut register = self.make(0, 1)?;
        assert_eq!(rt; self.step(&mut register, 0), Err(UNKNOWN));
        assert_eq!(rt; self.step(&mut register, 3), Err(UNKNOWN));
        assert_eq!(rt; self.step(&mut register, 2), Err(Refusal::Idle));
        assert_eq!(rt; register.open_read(&mut self.journal, 2), Ok(1));
        assert_eq!(rt; self.bank.mark(1, 2, Mark::Down), Ok(()));
        assert_eq!(rt;
            self.step(&mut register, 2),
            Err(Refusal::Unreachable((0, 1, 2)))
        );
        assert_eq!(rt; self.bank.mark(1, 2, Mark::Up), Ok(()));
        assert_eq!(rt; self.step(&mut register, 2), Ok(None));
        Ok(())
    }

    // The write is refused at its second step, when all is collected, and its station is then idle.
    fn spent(&mut self, rt: &impl Abort) -> Result<(), Fail> {
        let mut register = self.make(self.greatest, 1)?;
        assert_eq!(rt; register.open_write(&mut self.journal, 1, 9), Ok(1));
        assert_eq!(rt; self.step(&mut register, 1), Ok(None));
        assert_eq!(rt; self.step(&mut register, 1), Err(Refusal::Spent));
        assert_eq!(rt; self.step(&mut register, 1), Err(Refusal::Idle));
        assert_eq!(rt; register.last_write(&self.journal, 1), Ok(None));
        Ok(())
    }

    fn lookups(&mut self, rt: &impl Abort) -> Result<(), Fail> {
        let mut register = self.make(0, 3)?;
        assert_eq!(rt; register.open_write(&mut self.journal, 2, 9), Ok(1));
        for _ in 0..5 {
            assert_eq!(rt; self.step(&mut register, 2), Ok(None));
        }
        assert_eq!(rt; register.last_write(&self.journal, 2), Ok(None));
        assert_eq!(rt; self.step(&mut register, 2), Ok(Some(9)));
        assert_eq!(rt; register.open_read(&mut self.journal, 2), Ok(2));
        assert_eq!(rt; register.last_write(&self.journal, 2), Ok(Some(1)));
        assert_eq!(rt; register.last_write(&self.journal, 1), Ok(None));
        assert_eq!(rt; register.last_write(&self.journal, 0), Err(UNKNOWN));
        assert_eq!(rt; register.last_write(&self.journal, 3), Err(UNKNOWN));
        Ok(())
    }
}

// A journal that is shorter than the one at the make is refused before all else.
fn shorter<S: Stamp, B: Bank<Record<S, u32>>>(
    rt: &impl Abort,
    full: &mut Trial<'_, S, B>,
    short: &mut Journal<'_, Line<S, u32>>,
) -> Result<(), Fail> {
    assert_eq!(rt;
        Register::make(&mut full.bank, short, 2, 0, 7, 2).err(),
        Some(SHORT)
    );
    let mut register = full.make(0, 2)?;
    assert_eq!(rt; register.open_write(short, 0, 9), Err(SHORT));
    assert_eq!(rt; register.open_read(short, 1), Err(SHORT));
    assert_eq!(rt; register.step(&mut full.bank, short, 1).err(), Some(SHORT));
    assert_eq!(rt; register.last_write(short, 3), Err(SHORT));
    assert_eq!(rt; register.open_read(&mut full.journal, 1), Ok(1));
    Ok(())
}

// A line that no register has written.
fn blank<S: Copy>(stamp: S) -> Line<S, u32> {
    Line {
        kind: Kind::Write,
        station: 2,
        state: LineState::Done,
        stamp,
        value: 0,
        opened: 0,
        ended: 0,
    }
}

fn every_refusal<S: Stamp + Clone, B: Bank<Record<S, u32>> + Drop>(
    rt: &impl Abort,
    heap: Global,
    bank: B,
    stamp: S,
    greatest: u64,
) -> Result<(), Fail> {
    let mut lines = vec![in heap; blank(stamp); 4096]?;
    let mut short_lines = vec![in heap; blank(stamp); 1]?;
    let mut short = Journal::new(short_lines.as_mut_slice());
    let mut trial = Trial {
        bank,
        journal: Journal::new(lines.as_mut_slice()),
        greatest,
    };
    trial.makes(rt);
    trial.opens(rt)?;
    trial.steps(rt)?;
    trial.spent(rt)?;
    trial.lookups(rt)?;
    shorter(rt, &mut trial, &mut short)
}

fn record() -> Result<Record<PairStamp, u32>, Fail> {
    let tag = PairStamp::first(0).ok_or("no first stamp")?;
    Ok(Record { tag, value: 7 })
}

#[test]
fn over_a_board(rt: HostRuntime) -> Result<(), Fail> {
    let x = record()?;
    let bank = board(rt.alloc(), 2, x)?;
    every_refusal(&rt, rt.alloc(), bank, x.tag, 4294967295)
}

#[test]
fn over_a_post(rt: HostRuntime) -> Result<(), Fail> {
    let x = record()?;
    let bank = post(rt.alloc(), 2, x)?;
    every_refusal(&rt, rt.alloc(), bank, x.tag, 4294967295)
}
