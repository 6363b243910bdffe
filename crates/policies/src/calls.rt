// The calls of a register and its bank as values, and what they answer.
ghost use Rattle.std.specs.Prelude.{◌≡◌, Result};
ghost use Rattle.policy.specs.declared.refusal.Refusal.{Refusal};
ghost use Rattle.machine.specs.Machines.{Machine};
ghost use Rattle.register.specs.Seen.{seen};
ghost use Rattle.policies.specs.Calls.{answering};

use banks::bank::{Bank, Mark};
use banks::record::Record;
use machine::line::Line;
use policy::refusal::Refusal;
use register::journal::Journal;
use register::register::Register;
use stamps::Stamp;

// Stations first.
#[derive(Clone, Copy)]
pub enum Call<V> {
    Write(u8, V),
    Read(u8),
    Step(u8),
    // a cell, by its writer and its reader
    Mark(u8, u8, Mark),
}

#[derive(Clone, Copy)]
pub enum Answer<S, V> {
    // an operation was opened, with this line number
    Opened(u64),
    // a step was taken, and the operation is done with this record, if it is
    Moved(Option<Record<S, V>>),
    Marked,
}

// A register with its bank and its journal.
#[derive(Drop)]
pub struct Running<'a, S, V, B> {
    pub register: Register<S, V>,
    pub bank: B,
    pub journal: Journal<'a, Line<S, V>>,
}

impl<S: Stamp, V: Copy, B: Bank<Record<S, V>>> Running<'_, S, V, B> {
    // Makes the call.
    pub fn call(&mut self, call: Call<V>) -> Result<Answer<S, V>, Refusal>
        ensures { ◌≡◌ {A = Result (Answer S V) Refusal × Machine S V} (result, seen self.new.register (B.Bank.meaning self.new.bank) self.new.journal.lines.now) (answering S.Stamp.make (seen self.old.register (B.Bank.meaning self.old.bank) self.old.journal.lines.now) (B.Bank.chooses self.old.bank) call) }
    {
        let Running {
            register,
            bank,
            journal,
        } = self;
        match call {
            Call::Write(station, value) => {
                let line = register.open_write(journal, station, value)?;
                Ok(Answer::Opened(line))
            }
            Call::Read(station) => {
                let line = register.open_read(journal, station)?;
                Ok(Answer::Opened(line))
            }
            Call::Step(station) => {
                let moved = register.step(bank, journal, station)?;
                Ok(Answer::Moved(moved))
            }
            Call::Mark(writer, reader, mark) => {
                bank.mark(writer, reader, mark)?;
                Ok(Answer::Marked)
            }
        }
    }
}
