// Making a register.
ghost use Rattle.std.specs.Prelude.{◌≡◌, Result};
ghost use Rattle.policy.specs.declared.refusal.Refusal.{Refusal};
ghost use Rattle.banks.specs.Meanings.{Meaning};
ghost use Rattle.banks.specs.declared.record.Record.{Record};
ghost use Rattle.machine.specs.Machines.{Machine};
ghost use Rattle.register.specs.Makings.{making, seen_made, LawfulMade};

use crate::journal::Journal;
use crate::register::{LINES, Register};
use crate::table::Table;
use banks::bank::Bank;
use banks::record::Record;
use machine::line::Line;
use policy::refusal::Refusal;
use stamps::Stamp;

impl<S: Stamp, V: Copy> Register<S, V> {
    // A register over a bank, which is filled with the starting value under the first stamp for the starting count, and an empty journal of that size. Refused by 1, 5, 2, 8.
    pub fn make<B: Bank<Record<S, V>>>(
        bank: &mut B,
        journal: &Journal<'_, Line<S, V>>,
        stations: u8,
        count: u64,
        value: V,
        size: u64,
    ) -> Result<Register<S, V>, Refusal>
        ensures call { ◌≡◌ {A = Result (Machine S V) Refusal × Meaning (Record S V)} (seen_made result (B.Bank.meaning bank.new) journal.now.lines.now, B.Bank.meaning bank.new) (making S.Stamp.make (B.Bank.meaning bank.old) stations count value journal.now.lines.now size) }
        ensures law { LawfulMade S.Stamp.make result (B.Bank.meaning bank.new) journal.now.lines.now }
    {
        if !(1..=16).contains(&stations) {
            return Err(Refusal::StationCount);
        }
        if bank.stations() != stations {
            return Err(Refusal::CountsDiffer);
        }
        let tag = S::first(count).ok_or(Refusal::StartingCount)?;
        if size > LINES {
            return Err(Refusal::JournalSize);
        }
        journal.holds(size)?;
        let origin = Record { tag, value };
        bank.fill(origin);
        Ok(Register {
            stations,
            size,
            used: 0,
            moment: 0,
            origin,
            table: Table::new(),
        })
    }
}
