// Opening a write or a read.
ghost use Rattle.std.specs.Prelude.{◌≡◌, ℕ, Result};
ghost use Rattle.policy.specs.declared.refusal.Refusal.{Refusal};
ghost use Rattle.banks.specs.Meanings.{Meaning};
ghost use Rattle.banks.specs.declared.record.Record.{Record};
ghost use Rattle.machine.specs.Machines.{Machine, open_line, open_write, open_read};
ghost use Rattle.machine.specs.declared.line.Line.{Line};
ghost use Rattle.stamps.specs.Makes.{Make};
ghost use Rattle.register.specs.Reach.{Leads, Opens};
ghost use Rattle.register.specs.Seen.{seen};

use crate::journal::Journal;
use crate::register::Register;
use machine::line::{Kind, Line, LineState};
use machine::row::Row;
use policy::refusal::Refusal;
use stamps::Stamp;

impl<S: Stamp, V: Copy> Register<S, V> {
    // Opens a write of the value, and answers its line number. Refused by 8, 4, 11, 12.
    pub fn open_write(
        &mut self,
        journal: &mut Journal<'_, Line<S, V>>,
        station: u8,
        value: V,
    ) -> Result<u64, Refusal>
        ensures call { (bank : Meaning (Record S V)) → ◌≡◌ {A = Result ℕ Refusal × Machine S V} (result, seen self.new bank journal.new.lines.now) (open_write (seen self.old bank journal.old.lines.now) station value) }
        ensures reached { (m : Make S) (bank : Meaning (Record S V)) → Leads m (seen self.old bank journal.old.lines.now) (seen self.new bank journal.new.lines.now) }
        ensures lender { journal.new.lines.ghost_name ≡ journal.old.lines.ghost_name }
    {
        self.open(journal, station, Kind::Write, value)
    }

    // Opens a read, and answers its line number. Refused by 8, 4, 11, 12.
    pub fn open_read(
        &mut self,
        journal: &mut Journal<'_, Line<S, V>>,
        station: u8,
    ) -> Result<u64, Refusal>
        ensures call { (bank : Meaning (Record S V)) → ◌≡◌ {A = Result ℕ Refusal × Machine S V} (result, seen self.new bank journal.new.lines.now) (open_read (seen self.old bank journal.old.lines.now) station) }
        ensures reached { (m : Make S) (bank : Meaning (Record S V)) → Leads m (seen self.old bank journal.old.lines.now) (seen self.new bank journal.new.lines.now) }
        ensures lender { journal.new.lines.ghost_name ≡ journal.old.lines.ghost_name }
    {
        let value = self.origin.value;
        self.open(journal, station, Kind::Read, value)
    }

    fn open(
        &mut self,
        journal: &mut Journal<'_, Line<S, V>>,
        station: u8,
        kind: Kind,
        value: V,
    ) -> Result<u64, Refusal>
        ensures call { (bank : Meaning (Record S V)) → ◌≡◌ {A = Result ℕ Refusal × Machine S V} (result, seen self.new bank journal.new.lines.now) (open_line (seen self.old bank journal.old.lines.now) station kind value) }
        ensures reached { (m : Make S) (bank : Meaning (Record S V)) → Opens kind value self.old.origin.value → Leads m (seen self.old bank journal.old.lines.now) (seen self.new bank journal.new.lines.now) }
        ensures lender { journal.new.lines.ghost_name ≡ journal.old.lines.ghost_name }
    {
        journal.holds(self.size)?;
        self.known(station)?;
        if let Row::Busy { .. } = self.table.row(station) {
            return Err(Refusal::Busy);
        }
        if self.used >= self.size {
            return Err(Refusal::JournalFull);
        }
        let number = self.used + 1;
        journal.put(
            number,
            Line {
                kind,
                station,
                state: LineState::Collecting,
                stamp: self.origin.tag,
                value,
                opened: self.moment + 1,
                ended: 0,
            },
        );
        self.begin(station);
        Ok(number)
    }
}
