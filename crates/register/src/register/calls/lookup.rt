// Looking up a station's last finished write.
ghost use Rattle.std.specs.Prelude.{◌≡◌};
ghost use Rattle.banks.specs.Meanings.{Meaning};
ghost use Rattle.banks.specs.declared.record.Record.{Record};
ghost use Rattle.register.specs.Lookups.{last_write, last_of, LastWrite, Highest, done_write_of};
ghost use Rattle.register.specs.Seen.{seen};

use crate::journal::Journal;
use crate::register::Register;
use machine::line::{Kind, Line, LineState};
use policy::refusal::Refusal;

impl<S: Copy, V: Copy> Register<S, V> {
    // The highest-numbered line in use that is a done write of the station. Refused by 8, 4.
    pub fn last_write(
        &self,
        journal: &Journal<'_, Line<S, V>>,
        station: u8,
    ) -> Result<Option<u64>, Refusal>
        ensures call { (bank : Meaning (Record S V)) → result ≡ last_write (seen self.now bank journal.now.lines.now) station }
        ensures highest { (bank : Meaning (Record S V)) → LastWrite (seen self.now bank journal.now.lines.now) station result }
    {
        journal.holds(self.size)?;
        self.known(station)?;
        Ok(last_done(journal, self.used, station))
    }
}

// The highest of the first lines, so many, that is a done write of the station.
fn last_done<S: Copy, V: Copy>(
    journal: &Journal<'_, Line<S, V>>,
    used: u64,
    station: u8,
) -> Option<u64>
    ensures call { result ≡ last_of journal.now.lines.now station used }
    ensures highest { Highest journal.now.lines.now used station result }
{
    (1..=used).rev().find(|number| {
        journal
            .line(*number)
            .is_some_and(|line| is_done_write(&line, station))
    })
}

fn is_done_write<S: Copy, V: Copy>(line: &Line<S, V>, station: u8) -> bool
    ensures { result ≡ done_write_of station line.now }
{
    line.kind == Kind::Write && line.state == LineState::Done && line.station == station
}
