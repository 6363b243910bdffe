// The steps of an operation.
ghost use Rattle.std.specs.Prelude.{◌≡◌, ℕ, ◌+◌, ◌-◌, ◌*◌, ◌<◌, Option, Result, slice_set};
ghost use Rattle.policy.specs.declared.refusal.Refusal.{Refusal};
ghost use Rattle.banks.specs.Meanings.{Meaning};
ghost use Rattle.banks.specs.declared.record.Record.{Record};
ghost use Rattle.machine.specs.Machines.{Machine, row_of};
ghost use Rattle.machine.specs.Steps.{step as steps, step_stage, stamp_write, spread_to, ending};
ghost use Rattle.machine.specs.declared.row.Row.TheVariants.{Idle, Busy};
ghost use Rattle.register.specs.Operations.{IsOpen, Moves};
ghost use Rattle.register.specs.Reach.{Leads};
ghost use Rattle.register.specs.Seen.{seen};
ghost use Rattle.register.specs.Single.{Single};
ghost use Rattle.register.specs.Stages.{choice_at};

use crate::cells::{collect_into, record, spread};
use crate::journal::Journal;
use crate::register::Register;
use crate::register::operation::Operation;
use crate::stage::Stage;
use banks::bank::Bank;
use banks::record::Record;
use machine::line::{Kind, Line, LineState};
use policy::refusal::Refusal;
use stamps::Stamp;

impl<S: Stamp, V: Copy> Register<S, V> {
    // The next step of a station's operation: one read, start or finish of a cell. Refused by 8, 4, 13, 15, 14.
    pub fn step<B: Bank<Record<S, V>>>(
        &mut self,
        bank: &mut B,
        journal: &mut Journal<'_, Line<S, V>>,
        station: u8,
    ) -> Result<Option<Record<S, V>>, Refusal>
        ensures call { ◌≡◌ {A = Result (Option (Record S V)) Refusal × Machine S V} (result, seen self.new (B.Bank.meaning bank.new) journal.new.lines.now) (steps S.Stamp.make (seen self.old (B.Bank.meaning bank.old) journal.old.lines.now) (choice_at (B.Bank.chooses bank.old) station (row_of self.old.table.rows station)) station) }
        ensures reached { Leads S.Stamp.make (seen self.old (B.Bank.meaning bank.old) journal.old.lines.now) (seen self.new (B.Bank.meaning bank.new) journal.new.lines.now) }
        ensures single { Single station result (B.Bank.meaning bank.old) (B.Bank.meaning bank.new) }
        ensures lender { journal.new.lines.ghost_name ≡ journal.old.lines.ghost_name }
    {
        journal.holds(self.size)?;
        let operation = self.operation(station)?;
        let line = journal.line(operation.number).ok_or(Refusal::JournalSize)?;
        self.act(bank, journal, operation, line)
    }

    // The next step of an operation, whose line is given.
    fn act<B: Bank<Record<S, V>>>(
        &mut self,
        bank: &mut B,
        journal: &mut Journal<'_, Line<S, V>>,
        operation: Operation,
        mut line: Line<S, V>,
    ) -> Result<Option<Record<S, V>>, Refusal>
        requires { IsOpen self.old.stations self.old.table.rows operation }
        ensures call { ◌≡◌ {A = Result (Option (Record S V)) Refusal × Machine S V} (result, seen self.new (B.Bank.meaning bank.new) journal.new.lines.now) (step_stage S.Stamp.make (seen self.old (B.Bank.meaning bank.old) journal.old.lines.now) (B.Bank.chooses bank.old (operation.progress + 1) operation.station) operation.station operation.number operation.progress line) }
        ensures lender { journal.new.lines.ghost_name ≡ journal.old.lines.ghost_name }
    {
        let station = operation.station;
        let progress = operation.progress;
        match (Stage::at(progress, self.stations), line.kind) {
            (Stage::Collecting, _) => {
                collect_into(bank, progress as u8 + 1, station, &mut line)?;
                self.keep(journal, operation, line);
                Ok(None)
            }
            (Stage::Stamping, Kind::Read) => {
                // its station now spreads the greatest stamp it met, and its value
                collect_into(bank, progress as u8 + 1, station, &mut line)?;
                let state = LineState::Spreading;
                self.keep(journal, operation, Line { state, ..line });
                Ok(None)
            }
            (Stage::Stamping, Kind::Write) => {
                collect_into(bank, progress as u8 + 1, station, &mut line)?;
                self.stamp_write(journal, operation, line)
            }
            (Stage::Starting, _) => {
                let reader = spread_to(station, (progress as u8 - self.stations) / 2);
                spread(bank, station, reader, &line)?;
                self.go_on(operation);
                Ok(None)
            }
            (Stage::Finishing, _) => {
                bank.finish(station)?;
                self.go_on(operation);
                Ok(None)
            }
            (Stage::Ending, _) => {
                bank.finish(station)?;
                self.close(journal, operation, line, LineState::Done);
                Ok(Some(record(&line)))
            }
        }
    }

    // The operation goes on, with its line as given.
    fn keep(
        &mut self,
        journal: &mut Journal<'_, Line<S, V>>,
        operation: Operation,
        line: Line<S, V>,
    )
        requires open { IsOpen self.old.stations self.old.table.rows operation }
        requires more { operation.progress + 1 < 3 * self.old.stations }
        ensures row { Moves self.old self.new self.old.used operation.station (Busy operation.number (operation.progress + 1)) }
        ensures after { journal.new.lines.now ≡ slice_set journal.old.lines.now (operation.number - 1) line }
        ensures lender { journal.new.lines.ghost_name ≡ journal.old.lines.ghost_name }
    {
        journal.put(operation.number, line);
        self.go_on(operation);
    }

    // The operation ends, and its line is in that state.
    fn close(
        &mut self,
        journal: &mut Journal<'_, Line<S, V>>,
        operation: Operation,
        line: Line<S, V>,
        state: LineState,
    )
        requires { IsOpen self.old.stations self.old.table.rows operation }
        ensures row { Moves self.old self.new self.old.used operation.station Idle }
        ensures after { journal.new.lines.now ≡ slice_set journal.old.lines.now (operation.number - 1) (ending line state (self.old.moment + 1)) }
        ensures lender { journal.new.lines.ghost_name ≡ journal.old.lines.ghost_name }
    {
        let ended = self.moment + 1;
        journal.put(
            operation.number,
            Line {
                state,
                ended,
                ..line
            },
        );
        self.end(operation);
    }

    // Stamps a write that has collected, or ends it where the greatest stamp it met is spent.
    fn stamp_write(
        &mut self,
        journal: &mut Journal<'_, Line<S, V>>,
        operation: Operation,
        line: Line<S, V>,
    ) -> Result<Option<Record<S, V>>, Refusal>
        requires open { IsOpen self.old.stations self.old.table.rows operation }
        requires last { operation.progress + 1 ≡ self.old.stations }
        ensures call { (bank : Meaning (Record S V)) → ◌≡◌ {A = Result (Option (Record S V)) Refusal × Machine S V} (result, seen self.new bank journal.new.lines.now) (stamp_write (seen self.old bank journal.old.lines.now) operation.station operation.number line (operation.progress + 1) (S.Stamp.make.next line.stamp operation.station)) }
        ensures lender { journal.new.lines.ghost_name ≡ journal.old.lines.ghost_name }
    {
        match line.stamp.next(operation.station) {
            Some(stamp) => {
                let state = LineState::Spreading;
                let line = Line {
                    stamp,
                    state,
                    ..line
                };
                self.keep(journal, operation, line);
                Ok(None)
            }
            None => {
                self.close(journal, operation, line, LineState::Spent);
                Err(Refusal::Spent)
            }
        }
    }
}

// The reader whose cell a station writes at a position of its row, from 0.
fn spread_to(_station: u8, position: u8) -> u8
    requires { position < 16 }
    ensures { result ≡ spread_to _station position }
{
    position + 1
}
