// The calls of a register that was made. Here: how an accepted one changes its moment and the row of its station.
ghost use Rattle.std.specs.Prelude.{◌≡◌, ◌+◌, ◌*◌, ◌<◌, ◌≤◌, if◌then◌else◌, Ok, Err, IfOk};
ghost use Rattle.policy.specs.declared.refusal.Refusal.TheVariants.{UnknownStation};
ghost use Rattle.banks.specs.Meanings.{inside};
ghost use Rattle.machine.specs.Machines.{row_of};
ghost use Rattle.machine.specs.declared.row.Row.TheVariants.{Idle, Busy};
ghost use Rattle.register.specs.Operations.{operation_at, IsOpen, Moves};

use crate::register::Register;
use crate::register::operation::Operation;
use machine::row::Row;
use policy::refusal::Refusal;

pub mod lookup;
pub mod opens;
pub mod steps;

impl<S: Copy, V: Copy> Register<S, V> {
    // The operation goes on.
    fn go_on(&mut self, operation: Operation)
        requires open { IsOpen self.old.stations self.old.table.rows operation }
        requires more { operation.progress + 1 < 3 * self.old.stations }
        ensures { Moves self.old self.new self.old.used operation.station (Busy operation.number (operation.progress + 1)) }
    {
        self.table
            .advance(operation.station, operation.progress + 1);
        self.moment += 1;
    }

    // The operation ends.
    fn end(&mut self, operation: Operation)
        requires { IsOpen self.old.stations self.old.table.rows operation }
        ensures { Moves self.old self.new self.old.used operation.station Idle }
    {
        self.table.rest(operation.station);
        self.moment += 1;
    }

    // A station opens an operation; its line is the next one.
    fn begin(&mut self, station: u8)
        requires some { 1 ≤ station }
        requires known { station ≤ self.old.stations }
        requires idle { row_of self.old.table.rows station ≡ Idle }
        requires room { self.old.used < self.old.size }
        ensures { Moves self.old self.new (self.old.used + 1) station (Busy (self.old.used + 1) 0) }
    {
        self.table.open(station, self.used + 1);
        self.used += 1;
        self.moment += 1;
    }

    // The operation that a station has open. Refused by 4, 13.
    fn operation(&self, station: u8) -> Result<Operation, Refusal>
        ensures value { result ≡ operation_at self.now.stations self.now.table.rows station }
        ensures open { IfOk result (λ o. IsOpen self.now.stations self.now.table.rows o) }
    {
        self.known(station)?;
        match self.table.row(station) {
            Row::Busy {
                line: number,
                progress,
            } => Ok(Operation {
                station,
                number,
                progress,
            }),
            Row::Idle => Err(Refusal::Idle),
        }
    }

    // Refused by 4 for a number that is no station.
    fn known(&self, station: u8) -> Result<(), Refusal>
        ensures { result ≡ (if inside self.now.stations station then Ok tt else Err UnknownStation) }
    {
        if (1..=self.stations).contains(&station) {
            Ok(())
        } else {
            Err(Refusal::UnknownStation)
        }
    }
}
