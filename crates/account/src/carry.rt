// One command carried out on a register that is made, for every bank.
ghost use Rattle.std.specs.Prelude.{◌≡◌};
ghost use Rattle.account.specs.Games.{Answer, Played, carried, choice_for};
ghost use Rattle.register.specs.Seen.{seen};

use crate::game::{Cell, Entry, PairRegister};
use crate::outcome::Outcome;
use banks::bank::{Bank, Mark};
use commands::command::Command;
use policy::refusal::Refusal;
use register::journal::Journal;

// What the command comes to. A make is refused by 19, since the register is made. Register, bank and lines are parts of a game whose bank is known.
pub(crate) fn carry_out<B: Bank<Cell>>(
    register: &mut PairRegister,
    bank: &mut B,
    lines: &mut [Entry],
    command: Command,
) -> Result<Outcome, Refusal>
    ensures { ◌≡◌ {A = Answer × Played} (result, seen register.new (B.Bank.meaning bank.new) lines.new) (carried (choice_for (B.Bank.chooses bank.old) (seen register.old (B.Bank.meaning bank.old) lines.old) command) (seen register.old (B.Bank.meaning bank.old) lines.old) command) }
{
    let mut journal = Journal::new(lines);
    match command {
        Command::Make { .. } => Err(Refusal::AlreadyMade),
        Command::Write { station, value } => {
            register.open_write(&mut journal, station, value)?;
            Ok(Outcome::Accepted)
        }
        Command::Read { station } => {
            register.open_read(&mut journal, station)?;
            Ok(Outcome::Accepted)
        }
        Command::Step { station } => match register.step(bank, &mut journal, station)? {
            Some(record) => Ok(Outcome::Done(record)),
            None => Ok(Outcome::Accepted),
        },
        Command::Down { writer, reader } => {
            bank.mark(writer, reader, Mark::Down)?;
            Ok(Outcome::Accepted)
        }
        Command::Up { writer, reader } => {
            bank.mark(writer, reader, Mark::Up)?;
            Ok(Outcome::Accepted)
        }
        Command::List => Ok(Outcome::Listed),
    }
}
