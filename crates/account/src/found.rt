// Making a game: a register over a board or a post, with an empty journal.
ghost use Rattle.std.specs.Prelude.{◌≡◌, IfOk, None, OnErr};
ghost use Rattle.heap_banks.specs.Made.{kept};
ghost use Rattle.account.specs.Founded.{begun, game_of, game_told, open_first};
ghost use Rattle.account.specs.Texts.{blank as blank_line, founding, founded_by, first_answer};

use crate::bank::AnyBank;
use crate::game::{Cell, Entry, Game};
use crate::outcome::Outcome;
use commands::bank::BankKind;
use commands::command::Command;
use heap_banks::make::repeated;
use heap_banks::stop::Stop;
use machine::line::{Kind, LineState};
use policy::entry::PolicyNumber;
use policy::refusal::Refusal;
use stamps::PairStamp;
use std::alloc::Global;

// How many lines the journal has.
pub(crate) const LINES: usize = 512;

// What a make asks for, on either bank.
#[derive(Clone, Copy)]
pub(crate) struct Plan {
    pub(crate) stations: u8,
    pub(crate) count: u32,
    pub(crate) value: PolicyNumber,
}

// What a journal line holds before it is used.
fn blank() -> Entry
    ensures { result ≡ blank_line }
{
    Entry {
        kind: Kind::Read,
        station: 0,
        state: LineState::Collecting,
        stamp: PairStamp::new(0, 0).unwrap(),
        value: PolicyNumber(0),
        opened: 0,
        ended: 0,
    }
}

impl Game {
    // A game on a bank of that kind. For want of memory nothing is made.
    fn new(heap: Global, kind: BankKind, plan: Plan) -> Result<Game, Stop>
        ensures { IfOk (kept result) (λ a. begun a ≡ founded_by (open_first kind) (founding plan.stations plan.count plan.value)) }
    {
        let origin = Cell {
            tag: blank().stamp,
            value: plan.value,
        };
        let mut bank = AnyBank::new(heap, kind, plan.stations, origin)?;
        let mut lines = repeated(heap, blank(), LINES)?;
        let register = bank.make(&mut lines, plan)?;
        Ok(Game {
            register,
            bank,
            lines,
        })
    }
}

// Makes the game of a file.
// It stays out of its caller, since the space for what it makes would else be cleared at every command.
#[inline(never)]
fn begin(heap: Global, kind: BankKind, plan: Plan, game: &mut Option<Game>) -> Result<Outcome, Stop>
    requires { game_of game.old ≡ None }
    ensures told { IfOk (kept result) (λ a. game_told a (game_of game.new) ≡ founded_by (open_first kind) (founding plan.stations plan.count plan.value)) }
    ensures unchanged { OnErr (kept result) (game_of game.new ≡ game_of game.old) }
{
    *game = Some(Game::new(heap, kind, plan)?);
    Ok(Outcome::Accepted)
}

// What a command comes to before a register is made; an accepted make begins the game, and any other command comes too early.
pub(crate) fn first(
    heap: Global,
    command: Command,
    game: &mut Option<Game>,
) -> Result<Outcome, Stop>
    requires { game_of game.old ≡ None }
    ensures told { IfOk (kept result) (λ a. game_told a (game_of game.new) ≡ first_answer command) }
    ensures unchanged { OnErr (kept result) (game_of game.new ≡ game_of game.old) }
{
    match command {
        Command::Make {
            bank,
            stations,
            count,
            value,
        } => {
            let kind = BankKind::try_from(bank)?;
            // tested here too, before the space for a game is cleared
            if !(1..=16).contains(&stations) {
                return Err(Stop::Refused(Refusal::StationCount));
            }
            let plan = Plan {
                stations,
                count,
                value,
            };
            begin(heap, kind, plan, game)
        }
        _ => Err(Stop::Refused(Refusal::NoRegister)),
    }
}
