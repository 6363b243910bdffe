// A command that was read, carried out, whether a register is made or not.
ghost use Rattle.std.specs.Prelude.{◌≡◌, IfOk, OnErr, Some};
ghost use Rattle.heap_banks.specs.Made.{kept as kept_of};
ghost use Rattle.account.specs.Founded.{game_of, game_told, seen_game, reply};
ghost use Rattle.account.specs.Texts.{answer};

use crate::found::first;
use crate::game::Game;
use crate::outcome::Outcome;
use commands::command::Command;
use heap_banks::stop::Stop;
use policy::refusal::Refusal;
use std::alloc::{AllocError, Global};

impl Game {
    // What the command comes to.
    fn carry(&mut self, command: Command) -> Result<Outcome, Refusal>
        ensures { game_told result (Some (seen_game self.new)) ≡ answer (Some (seen_game self.old)) command }
    {
        self.bank
            .carry(&mut self.register, &mut self.lines, command)
    }
}

// What the command comes to, or the refusal that ended the reading; an accepted make begins the game. For want of memory nothing is carried out.
pub(crate) fn turn(
    heap: Global,
    game: &mut Option<Game>,
    read: Result<Command, Refusal>,
) -> Result<Outcome, Stop>
    ensures told { IfOk (kept_of result) (λ a. game_told a (game_of game.new) ≡ reply (game_of game.old) read) }
    ensures unchanged { OnErr (kept_of result) (game_of game.new ≡ game_of game.old) }
{
    let command = read?;
    match game {
        Some(game) => Ok(game.carry(command)?),
        None => first(heap, command, game),
    }
}

// A refusal is an answer; want of memory stays an error.
pub(crate) fn kept<T>(stopped: Result<T, Stop>) -> Result<Result<T, Refusal>, AllocError>
    ensures { result ≡ kept_of stopped }
{
    match stopped {
        Ok(x) => Ok(Ok(x)),
        Err(Stop::Refused(refusal)) => Ok(Err(refusal)),
        Err(Stop::NoMemory(error)) => Err(error),
    }
}
