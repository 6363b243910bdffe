// A player of a command file: what is left of the file, the number of its next command, and how far it has come.
ghost use Rattle.std.specs.Prelude.{◌+◌, ◌^◌, ◌<◌};
ghost use Rattle.commands.specs.Files.{bytes_left};

use crate::game::Game;
use commands::file::Commands;

mod calls;

#[derive(Drop)]
pub struct Player<'a> {
    commands: Commands<'a>,
    number: u64,
    game: Option<Game>,
    ghost fits: { number + bytes_left commands < 2 ^ 64 },
}
