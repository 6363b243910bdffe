// Making a player, and asking it for the account piece by piece.
ghost use Rattle.std.specs.Prelude.{◌≡◌, ◌<◌, true, List, ◌++◌, IfOk, None};
ghost use Rattle.commands.specs.declared.command.Command.{Command};
ghost use Rattle.account.specs.Laws.{Begins, Lawful, game_after};
ghost use Rattle.account.specs.Listings.{ListsBack};
ghost use Rattle.account.specs.Pages.{shown};
ghost use Rattle.account.specs.Players.{rest, left, some};
ghost use Rattle.account.specs.Texts.{account};

use crate::page::Page;
use crate::player::Player;
use crate::turn::{kept, turn};
use commands::file::Commands;
use std::alloc::{AllocError, Global};

impl<'a> Player<'a> {
    #[tactic(auto, using(crate::proofs::Pieces::same_text))]
    pub fn new(input: &'a [u8]) -> Player<'a>
        ensures text { rest result ≡ account input.now }
        ensures begins { Begins input.now }
        ensures lawful { (cs : List Command) → Lawful (game_after cs None) }
        ensures listed { ListsBack }
    {
        Player {
            commands: Commands::new(input),
            number: 1,
            game: None,
        }
    }

    // Puts the next piece of the account into the page, the lines of whole commands, and answers whether there was one.
    // For want of memory nothing is lost: what the page then holds is told, and all else is still to come, since a copy of the iterator has moved on.
    pub fn next(&mut self, heap: Global, page: &mut Page) -> Result<bool, AllocError>
        ensures text { shown page.new ++ rest self.new ≡ rest self.old }
        ensures answer { IfOk result (λ more. more ≡ some (rest self.old)) }
        ensures goes { IfOk result (λ more. more ≡ true → left self.new < left self.old) }
    {
        page.clear();
        while page.has_room() {
            let mut ahead = self.commands;
            let Some(read) = ahead.next() else {
                break;
            };
            let answer = kept(turn(heap, &mut self.game, read))?;
            page.put(self.number, answer, &self.game);
            self.commands = ahead;
            self.number += 1;
        }
        Ok(!page.text().is_empty())
    }
}
