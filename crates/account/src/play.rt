// The whole account of a command file in one buffer.
ghost use Rattle.std.specs.Prelude.{◌≡◌, List, IfOk, None};
ghost use Rattle.commands.specs.declared.command.Command.{Command};
ghost use Rattle.account.specs.Laws.{Begins, Lawful, game_after};
ghost use Rattle.account.specs.Listings.{ListsBack};
ghost use Rattle.account.specs.Texts.{account};

use crate::page::Page;
use crate::player::Player;
use std::alloc::{AllocError, Global};

// The account of a command file: a line for each command, and behind a list the journal's lines.
pub fn play(heap: Global, input: &[u8]) -> Result<Vec<u8>, AllocError>
    ensures text { IfOk result (λ v. v.items ≡ account input.now) }
    ensures begins { Begins input.now }
    ensures lawful { (cs : List Command) → Lawful (game_after cs None) }
    ensures listed { ListsBack }
{
    let mut out = Vec::new(heap);
    let mut player = Player::new(input);
    let mut page = Page::new();
    while player.next(heap, &mut page)? {
        out.extend_from_slice(page.text())?;
    }
    Ok(out)
}
