// A pile of three stations: a split over a renumbered board and a post.
ghost use Rattle.std.specs.Prelude.{◌≡◌, IfOk};
ghost use Rattle.layers.specs.Numberings.{number_at};
ghost use Rattle.layers.specs.Permutations.{look};
ghost use Rattle.table_banks.specs.Boards.{board_meaning};
ghost use Rattle.table_banks.specs.Bottoms.{filling};
ghost use Rattle.heap_banks.specs.Piles.{Piled, pile_meaning, order};

use crate::make::{board, post};
use crate::stop::Stop;
use layers::renumbering::Renumbering;
use layers::split::Split;
use std::alloc::Global;
use table_banks::board::Board;
use table_banks::post::Post;

const STATIONS: u8 = 3;

// Writer 1 lies in a board, whose stations are numbered 2, 3, 1, writers 2 and 3 in a post. Every cell holds the record.
pub fn pile<R: Copy>(heap: Global, x: R) -> Result<Split<Renumbering<Board<R>>, Post<R>>, Stop>
    ensures { IfOk result (λ p. Piled x (pile_meaning p)) }
{
    let first = renumbered(heap, x)?;
    let second = post(heap, STATIONS, x)?;
    split(first, second)
}

// Two banks split behind the first writer.
fn split<R: Copy>(
    first: Renumbering<Board<R>>,
    second: Post<R>,
) -> Result<Split<Renumbering<Board<R>>, Post<R>>, Stop>
    ensures { IfOk result (λ p. p ≡ record { first = first; second = second; point = 1 }) }
{
    Split::new::<R>(first, second, 1).map_err(|(refusal, _, _)| Stop::Refused(refusal))
}

// The board of the pile under its numbers.
fn renumbered<R: Copy>(heap: Global, x: R) -> Result<Renumbering<Board<R>>, Stop>
    ensures board { IfOk result (λ s. board_meaning s.below ≡ filling 3 x) }
    ensures size { IfOk result (λ s. s.map.size ≡ 3) }
    ensures numbers { IfOk result (λ s. number_at s.map ≡ look 3 order) }
{
    let below = board(heap, STATIONS, x)?;
    Renumbering::new::<R>(below, &[2, 3, 1]).map_err(|(refusal, _)| Stop::Refused(refusal))
}
