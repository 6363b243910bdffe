// Making a board or a post with its table.
ghost use Rattle.std.specs.Prelude.{◌≡◌, ◌*◌, ◌≤◌, replicate, IfOk};
ghost use Rattle.table_banks.specs.Boards.{board_meaning};
ghost use Rattle.table_banks.specs.Posts.{post_meaning};
ghost use Rattle.heap_banks.specs.Made.{kept, banked, bank_for};

use crate::stop::Stop;
use std::alloc::{AllocError, Global};
use table_banks::board::{Board, BoardLine};
use table_banks::post::Post;

// The most stations of a bank.
const STATIONS: u8 = 16;

// A board filled with a record. Refused by 1.
pub fn board<R: Copy>(heap: Global, stations: u8, x: R) -> Result<Board<R>, Stop>
    ensures { IfOk (kept result) (λ a. banked board_meaning a ≡ bank_for stations x) }
{
    let line = BoardLine {
        settled: x,
        opened: x,
    };
    let table = repeated(heap, line, cells(stations))?;
    let board = Board::new(stations, table, x).map_err(|(refusal, _)| refusal)?;
    Ok(board)
}

// A post filled with a record. Refused by 1. No one function makes both, since what their tables share is private to their crate.
pub fn post<R: Copy>(heap: Global, stations: u8, x: R) -> Result<Post<R>, Stop>
    ensures { IfOk (kept result) (λ a. banked post_meaning a ≡ bank_for stations x) }
{
    let table = repeated(heap, x, cells(stations) + stations as usize)?;
    let post = Post::new(stations, table, x).map_err(|(refusal, _)| refusal)?;
    Ok(post)
}

// So many times the same.
pub fn repeated<T: Copy>(heap: Global, x: T, count: usize) -> Result<Vec<T>, AllocError>
    ensures { IfOk result (λ v. v.items ≡ replicate count x) }
{
    let mut items = Vec::new(heap);
    items.resize(count, x)?;
    Ok(items)
}

// How many cells a bank of so many stations has. More stations are refused, so that it has none.
fn cells(stations: u8) -> usize
    ensures full { stations ≤ 16 → result ≡ stations * stations }
    ensures few { result ≤ 256 }
{
    if stations > STATIONS {
        return 0;
    }
    stations as usize * stations as usize
}
