// Making banks and layers, and how that is refused.
use banks::bank::Bank;
use layers::renumbering::Renumbering;
use layers::split::Split;
use policy::refusal::Refusal;
use std::alloc::{AllocError, Global};
use std::process::Abort;
use std::test::Fail;
use table_banks::board::{Board, BoardLine};
use table_banks::post::Post;

const BLANK: BoardLine<u32> = BoardLine {
    settled: 1,
    opened: 2,
};

fn board_lines(heap: Global, lines: usize) -> Result<Vec<BoardLine<u32>>, AllocError> {
    vec![in heap; BLANK; lines]
}

fn post_lines(heap: Global, lines: usize) -> Result<Vec<u32>, AllocError> {
    vec![in heap; 1; lines]
}

// A board filled with 7, over just enough lines that held other records.
pub fn board(heap: Global, stations: u8) -> Result<Board<u32>, Fail> {
    let n = stations as usize;
    Board::new(stations, board_lines(heap, n * n)?, 7).map_err(|(refusal, _)| Fail::new(refusal))
}

// A post filled with 7, the same.
pub fn post(heap: Global, stations: u8) -> Result<Post<u32>, Fail> {
    let n = stations as usize;
    Post::new(stations, post_lines(heap, n * n + n)?, 7).map_err(|(refusal, _)| Fail::new(refusal))
}

pub fn renumbered<B: Bank<u32> + Drop>(below: B, list: &[u8]) -> Result<Renumbering<B>, Fail> {
    Renumbering::new::<u32>(below, list).map_err(|(refusal, _)| Fail::new(refusal))
}

pub fn split<B: Bank<u32> + Drop, C: Bank<u32> + Drop>(
    first: B,
    second: C,
    point: u8,
) -> Result<Split<B, C>, Fail> {
    Split::new::<u32>(first, second, point).map_err(|(refusal, _, _)| Fail::new(refusal))
}

// The refusal of a bank on a table of so many lines, which comes back whole.
fn refused<B: Drop, L: Drop>(
    rt: &impl Abort,
    made: Result<B, (Refusal, Vec<L>)>,
    lines: usize,
) -> Result<Refusal, Fail> {
    let (refusal, table) = made.err().ok_or("made")?;
    assert_eq!(rt; table.len(), lines);
    Ok(refusal)
}

fn board_refused(
    rt: &impl Abort,
    heap: Global,
    stations: u8,
    lines: usize,
) -> Result<Refusal, Fail> {
    let table = board_lines(heap, lines)?;
    refused(rt, Board::new(stations, table, 7), lines)
}

fn post_refused(
    rt: &impl Abort,
    heap: Global,
    stations: u8,
    lines: usize,
) -> Result<Refusal, Fail> {
    let table = post_lines(heap, lines)?;
    refused(rt, Post::new(stations, table, 7), lines)
}

#[test]
fn banks_are_refused(rt: HostRuntime) -> Result<(), Fail> {
    assert_eq!(rt;
        board_refused(&rt, rt.alloc(), 0, 0)?,
        Refusal::StationCount
    );
    assert_eq!(rt;
        board_refused(&rt, rt.alloc(), 17, 300)?,
        Refusal::StationCount
    );
    assert_eq!(rt; board_refused(&rt, rt.alloc(), 2, 3)?, Refusal::TableSize);
    assert_eq!(rt;
        post_refused(&rt, rt.alloc(), 17, 0)?,
        Refusal::StationCount
    );
    assert_eq!(rt; post_refused(&rt, rt.alloc(), 2, 5)?, Refusal::TableSize);
    assert_eq!(rt; board(rt.alloc(), 16)?.stations(), 16);
    Ok(())
}

#[test]
fn spare_lines_stay(rt: HostRuntime) -> Result<(), Fail> {
    let table = board_lines(rt.alloc(), 2)?;
    let mut bank = Board::new(1, table, 7).map_err(|(refusal, _)| Fail::new(refusal))?;
    assert_eq!(rt; bank.start(1, 1, 9), Ok(()));
    assert_eq!(rt; bank.finish(1), Ok(()));
    let table = bank.into_table();
    assert!(rt; table.len() == 2);
    assert_eq!(rt; table[0].settled, 9);
    assert_eq!(rt; table[1].opened, 2);
    Ok(())
}

// Whether a list renumbers two stations.
fn renumbers(rt: &impl Abort, heap: Global, list: &[u8]) -> Result<bool, Fail> {
    match Renumbering::new(board(heap, 2)?, list) {
        Ok(_) => Ok(true),
        Err((refusal, bank)) => {
            assert_eq!(rt; refusal, Refusal::NotRenumbering);
            assert_eq!(rt; bank.stations(), 2);
            Ok(false)
        }
    }
}

#[test]
fn lists_that_renumber(rt: HostRuntime) -> Result<(), Fail> {
    assert!(rt; renumbers(&rt, rt.alloc(), &[2, 1])?);
    assert!(rt; renumbers(&rt, rt.alloc(), &[1, 2, 9])?);
    assert!(rt; !renumbers(&rt, rt.alloc(), &[2])?);
    assert!(rt; !renumbers(&rt, rt.alloc(), &[1, 1])?);
    assert!(rt; !renumbers(&rt, rt.alloc(), &[0, 1])?);
    assert!(rt; !renumbers(&rt, rt.alloc(), &[2, 3, 1])?);
    Ok(())
}

// What comes of a split over a board and a post; none of 2 stations at the split point 2.
fn split_refused(
    rt: &impl Abort,
    heap: Global,
    second: u8,
    point: u8,
) -> Result<Option<Refusal>, Fail> {
    match Split::new(board(heap, 2)?, post(heap, second)?, point) {
        Ok(_) => Ok(None),
        Err((refusal, _, back)) => {
            assert_eq!(rt; back.stations(), second);
            Ok(Some(refusal))
        }
    }
}

#[test]
fn splits_are_refused(rt: HostRuntime) -> Result<(), Fail> {
    assert_eq!(rt;
        split_refused(&rt, rt.alloc(), 3, 3)?,
        Some(Refusal::CountsDiffer)
    );
    assert_eq!(rt;
        split_refused(&rt, rt.alloc(), 2, 3)?,
        Some(Refusal::SplitPoint)
    );
    assert_eq!(rt; split_refused(&rt, rt.alloc(), 2, 2)?, None);
    Ok(())
}
