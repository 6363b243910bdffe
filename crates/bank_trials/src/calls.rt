// Every call and every refusal, the same for a bank at the bottom and for each layer.
use crate::makes::{board, post, renumbered, split};
use banks::bank::{Bank, Mark};
use policy::refusal::{Place, Refusal};
use std::process::Abort;
use std::test::Fail;

// Two stations, filled with 7: cell (1, 2) while 9 is open in it, and behind that. `open` is what a read answers then.
fn open_and_settle<B: Bank<u32>>(rt: &impl Abort, bank: &mut B, open: u32) {
    assert_eq!(rt; bank.read(1, 2), Ok(7));
    assert_eq!(rt; bank.start(1, 2, 9), Ok(()));
    assert_eq!(rt; bank.start(1, 1, 8), Err(Refusal::RecordOpen));
    assert_eq!(rt; bank.read(1, 2), Ok(open));
    assert_eq!(rt; bank.read(1, 1), Ok(7));
    assert_eq!(rt; bank.finish(1), Ok(()));
    assert_eq!(rt; bank.finish(1), Err(Refusal::NothingOpen));
    assert_eq!(rt; bank.read(1, 2), Ok(9));
    assert_eq!(rt; bank.read(2, 1), Ok(7));
}

// Numbers that are no station, at every call.
fn unknown_numbers<B: Bank<u32>>(rt: &impl Abort, bank: &mut B) {
    assert_eq!(rt; bank.read(0, 1), Err(Refusal::UnknownStation));
    assert_eq!(rt; bank.read(1, 3), Err(Refusal::UnknownStation));
    assert_eq!(rt; bank.start(3, 1, 9), Err(Refusal::UnknownStation));
    assert_eq!(rt; bank.finish(3), Err(Refusal::UnknownStation));
    assert_eq!(rt; bank.mark(1, 0, Mark::Down), Err(Refusal::UnknownStation));
    assert_eq!(rt; bank.place(2, 3), Err(Refusal::UnknownStation));
    assert_eq!(rt; bank.stations(), 2);
}

// Cell (1, 2), which lies at a place, marked down while a record is open in it.
fn down_and_up<B: Bank<u32>>(rt: &impl Abort, bank: &mut B, place: Place) {
    assert_eq!(rt; bank.place(1, 2), Ok(place));
    assert_eq!(rt; bank.start(1, 2, 5), Ok(()));
    assert_eq!(rt; bank.mark(1, 2, Mark::Down), Ok(()));
    assert_eq!(rt; bank.read(1, 2), Err(Refusal::Unreachable(place)));
    assert_eq!(rt; bank.start(1, 2, 6), Err(Refusal::Unreachable(place)));
    assert_eq!(rt; bank.finish(1), Err(Refusal::Unreachable(place)));
    assert_eq!(rt; bank.read(1, 1), Ok(7));
    assert_eq!(rt; bank.mark(1, 2, Mark::Up), Ok(()));
    assert_eq!(rt; bank.finish(1), Ok(()));
    assert_eq!(rt; bank.read(1, 2), Ok(5));
}

// A fill settles, closes and reaches every cell.
fn filled_anew<B: Bank<u32>>(rt: &impl Abort, bank: &mut B) {
    assert_eq!(rt; bank.start(1, 2, 6), Ok(()));
    assert_eq!(rt; bank.mark(2, 1, Mark::Down), Ok(()));
    bank.fill(3);
    assert_eq!(rt; bank.finish(1), Err(Refusal::NothingOpen));
    assert_eq!(rt; bank.read(1, 2), Ok(3));
    assert_eq!(rt; bank.read(2, 1), Ok(3));
}

fn every_call<B: Bank<u32>>(rt: &impl Abort, bank: &mut B, open: u32, place: Place) {
    unknown_numbers(rt, bank);
    open_and_settle(rt, bank, open);
    down_and_up(rt, bank, place);
    filled_anew(rt, bank);
}

#[test]
fn a_board(rt: HostRuntime) -> Result<(), Fail> {
    let mut bank = board(rt.alloc(), 2)?;
    every_call(&rt, &mut bank, 9, (0, 1, 2));
    Ok(())
}

#[test]
fn a_post(rt: HostRuntime) -> Result<(), Fail> {
    let mut bank = post(rt.alloc(), 2)?;
    every_call(&rt, &mut bank, 7, (0, 1, 2));
    Ok(())
}

#[test]
fn a_renumbered_post(rt: HostRuntime) -> Result<(), Fail> {
    let mut bank = renumbered(post(rt.alloc(), 2)?, &[2, 1])?;
    every_call(&rt, &mut bank, 7, (1, 2, 1));
    Ok(())
}

#[test]
fn a_split_with_the_writer_in_the_first(rt: HostRuntime) -> Result<(), Fail> {
    let mut bank = split(board(rt.alloc(), 2)?, post(rt.alloc(), 2)?, 1)?;
    every_call(&rt, &mut bank, 9, (1, 1, 2));
    Ok(())
}

#[test]
fn a_split_with_all_in_the_second(rt: HostRuntime) -> Result<(), Fail> {
    let mut bank = split(board(rt.alloc(), 2)?, post(rt.alloc(), 2)?, 0)?;
    every_call(&rt, &mut bank, 7, (1, 1, 2));
    Ok(())
}
