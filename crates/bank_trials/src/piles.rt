// A pile of three layers over two banks of three stations.
use crate::makes::{board, post, renumbered, split};
use banks::bank::{Bank, Mark};
use banks::laws::fill_regular;
use policy::refusal::Refusal;
use std::test::Fail;

#[test]
fn three_layers(rt: HostRuntime) -> Result<(), Fail> {
    let lower = renumbered(board(rt.alloc(), 3)?, &[2, 3, 1])?;
    let middle = split(lower, post(rt.alloc(), 3)?, 1)?;
    let mut pile = renumbered(middle, &[3, 1, 2])?;
    assert_eq!(rt; pile.place(2, 3), Ok((3, 2, 3)));
    assert_eq!(rt; pile.place(1, 1), Ok((2, 3, 3)));
    fill_regular(&mut pile, 4);
    assert_eq!(rt; pile.start(2, 3, 9), Ok(()));
    assert_eq!(rt; pile.start(1, 1, 8), Ok(()));
    assert_eq!(rt; pile.read(2, 3), Ok(9));
    assert_eq!(rt; pile.read(1, 1), Ok(4));
    assert_eq!(rt; pile.mark(2, 3, Mark::Down), Ok(()));
    assert_eq!(rt; pile.finish(2), Err(Refusal::Unreachable((3, 2, 3))));
    assert_eq!(rt; pile.finish(1), Ok(()));
    assert_eq!(rt; pile.read(1, 1), Ok(8));
    Ok(())
}

#[test]
fn a_renumbering_undone(rt: HostRuntime) -> Result<(), Fail> {
    let mut layer = renumbered(board(rt.alloc(), 3)?, &[2, 3, 1])?;
    assert_eq!(rt; layer.start(1, 2, 9), Ok(()));
    assert_eq!(rt; layer.place(1, 2), Ok((1, 2, 3)));
    let mut pile = layer.undone::<u32>();
    assert_eq!(rt; pile.place(2, 3), Ok((2, 2, 3)));
    assert_eq!(rt; pile.read(2, 3), Ok(9));
    Ok(())
}
