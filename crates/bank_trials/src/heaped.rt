// Banks and a pile on the heap.
use banks::bank::Bank;
use heap_banks::make::{board, post, repeated};
use heap_banks::pile::pile;
use heap_banks::stop::Stop;
use policy::refusal::Refusal;
use std::test::Fail;

#[test]
fn a_pile_on_the_heap(rt: HostRuntime) -> Result<(), Fail> {
    let mut bank = pile(rt.alloc(), 7)?;
    assert_eq!(rt; bank.place(1, 3), Ok((2, 2, 1)));
    assert_eq!(rt; bank.place(3, 1), Ok((1, 3, 1)));
    assert_eq!(rt; bank.start(1, 3, 9), Ok(()));
    assert_eq!(rt; bank.start(3, 1, 8), Ok(()));
    assert_eq!(rt; bank.read(1, 3), Ok(9));
    assert_eq!(rt; bank.read(3, 1), Ok(7));
    Ok(())
}

#[test]
fn banks_on_the_heap(rt: HostRuntime) -> Result<(), Fail> {
    assert_eq!(rt; board(rt.alloc(), 16, 7)?.read(16, 1), Ok(7));
    assert_eq!(rt; post(rt.alloc(), 16, 7)?.read(16, 1), Ok(7));
    assert_eq!(rt;
        repeated(rt.alloc(), 7, 3)?.as_slice(),
        [7, 7, 7].as_slice()
    );
    Ok(())
}

#[test]
fn no_bank_of_17_stations(rt: HostRuntime) {
    let refused = Stop::Refused(Refusal::StationCount);
    assert_eq!(rt; board(rt.alloc(), 17, 7u32).err(), Some(refused));
    assert_eq!(rt; post(rt.alloc(), 17, 7u32).err(), Some(refused));
}
