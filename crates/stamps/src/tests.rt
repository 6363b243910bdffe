// Stamps at the edges: the last counts, the last owner, equal counts.
use crate::number::NumberStamp;
use crate::pair::PairStamp;
use crate::stamp::Stamp;
use std::process::Abort;
use std::test::Fail;

// The counts are the last but one, the greatest, and the one above it.
fn edges<S: Stamp>(rt: &impl Abort, late: u64, greatest: u64, above: u64) -> Result<(), Fail> {
    assert!(rt; S::first(above).is_none());
    let spent = S::first(greatest).ok_or("the greatest count")?;
    assert!(rt; spent.next(1).is_none());
    let stamp = S::first(late).ok_or("the last count but one")?;
    assert!(rt; stamp.next(17).is_none());
    let next = stamp.next(16).ok_or("not spent")?;
    assert_eq!(rt; next.count(), greatest);
    assert_eq!(rt; next.owner(), 16);
    assert!(rt; next.next(16).is_none());
    assert!(rt; stamp.smaller(&next) && !next.smaller(&stamp));
    assert!(rt; spent.smaller(&next) && !next.smaller(&spent));
    assert!(rt; !next.smaller(&next));
    Ok(())
}

#[test]
fn pairs(rt: HostRuntime) -> Result<(), Fail> {
    edges::<PairStamp>(&rt, 4294967294, 4294967295, 4294967296)?;
    assert!(rt; PairStamp::new(4294967295, 17).is_none());
    Ok(())
}

#[test]
fn numbers(rt: HostRuntime) -> Result<(), Fail> {
    edges::<NumberStamp>(&rt, 134217726, 134217727, 134217728)?;
    assert!(rt; NumberStamp::new(134217728, 0).is_none());
    assert!(rt; NumberStamp::new(0, 17).is_none());
    assert!(rt; NumberStamp::from_number(17).is_none());
    assert!(rt; NumberStamp::from_number(31).is_none());
    let stamp = NumberStamp::from_number(16).ok_or("owner 16")?;
    assert_eq!(rt; stamp.number(), 16);
    Ok(())
}

#[test]
fn printed(rt: HostRuntime) -> Result<(), Fail> {
    let pair = PairStamp::new(4294967295, 16).ok_or("the last pair stamp")?;
    assert_eq!(rt; pair.to_string(rt.alloc())?.as_str(), "4294967295.16");
    let number = NumberStamp::from_number(4294967280).ok_or("the last number stamp")?;
    assert_eq!(rt; number.to_string(rt.alloc())?.as_str(), "134217727.16");
    Ok(())
}
