// The worked values, played through the calls.
ghost use Rattle.std.specs.Prelude.{◌≡◌, true, Some};
ghost use Rattle.stamps.specs.Worked.{Worked};

use crate::number::NumberStamp;
use crate::pair::PairStamp;
use crate::stamp::Stamp;

// Whether the calls give the worked values. They do, and so do the definitions.
pub fn worked_values() -> bool
    ensures calls { result ≡ true }
    ensures definitions { Worked }
{
    pair_values() == Some(true) && number_values() == Some(true) && spent_values() == Some(true)
}

fn pair_values() -> Option<bool>
    ensures { result ≡ Some true }
{
    let next = PairStamp::new(0, 0)?.next(3);
    let smaller = PairStamp::new(1, 16)?.smaller(&PairStamp::new(2, 1)?);
    Some(next == PairStamp::new(1, 3) && smaller)
}

fn number_values() -> Option<bool>
    ensures { result ≡ Some true }
{
    let five = NumberStamp::from_number(160)?;
    Some(NumberStamp::first(5) == Some(five) && five.next(3) == NumberStamp::from_number(195))
}

fn spent_values() -> Option<bool>
    ensures { result ≡ Some true }
{
    let late = NumberStamp::from_number(4294967248)?;
    let last = NumberStamp::from_number(4294967280)?;
    Some(late.next(16) == Some(last) && last.next(16) == None)
}
