// What can be done with a number stamp.
ghost use Rattle.std.specs.Prelude.{◌≡◌, Some};
ghost use Rattle.stamps.specs.Makes.{shown_stamp};
ghost use Rattle.stamps.specs.Numbers.{numbered, number_pair, number_make};
ghost use Rattle.stamps.specs.Keyed.{keyed_laws};
ghost use Rattle.stamps.specs.NumbersLemmas.{number_keyed};

use crate::number::NumberStamp;
use crate::stamp::{GREATEST_OWNER, Stamp};
use std::fmt;

// The numbers of greater counts do not fit into 32 bits.
const GREATEST_COUNT: u32 = 134217727;

impl NumberStamp {
    // The stamp with this count and owner. None for a count above the greatest, or an owner above 16.
    pub fn new(count: u32, owner: u8) -> Option<Self>
        ensures { result ≡ number_pair count owner }
    {
        if count > GREATEST_COUNT || owner > GREATEST_OWNER {
            return None;
        }
        NumberStamp::from_number(count * 32 + u32::from(owner))
    }

    // The stamp with this number. None, and no error of a TryFrom, if the owner in it would be above 16: there is nothing more to say.
    pub fn from_number(number: u32) -> Option<Self>
        ensures { result ≡ numbered number }
    {
        if number % 32 > u32::from(GREATEST_OWNER) {
            return None;
        }
        Some(NumberStamp { number })
    }
}

impl Stamp for NumberStamp {
    ghost make = { number_make };

    ghost laws = { keyed_laws number_keyed };

    fn first(count: u64) -> Option<Self> {
        NumberStamp::new(u32::try_from(count).ok()?, 0)
    }

    fn next(self, station: u8) -> Option<Self> {
        NumberStamp::new(self.number / 32 + 1, station)
    }

    fn smaller(&self, other: &Self) -> bool {
        self < other
    }

    fn count(&self) -> u64 {
        u64::from(self.number / 32)
    }

    fn owner(&self) -> u8 {
        (self.number % 32) as u8
    }
}

impl fmt::Display for NumberStamp {
    ghost output = { λ s. Some (shown_stamp number_make s) };

    fn fmt<W: fmt::Write>(&self, f: &mut fmt::Formatter<W>) -> fmt::Result {
        self.print(f)
    }
}
