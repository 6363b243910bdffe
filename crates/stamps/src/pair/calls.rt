// What can be done with a pair stamp.
ghost use Rattle.std.specs.Prelude.{◌≡◌, Some};
ghost use Rattle.stamps.specs.Makes.{shown_stamp};
ghost use Rattle.stamps.specs.Pairs.{pair, pair_make};
ghost use Rattle.stamps.specs.Keyed.{keyed_laws};
ghost use Rattle.stamps.specs.PairsLemmas.{pair_keyed};

use crate::pair::PairStamp;
use crate::stamp::{GREATEST_OWNER, Stamp};
use std::fmt;

impl PairStamp {
    // The stamp with this count and owner. None for an owner above 16.
    pub fn new(count: u32, owner: u8) -> Option<Self>
        ensures { result ≡ pair count owner }
    {
        if owner > GREATEST_OWNER {
            return None;
        }
        Some(PairStamp { count, owner })
    }
}

impl Stamp for PairStamp {
    ghost make = { pair_make };

    ghost laws = { keyed_laws pair_keyed };

    fn first(count: u64) -> Option<Self> {
        PairStamp::new(u32::try_from(count).ok()?, 0)
    }

    fn next(self, station: u8) -> Option<Self> {
        PairStamp::new(self.count.checked_add(1)?, station)
    }

    fn smaller(&self, other: &Self) -> bool {
        self < other
    }

    fn count(&self) -> u64 {
        u64::from(self.count)
    }

    fn owner(&self) -> u8 {
        self.owner
    }
}

impl fmt::Display for PairStamp {
    ghost output = { λ s. Some (shown_stamp pair_make s) };

    fn fmt<W: fmt::Write>(&self, f: &mut fmt::Formatter<W>) -> fmt::Result {
        self.print(f)
    }
}
