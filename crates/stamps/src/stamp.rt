// What every make of stamp offers, and the laws that it shows.
ghost use Rattle.std.specs.Prelude.{◌≡◌, Some};
ghost use Rattle.std.specs.Fmt.{DisplaysOnOk};
ghost use Rattle.stamps.specs.Makes.{Make, Laws, first_of, next_of, shown_stamp};

use std::fmt;

// Owners are 0, which is nobody, and the stations 1 to 16.
pub const GREATEST_OWNER: u8 = 16;

// A stamp has a count and an owner. One whose count is the greatest is spent: no stamp comes after it.
pub trait Stamp: Copy {
    ghost make: { Make Self };

    // The first stamp for a count, whose owner is nobody. None above the greatest count.
    fn first(count: u64) -> Option<Self>
        ensures { result ≡ first_of make count };

    // The stamp after this one for a station. None if this one is spent, and for a station above 16.
    fn next(self, station: u8) -> Option<Self>
        ensures { result ≡ next_of make self station };

    fn smaller(&self, other: &Self) -> bool
        ensures { result ≡ make.smaller self.now other.now };

    fn count(&self) -> u64
        ensures { result ≡ make.count self.now };

    fn owner(&self) -> u8
        ensures { result ≡ make.owner self.now };

    // Writes the stamp as count, full stop, owner. The impls of Display call it: Rust has none for every Stamp at once.
    fn print<W: fmt::Write>(&self, f: &mut fmt::Formatter<W>) -> fmt::Result
        ensures { DisplaysOnOk W.write_str_gives f.old result (Some (shown_stamp make self.now)) f.new }
    {
        let count = self.count();
        let owner = self.owner();
        write!(f, "{count}.{owner}")
    }

    ghost laws: { Laws make };
}
