// Number stamps: count and owner in one number.
ghost use Rattle.std.specs.Prelude.{◌≡◌, ◌%◌, ◌≤◌};

pub mod calls;

// The number is count × 32 + owner, and stamps are compared by it.
#[derive(Clone, Copy, PartialEq, Eq, PartialOrd, Ord, Debug)]
pub struct NumberStamp {
    number: u32,
    ghost bounded: { number % 32 ≤ 16 },
}

impl NumberStamp {
    pub fn number(&self) -> u32
        ensures { result ≡ self.now.number }
    {
        self.number
    }
}
