// The kinds of banks, and the byte that names each in a make.
ghost use Rattle.std.specs.Prelude.{◌≡◌, Some};
ghost use Rattle.commands.specs.Banks.{bank_kind, kind_said};

use policy::refusal::Refusal;
use std::fmt;

// A kind of bank.
#[derive(Clone, Copy, PartialEq, Eq, Debug)]
pub enum BankKind {
    Board,
    Post,
}

// A byte that no kind has is refused.
impl TryFrom<u8> for BankKind {
    type Error = Refusal;

    ghost try_from_gives = { λ byte r. r ≡ bank_kind byte };

    fn try_from(byte: u8) -> Result<Self, Refusal> {
        match byte {
            0 => Ok(BankKind::Board),
            1 => Ok(BankKind::Post),
            _ => Err(Refusal::UnknownByte),
        }
    }
}

// Printed as its name in small letters.
impl fmt::Display for BankKind {
    ghost output = { λ x. Some (kind_said x) };

    fn fmt<W: fmt::Write>(&self, f: &mut fmt::Formatter<W>) -> fmt::Result {
        match self {
            BankKind::Board => write!(f, "board"),
            BankKind::Post => write!(f, "post"),
        }
    }
}
