// The refusals: every reason for which a call or a command is turned down, with its number.
ghost use Rattle.std.specs.Prelude.{◌≡◌, Some};
ghost use Rattle.policy.specs.Refusals.{number_of, Tells, shown_refusal};

use std::error::Error;
use std::fmt;

// Where a cell lies: how many layers stand over its bank, and its writer and reader in that bank's numbers.
pub type Place = (u8, u8, u8);

// A reason why a call or a command is turned down.
#[derive(Clone, Copy, PartialEq, Eq, Debug)]
pub enum Refusal {
    // 1: a station count outside 1 to 16.
    StationCount,
    // 2: a starting count above the greatest count of the stamps.
    StartingCount,
    // 3: a bank's table with too few lines.
    TableSize,
    // 4: a station number of 0 or above the station count.
    UnknownStation,
    // 5: two station counts that differ.
    CountsDiffer,
    // 6: a renumbering list that is not 1 to n, each once.
    NotRenumbering,
    // 7: a split point above the station count.
    SplitPoint,
    // 8: a journal with fewer lines than the register's size, or a size above 4096.
    JournalSize,
    // 9: an unknown command byte or bank kind.
    UnknownByte,
    // 10: a command cut short.
    CutShort,
    // 11: the station has an operation open.
    Busy,
    // 12: all journal lines are in use.
    JournalFull,
    // 13: the station is idle.
    Idle,
    // 14: the stamp is spent.
    Spent,
    // 15: the cell is unreachable; it carries the cell's place.
    Unreachable(Place),
    // 16: the writer has an open record.
    RecordOpen,
    // 17: the writer has no open record.
    NothingOpen,
    // 18: a command before a register is made.
    NoRegister,
    // 19: a make after an earlier one was accepted.
    AlreadyMade,
}

impl Refusal {
    // The refusal's number, written out since one case carries a place. No two cases have the same one.
    pub fn number(&self) -> u8
        ensures value { result ≡ number_of self.now }
        ensures tells { Tells self.now result }
    {
        match self {
            Refusal::StationCount => 1,
            Refusal::StartingCount => 2,
            Refusal::TableSize => 3,
            Refusal::UnknownStation => 4,
            Refusal::CountsDiffer => 5,
            Refusal::NotRenumbering => 6,
            Refusal::SplitPoint => 7,
            Refusal::JournalSize => 8,
            Refusal::UnknownByte => 9,
            Refusal::CutShort => 10,
            Refusal::Busy => 11,
            Refusal::JournalFull => 12,
            Refusal::Idle => 13,
            Refusal::Spent => 14,
            Refusal::Unreachable(_) => 15,
            Refusal::RecordOpen => 16,
            Refusal::NothingOpen => 17,
            Refusal::NoRegister => 18,
            Refusal::AlreadyMade => 19,
        }
    }
}

impl Error for Refusal {}

// The number; behind 15 the place: depth, writer, reader.
impl fmt::Display for Refusal {
    ghost output = { λ x. Some (shown_refusal x) };

    fn fmt<W: fmt::Write>(&self, f: &mut fmt::Formatter<W>) -> fmt::Result {
        let number = self.number();
        match self {
            Refusal::Unreachable((depth, writer, reader)) => write!(
                f,
                "{number} {depth} {writer} {reader}"
            ),
            _ => write!(f, "{number}"),
        }
    }
}

#[cfg(test)]
mod tests {
    use super::*;
    use std::test::Fail;

    #[test]
    fn refusals_are_printed_by_number(rt: HostRuntime) -> Result<(), Fail> {
        let heap = rt.alloc();
        assert_eq!(rt; Refusal::CutShort.to_string(heap)?.as_str(), "10");
        assert_eq!(rt;
            Refusal::Unreachable((0, 1, 2)).to_string(heap)?.as_str(),
            "15 0 1 2"
        );
        assert_eq!(rt;
            Refusal::Unreachable((255, 16, 1)).to_string(heap)?.as_str(),
            "15 255 16 1"
        );
        Ok(())
    }
}
