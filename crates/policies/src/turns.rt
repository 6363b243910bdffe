// What happens to the two registers.
use crate::account::Turn;
use crate::calls::Call;
use banks::bank::Mark;
use policy::entry::{NameRule, PolicyEntry, PolicyNumber};

// The policy that the stations start from.
pub const OLD: PolicyEntry = PolicyEntry {
    number: PolicyNumber(40),
    first_day: 0,
    last_day: 364,
    rule: NameRule::Permitted,
};

const SHORT: PolicyEntry = PolicyEntry {
    number: PolicyNumber(41),
    first_day: 100,
    last_day: 130,
    rule: NameRule::Excluded,
};

const LONG: PolicyEntry = PolicyEntry {
    number: PolicyNumber(42),
    first_day: 100,
    last_day: 464,
    rule: NameRule::Permitted,
};

const LATE: PolicyEntry = PolicyEntry {
    number: PolicyNumber(43),
    first_day: 500,
    last_day: 65535,
    rule: NameRule::Excluded,
};

// Writes of 1 and 2 overlap a read of 3, which loses its link to 1 for a while. From the greatest count no write can be stamped.
pub const ENTRY_TURNS: [Turn<PolicyEntry>; 29] = [
    Turn::Calls(1, Call::Write(1, SHORT)),
    Turn::Calls(1, Call::Read(3)),
    Turn::Calls(3, Call::Step(1)),
    Turn::Calls(1, Call::Write(2, LONG)),
    Turn::Calls(2, Call::Step(2)),
    Turn::Calls(1, Call::Write(2, LATE)),
    Turn::Calls(5, Call::Step(1)),
    Turn::Calls(1, Call::Mark(1, 3, Mark::Down)),
    Turn::Calls(1, Call::Step(3)),
    Turn::Calls(1, Call::Step(1)),
    Turn::List,
    Turn::Calls(1, Call::Mark(1, 3, Mark::Up)),
    Turn::Calls(1, Call::Step(3)),
    Turn::Calls(1, Call::Step(2)),
    Turn::Calls(2, Call::Step(1)),
    Turn::Calls(5, Call::Step(2)),
    Turn::Calls(1, Call::Step(3)),
    Turn::Calls(1, Call::Step(2)),
    Turn::Calls(7, Call::Step(3)),
    Turn::Calls(1, Call::Write(1, LATE)),
    Turn::Calls(4, Call::Step(1)),
    Turn::Calls(1, Call::Read(1)),
    Turn::Calls(1, Call::Write(3, LATE)),
    Turn::Calls(1, Call::Mark(3, 1, Mark::Down)),
    Turn::Calls(3, Call::Step(1)),
    Turn::Calls(1, Call::Mark(3, 1, Mark::Up)),
    Turn::Calls(7, Call::Step(1)),
    Turn::Calls(1, Call::Step(4)),
    Turn::List,
];

// Overlapping writes of 1 and 2 get the same count, and a read of 3 takes the one with the greater owner.
pub const NUMBER_TURNS: [Turn<PolicyNumber>; 26] = [
    Turn::Calls(1, Call::Read(0)),
    Turn::Calls(1, Call::Step(1)),
    Turn::Calls(1, Call::Write(1, PolicyNumber(9))),
    Turn::Calls(1, Call::Write(2, PolicyNumber(11))),
    Turn::Calls(3, Call::Step(1)),
    Turn::Calls(3, Call::Step(2)),
    Turn::Calls(1, Call::Read(3)),
    Turn::Calls(5, Call::Step(1)),
    Turn::Calls(5, Call::Step(2)),
    Turn::Calls(1, Call::Mark(2, 3, Mark::Down)),
    Turn::Calls(2, Call::Step(3)),
    Turn::Calls(1, Call::Step(2)),
    Turn::Calls(1, Call::Read(3)),
    Turn::List,
    Turn::Calls(1, Call::Mark(2, 3, Mark::Up)),
    Turn::Calls(2, Call::Step(3)),
    Turn::Calls(1, Call::Step(2)),
    Turn::Calls(6, Call::Step(3)),
    Turn::Calls(1, Call::Step(1)),
    Turn::Calls(1, Call::Read(1)),
    Turn::Calls(9, Call::Step(1)),
    Turn::Calls(1, Call::Write(3, PolicyNumber(13))),
    Turn::Calls(9, Call::Step(3)),
    Turn::Calls(1, Call::Read(2)),
    Turn::Calls(1, Call::Write(4, PolicyNumber(15))),
    Turn::List,
];
