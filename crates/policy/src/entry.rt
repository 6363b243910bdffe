// Policies as the stations hold them: a policy number, or an entry with days and a name rule.
ghost use Rattle.std.specs.Prelude.{Some};
ghost use Rattle.policy.specs.Entries.{shown_number, shown_rule, shown_entry};

use std::fmt;

// The number of a policy.
#[derive(Clone, Copy, PartialEq, Eq, Debug)]
pub struct PolicyNumber(pub u32);

// Printed in decimal. Written out, here and below, since no derive states what is printed.
impl fmt::Display for PolicyNumber {
    ghost output = { λ x. Some (shown_number x) };

    fn fmt<W: fmt::Write>(&self, f: &mut fmt::Formatter<W>) -> fmt::Result {
        let number = self.0;
        write!(f, "{number}")
    }
}

// Whether a certificate may cover the names of a policy.
#[derive(Clone, Copy, PartialEq, Eq, Debug)]
pub enum NameRule {
    Permitted,
    Excluded,
}

// Printed as its name in small letters.
impl fmt::Display for NameRule {
    ghost output = { λ x. Some (shown_rule x) };

    fn fmt<W: fmt::Write>(&self, f: &mut fmt::Formatter<W>) -> fmt::Result {
        match self {
            NameRule::Permitted => write!(f, "permitted"),
            NameRule::Excluded => write!(f, "excluded"),
        }
    }
}

// A policy, the first and last day on which it holds, and its name rule.
#[derive(Clone, Copy, PartialEq, Eq, Debug)]
pub struct PolicyEntry {
    pub number: PolicyNumber,
    pub first_day: u16,
    pub last_day: u16,
    pub rule: NameRule,
}

// Printed as number:first-last:rule, with no blanks.
impl fmt::Display for PolicyEntry {
    ghost output = { λ x. Some (shown_entry x) };

    fn fmt<W: fmt::Write>(&self, f: &mut fmt::Formatter<W>) -> fmt::Result {
        let number = self.number;
        let first = self.first_day;
        let last = self.last_day;
        let rule = self.rule;
        write!(f, "{number}:{first}-{last}:{rule}")
    }
}
