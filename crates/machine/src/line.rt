// The journal's lines: the account of one operation each.
ghost use Rattle.std.specs.Prelude.{◌≡◌, Some};
ghost use Rattle.machine.specs.Lines.{unused};
ghost use Rattle.machine.specs.Shown.{shown_kind, shown_state, shown_line};

use banks::record::Record;
use std::fmt;
use std::fmt::Display;

// What an operation does.
#[derive(Clone, Copy, PartialEq, Eq, Debug)]
pub enum Kind {
    Write,
    Read,
}

// Printed as W or R.
impl Display for Kind {
    ghost output = { λ k. Some (shown_kind k) };

    fn fmt<W: fmt::Write>(&self, f: &mut fmt::Formatter<W>) -> fmt::Result {
        match self {
            Kind::Write => write!(f, "W"),
            Kind::Read => write!(f, "R"),
        }
    }
}

// How far an operation has come.
#[derive(Clone, Copy, PartialEq, Eq, Debug)]
pub enum LineState {
    // reads the cells that its station reads
    Collecting,
    // is stamped, and writes its record into the cells that its station writes
    Spreading,
    // has ended, its record in every cell that its station writes
    Done,
    // a write that ended with no stamp, since the greatest one it met has no next
    Spent,
}

// Printed as its name in small letters.
impl Display for LineState {
    ghost output = { λ state. Some (shown_state state) };

    fn fmt<W: fmt::Write>(&self, f: &mut fmt::Formatter<W>) -> fmt::Result {
        match self {
            LineState::Collecting => write!(f, "collecting"),
            LineState::Spreading => write!(f, "spreading"),
            LineState::Done => write!(f, "done"),
            LineState::Spent => write!(f, "spent"),
        }
    }
}

// An operation: its stamp is the greatest that it met, or its own once it is a stamped write.
#[derive(Clone, Copy)]
pub struct Line<S, V> {
    pub kind: Kind,
    pub station: u8,
    pub state: LineState,
    pub stamp: S,
    pub value: V,
    // the moment of its opening
    pub opened: u64,
    // the moment of its end, 0 until then
    pub ended: u64,
}

impl<S: Copy, V: Copy> Line<S, V> {
    // A line that no register has written, for a journal to be handed in: a read by nobody that is done, with this record.
    pub fn unused(origin: Record<S, V>) -> Line<S, V>
        ensures { result ≡ unused origin }
    {
        Line {
            kind: Kind::Read,
            station: 0,
            state: LineState::Done,
            stamp: origin.tag,
            value: origin.value,
            opened: 0,
            ended: 0,
        }
    }
}

// Printed in the order of its fields, with a blank between each two.
impl<S: Display, V: Display> Display for Line<S, V> {
    ghost output = { λ l. shown_line S.output V.output l };

    fn fmt<W: fmt::Write>(&self, f: &mut fmt::Formatter<W>) -> fmt::Result {
        let kind = self.kind;
        let station = self.station;
        let state = self.state;
        let stamp = &self.stamp;
        let value = &self.value;
        let opened = self.opened;
        let ended = self.ended;
        write!(
            f,
            "{kind} {station} {state} {stamp} {value} {opened} {ended}"
        )
    }
}
