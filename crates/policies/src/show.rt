// Calls and answers as text.
use crate::calls::{Answer, Call};
use banks::bank::Mark;
use banks::record::Record;
use std::fmt;
use std::fmt::Display;

// The call's name, and then its stations and its value.
impl<V: Display> fmt::Display for Call<V> {
    fn fmt<W: fmt::Write>(&self, f: &mut fmt::Formatter<W>) -> fmt::Result {
        match self {
            Call::Write(station, value) => write!(f, "write {station} {value}"),
            Call::Read(station) => write!(f, "read {station}"),
            Call::Step(station) => write!(f, "step {station}"),
            Call::Mark(writer, reader, Mark::Up) => write!(f, "up {writer} {reader}"),
            Call::Mark(writer, reader, Mark::Down) => write!(f, "down {writer} {reader}"),
        }
    }
}

// An open's line number, the stamp and value of an operation that is done, or ok.
impl<S: Display, V: Display> fmt::Display for Answer<S, V> {
    fn fmt<W: fmt::Write>(&self, f: &mut fmt::Formatter<W>) -> fmt::Result {
        match self {
            Answer::Opened(line) => write!(f, "line {line}"),
            Answer::Moved(Some(Record { tag, value })) => write!(f, "done {tag} {value}"),
            Answer::Moved(None) | Answer::Marked => write!(f, "ok"),
        }
    }
}
