// The calls on a bank's notes.
ghost use Rattle.std.specs.Prelude.{◌≡◌, ◌*◌, ◌<◌, true};
ghost use Rattle.banks.specs.Meanings.{inside};
ghost use Rattle.table_banks.specs.Cells.{cell};
ghost use Rattle.table_banks.specs.Notes.{HasCell, Homed, seen, fresh, noted_place, reached, with_reader, with_mark, noted_new, seen_new};
ghost use Rattle.banks.specs.Marks.{is_up};

use crate::cell::place_of;
use crate::notes::Notes;
use banks::bank::Mark;
use policy::refusal::{Place, Refusal};

impl Notes {
    // Nothing open, all cells reachable. Refused by 1.
    pub fn new(stations: u8) -> Result<Notes, Refusal>
        ensures { seen_new result ≡ noted_new stations }
    {
        if !(1..=16).contains(&stations) {
            return Err(Refusal::StationCount);
        }
        let readers = [None; 16];
        let marks = [Mark::Up; 256];
        Ok(Notes {
            count: stations,
            readers,
            marks,
        })
    }

    pub fn stations(&self) -> u8
        ensures { result ≡ (seen self.now).stations }
    {
        self.count
    }

    // Nothing open, all cells reachable.
    pub fn reset(&mut self)
        ensures { seen self.new ≡ fresh (seen self.old).stations }
    {
        let readers = [None; 16];
        let marks = [Mark::Up; 256];
        self.readers = readers;
        self.marks = marks;
    }

    // Whether a number is a station.
    pub fn has(&self, station: u8) -> bool
        ensures { result ≡ inside (seen self.now).stations station }
    {
        (1..=self.count).contains(&station)
    }

    // The place of a cell. Refused by 4.
    pub fn place(&self, writer: u8, reader: u8) -> Result<Place, Refusal>
        ensures { result ≡ noted_place (seen self.now) writer reader }
    {
        if !self.has(writer) || !self.has(reader) {
            return Err(Refusal::UnknownStation);
        }
        Ok((0, writer, reader))
    }

    // Where the line of a cell stands in a table that begins with the lines of all cells.
    pub fn cell_line(&self, writer: u8, reader: u8) -> usize
        requires { HasCell (seen self.now) writer reader }
        ensures place { result ≡ cell (seen self.now).stations writer reader }
        ensures within { result < (seen self.now).stations * (seen self.now).stations }
    {
        place_of(self.count, writer, reader)
    }

    // Whether a cell can be reached. Refused by 4, 15.
    pub fn reach(&self, writer: u8, reader: u8) -> Result<(), Refusal>
        ensures { result ≡ reached (seen self.now) writer reader }
    {
        let place = self.place(writer, reader)?;
        match self.marks[place_of(16, writer, reader)] {
            Mark::Up => Ok(()),
            Mark::Down => Err(Refusal::Unreachable(place)),
        }
    }

    // The reader of the writer's open record, a station.
    pub fn reader(&self, writer: u8) -> Option<u8>
        ensures value { result ≡ (seen self.now).reader writer }
        ensures home { Homed (seen self.now).stations writer result }
    {
        if !self.has(writer) {
            return None;
        }
        self.readers[writer as usize - 1]
    }

    // The writer has a record open for a reader, or nothing.
    pub fn note_reader(&mut self, writer: u8, reader: Option<u8>)
        requires { (inside (seen self.old).stations writer ≡ true) × (Homed (seen self.old).stations writer reader) }
        ensures { seen self.new ≡ with_reader (seen self.old) writer reader }
    {
        self.readers[writer as usize - 1] = reader;
    }

    // Makes a cell reachable or not.
    pub fn note_mark(&mut self, writer: u8, reader: u8, mark: Mark)
        requires { HasCell (seen self.old) writer reader }
        ensures { seen self.new ≡ with_mark (seen self.old) writer reader (is_up mark) }
    {
        let i = place_of(16, writer, reader);
        self.marks[i] = mark;
    }
}
