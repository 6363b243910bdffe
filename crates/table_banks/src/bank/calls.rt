// Making a bank over a table, and its calls as a bank.
ghost use Rattle.std.specs.Prelude.{◌≡◌, Result};
ghost use Rattle.std.specs.Option.{option_map};
ghost use Rattle.policy.specs.declared.refusal.Refusal.{Refusal};
ghost use Rattle.banks.specs.Meanings.{Meaning, filled, read as reads, start as starts, finish as finishes, mark as marks};
ghost use Rattle.banks.specs.Marks.{is_up};
ghost use Rattle.table_banks.specs.Notes.{Homed};
ghost use Rattle.table_banks.specs.Bottoms.{meant, making};
ghost use Rattle.table_banks.specs.Banks.{made};

use crate::bank::TableBank;
use crate::notes::Notes;
use crate::table::Table;
use banks::bank::{Bank, Mark};
use policy::refusal::{Place, Refusal};

impl<T: Table> TableBank<T> {
    // A bank filled with a record, over a table of lines enough. Refused by 1, 3, and the table then comes back as it was.
    pub fn new(
        stations: u8,
        lines: Vec<T::Line>,
        x: T::Record,
    ) -> Result<TableBank<T>, (Refusal, Vec<T::Line>)>
        ensures { made T.holds T.spare_lines result ≡ making stations (T.needs stations) lines.items x }
    {
        // no `map_err`, whose closure would take the lines
        let notes = match Notes::new(stations) {
            Ok(notes) => notes,
            Err(refusal) => return Err((refusal, lines)),
        };
        if lines.len() < T::needed(stations) {
            return Err((Refusal::TableSize, lines));
        }
        let mut table = T::over(notes, lines);
        table.refill(x);
        Ok(TableBank { table })
    }

    // The table back.
    pub fn into_table(self) -> Vec<T::Line>
        ensures { result.items ≡ T.lines_of self.table }
    {
        let TableBank { table } = self;
        table.into_lines()
    }

    // What the writer has open: for which reader, a station, and the record.
    fn opened(&self, writer: u8) -> Option<(u8, T::Record)>
        ensures value { result ≡ (meant (T.holds self.now.table)).opened writer }
        ensures home { Homed (T.holds self.now.table).notes.stations writer (option_map (λ p. p.0) result) }
    {
        let reader = self.table.notes().reader(writer)?;
        Some((reader, self.table.opened(writer, reader)))
    }
}

impl<T: Table> Bank<T::Record> for TableBank<T> {
    ghost meaning = { λ b. meant (T.holds b.table) };

    ghost chooses = { λ b w r. T.ANSWERS_OPEN };

    ghost stationed = { λ b. T.stationed b.table };

    fn stations(&self) -> u8 {
        self.table.notes().stations()
    }

    fn fill(&mut self, x: T::Record)
        ensures after { meant (T.holds self.new.table) ≡ filled (meant (T.holds self.old.table)) x }
        ensures kept { T.spare_lines self.new.table ≡ T.spare_lines self.old.table }
    {
        self.table.refill(x);
    }

    fn read(&mut self, writer: u8, reader: u8) -> Result<T::Record, Refusal>
        ensures after { ◌≡◌ {A = Result T.Record Refusal × Meaning T.Record} (result, meant (T.holds self.new.table)) (reads (meant (T.holds self.old.table)) T.ANSWERS_OPEN writer reader) }
        ensures kept { T.spare_lines self.new.table ≡ T.spare_lines self.old.table }
    {
        let notes = self.table.notes();
        notes.reach(writer, reader)?;
        if T::ANSWERS_OPEN && notes.reader(writer) == Some(reader) {
            return Ok(self.table.opened(writer, reader));
        }
        Ok(self.table.settled(writer, reader))
    }

    fn start(&mut self, writer: u8, reader: u8, x: T::Record) -> Result<(), Refusal>
        ensures after { ◌≡◌ {A = Result (Unit {0}) Refusal × Meaning T.Record} (result, meant (T.holds self.new.table)) (starts (meant (T.holds self.old.table)) writer reader x) }
        ensures kept { T.spare_lines self.new.table ≡ T.spare_lines self.old.table }
    {
        self.table.notes().reach(writer, reader)?;
        if self.opened(writer).is_some() {
            return Err(Refusal::RecordOpen);
        }
        self.table.put_open(writer, reader, x);
        Ok(())
    }

    fn finish(&mut self, writer: u8) -> Result<(), Refusal>
        ensures after { ◌≡◌ {A = Result (Unit {0}) Refusal × Meaning T.Record} (result, meant (T.holds self.new.table)) (finishes (meant (T.holds self.old.table)) writer) }
        ensures kept { T.spare_lines self.new.table ≡ T.spare_lines self.old.table }
    {
        if !self.table.notes().has(writer) {
            return Err(Refusal::UnknownStation);
        }
        // no `?`, across which a record of the table's type would get no proof
        let Some((reader, _)) = self.opened(writer) else {
            return Err(Refusal::NothingOpen);
        };
        self.table.notes().reach(writer, reader)?;
        // Read once more, since a record carried along from above is copied twice.
        let x = self.table.opened(writer, reader);
        self.table.settle(writer, reader, x);
        Ok(())
    }

    fn mark(&mut self, writer: u8, reader: u8, mark: Mark) -> Result<(), Refusal>
        ensures after { ◌≡◌ {A = Result (Unit {0}) Refusal × Meaning T.Record} (result, meant (T.holds self.new.table)) (marks (meant (T.holds self.old.table)) writer reader (is_up mark)) }
        ensures kept { T.spare_lines self.new.table ≡ T.spare_lines self.old.table }
    {
        self.place(writer, reader)?;
        self.table.put_mark(writer, reader, mark);
        Ok(())
    }

    fn place(&self, writer: u8, reader: u8) -> Result<Place, Refusal> {
        self.table.notes().place(writer, reader)
    }
}
