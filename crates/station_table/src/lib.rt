// The station table: sixteen rows, each changed in place.
#![tactic(auto)]

ghost use Rattle.std.specs.Prelude.{◌≡◌, ◌-◌, length, replicate, slice_index_or, slice_set};
ghost use Rattle.machine.specs.Machines.{row_of};
ghost use Rattle.machine.specs.declared.row.Row.TheVariants.{Idle, Busy};
ghost use Rattle.station_table.specs.Rows.{advanced};

use machine::row::Row;

pub mod stage;

// Station s has row s - 1.
#[derive(Drop)]
pub struct Table {
    rows: [Row; 16],
    ghost sixteen: { length rows ≡ 16 },
}

impl Table {
    // Every station is idle.
    pub fn new() -> Table
        ensures { result.rows ≡ replicate 16 Idle }
    {
        Table {
            rows: [Row::Idle; 16],
        }
    }

    pub fn row(&self, station: u8) -> Row
        ensures { result ≡ row_of self.now.rows station }
    {
        self.rows
            .get(station.saturating_sub(1) as usize)
            .copied()
            .unwrap_or(Row::Idle)
    }

    // Puts a station at the beginning of the operation with that line.
    pub fn open(&mut self, station: u8, line: u64)
        ensures { self.new.rows ≡ slice_set self.old.rows (station - 1) (Busy line 0) }
    {
        self.set(station, Row::Busy { line, progress: 0 });
    }

    // Makes a station idle.
    pub fn rest(&mut self, station: u8)
        ensures { self.new.rows ≡ slice_set self.old.rows (station - 1) Idle }
    {
        self.set(station, Row::Idle);
    }

    // Puts a station's operation at that progress.
    pub fn advance(&mut self, station: u8, progress: u64)
        ensures { self.new.rows ≡ slice_set self.old.rows (station - 1) (advanced (row_of self.old.rows station) progress) }
    {
        // the row is changed in place, and not written whole by `set`
        let at = station.saturating_sub(1) as usize;
        if at < self.rows.len() {
            match &mut self.rows[at] {
                Row::Busy { progress: own, .. } => *own = progress,
                Row::Idle => {}
            }
        }
    }

    // Writes the row of a station; nothing changes where it has none.
    fn set(&mut self, station: u8, row: Row)
        ensures { self.new.rows ≡ slice_set self.old.rows (station - 1) row }
    {
        // an index, since a proof knows no element of a slice after its `get_mut`
        let at = station.saturating_sub(1) as usize;
        if at < self.rows.len() {
            self.rows[at] = row;
        }
    }
}
