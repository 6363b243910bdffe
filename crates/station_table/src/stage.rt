// The stages of an operation.
ghost use Rattle.std.specs.Prelude.{◌≡◌, ◌*◌, ◌<◌, ◌≤◌};
ghost use Rattle.station_table.specs.Stages.{stage_of};

// What the next step of an operation is.
#[derive(Clone, Copy)]
pub enum Stage {
    // it reads a cell, and not the last one
    Collecting,
    // it reads its last cell, and is then stamped
    Stamping,
    // it starts a cell
    Starting,
    // it finishes a cell, and not the last one
    Finishing,
    // it finishes its last cell
    Ending,
}

impl Stage {
    // The stage at a progress, of a number of stations.
    pub fn at(progress: u64, stations: u8) -> Stage
        ensures { result ≡ stage_of stations progress }
    {
        let n = stations as u64;
        match progress.checked_sub(n) {
            None if progress + 1 == n => Stage::Stamping,
            None => Stage::Collecting,
            Some(past) if past % 2 == 0 => Stage::Starting,
            // the last of n pairs of a start and a finish
            Some(past) if past / 2 + 1 == n => Stage::Ending,
            Some(_) => Stage::Finishing,
        }
    }
}
