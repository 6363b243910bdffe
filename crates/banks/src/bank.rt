// What every bank of cells offers: a trait whose contracts say what each call answers and leaves.
ghost use Rattle.std.specs.Prelude.{◌≡◌, ℕ, Bool, Result};
ghost use Rattle.policy.specs.declared.refusal.Refusal.{Refusal};
ghost use Rattle.banks.specs.Meanings.{Meaning, Stationed, filled, read as reads, start as starts, finish as finishes, mark as marks, located};
ghost use Rattle.banks.specs.Marks.{is_up};

use policy::refusal::{Place, Refusal};

// What a cell is marked: reachable or not.
#[derive(Clone, Copy, PartialEq, Eq, Debug)]
pub enum Mark {
    Up,
    Down,
}

// Cells for 1 to 16 stations, over records of the type R. Cell (writer, reader) is written by one station and read by one.
pub trait Bank<R> {
    ghost meaning: { Self → Meaning R };

    // Of a writer's open record and the settled one, whether a read answers the open one.
    ghost chooses: { Self → ℕ → ℕ → Bool };

    fn stations(&self) -> u8
        ensures { result ≡ (meaning self.now).stations };

    // Every cell settles on the record, nothing is open, all cells are reachable.
    fn fill(&mut self, x: R)
        ensures { meaning self.new ≡ filled (meaning self.old) x };

    // The settled record of a cell, or the open one where there is one and the bank chooses it. Refused by 4, 15.
    fn read(&mut self, writer: u8, reader: u8) -> Result<R, Refusal>
        ensures { ◌≡◌ {A = Result R Refusal × Meaning R} (result, meaning self.new) (reads (meaning self.old) (chooses self.old writer reader) writer reader) };

    // The record becomes the writer's open one; the settled one stays. Refused by 4, 15, 16.
    fn start(&mut self, writer: u8, reader: u8, x: R) -> Result<(), Refusal>
        ensures { ◌≡◌ {A = Result (Unit {0}) Refusal × Meaning R} (result, meaning self.new) (starts (meaning self.old) writer reader x) };

    // The writer's open record settles. Refused by 4, 17, 15.
    fn finish(&mut self, writer: u8) -> Result<(), Refusal>
        ensures { ◌≡◌ {A = Result (Unit {0}) Refusal × Meaning R} (result, meaning self.new) (finishes (meaning self.old) writer) };

    // Makes a cell reachable or not. Refused by 4.
    fn mark(&mut self, writer: u8, reader: u8, mark: Mark) -> Result<(), Refusal>
        ensures { ◌≡◌ {A = Result (Unit {0}) Refusal × Meaning R} (result, meaning self.new) (marks (meaning self.old) writer reader (is_up mark)) };

    // Where a cell lies: depth, and writer and reader in the numbers of the bank at the bottom. Refused by 4.
    fn place(&self, writer: u8, reader: u8) -> Result<Place, Refusal>
        ensures { result ≡ located (meaning self.now) writer reader };

    ghost stationed: { (b : Self) → Stationed (meaning b) };
}
