// Making a renumbering, and its calls as a bank.
ghost use Rattle.std.specs.Prelude.{◌≡◌, ℕ};
ghost use Rattle.layers.specs.Layers.{sunk};
ghost use Rattle.layers.specs.Renumberings.{station_below, renumbering_meaning, renumbering_seen, renumbering_made};
ghost use Rattle.std.proofs.Common.{rules};

use crate::layer::{deepen_answer, deepen_located};
use crate::permutation::Permutation;
use crate::renumbering::Renumbering;
use banks::bank::{Bank, Mark};
use policy::refusal::{Place, Refusal};

impl<B> Renumbering<B> {
    // A bank of n stations under the numbers of a list, whose first n places hold the numbers 1 to n, each once. Refused by 6, and the bank then comes back as it was.
    pub fn new<R: Copy>(below: B, list: &[u8]) -> Result<Renumbering<B>, (Refusal, B)>
    where
        B: Bank<R>,
        ensures { renumbering_seen result ≡ renumbering_made (B.Bank.meaning below).stations below list.now }
    {
        match Permutation::from_list(list, below.stations()) {
            Some(map) => Ok(Renumbering { below, map }),
            None => Err((Refusal::NotRenumbering, below)),
        }
    }

    // The inverse renumbering over this one. Together they mean the bank below, but for the depth.
    #[tactic(auto, using(crate::proofs::Renumberings::number_of_position))]
    pub fn undone<R: Copy>(self) -> Renumbering<Renumbering<B>>
    where
        B: Bank<R>,
        ensures below { result.below ≡ self }
        ensures undoes { renumbering_meaning (renumbering_meaning B.Bank.meaning) result ≡ sunk (sunk (B.Bank.meaning self.below)) }
    {
        let map = self.map.inverse();
        Renumbering { below: self, map }
    }

    // The bank back.
    pub fn into_below(self) -> B
        ensures { result ≡ self.below }
    {
        let Renumbering { below, map: _ } = self;
        below
    }

    // The number below of a station above. A map of more stations than the bank has, which is never made, changes no number.
    #[tactic(auto, unfolding(crate::specs::Renumberings::fitting))]
    fn below_of<R: Copy>(&self, station: u8) -> u8
    where
        B: Bank<R>,
        ensures { result ≡ station_below B.Bank.meaning self.now station }
    {
        if self.map.size() <= self.below.stations() {
            self.map.number(station)
        } else {
            station
        }
    }

    // The cell below of a cell above: its writer and its reader there.
    fn cell_below<R: Copy>(&self, writer: u8, reader: u8) -> (u8, u8)
    where
        B: Bank<R>,
        ensures { ◌≡◌ {A = ℕ × ℕ} result (station_below B.Bank.meaning self.now writer, station_below B.Bank.meaning self.now reader) }
    {
        (self.below_of::<R>(writer), self.below_of::<R>(reader))
    }
}

impl<R: Copy, B: Bank<R>> Bank<R> for Renumbering<B> {
    ghost meaning = { renumbering_meaning B.Bank.meaning };

    ghost chooses = { λ s w r. B.Bank.chooses s.below (station_below B.Bank.meaning s w) (station_below B.Bank.meaning s r) };

    ghost stationed = { Prim.search rules };

    fn stations(&self) -> u8 {
        self.below.stations()
    }

    #[tactic(auto, using(crate::proofs::Renumberings::number_inside))]
    fn fill(&mut self, x: R) {
        self.below.fill(x);
    }

    fn read(&mut self, writer: u8, reader: u8) -> Result<R, Refusal> {
        let (w, r) = self.cell_below::<R>(writer, reader);
        deepen_answer(self.below.read(w, r))
    }

    fn start(&mut self, writer: u8, reader: u8, x: R) -> Result<(), Refusal> {
        let (w, r) = self.cell_below::<R>(writer, reader);
        deepen_answer(self.below.start(w, r, x))
    }

    #[tactic(auto, using(crate::proofs::Renumberings::number_inside, crate::proofs::Renumberings::same_number, crate::proofs::Renumberings::number_of_position))]
    fn finish(&mut self, writer: u8) -> Result<(), Refusal> {
        let w = self.below_of::<R>(writer);
        deepen_answer(self.below.finish(w))
    }

    fn mark(&mut self, writer: u8, reader: u8, mark: Mark) -> Result<(), Refusal> {
        let (w, r) = self.cell_below::<R>(writer, reader);
        deepen_answer(self.below.mark(w, r, mark))
    }

    #[tactic(auto, using(crate::proofs::Renumberings::number_inside))]
    fn place(&self, writer: u8, reader: u8) -> Result<Place, Refusal> {
        let (w, r) = self.cell_below::<R>(writer, reader);
        deepen_located(self.below.place(w, r))
    }
}
