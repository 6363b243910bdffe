// Making a split, and its calls as a bank.
ghost use Rattle.std.specs.Prelude.{◌≡◌, if◌then◌else◌};
ghost use Rattle.layers.specs.Splits.{split_of, first_of, split_made};
ghost use Rattle.std.proofs.Common.{rules};

use crate::layer::{deepen_answer, deepen_located};
use crate::split::Split;
use banks::bank::{Bank, Mark};
use policy::refusal::{Place, Refusal};

impl<B, C> Split<B, C> {
    // Two banks of the same station count, split at a point from 0 to that count. Refused by 5, 7, and the banks then come back as they were.
    pub fn new<R: Copy>(first: B, second: C, point: u8) -> Result<Split<B, C>, (Refusal, B, C)>
    where
        B: Bank<R>,
        C: Bank<R>,
        ensures { result ≡ split_made (B.Bank.meaning first).stations (C.Bank.meaning second).stations first second point }
    {
        let stations = first.stations();
        if stations != second.stations() {
            return Err((Refusal::CountsDiffer, first, second));
        }
        if point > stations {
            return Err((Refusal::SplitPoint, first, second));
        }
        Ok(Split {
            first,
            second,
            point,
        })
    }

    // The two banks back.
    pub fn into_banks(self) -> (B, C)
        ensures { ◌≡◌ {A = B × C} result (self.first, self.second) }
    {
        let Split {
            first,
            second,
            point: _,
        } = self;
        (first, second)
    }

    // Whether a writer's cells lie in the first bank. The banks are of two types, so each call below is written once for each.
    fn lies_first<R: Copy>(&self, writer: u8) -> bool
    where
        B: Bank<R>,
        C: Bank<R>,
        ensures { result ≡ first_of B.Bank.meaning C.Bank.meaning self.now writer }
    {
        writer <= self.point || self.first.stations() != self.second.stations()
    }
}

impl<R: Copy, B: Bank<R>, C: Bank<R>> Bank<R> for Split<B, C> {
    ghost meaning = { split_of B.Bank.meaning C.Bank.meaning };

    ghost chooses = { λ s w r. (if first_of B.Bank.meaning C.Bank.meaning s w then B.Bank.chooses s.first w r else C.Bank.chooses s.second w r) };

    ghost stationed = { Prim.search rules };

    fn stations(&self) -> u8 {
        self.first.stations()
    }

    fn fill(&mut self, x: R) {
        self.first.fill(x);
        self.second.fill(x);
    }

    fn read(&mut self, writer: u8, reader: u8) -> Result<R, Refusal> {
        if self.lies_first::<R>(writer) {
            deepen_answer(self.first.read(writer, reader))
        } else {
            deepen_answer(self.second.read(writer, reader))
        }
    }

    fn start(&mut self, writer: u8, reader: u8, x: R) -> Result<(), Refusal> {
        if self.lies_first::<R>(writer) {
            deepen_answer(self.first.start(writer, reader, x))
        } else {
            deepen_answer(self.second.start(writer, reader, x))
        }
    }

    fn finish(&mut self, writer: u8) -> Result<(), Refusal> {
        if self.lies_first::<R>(writer) {
            deepen_answer(self.first.finish(writer))
        } else {
            deepen_answer(self.second.finish(writer))
        }
    }

    fn mark(&mut self, writer: u8, reader: u8, mark: Mark) -> Result<(), Refusal> {
        if self.lies_first::<R>(writer) {
            deepen_answer(self.first.mark(writer, reader, mark))
        } else {
            deepen_answer(self.second.mark(writer, reader, mark))
        }
    }

    fn place(&self, writer: u8, reader: u8) -> Result<Place, Refusal> {
        if self.lies_first::<R>(writer) {
            deepen_located(self.first.place(writer, reader))
        } else {
            deepen_located(self.second.place(writer, reader))
        }
    }
}
