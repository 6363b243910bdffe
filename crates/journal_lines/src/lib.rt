// The journal: a list over a handed slice, for every line that can be copied.
#![tactic(auto)]

ghost use Rattle.std.specs.Prelude.{◌≡◌, ◌-◌, length, if◌then◌else◌, Ok, Err, nat_le, slice_set};
ghost use Rattle.std.specs.List.{slice_get};
ghost use Rattle.policy.specs.declared.refusal.Refusal.TheVariants.{JournalSize};

use policy::refusal::Refusal;

// Lines are numbered from 1.
#[derive(Drop)]
pub struct Journal<'a, L> {
    lines: &'a mut [L],
}

impl<'a, L: Copy> Journal<'a, L> {
    pub fn new(lines: &'a mut [L]) -> Journal<'a, L>
        ensures value { result.lines.now ≡ lines.old }
        ensures lender { result.lines.ghost_name ≡ lines.entry.ghost_name }
    {
        Journal { lines }
    }

    // Refused by 8 where there are fewer lines than that.
    pub fn holds(&self, size: u64) -> Result<(), Refusal>
        ensures { result ≡ (if nat_le size (length self.now.lines.now) then Ok tt else Err JournalSize) }
    {
        if size <= self.lines.len() as u64 {
            Ok(())
        } else {
            Err(Refusal::JournalSize)
        }
    }

    // The line with that number.
    pub fn line(&self, number: u64) -> Option<L>
        ensures { result ≡ slice_get self.now.lines.now (number - 1) }
    {
        self.lines.get(number.saturating_sub(1) as usize).copied()
    }

    // Replaces the line with that number; nothing changes where there is none.
    // That the slice is still the one that was lent speaks of before and after, so it is a clause of each call that writes, and no invariant.
    pub fn put(&mut self, number: u64, line: L)
        ensures after { self.new.lines.now ≡ slice_set self.old.lines.now (number - 1) line }
        ensures lender { self.new.lines.ghost_name ≡ self.old.lines.ghost_name }
    {
        // an index, since a proof knows no element of a slice after its `get_mut`
        let at = number.saturating_sub(1) as usize;
        if at < self.lines.len() {
            self.lines[at] = line;
        }
    }
}
