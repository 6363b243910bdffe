// Making a permutation of a list, and looking into it.
ghost use Rattle.std.specs.Prelude.{◌≡◌, ℕ, ◌+◌, ◌-◌, ◌<◌, ◌≤◌, length, if◌then◌else◌, Some, None, MatchOption, ◌≢◌, slice_index};
ghost use Rattle.layers.specs.Numberings.{numbering};
ghost use Rattle.layers.specs.Permutations.{look, listed, Stands, Holds, Pairs};

use crate::permutation::Permutation;

// The position of a number in a list, from 1. None if it does not stand there.
fn position(list: &[u8], number: u8) -> Option<u8>
    requires { length list.now ≤ 16 }
    ensures { MatchOption result ((i : ℕ) → i < length list.now → slice_index list.now i ≢ number) (Stands (length list.now) list.now number) }
{
    list.iter().position(|x| *x == number).map(|i| i as u8 + 1)
}

// The position of every number from 1 to the list's length. None if one does not stand there.
fn positions(list: &[u8]) -> Option<[u8; 16]>
    requires { length list.now ≤ 16 }
    ensures { MatchOption result (Holds (length list.now) list.now → ⊥) (λ ps. Pairs (length list.now) ps list.now) }
{
    let mut found = [0; 16];
    let places = &mut found[..list.len()];
    for (v, place) in places.iter_mut().enumerate() {
        *place = position(list, v as u8 + 1)?;
    }
    Some(found)
}

impl Permutation {
    // The list's first places, with the way back. None if they do not hold the numbers from 1 to a size, each once.
    pub fn from_list(list: &[u8], size: u8) -> Option<Permutation>
        requires { size ≤ 16 }
        ensures { numbering result ≡ (if listed size list.now then Some (size, look size list.now) else None) }
    {
        let list = list.get(..size as usize)?;
        let there = positions(list)?;
        // The positions of the positions are the list again.
        let back = positions(&there[..size as usize])?;
        Some(Permutation {
            size,
            numbers: back,
            positions: there,
        })
    }

    pub fn size(&self) -> u8
        ensures { result ≡ self.now.size }
    {
        self.size
    }

    // The number at a position. What is no position is its own number.
    pub fn number(&self, position: u8) -> u8
        ensures { result ≡ look self.now.size self.now.numbers position }
    {
        if (1..=self.size).contains(&position) {
            self.numbers[position as usize - 1]
        } else {
            position
        }
    }

    // The way back.
    pub fn inverse(&self) -> Permutation
        ensures size { result.size ≡ self.now.size }
        ensures numbers { result.numbers ≡ self.now.positions }
        ensures positions { result.positions ≡ self.now.numbers }
    {
        Permutation {
            size: self.size,
            numbers: self.positions,
            positions: self.numbers,
        }
    }
}
