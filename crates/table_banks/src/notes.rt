// What a bank at the bottom notes beside its records.
ghost use Rattle.std.specs.Prelude.{◌≡◌, ℕ, ◌≤◌, Some, None, slice_index_or};

use banks::bank::Mark;

mod calls;

// The station count; for every writer the reader of its open record; for every cell its mark, 16 cells to a writer.
// The lists are arrays for 16 stations, since banks allocate nothing.
#[derive(Drop)]
pub struct Notes {
    count: u8,
    readers: [Option<u8>; 16],
    marks: [Mark; 256],
    ghost range: { (1 ≤ count) × (count ≤ 16) },
    ghost within: { (i r : ℕ) → slice_index_or readers i None ≡ Some r → (1 ≤ r) × (r ≤ count) },
}
