// What holds of every bank, in the words of cells: a call whose contract carries the laws.
ghost use Rattle.std.specs.Prelude.{◌≡◌};
ghost use Rattle.banks.specs.Meanings.{Meaning, filled};
ghost use Rattle.banks.specs.Histories.{RegularFrom, Undisturbed};

use crate::bank::Bank;

// Fills a bank. After whatever calls follow, its cells are regular, and no call on one writer's cells changes what reads of another's may answer.
pub fn fill_regular<R: Copy, B: Bank<R>>(bank: &mut B, x: R)
    ensures after { B.Bank.meaning bank.new ≡ filled (B.Bank.meaning bank.old) x }
    ensures regular { RegularFrom (B.Bank.meaning bank.old) x }
    ensures undisturbed { (m : Meaning R) → Undisturbed m }
{
    bank.fill(x);
}
