// Marking a cell of a register's bank.
ghost use Rattle.std.specs.Prelude.{◌≡◌, List, Result};
ghost use Rattle.policy.specs.declared.refusal.Refusal.{Refusal};
ghost use Rattle.banks.specs.Marks.{is_up};
ghost use Rattle.banks.specs.Meanings.{Meaning, mark as marks};
ghost use Rattle.banks.specs.declared.record.Record.{Record};
ghost use Rattle.machine.specs.declared.line.Line.{Line};
ghost use Rattle.register.specs.Reach.{Leads};
ghost use Rattle.register.specs.Seen.{seen};
ghost use Rattle.register.specs.declared.register.Register.{Register};

use banks::bank::{Bank, Mark};
use banks::record::Record;
use policy::refusal::Refusal;
use stamps::Stamp;

// The bank's own call, which needs neither register nor journal. Refused by 4. Whatever register uses the bank, its run goes on.
pub fn mark<S: Stamp, V: Copy, B: Bank<Record<S, V>>>(
    bank: &mut B,
    writer: u8,
    reader: u8,
    mark: Mark,
) -> Result<(), Refusal>
    ensures call { ◌≡◌ {A = Result (Unit {0}) Refusal × Meaning (Record S V)} (result, B.Bank.meaning bank.new) (marks (B.Bank.meaning bank.old) writer reader (is_up mark)) }
    ensures reached { (r : Register S V) (lines : List (Line S V)) → Leads S.Stamp.make (seen r (B.Bank.meaning bank.old) lines) (seen r (B.Bank.meaning bank.new) lines) }
{
    bank.mark(writer, reader, mark)
}
