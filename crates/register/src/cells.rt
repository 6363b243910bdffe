// Collecting and spreading: the cell work of one step, for every stamp, value and bank.
ghost use Rattle.std.specs.Prelude.{◌≡◌, ℕ, Bool, Result, Err, IfErr};
ghost use Rattle.policy.specs.declared.refusal.Refusal.{Refusal};
ghost use Rattle.banks.specs.Meanings.{Meaning, read};
ghost use Rattle.banks.specs.declared.record.Record.{Record};
ghost use Rattle.machine.specs.Machines.{record_of};
ghost use Rattle.machine.specs.declared.line.Line.{Line};
ghost use Rattle.register.specs.CellWork.{collect_cell, collect_into, spread_cell};

use banks::bank::Bank;
use banks::record::Record;
use machine::line::{Kind, Line};
use policy::refusal::Refusal;
use stamps::Stamp;

// Reads the cell of a writer, and gives the line of the station that reads it: with the greater stamp, and a read's with its value.
pub fn collect<S: Stamp, V: Copy, B: Bank<Record<S, V>>>(
    bank: &mut B,
    writer: u8,
    station: u8,
    line: Line<S, V>,
) -> Result<Line<S, V>, Refusal>
    ensures { ◌≡◌ {A = Result (Line S V) Refusal × Meaning (Record S V)} (result, B.Bank.meaning bank.new) (collect_cell S.Stamp.make (B.Bank.meaning bank.old) (B.Bank.chooses bank.old writer station) writer station line) }
{
    let mut met = line;
    collect_into(bank, writer, station, &mut met)?;
    Ok(met)
}

// Reads the cell of a writer into the line of the station that reads it: the line takes a greater stamp, and a read's line its value too.
pub(crate) fn collect_into<S: Stamp, V: Copy, B: Bank<Record<S, V>>>(
    bank: &mut B,
    writer: u8,
    station: u8,
    line: &mut Line<S, V>,
) -> Result<(), Refusal>
    ensures call { ◌≡◌ {A = Result (Unit {0}) Refusal × Line S V × Meaning (Record S V)} (result, line.new, B.Bank.meaning bank.new) (collect_into S.Stamp.make (B.Bank.meaning bank.old) (B.Bank.chooses bank.old writer station) writer station line.old) }
    ensures refused { IfErr result (λ e. (read (B.Bank.meaning bank.old) (B.Bank.chooses bank.old writer station) writer station).0 ≡ Err e) }
{
    let met = bank.read(writer, station)?;
    if line.stamp.smaller(&met.tag) {
        line.stamp = met.tag;
        match line.kind {
            Kind::Write => {}
            Kind::Read => line.value = met.value,
        }
    }
    Ok(())
}

// Starts the cell that a station writes for a reader, with the record of its line.
pub fn spread<S: Copy, V: Copy, B: Bank<Record<S, V>>>(
    bank: &mut B,
    station: u8,
    reader: u8,
    line: &Line<S, V>,
) -> Result<(), Refusal>
    ensures { ◌≡◌ {A = Result (Unit {0}) Refusal × Meaning (Record S V)} (result, B.Bank.meaning bank.new) (spread_cell (B.Bank.meaning bank.old) station reader line.now) }
{
    bank.start(station, reader, record(line))
}

// The record of a line.
pub(crate) fn record<S: Copy, V: Copy>(line: &Line<S, V>) -> Record<S, V>
    ensures { result ≡ record_of line.now }
{
    Record {
        tag: line.stamp,
        value: line.value,
    }
}
