// A register that is made, with its bank and the lines of its journal.
ghost use Rattle.std.specs.Prelude.{◌≡◌, vec_len};

use crate::bank::AnyBank;
use banks::record::Record;
use machine::line::Line;
use policy::entry::PolicyNumber;
use register::register::Register;
use stamps::PairStamp;

// What a cell holds, a line of the journal, and the register over both.
pub type Cell = Record<PairStamp, PolicyNumber>;

pub type Entry = Line<PairStamp, PolicyNumber>;

pub type PairRegister = Register<PairStamp, PolicyNumber>;

#[derive(Drop)]
pub struct Game {
    pub register: PairRegister,
    pub bank: AnyBank,
    pub lines: Vec<Entry>,
    ghost sized: { vec_len lines ≡ 512 },
}
