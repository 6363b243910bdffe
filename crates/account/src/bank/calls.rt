// Making a bank of either kind, and what is done over it.
ghost use Rattle.std.specs.Prelude.{◌≡◌, ◌*◌, ◌≤◌, IfOk, Result};
ghost use Rattle.policy.specs.declared.refusal.Refusal.{Refusal};
ghost use Rattle.banks.specs.Meanings.{Meaning};
ghost use Rattle.stamps.specs.Pairs.{pair_make};
ghost use Rattle.table_banks.specs.Boards.{board_meaning};
ghost use Rattle.table_banks.specs.Posts.{post_meaning};
ghost use Rattle.register.specs.Makings.{making, seen_made};
ghost use Rattle.register.specs.Seen.{seen};
ghost use Rattle.account.specs.Games.{Answer, Played, carried};
ghost use Rattle.heap_banks.specs.Made.{kept, banked, bank_for};
ghost use Rattle.account.specs.Founded.{Cell, bank_meaning, choice_of, open_first};

use crate::bank::AnyBank;
use crate::carry::carry_out;
use crate::found::{LINES, Plan};
use crate::game::{Cell, Entry, PairRegister};
use crate::outcome::Outcome;
use banks::bank::Bank;
use commands::bank::BankKind;
use commands::command::Command;
use heap_banks::make::{board, post};
use heap_banks::stop::Stop;
use policy::entry::PolicyNumber;
use policy::refusal::Refusal;
use register::journal::Journal;
use register::register::Register;
use std::alloc::Global;

// A register over the bank, with an empty journal in the lines.
fn make_over<B: Bank<Cell>>(
    bank: &mut B,
    lines: &mut [Entry],
    plan: Plan,
) -> Result<PairRegister, Refusal>
    ensures { ◌≡◌ {A = Result Played Refusal × Meaning Cell} (seen_made result (B.Bank.meaning bank.new) lines.new, B.Bank.meaning bank.new) (making pair_make (B.Bank.meaning bank.old) plan.stations plan.count plan.value lines.old 512) }
{
    let journal = Journal::new(lines);
    Register::make(
        bank,
        &journal,
        plan.stations,
        u64::from(plan.count),
        plan.value,
        LINES as u64,
    )
}

impl AnyBank {
    // A bank of that kind filled with the record, or the refusal of its station count.
    pub(crate) fn new(heap: Global, kind: BankKind, stations: u8, x: Cell) -> Result<AnyBank, Stop>
        ensures made { IfOk (kept result) (λ a. banked bank_meaning a ≡ bank_for stations x) }
        ensures kind { IfOk result (λ b. choice_of b ≡ open_first kind) }
    {
        match kind {
            BankKind::Board => Ok(AnyBank::Board(board(heap, stations, x)?)),
            BankKind::Post => Ok(AnyBank::Post(post(heap, stations, x)?)),
        }
    }

    // A register over it, with an empty journal in the lines.
    pub(crate) fn make(&mut self, lines: &mut [Entry], plan: Plan) -> Result<PairRegister, Refusal>
        ensures made { ◌≡◌ {A = Result Played Refusal × Meaning Cell} (seen_made result (bank_meaning self.new) lines.new, bank_meaning self.new) (making pair_make (bank_meaning self.old) plan.stations plan.count plan.value lines.old 512) }
        ensures kind { choice_of self.new ≡ choice_of self.old }
    {
        match self {
            AnyBank::Board(board) => make_over(board, lines, plan),
            AnyBank::Post(post) => make_over(post, lines, plan),
        }
    }

    // What a command comes to on a register over it.
    pub(crate) fn carry(
        &mut self,
        register: &mut PairRegister,
        lines: &mut [Entry],
        command: Command,
    ) -> Result<Outcome, Refusal>
        ensures carried { ◌≡◌ {A = Answer × Played} (result, seen register.new (bank_meaning self.new) lines.new) (carried (choice_of self.old) (seen register.old (bank_meaning self.old) lines.old) command) }
        ensures kind { choice_of self.new ≡ choice_of self.old }
    {
        match self {
            AnyBank::Board(board) => carry_out(register, board, lines, command),
            AnyBank::Post(post) => carry_out(register, post, lines, command),
        }
    }
}
