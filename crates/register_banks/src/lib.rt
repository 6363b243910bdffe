// The steps of a register over a board and over a post. What these banks choose is known, so the machine's step has no choice left.
// Both are the generic step of the register at a bank: what each adds is what its bank chooses, so a third function would only stand between.
#![tactic(auto)]

ghost use Rattle.std.specs.Prelude.{◌≡◌, true, false, Option, Result};
ghost use Rattle.policy.specs.declared.refusal.Refusal.{Refusal};
ghost use Rattle.banks.specs.declared.record.Record.{Record};
ghost use Rattle.table_banks.specs.Boards.{board_meaning};
ghost use Rattle.table_banks.specs.Posts.{post_meaning};
ghost use Rattle.machine.specs.Machines.{Machine};
ghost use Rattle.machine.specs.Steps.{step as steps};
ghost use Rattle.register.specs.Reach.{Leads};
ghost use Rattle.register.specs.Seen.{seen};

use banks::record::Record;
use machine::line::Line;
use policy::refusal::Refusal;
use register::journal::Journal;
use register::register::Register;
use stamps::Stamp;
use table_banks::board::Board;
use table_banks::post::Post;

// A step over a board, whose reads answer the open record while there is one.
pub fn step_on_board<S: Stamp, V: Copy>(
    register: &mut Register<S, V>,
    board: &mut Board<Record<S, V>>,
    journal: &mut Journal<'_, Line<S, V>>,
    station: u8,
) -> Result<Option<Record<S, V>>, Refusal>
    ensures call { ◌≡◌ {A = Result (Option (Record S V)) Refusal × Machine S V} (result, seen register.new (board_meaning board.new) journal.new.lines.now) (steps S.Stamp.make (seen register.old (board_meaning board.old) journal.old.lines.now) true station) }
    ensures reached { Leads S.Stamp.make (seen register.old (board_meaning board.old) journal.old.lines.now) (seen register.new (board_meaning board.new) journal.new.lines.now) }
    ensures lender { journal.new.lines.ghost_name ≡ journal.old.lines.ghost_name }
{
    register.step(board, journal, station)
}

// A step over a post, whose reads answer the settled record.
pub fn step_on_post<S: Stamp, V: Copy>(
    register: &mut Register<S, V>,
    post: &mut Post<Record<S, V>>,
    journal: &mut Journal<'_, Line<S, V>>,
    station: u8,
) -> Result<Option<Record<S, V>>, Refusal>
    ensures call { ◌≡◌ {A = Result (Option (Record S V)) Refusal × Machine S V} (result, seen register.new (post_meaning post.new) journal.new.lines.now) (steps S.Stamp.make (seen register.old (post_meaning post.old) journal.old.lines.now) false station) }
    ensures reached { Leads S.Stamp.make (seen register.old (post_meaning post.old) journal.old.lines.now) (seen register.new (post_meaning post.new) journal.new.lines.now) }
    ensures lender { journal.new.lines.ghost_name ≡ journal.old.lines.ghost_name }
{
    register.step(post, journal, station)
}
