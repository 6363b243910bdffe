// Outcomes and journal lines written into a page, behind the text that it holds.
// They are written as bytes: of a `write!` no contract says when it succeeds, and a line must not fail.
ghost use Rattle.std.specs.Prelude.{◌≡◌, ◌+◌, ◌*◌, ◌≤◌, ◌++◌, ◌∷◌, length, codes, decimal};
ghost use Rattle.account.specs.Founded.{game_of, game_said};
ghost use Rattle.account.specs.Pages.{shown, filled, Room, Appends};
ghost use Rattle.account.specs.Words.{line as line_of, refusal_said, record_said, kind_said, state_said, line_said, journal_said, list_said};

use crate::game::{Entry, Game};
use crate::outcome::Outcome;
use crate::page::Page;
use itoa::write_digits;
use machine::line::{Kind, LineState};
use policy::entry::PolicyNumber;
use policy::refusal::Refusal;
use stamps::{PairStamp, Stamp};

// The most digits that a number of 64 bits has.
const DIGITS: usize = 20;

// The beginning of a journal line.
fn kind_word(kind: Kind) -> &'static [u8]
    ensures text { result.now ≡ codes "\n" ++ (kind_said kind ++ codes " ") }
    ensures long { length result.now ≤ 3 }
{
    match kind {
        Kind::Write => b"\nW ",
        Kind::Read => b"\nR ",
    }
}

fn state_word(state: LineState) -> &'static [u8]
    ensures text { result.now ≡ codes " " ++ (state_said state ++ codes " ") }
    ensures long { length result.now ≤ 12 }
{
    match state {
        LineState::Collecting => b" collecting ",
        LineState::Spreading => b" spreading ",
        LineState::Done => b" done ",
        LineState::Spent => b" spent ",
    }
}

impl Page {
    // Appends a word.
    fn word(&mut self, word: &[u8])
        requires { Room self.old (length word.now) }
        ensures { Appends self.old self.new word.now (length word.now) }
    {
        self.text.try_extend_from_slice(word).unwrap();
    }

    // A number, of at most 20 digits. One digit is appended by itself, since most numbers of an account have one.
    fn decimal(&mut self, number: u64)
        requires { Room self.old 20 }
        ensures { Appends self.old self.new (decimal number) 20 }
    {
        if number < 10 {
            self.text.push(b'0' + number as u8);
        } else {
            let mut digits = [0; DIGITS];
            let start = write_digits(number, &mut digits, DIGITS);
            self.word(&digits[start..]);
        }
    }

    // A word and a number.
    fn field(&mut self, word: &[u8], number: u64)
        requires { Room self.old (length word.now + 20) }
        ensures { Appends self.old self.new (word.now ++ decimal number) (length word.now + 20) }
    {
        self.word(word);
        self.decimal(number);
    }

    // A separator of one byte and a number. One digit is appended with it, since each append costs as much.
    fn after(&mut self, separator: u8, number: u64)
        requires { Room self.old 21 }
        ensures { Appends self.old self.new (separator ∷ decimal number) 21 }
    {
        if number < 10 {
            self.word(&[separator, b'0' + number as u8]);
        } else {
            self.word(&[separator]);
            self.decimal(number);
        }
    }

    // A stamp as count, full stop, owner; and a value.
    fn record(&mut self, stamp: PairStamp, value: PolicyNumber)
        requires { Room self.old 62 }
        ensures { Appends self.old self.new (record_said stamp value) 62 }
    {
        self.decimal(stamp.count());
        self.after(b'.', u64::from(stamp.owner()));
        self.after(b' ', u64::from(value.0));
    }

    // A journal line on a line of its own: W or R, station, state, stamp, value, opened, ended.
    fn line(&mut self, line: &Entry)
        requires { Room self.old 139 }
        ensures { Appends self.old self.new (codes "\n" ++ line_said line.now) 139 }
    {
        self.field(kind_word(line.kind), u64::from(line.station));
        self.word(state_word(line.state));
        self.record(line.stamp, line.value);
        self.after(b' ', line.opened);
        self.after(b' ', line.ended);
    }

    // A refusal by its number; 15 also by its place.
    fn refusal(&mut self, refusal: Refusal)
        requires { Room self.old 86 }
        ensures { Appends self.old self.new (refusal_said refusal) 86 }
    {
        self.field(b"no ", u64::from(refusal.number()));
        if let Refusal::Unreachable((depth, writer, reader)) = refusal {
            self.after(b' ', u64::from(depth));
            self.after(b' ', u64::from(writer));
            self.after(b' ', u64::from(reader));
        }
    }

    // The lines of a journal, each on a line of its own.
    #[tactic(auto, using(crate::proofs::Listing::journal_more, crate::proofs::Listing::journal_all))]
    fn journal(&mut self, lines: &[Entry])
        requires { Room self.old (139 * length lines.now) }
        ensures { Appends self.old self.new (journal_said lines.now) (139 * length lines.now) }
    {
        for line in lines {
            self.line(line);
        }
    }

    // How many lines are in use, and these lines.
    fn list(&mut self, used: u64, lines: &[Entry])
        requires { Room self.old (26 + 139 * length lines.now) }
        ensures { Appends self.old self.new (list_said used lines.now) (26 + 139 * length lines.now) }
    {
        self.field(b"lines ", used);
        let count = lines.len().min(used as usize);
        self.journal(&lines[0..count]);
    }

    // The words of an outcome, or of the refusal, that left the game so.
    fn answer(&mut self, answer: Result<Outcome, Refusal>, game: &Option<Game>)
        requires { Room self.old 71268 }
        ensures { Appends self.old self.new (game_said answer (game_of game.now)) 71268 }
    {
        match answer {
            Ok(Outcome::Accepted) => self.word(b"ok"),
            Ok(Outcome::Done(record)) => {
                self.word(b"done ");
                self.record(record.tag, record.value);
            }
            Ok(Outcome::Listed) => match game {
                Some(game) => self.list(game.register.used(), &game.lines),
                None => self.list(0, &[]),
            },
            Err(refusal) => self.refusal(refusal),
        }
    }

    // The line of a command: its number and what it came to.
    pub(crate) fn put(&mut self, number: u64, answer: Result<Outcome, Refusal>, game: &Option<Game>)
        requires { filled self.old ≤ 59776 }
        ensures { shown self.new ≡ shown self.old ++ line_of number (game_said answer (game_of game.now)) }
    {
        self.decimal(number);
        self.word(b" ");
        self.answer(answer, game);
        self.word(b"\n");
    }
}
