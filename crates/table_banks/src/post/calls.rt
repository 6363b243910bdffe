// A post's table: where the records of its cells stand.
ghost use Rattle.std.specs.Prelude.{◌≡◌, ◌<◌, ◌≤◌, true, false, vec_items, vec_len};
ghost use Rattle.banks.specs.Meanings.{inside};
ghost use Rattle.table_banks.specs.Notes.{seen};
ghost use Rattle.table_banks.specs.Posts.{outgoing, post_needs, post_held, post_rest};
ghost use Rattle.table_banks.specs.Bottoms.{spare};

use crate::lines::{fill_front, line_at};
use crate::notes::Notes;
use crate::post::PostTable;
use crate::table::Table;
use banks::bank::Mark;

// Where a writer's outgoing record stands.
fn outgoing_line(notes: &Notes, writer: u8) -> usize
    requires { inside (seen notes.now).stations writer ≡ true }
    ensures place { result ≡ outgoing (seen notes.now).stations writer }
    ensures within { result < post_needs (seen notes.now).stations }
{
    let n = notes.stations() as usize;
    n * n + (writer as usize - 1)
}

impl<R: Copy> Table for PostTable<R> {
    type Record = R;

    type Line = R;

    ghost holds = { post_held };

    ghost lines_of = { λ t. vec_items t.lines };

    ghost spare_lines = { post_rest };

    ghost needs = { post_needs };

    const ANSWERS_OPEN: bool = false;

    ghost ANSWERS_OPEN = { false };

    ghost stationed = { λ t. t.notes.range };

    fn needed(stations: u8) -> usize {
        let n = stations as usize;
        n * n + n
    }

    fn over(notes: Notes, lines: Vec<R>) -> Self
        requires { post_needs notes.count ≤ vec_len lines }
        ensures noted { seen result.notes ≡ seen notes }
        ensures kept { post_rest result ≡ spare (post_needs notes.count) lines.items }
    {
        PostTable { notes, lines }
    }

    fn into_lines(self) -> Vec<R> {
        let PostTable { notes: _, lines } = self;
        lines
    }

    fn notes(&self) -> &Notes {
        &self.notes
    }

    fn settled(&self, writer: u8, reader: u8) -> R {
        line_at(&self.lines, self.notes.cell_line(writer, reader))
    }

    fn opened(&self, writer: u8, _reader: u8) -> R {
        line_at(&self.lines, outgoing_line(&self.notes, writer))
    }

    fn refill(&mut self, x: R) {
        let needed = Self::needed(self.notes.stations());
        fill_front(&mut self.lines, needed, x);
        self.notes.reset();
    }

    fn put_open(&mut self, writer: u8, reader: u8, x: R) {
        let i = outgoing_line(&self.notes, writer);
        self.lines[i] = x;
        self.notes.note_reader(writer, Some(reader));
    }

    fn settle(&mut self, writer: u8, reader: u8, x: R) {
        let i = self.notes.cell_line(writer, reader);
        self.lines[i] = x;
        self.notes.note_reader(writer, None);
    }

    fn put_mark(&mut self, writer: u8, reader: u8, mark: Mark) {
        self.notes.note_mark(writer, reader, mark);
    }
}
