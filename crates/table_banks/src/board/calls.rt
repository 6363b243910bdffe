// A board's table: where the records of its cells stand.
ghost use Rattle.std.specs.Prelude.{◌≡◌, ◌≤◌, true, vec_items, vec_len};
ghost use Rattle.table_banks.specs.Notes.{seen};
ghost use Rattle.table_banks.specs.Boards.{board_needs, board_held, board_rest};
ghost use Rattle.table_banks.specs.Bottoms.{spare};

use crate::board::{BoardLine, BoardTable};
use crate::lines::{fill_front, line_at};
use crate::notes::Notes;
use crate::table::Table;
use banks::bank::Mark;

impl<R: Copy> Table for BoardTable<R> {
    type Record = R;

    type Line = BoardLine<R>;

    ghost holds = { board_held };

    ghost lines_of = { λ t. vec_items t.lines };

    ghost spare_lines = { board_rest };

    ghost needs = { board_needs };

    const ANSWERS_OPEN: bool = true;

    ghost ANSWERS_OPEN = { true };

    ghost stationed = { λ t. t.notes.range };

    fn needed(stations: u8) -> usize {
        stations as usize * stations as usize
    }

    fn over(notes: Notes, lines: Vec<BoardLine<R>>) -> Self
        requires { board_needs notes.count ≤ vec_len lines }
        ensures noted { seen result.notes ≡ seen notes }
        ensures kept { board_rest result ≡ spare (board_needs notes.count) lines.items }
    {
        BoardTable { notes, lines }
    }

    fn into_lines(self) -> Vec<BoardLine<R>> {
        let BoardTable { notes: _, lines } = self;
        lines
    }

    fn notes(&self) -> &Notes {
        &self.notes
    }

    fn settled(&self, writer: u8, reader: u8) -> R {
        line_at(&self.lines, self.notes.cell_line(writer, reader)).settled
    }

    fn opened(&self, writer: u8, reader: u8) -> R {
        line_at(&self.lines, self.notes.cell_line(writer, reader)).opened
    }

    fn refill(&mut self, x: R) {
        let cells = Self::needed(self.notes.stations());
        let line = BoardLine {
            settled: x,
            opened: x,
        };
        fill_front(&mut self.lines, cells, line);
        self.notes.reset();
    }

    fn put_open(&mut self, writer: u8, reader: u8, x: R) {
        let i = self.notes.cell_line(writer, reader);
        self.lines[i].opened = x;
        self.notes.note_reader(writer, Some(reader));
    }

    fn settle(&mut self, writer: u8, reader: u8, x: R) {
        let i = self.notes.cell_line(writer, reader);
        self.lines[i].settled = x;
        self.notes.note_reader(writer, None);
    }

    fn put_mark(&mut self, writer: u8, reader: u8, mark: Mark) {
        self.notes.note_mark(writer, reader, mark);
    }
}
