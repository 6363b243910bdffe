// Making a page, and reading what it holds.
ghost use Rattle.std.specs.Prelude.{◌≡◌, ◌≤◌, [], length, nat_le};
ghost use Rattle.account.specs.Pages.{shown, filled};

use crate::page::{FULL, Page};
use arrayvec::ArrayVec;

impl Page {
    // An empty page.
    pub fn new() -> Page
        ensures { shown result ≡ [] }
    {
        Page {
            text: ArrayVec::new(),
        }
    }

    // The text in it.
    pub fn text(&self) -> &[u8]
        ensures value { result.now ≡ shown self.now }
        ensures fits { length result.now ≤ 131072 }
    {
        self.text.as_slice()
    }

    // Empties it.
    pub(crate) fn clear(&mut self)
        ensures { shown self.new ≡ [] }
    {
        self.text.clear();
    }

    // Whether there is room for the line of another command.
    pub(crate) fn has_room(&self) -> bool
        ensures { result ≡ nat_le (filled self.now) 59776 }
    {
        self.text.len() <= FULL
    }
}
