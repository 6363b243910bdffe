// A page: text in fixed memory, so that no line is cut for want of memory.
use arrayvec::ArrayVec;

mod calls;
mod words;

// How many bytes a page has.
const SIZE: usize = 131072;

// A page with at most so much text has room for the line of every command: 128 bytes and 139 for each of 512 journal lines.
const FULL: usize = 59776;

#[derive(Drop)]
pub struct Page {
    text: ArrayVec<u8, SIZE>,
}
