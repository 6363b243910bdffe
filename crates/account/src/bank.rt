// The bank of a game: a board or a post.
use crate::game::Cell;
use table_banks::board::Board;
use table_banks::post::Post;

mod calls;

#[derive(Drop)]
pub enum AnyBank {
    Board(Board<Cell>),
    Post(Post<Cell>),
}
