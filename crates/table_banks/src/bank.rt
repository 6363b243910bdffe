// The banks at the bottom of a pile: each is a table, whose kind says where the records of its cells stand.
use crate::table::Table;

pub mod calls;

// A bank over a table of the type T.
#[derive(Drop)]
pub struct TableBank<T> {
    table: T,
}
