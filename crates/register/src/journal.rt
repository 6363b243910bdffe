// The journal, from its own crate.
pub use journal_lines::Journal;
