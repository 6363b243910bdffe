// The station table, from its own crate.
pub use station_table::Table;
