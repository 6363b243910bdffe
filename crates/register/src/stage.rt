// The stages of an operation, from the crate of the station table.
pub use station_table::stage::Stage;
