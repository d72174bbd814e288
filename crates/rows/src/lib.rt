// Rows for the caller: a table over a slice of rows that the caller lends, and the kinds of row that fill it.
#![tactic(auto)]

// A table for every kind of row.
pub mod table;
// A row of a listing.
pub mod job_row;
// A row of a check.
pub mod finding;

pub use finding::{Finding, FindingKind};
pub use job_row::JobRow;
pub use table::RowTable;
