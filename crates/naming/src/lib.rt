// The jobs of a card by their names, over any device.
#![tactic(auto)]

// Jobs by their names.
pub mod named;

pub use named::{find_job, find_named, find_shut, is_open, padded};
