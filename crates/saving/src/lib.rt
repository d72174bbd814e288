// Saving a whole job, over any device, as its plan says.
#![tactic(auto)]

// Slots for new jobs.
pub mod vacancy;
// Saving.
pub mod saving;

pub use saving::save;
