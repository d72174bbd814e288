// The calls of a card that look over its whole directory, over any device: each as its plan says.
#![tactic(auto)]

// A table that is offered a row, if there is one.
mod offering;
// The jobs of a card.
pub mod jobs;
// The first fault of an entry.
mod faults;
// Names that are live in a lower slot already.
mod names;
// The faults of a directory.
pub mod checks;

pub use checks::check;
pub use jobs::list;
