// The calls of a card on its open job, over any device: each as its plan says.
#![tactic(auto)]

// Bytes gathered behind the open job.
pub mod gathering;
// Opening a job.
pub mod opening;
// Putting, committing and finishing.
pub mod streaming;

pub use opening::open;
pub use streaming::{commit, finish, put};
