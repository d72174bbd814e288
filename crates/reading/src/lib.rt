// The calls of a card that read the bytes of its jobs, over any device: each as its plan says.
#![tactic(auto)]

// What load tells of a job.
pub mod job_info;
// The bytes of a slot's block.
pub mod blocks;
// Loading a job, and reading it from a place on.
pub mod loading;
// Comparing two jobs.
pub mod comparing;

pub use blocks::read_into;
pub use comparing::same;
pub use job_info::JobInfo;
pub use loading::{load, read};
