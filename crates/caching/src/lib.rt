// The cache: a layer that keeps up to four sectors of the device beneath, and writes through. Size, geometry and the device
// beneath are a line each, as in the other layers.
#![tactic(auto)]

pub mod cache;

pub use cache::Cache;
