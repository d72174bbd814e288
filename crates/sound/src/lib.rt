// Devices that are sound whatever has been done to them: each value of their type is, so nobody has to show it first.
#![tactic(auto)]

// Makes each value of which is sound.
pub mod sound_device;
// A cache that is one of them.
pub mod sound_cache;

pub use sound_cache::SoundCache;
pub use sound_device::SoundDevice;
