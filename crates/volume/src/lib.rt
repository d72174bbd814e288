// The calls' inner steps over any device.
// Device and layout stay two parameters: in a struct of both each clause would name the device by a longer path, and one more
// would have to say that the device is still the caller's.
#![tactic(auto)]

// The open job as the program keeps it.
pub mod open_job;
// What the program keeps of a card.
pub mod memory;
// What a pass over the directory finds.
pub mod found;
// The directory, one slot at a time.
pub mod directory;
// The sectors of a slot's block.
pub mod data;
// Passes over the directory.
pub mod search;

pub use data::{block_sector, write_data, zero_block};
pub use directory::{entry_in, read_entry, resize_entry, turn_to, write_entry};
pub use found::{Found, Scan};
pub use memory::Memory;
pub use open_job::OpenJob;
pub use search::{find, scan};
