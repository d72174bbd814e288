// Directory entries: 32 bytes to and from a struct, what an entry says of its slot, and the entries that calls write.
#![tactic(auto)]

// The fields, and the bytes that store them.
pub mod entry;
// What an entry says of its slot.
pub mod state;

pub use entry::Entry;
pub use state::EntryState;
