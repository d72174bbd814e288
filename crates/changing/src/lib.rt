// The calls of a card that change it, over any device: each as its plan says. Device and memory stay two parameters, as
// device and layout do in volume, whose functions take the one without the other.
#![tactic(auto)]

// Mounting a card.
pub mod mounting;
// Erasing, renaming and bringing back.
pub mod erasing;
// Wiping, and the end of wipes that were cut off.
pub mod wiping;

pub use erasing::{erase, rename, undelete};
pub use mounting::mount;
pub use wiping::{sweep, wipe};
