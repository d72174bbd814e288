// The card format as bytes: sizes, words, names and the master sector. Nothing here touches a device.
#![tactic(auto)]

// Words and double words in a run of bytes.
pub mod words;
// Where everything lies on a card of so many sectors.
pub mod sizes;
// Sectors for a number of bytes.
pub mod extents;
// Names of cards and jobs.
pub mod names;
// Disk ids.
pub mod disk_ids;
// The label: what the master sector says of a card.
pub mod label;
// The worked figures, as one proof.
pub mod figures;

pub use disk_ids::DiskId;
pub use extents::{extent, job_size};
pub use figures::figures_hold;
pub use label::Label;
pub use names::{Name, is_name_byte};
pub use sizes::{EntryPlace, Layout, entry_place};
