// Card devices: the interface that every make keeps, and the faults that it may name.
#![tactic(auto)]

// Who refused what: causes, acts, faults and their levels; the geometry.
pub mod faults;
// A fault as text.
mod fault_text;
// Sectors of zeros.
pub mod sectors;
// The interface: a device of sectors, and what it means.
pub mod sector_device;
// A lent device is a device.
pub mod lent;

pub use faults::{Act, Cause, Fault, Geometry, check_transfer};
pub use sector_device::SectorDevice;
pub use sectors::zero_sector;
