// Layers: devices that stand on another device. Each refuses wrong lengths and ranges itself, at level 0, and passes
// the refusals of the device beneath on, one level up. Size, geometry and the device beneath are a line in each: a trait of
// layers would ask each of them for as many lines.
#![tactic(auto)]

// What a layer makes of the answers of the device beneath.
pub mod answers;
// Some sectors of a device, as a device.
pub mod window;
// A device that counts the transfers.
pub mod counting;

pub use answers::passed_on;
pub use counting::Counting;
pub use window::{Span, Window};
