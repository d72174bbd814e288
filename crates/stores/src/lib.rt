// Devices that keep their sectors themselves.
#![tactic(auto)]

// Every sector in bytes that the caller lends.
pub mod image;
// Some sectors in a table that the caller lends, the others zeros.
pub mod sparse;

pub use image::{ImageDevice, is_image_length};
pub use kept::KeptSector;
pub use sparse::{SparseDevice, is_sparse_size};
