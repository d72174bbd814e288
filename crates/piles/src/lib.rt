// Piles: layers over a device that keeps its sectors, and what holds of them with nothing asked beforehand.
#![tactic(auto)]

// A window over a cache over an image.
pub mod window_cache_image;
// A window over a cache over a sparse card.
pub mod window_cache_sparse;
// A window over an image that is lent.
pub mod window_lent_image;

use device::Geometry;

// The geometry that the devices are given here, which nothing depends on.
const GEOMETRY: Geometry = Geometry {
    cylinders: 1,
    sectors_per_track: 1,
    heads: 1,
};

pub use window_cache_image::{write_and_read, write_through};
pub use window_cache_sparse::write_to_sparse;
pub use window_lent_image::write_lent;
