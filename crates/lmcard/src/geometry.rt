// The geometry that an image file stands for: the file has none, so it is told from the size, with 16 heads and 32
// sectors a track.
ghost use Rattle.std.specs.Prelude.{◌≡◌};
ghost use Rattle.lmcard.specs.Geometry.{geometry_of};

use device::Geometry;

pub(crate) fn image_geometry(sectors: u32) -> Geometry
    ensures { result ≡ geometry_of sectors }
{
    Geometry {
        cylinders: (sectors / 512).min(65_535) as u16,
        sectors_per_track: 32,
        heads: 16,
    }
}
