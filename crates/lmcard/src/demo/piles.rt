// A window over a cache over a counting layer over an image: what goes through, and what it costs beneath.
use super::transfers;
use crate::failure::Failure;
use crate::geometry::image_geometry;
use caching::Cache;
use device::SectorDevice;
use layers::{Counting, Span, Window};
use stores::ImageDevice;

pub(crate) fn run(rt: &HostRuntime) -> Result<(), Failure> {
    println!(rt;
        "a window of 8 sectors from sector 100 on, over a cache, over an image of 130 sectors"
    )?;
    let mut bytes = vec![in rt.alloc(); 0u8; 512 * 130]?;
    let image = ImageDevice::new(&mut bytes, image_geometry(130));
    let mut pile = Window::new(
        Cache::new(Counting::new(image)),
        Span {
            first: 100,
            count: 8,
        },
    );
    transfers::write(rt, &mut pile, 3, 0x5A)?;
    transfers::read(rt, &mut pile, 3)?;
    transfers::read(rt, &mut pile, 7)?;
    transfers::read(rt, &mut pile, 7)?;
    transfers::read(rt, &mut pile, 8)?;
    let mut counting = pile.into_beneath().into_beneath();
    println!(rt;
        "beneath the cache: {} reads, {} writes",
        counting.reads(),
        counting.writes()
    )?;
    println!(rt; "in the image:")?;
    transfers::read(rt, &mut counting, 103)
}
