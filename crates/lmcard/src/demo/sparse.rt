// A sparse card as large as cards get, with two places: filled until it refuses, and what it holds then.
use super::transfers;
use crate::failure::Failure;
use crate::geometry::image_geometry;
use caching::Cache;
use device::SectorDevice;
use layers::{Span, Window};
use stores::{KeptSector, SparseDevice};

pub(crate) fn run(rt: &HostRuntime) -> Result<(), Failure> {
    let sectors = 268_435_456;
    println!(rt; "a sparse card of {sectors} sectors with two places")?;
    let mut places = [None; 2];
    let mut card = SparseDevice::new(&mut places, sectors, image_geometry(sectors));
    transfers::write(rt, &mut card, 268_435_455, 0x11)?;
    transfers::write(rt, &mut card, 107, 0x22)?;
    transfers::write(rt, &mut card, 107, 0x00)?;
    println!(rt; "through a window from sector 100 on, over a cache:")?;
    let mut pile = Window::new(
        Cache::new(card),
        Span {
            first: 100,
            count: 8,
        },
    );
    transfers::write(rt, &mut pile, 2, 0x33)?;
    transfers::write(rt, &mut pile, 5, 0x44)?;
    transfers::read(rt, &mut pile, 2)?;
    println!(rt; "what the card holds then:")?;
    show_places(rt, pile.into_beneath().into_beneath().into_places())
}

fn show_places(rt: &HostRuntime, places: &[Option<KeptSector>]) -> Result<(), Failure> {
    for place in places {
        match place {
            Some(kept) => println!(rt;
                "  sector {}, begins with ${:02X}",
                kept.sector, kept.bytes[0]
            )?,
            None => println!(rt; "  a free place")?,
        }
    }
    Ok(())
}
