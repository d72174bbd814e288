// A window over a cache over a sparse card: a refusal by the card comes up two levels, and names the card's own sector.
ghost use Rattle.std.specs.Prelude.{length};
ghost use Rattle.layers.specs.Window.{window_count};
ghost use Rattle.stores.specs.Sparse.{sparse_count};
ghost use Rattle.piles.specs.WindowCacheSparse.{WrittenOrFull};

use crate::GEOMETRY;
use caching::Cache;
use device::{Fault, SectorDevice};
use layers::{Span, Window};
use stores::{KeptSector, SparseDevice};

// Writes sector n of a window on a sparse card with these places, all of them free.
pub fn write_to_sparse(
    places: &mut [Option<KeptSector>],
    sectors: u32,
    span: Span,
    n: u32,
    bytes: &[u8],
) -> Result<(), Fault>
    ensures { WrittenOrFull (window_count (sparse_count sectors) span.first span.count) span.first n bytes.now result }
{
    let card = SparseDevice::new(places, sectors, GEOMETRY);
    let mut pile = Window::new(Cache::new(card), span);
    pile.write(n, bytes)
}
