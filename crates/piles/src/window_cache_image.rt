// A window over a cache over an image: what is in range is never refused, a read gives what was written, and a write
// goes through to the image.
ghost use Rattle.std.specs.Prelude.{◌≡◌, length, Ok};
ghost use Rattle.caching.specs.Cache.{NothingKept};
ghost use Rattle.piles.specs.WindowOnImage.{pile_count, ReadsBack, InImage, WritesThrough};

use crate::GEOMETRY;
use caching::Cache;
use device::{Fault, SectorDevice, zero_sector};
use layers::{Span, Window};
use stores::ImageDevice;

// A window over a cache over an image of these bytes.
fn pile_over<'a>(bytes: &'a mut [u8], span: Span) -> Window<Cache<ImageDevice<'a>>>
    ensures bytes { result.beneath.beneath.bytes.now ≡ bytes.old }
    ensures entries { NothingKept result.beneath.entries.places }
    ensures span { result.span ≡ span }
{
    Window::new(Cache::new(ImageDevice::new(bytes, GEOMETRY)), span)
}

// Writes sector n of a window on these bytes, and reads it back.
pub fn write_and_read(
    bytes: &mut [u8],
    span: Span,
    n: u32,
    written: &[u8],
) -> Result<[u8; 512], Fault>
    ensures answers { ReadsBack (pile_count (length bytes.old) span.first span.count) n written.now result }
    ensures lawful { InImage (length bytes.old) span.first span.count n → length written.now ≡ 512 → result ≡ Ok written.now }
{
    let mut pile = pile_over(bytes, span);
    let mut sector = zero_sector();
    pile.write(n, written)?;
    pile.read(n, &mut sector)?;
    Ok(sector)
}

// Writes sector n of a window on these bytes, and gives them back with the answer.
pub fn write_through<'a>(
    bytes: &'a mut [u8],
    span: Span,
    n: u32,
    written: &[u8],
) -> (Result<(), Fault>, &'a mut [u8])
    ensures { WritesThrough span.first (pile_count (length bytes.old) span.first span.count) n written.now bytes.old result.1.now result.0 }
{
    let mut pile = pile_over(bytes, span);
    let answer = pile.write(n, written);
    (answer, pile.into_beneath().into_beneath().into_bytes())
}
