// A window over an image that is lent: it writes through to the image, which is given back.
ghost use Rattle.std.specs.Prelude.{length};
ghost use Rattle.piles.specs.WindowOnImage.{pile_count, WritesThrough};

use device::{Fault, SectorDevice};
use layers::{Span, Window};
use stores::ImageDevice;

// Writes sector n of a window on a lent image, and gives the image back with the answer.
pub fn write_lent<'a, 'b>(
    image: &'a mut ImageDevice<'b>,
    span: Span,
    n: u32,
    written: &[u8],
) -> (Result<(), Fault>, &'a mut ImageDevice<'b>)
    ensures { WritesThrough span.first (pile_count (length image.old.bytes.now) span.first span.count) n written.now image.old.bytes.now result.1.now.bytes.now result.0 }
{
    let mut window = Window::new(image, span);
    let answer = window.write(n, written);
    (answer, window.into_beneath())
}
