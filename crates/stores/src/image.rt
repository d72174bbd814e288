// The image: every sector in bytes that the caller lends, one after the other. It refuses nothing that is in range.
ghost use Rattle.std.specs.Prelude.{◌≡◌, ℕ, ◌+◌, ◌*◌, ◌≤◌, length, take, drop, Decides};
ghost use Rattle.device.specs.Meaning.{Bytes};
ghost use Rattle.stores.specs.Image.{image_count, image_of, ImageLength};

use device::{Act, Fault, Geometry, SectorDevice, check_transfer};

// The number of sectors is told from the length at each call, so any bytes make a device.
#[derive(Drop)]
pub struct ImageDevice<'a> {
    bytes: &'a mut [u8],
    geometry: Geometry,
}

// The number of sectors in so many bytes, 0 where no image has that length.
fn count_of(len: usize) -> u32
    ensures { result ≡ image_count len }
{
    if len % 512 == 0 && len / 512 <= 268_435_456 {
        (len / 512) as u32
    } else {
        0
    }
}

// The number of sectors in these bytes, each of which is below 256.
fn count_in(bytes: &[u8]) -> u32
    ensures value { result ≡ image_count (length bytes.now) }
    ensures bytes { Bytes bytes.now }
{
    count_of(bytes.len())
}

// Whether an image may have so many bytes: 512 for each of 1 to 268,435,456 sectors.
pub fn is_image_length(len: usize) -> bool
    ensures { Decides result (ImageLength len) }
{
    count_of(len) >= 1
}

impl<'a> ImageDevice<'a> {
    // A device over these bytes as they are; of no sectors where no image has their length.
    pub fn new(bytes: &'a mut [u8], geometry: Geometry) -> ImageDevice<'a>
        ensures bytes { result.bytes.now ≡ bytes.old }
        ensures geometry { result.geometry ≡ geometry }
    {
        ImageDevice { bytes, geometry }
    }

    // The bytes again, with what was written.
    pub fn into_bytes(self) -> &'a mut [u8]
        ensures { result.now ≡ self.entry.bytes.now }
    {
        let ImageDevice { bytes, .. } = self;
        bytes
    }

    // Sector n into a buffer of 512 bytes, which is a slice, as a device's calls have it.
    fn copy_sector(&self, n: usize, buf: &mut [u8])
        requires { (length buf.old ≡ 512) × (512 * n + 512 ≤ length self.now.bytes.now) }
        ensures { buf.new ≡ take 512 (drop (512 * n) self.now.bytes.now) }
    {
        let at = 512 * n;
        buf.copy_from_slice(&self.bytes[at..at + 512]);
    }
}

impl<'a> SectorDevice for ImageDevice<'a> {
    ghost meaning = { λ d. image_of d.bytes.now d.geometry };

    ghost sound = { λ d. Unit {0} };

    ghost faults = { λ d a n f. ⊥ };

    fn size(&self) -> u32 {
        count_in(self.bytes)
    }

    fn geometry(&self) -> Geometry {
        self.geometry
    }

    fn read(&mut self, n: u32, buf: &mut [u8]) -> Result<(), Fault> {
        check_transfer(Act::Read, n, count_of(self.bytes.len()), buf.len())?;
        self.copy_sector(n as usize, buf);
        Ok(())
    }

    fn write(&mut self, n: u32, buf: &[u8]) -> Result<(), Fault> {
        check_transfer(Act::Write, n, count_of(self.bytes.len()), buf.len())?;
        let at = 512 * (n as usize);
        self.bytes[at..at + 512].copy_from_slice(buf);
        Ok(())
    }
}
