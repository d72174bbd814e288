// The sparse card: some sectors in a table of places that the caller lends, the others zeros. It is well until a
// write finds no place for its sector, and from then on it refuses everything.
ghost use Rattle.std.specs.Prelude.{◌≡◌, ◌<◌, true, false, [], length, replicate, None, Ok, Decides, slice_index_or};
ghost use Rattle.device.specs.Meaning.{zeros, well};
ghost use Rattle.stores.specs.Sparse.{SparseSize, sparse_count, sparse_sectors, sparse_of, SparseSound, sparse_sound-prop, Slot, TableAfter, Begins};

use device::{Act, Cause, Fault, Geometry, SectorDevice, check_transfer, zero_sector};
use kept::{KeptSector, find, give_back};

// The table is the caller's, since there is no heap for a map: as many sectors that are not all zero can be kept as it
// has places. Every card is sound, as its ghost field says, so no call asks for it.
#[derive(Drop)]
pub struct SparseDevice<'a> {
    places: &'a mut [Option<KeptSector>],
    size: u32,
    geometry: Geometry,
    // whether a write found no place: from then on all is refused, and there is no value to go with that
    failed: bool,
    pub ghost sound: { SparseSound places.now size } by { sparse_sound-prop places.now size },
}

// Whether a sparse card may have so many sectors: 1 to 268,435,456.
pub fn is_sparse_size(sectors: u32) -> bool
    ensures { Decides result (SparseSize sectors) }
{
    1 <= sectors && sectors <= 268_435_456
}

// The number of sectors of a card for which so many are asked.
fn count_of(sectors: u32) -> u32
    ensures { result ≡ sparse_count sectors }
{
    if sectors <= 268_435_456 { sectors } else { 0 }
}

// Whether these bytes are a sector of zeros.
fn is_zero(buf: &[u8]) -> bool
    ensures { Decides result (buf.now ≡ zeros 512) }
{
    buf == zero_sector().as_slice()
}

impl<'a> SparseDevice<'a> {
    // A card of so many sectors, all zero, with every place free; of no sectors where so many are not lawful.
    pub fn new(
        places: &'a mut [Option<KeptSector>],
        sectors: u32,
        geometry: Geometry,
    ) -> SparseDevice<'a>
        ensures places { result.places.now ≡ replicate (length places.old) None }
        ensures size { result.size ≡ sparse_count sectors }
        ensures geometry { result.geometry ≡ geometry }
        ensures failed { result.failed ≡ false }
        ensures meaning { sparse_of result.places.now result.size result.geometry result.failed ≡ record { sectors = replicate (sparse_count sectors) (zeros 512); geometry = geometry; condition = well } }
    {
        places.fill(None);
        SparseDevice {
            places,
            size: count_of(sectors),
            geometry,
            failed: false,
        }
    }

    // The table again, with what it keeps.
    pub fn into_places(self) -> &'a mut [Option<KeptSector>]
        ensures { result.now ≡ self.entry.places.now }
    {
        let SparseDevice { places, .. } = self;
        places
    }

    // Sector n into a buffer of 512 bytes, which is a slice, as a device's calls have it.
    fn copy_sector(&self, n: u32, buf: &mut [u8])
        requires { (length buf.old ≡ 512) × (n < self.now.size) }
        ensures { buf.new ≡ slice_index_or (sparse_sectors self.now.size self.now.places.now) n [] }
    {
        match find(self.places, n) {
            Some(bytes) => buf.copy_from_slice(bytes),
            None => buf.fill(0),
        }
    }

    // The place that sector n is to take.
    fn place_for(&self, n: u32) -> Option<usize>
        ensures { Slot self.now.places.now n result }
    {
        let mut free = None;
        for (i, place) in self.places.iter().enumerate() {
            match place {
                Some(kept) if kept.sector == n => return Some(i),
                Some(_) => {}
                None => free = Some(i),
            }
        }
        free
    }
}

impl<'a> SectorDevice for SparseDevice<'a> {
    ghost use Rattle.device.specs.Calls.{Stays, KeepsFaults, ReadsSector, WritesSector};
    ghost use Rattle.stores.specs.SparseCard.{sparse_card};

    ghost meaning = { λ d. sparse_card.meaning d };

    ghost sound = { λ d. sparse_card.sound d };

    ghost faults = { λ d. sparse_card.faults d };

    fn size(&self) -> u32 {
        self.size
    }

    fn geometry(&self) -> Geometry {
        self.geometry
    }

    // A card that is well accepts every read of a sector that is there, and no read changes it.
    fn read(&mut self, n: u32, buf: &mut [u8]) -> Result<(), Fault>
        ensures stays { Stays sparse_card self.old self.new }
        ensures faults { KeepsFaults sparse_card self.old self.new }
        ensures reads { ReadsSector sparse_card self.old self.new n buf.old buf.new result }
        ensures accepted { self.old.failed ≡ false → length buf.old ≡ 512 → n < self.old.size → result ≡ Ok tt }
        ensures unchanged { self.new ≡ self.old }
    {
        check_transfer(Act::Read, n, self.size, buf.len())?;
        if self.failed {
            return Err(Fault::new(Cause::Device, Act::Read, n));
        }
        self.copy_sector(n, buf);
        Ok(())
    }

    // Zeros give back every place of the sector, other bytes take one; where there is none, refusals begin.
    fn write(&mut self, n: u32, buf: &[u8]) -> Result<(), Fault>
        ensures stays { Stays sparse_card self.old self.new }
        ensures faults { KeepsFaults sparse_card self.old self.new }
        ensures writes { WritesSector sparse_card self.old self.new n buf.now result }
        ensures begins { Begins self.old.places.now self.old.size n buf.now self.old.failed self.new.failed result }
        ensures table { TableAfter self.old.places.now self.new.places.now n buf.now result }
    {
        check_transfer(Act::Write, n, self.size, buf.len())?;
        if self.failed {
            return Err(Fault::new(Cause::Device, Act::Write, n));
        }
        if is_zero(buf) {
            give_back(self.places, n);
            return Ok(());
        }
        match self.place_for(n) {
            Some(i) => {
                self.places[i] = Some(KeptSector {
                    sector: n,
                    bytes: buf.try_into().unwrap(),
                });
                Ok(())
            }
            None => {
                self.failed = true;
                Err(Fault::new(Cause::Device, Act::Write, n))
            }
        }
    }
}
