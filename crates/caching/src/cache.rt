// The cache: up to four sectors of the device beneath, kept as they were last read or written. Every write goes
// through to the device.
ghost use Rattle.std.specs.Prelude.{◌≡◌, ℕ, List, length, Ok};
ghost use Rattle.device.specs.Calls.{Stays, KeepsFaults, ReadsSector, WritesSector};
ghost use Rattle.caching.specs.Cache.{cache_layer, Kept, NothingKept, KeptToo, Followed};

use device::{Act, Fault, Geometry, SectorDevice, check_transfer};
use kept::{KeptSector, find, give_back};
use layers::passed_on;

// The kept sectors, and the place that the next one takes: a ring in fixed memory.
#[derive(Clone, Copy)]
struct Entries {
    places: [Option<KeptSector>; 4],
    next: usize,
}

impl Entries {
    fn none() -> Entries
        ensures { NothingKept result.places }
    {
        Entries {
            places: [None; 4],
            next: 0,
        }
    }

    // Keeps sector n, in place of what was kept of it. The bytes are a slice of 512, as a
    // device's calls have them.
    fn keep(&mut self, n: u32, bytes: &[u8])
        requires { length bytes.now ≡ 512 }
        ensures { KeptToo self.old.places self.new.places n bytes.now }
    {
        give_back(&mut self.places, n);
        let at = self.next % 4;
        self.places[at] = Some(KeptSector {
            sector: n,
            bytes: bytes.try_into().unwrap(),
        });
        self.next = at + 1;
    }

    // Keeps sector n after an accepted transfer, and nothing at all after a refused one; the bytes are a slice, as in `keep`.
    fn follow(&mut self, n: u32, bytes: &[u8], answer: &Result<(), Fault>)
        requires { length bytes.now ≡ 512 }
        ensures { Followed self.old.places self.new.places n bytes.now answer.now }
    {
        match answer {
            Ok(()) => self.keep(n, bytes),
            Err(_) => *self = Entries::none(),
        }
    }
}

// A device with some of its sectors in memory.
#[derive(Drop)]
pub struct Cache<D: SectorDevice> {
    beneath: D,
    entries: Entries,
}

impl<D: SectorDevice> Cache<D> {
    // A cache over a device, with nothing kept.
    pub fn new(beneath: D) -> Cache<D>
        ensures beneath { result.beneath ≡ beneath }
        ensures entries { NothingKept result.entries.places }
        ensures sound { D.SectorDevice.sound beneath → (cache_layer D.SectorDevice).sound result }
    {
        Cache {
            beneath,
            entries: Entries::none(),
        }
    }

    // The device beneath again, as the writes left it.
    pub fn into_beneath(self) -> D
        ensures { result ≡ self.beneath }
    {
        let Cache { beneath, .. } = self;
        beneath
    }
}

impl<D: SectorDevice> SectorDevice for Cache<D> {
    ghost meaning = { λ d. (cache_layer D.SectorDevice).meaning d };

    ghost sound = { λ d. (cache_layer D.SectorDevice).sound d };

    ghost faults = { λ d. (cache_layer D.SectorDevice).faults d };

    fn size(&self) -> u32 {
        self.beneath.size()
    }

    fn geometry(&self) -> Geometry {
        self.beneath.geometry()
    }

    fn read(&mut self, n: u32, buf: &mut [u8]) -> Result<(), Fault>
        ensures stays { Stays (cache_layer D.SectorDevice) self.old self.new }
        ensures faults { KeepsFaults (cache_layer D.SectorDevice) self.old self.new }
        ensures reads { ReadsSector (cache_layer D.SectorDevice) self.old self.new n buf.old buf.new result }
        ensures untouched { (b : List ℕ) → Kept self.old.entries.places n b → self.new.beneath ≡ self.old.beneath }
        ensures keeps { result ≡ Ok tt → Kept self.new.entries.places n buf.new }
    {
        check_transfer(Act::Read, n, self.beneath.size(), buf.len())?;
        if let Some(bytes) = find(&self.entries.places, n) {
            buf.copy_from_slice(bytes);
            return Ok(());
        }
        let answer = self.beneath.read(n, buf);
        self.entries.follow(n, buf, &answer);
        passed_on(answer)
    }

    fn write(&mut self, n: u32, buf: &[u8]) -> Result<(), Fault>
        ensures stays { Stays (cache_layer D.SectorDevice) self.old self.new }
        ensures faults { KeepsFaults (cache_layer D.SectorDevice) self.old self.new }
        ensures writes { WritesSector (cache_layer D.SectorDevice) self.old self.new n buf.now result }
        ensures keeps { result ≡ Ok tt → Kept self.new.entries.places n buf.now }
    {
        check_transfer(Act::Write, n, self.beneath.size(), buf.len())?;
        let answer = self.beneath.write(n, buf);
        self.entries.follow(n, buf, &answer);
        passed_on(answer)
    }
}
