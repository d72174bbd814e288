// A cache each value of which is sound: it stands on a device of which that is so, and what it keeps is what lies there, as its
// ghost field says. That field speaks of the device beneath, so the toolchain refuses some generic types that hold one, over a
// lent device for one; `Cache` stands in any.
ghost use Rattle.std.specs.Prelude.{◌≡◌, ℕ, List, Ok};
ghost use Rattle.caching.specs.Cache.{Kept, NothingKept, TrueOf};
ghost use Rattle.sound.specs.OneProof.{true_of-prop};

use crate::sound_device::SoundDevice;
use caching::Cache;
use device::{Fault, Geometry, SectorDevice};

#[derive(Drop)]
pub struct SoundCache<D: SoundDevice> {
    cache: Cache<D>,
    pub ghost sound: { TrueOf (D.SectorDevice.meaning cache.beneath) cache.entries.places } by { true_of-prop (D.SectorDevice.meaning cache.beneath) cache.entries.places },
}

impl<D: SoundDevice> SoundCache<D> {
    // A cache over a device, with nothing kept.
    pub fn new(beneath: D) -> SoundCache<D>
        ensures beneath { result.cache.beneath ≡ beneath }
        ensures entries { NothingKept result.cache.entries.places }
    {
        SoundCache {
            cache: Cache::new(beneath),
        }
    }

    // The device beneath again, as the writes left it.
    pub fn into_beneath(self) -> D
        ensures { result ≡ self.cache.beneath }
    {
        let SoundCache { cache, .. } = self;
        cache.into_beneath()
    }
}

impl<D: SoundDevice> SectorDevice for SoundCache<D> {
    ghost use Rattle.sound.specs.Calls.{KeepsFaults, ReadsSector, WritesSector};
    ghost use Rattle.sound.specs.SoundCache.{sound_cache_layer};

    ghost meaning = { λ d. (sound_cache_layer D.SectorDevice).meaning d };

    ghost sound = { λ d. (sound_cache_layer D.SectorDevice).sound d };

    ghost faults = { λ d. (sound_cache_layer D.SectorDevice).faults d };

    fn size(&self) -> u32 {
        self.cache.size()
    }

    fn geometry(&self) -> Geometry {
        self.cache.geometry()
    }

    fn read(&mut self, n: u32, buf: &mut [u8]) -> Result<(), Fault>
        ensures faults { KeepsFaults (sound_cache_layer D.SectorDevice) self.old self.new }
        ensures reads { ReadsSector (sound_cache_layer D.SectorDevice) self.old self.new n buf.old buf.new result }
        ensures untouched { (b : List ℕ) → Kept self.old.cache.entries.places n b → self.new.cache.beneath ≡ self.old.cache.beneath }
        ensures keeps { result ≡ Ok tt → Kept self.new.cache.entries.places n buf.new }
    {
        self.cache.read(n, buf)
    }

    fn write(&mut self, n: u32, buf: &[u8]) -> Result<(), Fault>
        ensures faults { KeepsFaults (sound_cache_layer D.SectorDevice) self.old self.new }
        ensures writes { WritesSector (sound_cache_layer D.SectorDevice) self.old self.new n buf.now result }
        ensures keeps { result ≡ Ok tt → Kept self.new.cache.entries.places n buf.now }
    {
        self.cache.write(n, buf)
    }
}

impl<D: SoundDevice> SoundDevice for SoundCache<D> {
    ghost always = { λ d. tt };
}
