// Makes each value of which is sound: what the calls promise of a sound device they promise of each of these. A cache is none,
// since a cache of other sectors than lie beneath has its type too; `SoundCache` is.
use device::SectorDevice;
use layers::{Counting, Window};
use stores::{ImageDevice, SparseDevice};

pub trait SoundDevice: SectorDevice {
    ghost always: { (d : Self) → Self.sound d };
}

impl<'a, D: SoundDevice> SoundDevice for &'a mut D {
    ghost always = { λ d. D.always d.now };
}

impl<'a> SoundDevice for ImageDevice<'a> {
    ghost always = { λ d. tt };
}

impl<'a> SoundDevice for SparseDevice<'a> {
    ghost always = { λ d. tt };
}

impl<D: SoundDevice> SoundDevice for Window<D> {
    ghost always = { λ d. D.always d.beneath };
}

impl<D: SoundDevice> SoundDevice for Counting<D> {
    ghost always = { λ d. D.always d.beneath };
}
