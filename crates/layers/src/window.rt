// The window: some sectors of the device beneath, counted from 0, with its geometry and condition.
ghost use Rattle.std.specs.Prelude.{◌≡◌, ◌+◌, ◌<◌, length, Decides};
ghost use Rattle.device.specs.Meaning.{Lawful};
ghost use Rattle.device.specs.Calls.{Stays, KeepsFaults, ReadsSector, WritesSector};
ghost use Rattle.layers.specs.Window.{IsWindow, window_count, window_layer, AsksRead, AsksWrite};

use crate::answers::passed_on;
use device::{Act, Fault, Geometry, SectorDevice, check_transfer};

// Sectors that follow one another: `count` of them from sector `first` on.
#[derive(Clone, Copy, PartialEq, Eq, Debug)]
pub struct Span {
    pub first: u32,
    pub count: u32,
}

impl Span {
    // Whether it has at least one sector, and a device of so many sectors has them all.
    pub fn fits(&self, size: u32) -> bool
        ensures { Decides result (IsWindow size self.now.first self.now.count) }
    {
        self.count >= 1 && self.first <= size && self.count <= size - self.first
    }
}

// The sectors of a span; none where the device beneath has not all of them.
#[derive(Drop)]
pub struct Window<D: SectorDevice> {
    beneath: D,
    span: Span,
}

impl<D: SectorDevice> Window<D> {
    // A window on a device; of no sectors where the device has no such window.
    pub fn new(beneath: D, span: Span) -> Window<D>
        ensures beneath { result.beneath ≡ beneath }
        ensures span { result.span ≡ span }
        ensures sound { D.SectorDevice.sound beneath → (window_layer D.SectorDevice).sound result }
    {
        Window { beneath, span }
    }

    // The device beneath again, as the writes left it.
    pub fn into_beneath(self) -> D
        ensures { result ≡ self.beneath }
    {
        let Window { beneath, .. } = self;
        beneath
    }

    // The number of sectors, as the device beneath has them now.
    fn count_now(&self) -> u32
        ensures room { 0 < result → self.now.span.first + result < 4294967296 }
        ensures lawful { D.SectorDevice.sound self.now.beneath → Lawful (D.SectorDevice.meaning self.now.beneath) }
        ensures value { D.SectorDevice.sound self.now.beneath → result ≡ window_count (length (D.SectorDevice.meaning self.now.beneath).sectors) self.now.span.first self.now.span.count }
    {
        if self.span.fits(self.beneath.size()) {
            self.span.count
        } else {
            0
        }
    }
}

impl<D: SectorDevice> SectorDevice for Window<D> {
    ghost meaning = { λ d. (window_layer D.SectorDevice).meaning d };

    ghost sound = { λ d. (window_layer D.SectorDevice).sound d };

    ghost faults = { λ d. (window_layer D.SectorDevice).faults d };

    fn size(&self) -> u32 {
        self.count_now()
    }

    fn geometry(&self) -> Geometry {
        self.beneath.geometry()
    }

    fn read(&mut self, n: u32, buf: &mut [u8]) -> Result<(), Fault>
        ensures stays { Stays (window_layer D.SectorDevice) self.old self.new }
        ensures faults { KeepsFaults (window_layer D.SectorDevice) self.old self.new }
        ensures reads { ReadsSector (window_layer D.SectorDevice) self.old self.new n buf.old buf.new result }
        ensures beneath { AsksRead D.SectorDevice self.old self.new n buf.old buf.new result }
        ensures span { self.new.span ≡ self.old.span }
    {
        check_transfer(Act::Read, n, self.count_now(), buf.len())?;
        passed_on(self.beneath.read(self.span.first + n, buf))
    }

    fn write(&mut self, n: u32, buf: &[u8]) -> Result<(), Fault>
        ensures stays { Stays (window_layer D.SectorDevice) self.old self.new }
        ensures faults { KeepsFaults (window_layer D.SectorDevice) self.old self.new }
        ensures writes { WritesSector (window_layer D.SectorDevice) self.old self.new n buf.now result }
        ensures beneath { AsksWrite D.SectorDevice self.old self.new n buf.now result }
        ensures span { self.new.span ≡ self.old.span }
    {
        check_transfer(Act::Write, n, self.count_now(), buf.len())?;
        passed_on(self.beneath.write(self.span.first + n, buf))
    }
}
