// The counting layer: it passes every transfer on, and counts those that were accepted.
ghost use Rattle.std.specs.Prelude.{◌≡◌};
ghost use Rattle.device.specs.Calls.{Stays, KeepsFaults, ReadsSector, WritesSector};
ghost use Rattle.layers.specs.Counting.{counting_layer, one_more, counted};

use crate::answers::passed_on;
use device::{Act, Fault, Geometry, SectorDevice, check_transfer};

// A device with the number of its accepted reads and writes.
#[derive(Drop)]
pub struct Counting<D: SectorDevice> {
    beneath: D,
    reads: u64,
    writes: u64,
}

// Moves a counter on, at most to 2^64 - 1.
fn add_one(count: &mut u64)
    ensures { count.new ≡ one_more count.old }
{
    *count = count.saturating_add(1);
}

impl<D: SectorDevice> Counting<D> {
    // A layer on a device, with nothing counted.
    pub fn new(beneath: D) -> Counting<D>
        ensures beneath { result.beneath ≡ beneath }
        ensures reads { result.reads ≡ 0 }
        ensures writes { result.writes ≡ 0 }
        ensures sound { D.SectorDevice.sound beneath → (counting_layer D.SectorDevice).sound result }
    {
        Counting {
            beneath,
            reads: 0,
            writes: 0,
        }
    }

    // The device beneath again, as the writes left it.
    pub fn into_beneath(self) -> D
        ensures { result ≡ self.beneath }
    {
        let Counting { beneath, .. } = self;
        beneath
    }

    // How many reads were accepted, at most 2^64 - 1.
    pub fn reads(&self) -> u64
        ensures { result ≡ self.now.reads }
    {
        self.reads
    }

    // How many writes were accepted, at most 2^64 - 1.
    pub fn writes(&self) -> u64
        ensures { result ≡ self.now.writes }
    {
        self.writes
    }
}

impl<D: SectorDevice> SectorDevice for Counting<D> {
    ghost meaning = { λ d. (counting_layer D.SectorDevice).meaning d };

    ghost sound = { λ d. (counting_layer D.SectorDevice).sound d };

    ghost faults = { λ d. (counting_layer D.SectorDevice).faults d };

    fn size(&self) -> u32 {
        self.beneath.size()
    }

    fn geometry(&self) -> Geometry {
        self.beneath.geometry()
    }

    fn read(&mut self, n: u32, buf: &mut [u8]) -> Result<(), Fault>
        ensures stays { Stays (counting_layer D.SectorDevice) self.old self.new }
        ensures faults { KeepsFaults (counting_layer D.SectorDevice) self.old self.new }
        ensures reads { ReadsSector (counting_layer D.SectorDevice) self.old self.new n buf.old buf.new result }
        ensures counted_reads { self.new.reads ≡ counted self.old.reads result }
        ensures counted_writes { self.new.writes ≡ self.old.writes }
    {
        check_transfer(Act::Read, n, self.beneath.size(), buf.len())?;
        passed_on(self.beneath.read(n, buf))?;
        add_one(&mut self.reads);
        Ok(())
    }

    fn write(&mut self, n: u32, buf: &[u8]) -> Result<(), Fault>
        ensures stays { Stays (counting_layer D.SectorDevice) self.old self.new }
        ensures faults { KeepsFaults (counting_layer D.SectorDevice) self.old self.new }
        ensures writes { WritesSector (counting_layer D.SectorDevice) self.old self.new n buf.now result }
        ensures counted_reads { self.new.reads ≡ self.old.reads }
        ensures counted_writes { self.new.writes ≡ counted self.old.writes result }
    {
        check_transfer(Act::Write, n, self.beneath.size(), buf.len())?;
        passed_on(self.beneath.write(n, buf))?;
        add_one(&mut self.writes);
        Ok(())
    }
}
