// The interface of card devices. What each call promises is told of a sound device: one is sound as it is made, and
// every call leaves it sound. docs/DEVICES.md says how to write a new make.
ghost use Rattle.std.specs.Prelude.{◌≡◌, length};
ghost use Rattle.device.specs.Faults.{Faults, Within};
ghost use Rattle.device.specs.Meaning.{Meaning, Lawful};
ghost use Rattle.device.specs.Transfers.{Reads, Writes};

use crate::faults::{Fault, Geometry};

pub trait SectorDevice {
    // its sectors, its geometry and its condition
    ghost meaning: { Self → Meaning };

    // what holds of it as made and after every call
    ghost sound: { Self → Type 0 };

    // which faults its device refusals may name
    ghost faults: { Self → Faults };

    // The number of sectors.
    fn size(&self) -> u32
        ensures lawful { sound self.now → Lawful (meaning self.now) }
        ensures value { sound self.now → result ≡ length (meaning self.now).sectors };

    fn geometry(&self) -> Geometry
        ensures { sound self.now → result ≡ (meaning self.now).geometry };

    // Sector n into a buffer of 512 bytes.
    fn read(&mut self, n: u32, buf: &mut [u8]) -> Result<(), Fault>
        ensures stays { sound self.old → sound self.new }
        ensures faults { sound self.old → Within (faults self.new) (faults self.old) }
        ensures reads { sound self.old → Reads (faults self.old) (meaning self.old) (meaning self.new) n buf.old buf.new result };

    // 512 bytes into sector n.
    fn write(&mut self, n: u32, buf: &[u8]) -> Result<(), Fault>
        ensures stays { sound self.old → sound self.new }
        ensures faults { sound self.old → Within (faults self.new) (faults self.old) }
        ensures writes { sound self.old → Writes (faults self.old) (meaning self.old) (meaning self.new) n buf.now result };
}
