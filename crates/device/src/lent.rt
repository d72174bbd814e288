// A lent device is a device: it means what the device means, and names the same faults at the same level.
use crate::faults::{Fault, Geometry};
use crate::sector_device::SectorDevice;

impl<'a, D: SectorDevice> SectorDevice for &'a mut D {
    ghost meaning = { λ d. D.SectorDevice.meaning d.now };

    ghost sound = { λ d. D.SectorDevice.sound d.now };

    ghost faults = { λ d. D.SectorDevice.faults d.now };

    fn size(&self) -> u32 {
        (**self).size()
    }

    fn geometry(&self) -> Geometry {
        (**self).geometry()
    }

    fn read(&mut self, n: u32, buf: &mut [u8]) -> Result<(), Fault> {
        (**self).read(n, buf)
    }

    fn write(&mut self, n: u32, buf: &[u8]) -> Result<(), Fault> {
        (**self).write(n, buf)
    }
}
