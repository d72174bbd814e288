// Runs of sector writes over any device: all of them, or a first part of them where the device refuses.
#![tactic(auto)]

ghost use Rattle.std.specs.Prelude.{◌-◌, ◌≤◌, length};
ghost use Rattle.device.specs.Calls.{Keeps, OfSound};
ghost use Rattle.runs.specs.Writes.{zeroing, Written};

use device::{Fault, SectorDevice, zero_sector};

// Zeros into the sectors from `first` on up to `end`, upwards. Asks: that these are on the device, for what it promises
// of the writes; it is safe and ends without.
pub fn write_zeros<D: SectorDevice>(device: &mut D, first: u32, end: u32) -> Result<(), Fault>
    ensures keeps { Keeps D.SectorDevice device.old device.new }
    ensures writes { OfSound D.SectorDevice device.old device.new (λ t m m'. end ≤ length m.sectors → Written t m m' (zeroing first (end - first)) result) }
{
    let zeros = zero_sector();
    for n in first..end {
        device.write(n, &zeros)?;
    }
    Ok(())
}
