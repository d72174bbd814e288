// Mounting a card.
ghost use Rattle.device.specs.Calls.{Keeps, OfSound};
ghost use Rattle.plans.specs.Calls as calls;
ghost use Rattle.volume.specs.Kept.{kept};
ghost use Rattle.volume.specs.Outcomes.{Performs, Plain};

use device::SectorDevice;
use formatting::read_label;
use refusals::Refusal;
use volume::Memory;

// Takes the card on the device, as its label says; a job that was open is closed, and what waited is dropped. Refuses
// with the first field of the master sector at fault (7).
pub fn mount<D: SectorDevice>(device: &mut D, memory: &mut Memory) -> Result<(), Refusal>
    ensures keeps { Keeps D.SectorDevice device.old device.new }
    ensures performs { OfSound D.SectorDevice device.old device.new (λ t m m'. Performs t Plain calls.mount m m' (kept memory.old) (kept memory.new) result) }
{
    let label = read_label(device)?;
    *memory = Memory {
        size: label.layout.sectors,
        job: None,
    };
    Ok(())
}
