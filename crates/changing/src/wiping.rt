// Wiping, and the end of wipes that were cut off.
ghost use Rattle.std.specs.Prelude.{◌≤◌};
ghost use Rattle.device.specs.Calls.{Keeps, OfSound};
ghost use Rattle.plans.specs.Calls as calls;
ghost use Rattle.plans.specs.Plans.{for_entries, emptying};
ghost use Rattle.volume.specs.Directory.{OfSlot, Holds};
ghost use Rattle.volume.specs.Kept.{kept};
ghost use Rattle.volume.specs.Outcomes.{Performs, Plain};
ghost use Rattle.volume.specs.Performing.{Runs};

use device::{Fault, SectorDevice, zero_sector};
use entries::{Entry, EntryState};
use layout::Layout;
use naming::find_shut;
use refusals::Refusal;
use volume::{Memory, entry_in, turn_to, write_entry, zero_block};

// Zeros over the first sectors of a slot's block, and then the empty entry. Leaves its directory sector in the buffer.
fn empty_slot<D: SectorDevice>(
    device: &mut D,
    layout: &Layout,
    slot: u16,
    count: u8,
    sector: &mut [u8; 512],
) -> Result<(), Fault>
    ensures keeps { Keeps D.SectorDevice device.old device.new }
    ensures runs { OfSlot D.SectorDevice layout.now slot device.old device.new (λ t m m'. count ≤ 128 → Runs t layout.now for_entries m m' (emptying slot count) result) }
    ensures holds { OfSlot D.SectorDevice layout.now slot device.old device.new (λ t m m'. count ≤ 128 → Holds m' slot sector.new result) }
{
    zero_block(device, layout, slot, count)?;
    write_entry(device, slot, &Entry::held(0), sector)
}

// Wipes a job that is not open: its slot is held until all of its sectors are zeros, and is empty then.
pub fn wipe<D: SectorDevice>(device: &mut D, memory: &Memory, name: &[u8]) -> Result<(), Refusal>
    ensures keeps { Keeps D.SectorDevice device.old device.new }
    ensures performs { OfSound D.SectorDevice device.old device.new (λ t m m'. Performs t Plain (calls.wipe name.now) m m' (kept memory.now) (kept memory.now) result) }
{
    let job = find_shut(device, memory, name)?;
    let count = job.entry.sectors;
    let mut sector = zero_sector();
    write_entry(device, job.slot, &Entry::held(count), &mut sector)?;
    if count > 0 {
        let layout = Layout::of(memory.size);
        empty_slot(device, &layout, job.slot, count, &mut sector)?;
    }
    Ok(())
}

// Completes the wipes that were cut off, from the lowest slot up. The buffer holds a slot's directory sector on from its
// first slot, so each is read once but for the entries that are written into it.
pub fn sweep<D: SectorDevice>(device: &mut D, memory: &Memory) -> Result<(), Refusal>
    ensures keeps { Keeps D.SectorDevice device.old device.new }
    ensures performs { OfSound D.SectorDevice device.old device.new (λ t m m'. Performs t Plain calls.sweep m m' (kept memory.now) (kept memory.now) result) }
{
    let layout = Layout::of(memory.size);
    let mut sector = zero_sector();
    for slot in 0..layout.slots {
        turn_to(device, slot, &mut sector)?;
        let state = entry_in(&sector, slot).state(&layout, slot);
        if let EntryState::Held(count) = state {
            empty_slot(device, &layout, slot, count, &mut sector)?;
        }
    }
    Ok(())
}
