// Slots for new jobs.
ghost use Rattle.std.specs.Prelude.{◌≡◌, ◌≤◌, ◌++◌, length};
ghost use Rattle.device.specs.Calls.{Keeps, OfSound};
ghost use Rattle.places.specs.Places.{places};
ghost use Rattle.plans.specs.Plans.{for_entries, clearing, place_in, entry_of, card_places};
ghost use Rattle.plans.specs.Slots.{decoded};
ghost use Rattle.volume.specs.Directory.{OfSlot};
ghost use Rattle.volume.specs.Kept.{kept};
ghost use Rattle.volume.specs.Performing.{Runs};
ghost use Rattle.saving.specs.Vacancies.{FindsRoom, job_writes};

use device::{Fault, SectorDevice, zero_sector};
use entries::{Entry, EntryState};
use layout::Layout;
use refusals::Refusal;
use volume::{Found, Memory, scan, write_data, write_entry};

// The lowest slot that a new job can take, unless a live job has its name.
pub(crate) fn find_room<D: SectorDevice>(
    device: &mut D,
    memory: &Memory,
    name: &[u8; 16],
) -> Result<Found, Refusal>
    ensures keeps { Keeps D.SectorDevice device.old device.new }
    ensures finds { OfSound D.SectorDevice device.old device.new (λ t m m'. memory.now.size ≤ length m.sectors → FindsRoom t m m' (kept memory.now) name.now result) }
{
    let scan = scan(device, &Layout::of(memory.size), name, name)?;
    if scan.one.is_some() {
        return Err(Refusal::NameTaken);
    }
    scan.room.ok_or(Refusal::NoSlot)
}

// Zeroes the entry of an erased job: undelete finds no mixture then.
fn clear<D: SectorDevice>(device: &mut D, layout: &Layout, room: &Found) -> Result<(), Fault>
    ensures keeps { Keeps D.SectorDevice device.old device.new }
    ensures runs { OfSlot D.SectorDevice layout.now room.now.slot device.old device.new (λ t m m'. room.now.entry ≡ entry_of (place_in (places layout.now m.sectors) room.now.slot) → Runs t layout.now for_entries m m' (clearing room.now.slot (decoded (place_in (places layout.now m.sectors) room.now.slot))) result) }
{
    if room.entry.state(layout, room.slot) == EntryState::Erased {
        return write_entry(device, room.slot, &Entry::held(0), &mut zero_sector());
    }
    Ok(())
}

// Takes a slot for a job: the data, upwards, and then the entry.
pub(crate) fn take_room<D: SectorDevice>(
    device: &mut D,
    layout: &Layout,
    room: &Found,
    entry: &Entry,
    bytes: &[u8],
) -> Result<(), Fault>
    requires { length bytes.now ≤ 65535 }
    ensures keeps { Keeps D.SectorDevice device.old device.new }
    ensures runs { OfSlot D.SectorDevice layout.now room.now.slot device.old device.new (λ t m m'. room.now.entry ≡ entry_of (place_in (places layout.now m.sectors) room.now.slot) → Runs t layout.now for_entries m m' (clearing room.now.slot (decoded (place_in (places layout.now m.sectors) room.now.slot)) ++ job_writes room.now.slot entry.now bytes.now) result) }
{
    clear(device, layout, room)?;
    write_data(device, layout, room.slot, 0, bytes)?;
    write_entry(device, room.slot, entry, &mut zero_sector())
}
