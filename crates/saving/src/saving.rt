// Saving.
ghost use Rattle.std.specs.Prelude.{◌≡◌};
ghost use Rattle.device.specs.Calls.{Keeps, OfSound};
ghost use Rattle.plans.specs.Calls as calls;
ghost use Rattle.plans.specs.Rows.{known_kind};
ghost use Rattle.volume.specs.Kept.{kept};
ghost use Rattle.volume.specs.Outcomes.{Performs, Plain};

use crate::vacancy::{find_room, take_room};
use device::SectorDevice;
use entries::Entry;
use layout::{Layout, Name, job_size};
use refusals::Refusal;
use volume::Memory;

// Whether a type is BAS, BIN or SEQ.
fn is_known(kind: u8) -> bool
    ensures { result ≡ known_kind kind }
{
    matches!(kind, 0x80 | 0x81 | 0x82)
}

// A job in the lowest slot that is empty or erased.
pub fn save<D: SectorDevice>(
    device: &mut D,
    memory: &Memory,
    name: &[u8],
    kind: u8,
    address: u16,
    bytes: &[u8],
) -> Result<(), Refusal>
    ensures keeps { Keeps D.SectorDevice device.old device.new }
    ensures performs { OfSound D.SectorDevice device.old device.new (λ t m m'. Performs t Plain (calls.save name.now kind address bytes.now) m m' (kept memory.now) (kept memory.now) result) }
{
    let name = Name::new(name).ok_or(Refusal::Name)?;
    if !is_known(kind) {
        return Err(Refusal::FileType);
    }
    let size = job_size(bytes.len()).ok_or(Refusal::TooLong)?;
    let room = find_room(device, memory, &name.padded())?;
    let layout = Layout::of(memory.size);
    let first = layout.block(room.slot);
    let entry = Entry::new(&name, kind, room.slot, first, size, address);
    take_room(device, &layout, &room, &entry, bytes)?;
    Ok(())
}
