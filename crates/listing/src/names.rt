// Names that are live in a lower slot already.
ghost use Rattle.std.specs.Prelude.{◌≡◌, ℕ, ◌+◌, ◌<◌, ◌≤◌, false, ◌&&◌, ◌||◌, nat_lt, slice_index_or};
ghost use Rattle.std.specs.Str.{bytes_eq};
ghost use Rattle.device.specs.Calls.{Keeps};
ghost use Rattle.device.specs.Meaning.{Sectors};
ghost use Rattle.entries.specs.State.{state_of};
ghost use Rattle.layout.specs.Sizes.{place_of};
ghost use Rattle.plans.specs.Slots.{as_slot, job_in, named};
ghost use Rattle.volume.specs.Directory.{OfCard, directory_sector};
ghost use Rattle.listing.specs.Faults.{entry_at, TellsTaken};

use device::{Fault, SectorDevice, zero_sector};
use entries::EntryState;
use layout::{Layout, entry_place};
use volume::{entry_in, turn_to};

// Whether a slot's entry, in its directory sector, has this name.
fn has_name(sector: &[u8; 512], slot: u16, name: &[u8; 16]) -> bool
    ensures { result ≡ bytes_eq (entry_at sector.now slot).name name.now }
{
    let at = entry_place(slot).offset;
    sector[at..at + 16] == name[..]
}

// Marks those of the entries in `here`, the first of them that of slot `first`, that lie above a slot and have the name.
fn mark_name(name: &[u8; 16], slot: u16, here: &[u8; 512], first: u16, taken: &mut [bool; 16])
    requires { first ≤ 65520 }
    ensures { (i : ℕ) → i < 16 → slice_index_or taken.new i false ≡ (slice_index_or taken.old i false || (nat_lt slot (first + i) && bytes_eq (entry_at here.now (first + i)).name name.now)) }
{
    for i in 0..16u16 {
        if slot < first + i && has_name(here, first + i, name) {
            taken[usize::from(i)] = true;
        }
    }
}

// The same for the name of a slot's job, if it is live.
fn mark_slot(
    layout: &Layout,
    slot: u16,
    sector: &[u8; 512],
    here: &[u8; 512],
    first: u16,
    taken: &mut [bool; 16],
)
    requires { first ≤ 65520 }
    ensures { (s : Sectors) (i : ℕ) → i < 16 → slice_index_or taken.new i false ≡ (slice_index_or taken.old i false || (nat_lt slot (first + i) && named (entry_at here.now (first + i)).name (as_slot (state_of layout.now slot (entry_at sector.now slot)) (job_in (entry_at sector.now slot) s)))) }
{
    let entry = entry_in(sector, slot);
    if entry.state(layout, slot) == EntryState::Live {
        mark_name(&entry.name, slot, here, first, taken);
    }
}

// Which of the sixteen entries in `here`, the first of them that of slot `first`, have a name that is live in a lower
// slot: one pass over the directory sectors below compares each name there with all of theirs.
pub(crate) fn taken_names<D: SectorDevice>(
    device: &mut D,
    layout: &Layout,
    first: u16,
    here: &[u8; 512],
) -> Result<[bool; 16], Fault>
    requires { first ≤ 65520 }
    ensures keeps { Keeps D.SectorDevice device.old device.new }
    ensures taken { OfCard D.SectorDevice layout.now device.old device.new (λ t m m'. (place_of first).offset ≡ 0 → here.now ≡ directory_sector m.sectors first → TellsTaken t layout.now m m' first here.now result) }
{
    // In a variable: behind a reference it is not known to fit its type.
    let slots = layout.slots;
    let mut taken = [false; 16];
    let mut sector = zero_sector();
    for slot in 0..first.min(slots) {
        turn_to(device, slot, &mut sector)?;
        mark_slot(layout, slot, &sector, here, first, &mut taken);
    }
    for own in first..first.saturating_add(16).min(slots) {
        mark_slot(layout, own, here, here, first, &mut taken);
    }
    Ok(taken)
}
