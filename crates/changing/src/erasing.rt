// Erasing, renaming and bringing back.
ghost use Rattle.std.specs.Prelude.{◌≡◌, ◌&&◌};
ghost use Rattle.device.specs.Calls.{Keeps, OfSound};
ghost use Rattle.entries.specs.State.{state_of};
ghost use Rattle.plans.specs.Calls as calls;
ghost use Rattle.plans.specs.Slots.{Job, as_slot, is_erased, is_live};
ghost use Rattle.volume.specs.Kept.{kept};
ghost use Rattle.volume.specs.Outcomes.{Performs, Plain};

use device::{SectorDevice, zero_sector};
use entries::{Entry, EntryState};
use layout::{Layout, Name, is_name_byte};
use naming::{find_shut, is_open, padded};
use refusals::Refusal;
use volume::{Memory, find, read_entry, scan, write_entry};

// Erases a job that is not open: its entry is marked, and can be brought back until its slot is taken.
pub fn erase<D: SectorDevice>(device: &mut D, memory: &Memory, name: &[u8]) -> Result<(), Refusal>
    ensures keeps { Keeps D.SectorDevice device.old device.new }
    ensures performs { OfSound D.SectorDevice device.old device.new (λ t m m'. Performs t Plain (calls.erase name.now) m m' (kept memory.now) (kept memory.now) result) }
{
    let job = find_shut(device, memory, name)?;
    let mut sector = zero_sector();
    write_entry(device, job.slot, &job.entry.with_first(0x7F), &mut sector)?;
    Ok(())
}

// Gives a job that is not open another name, which no job may have, itself neither.
#[tactic(auto, unfolding(plans::specs::Plans::rename_plan))]
pub fn rename<D: SectorDevice>(
    device: &mut D,
    memory: &Memory,
    old: &[u8],
    new: &[u8],
) -> Result<(), Refusal>
    ensures keeps { Keeps D.SectorDevice device.old device.new }
    ensures performs { OfSound D.SectorDevice device.old device.new (λ t m m'. Performs t Plain (calls.rename old.now new.now) m m' (kept memory.now) (kept memory.now) result) }
{
    let old = padded(old)?;
    let new = Name::new(new).ok_or(Refusal::Name)?;
    if is_open(memory, &old) {
        return Err(Refusal::Open);
    }
    let jobs = scan(device, &Layout::of(memory.size), &old, &new.padded())?;
    let job = jobs.one.ok_or(Refusal::NoJob)?;
    if jobs.other.is_some() {
        return Err(Refusal::NameTaken);
    }
    let mut sector = zero_sector();
    write_entry(device, job.slot, &job.entry.renamed(&new), &mut sector)?;
    Ok(())
}

// Whether a slot has an erased job, which would be live with its entry restored.
fn is_restorable(entry: &Entry, restored: &Entry, layout: &Layout, slot: u16) -> bool
    ensures { (i j : Job) → result ≡ (is_erased (as_slot (state_of layout.now slot entry.now) i) && is_live (as_slot (state_of layout.now slot restored.now) j)) }
{
    entry.state(layout, slot) == EntryState::Erased
        && restored.state(layout, slot) == EntryState::Live
}

// Brings back the job that was erased from a slot, with this letter as the first byte of its name. It has to be live then,
// and no other may have that name. A slot past the last of the card is told without a read.
pub fn undelete<D: SectorDevice>(
    device: &mut D,
    memory: &Memory,
    slot: u16,
    letter: u8,
) -> Result<(), Refusal>
    ensures keeps { Keeps D.SectorDevice device.old device.new }
    ensures performs { OfSound D.SectorDevice device.old device.new (λ t m m'. Performs t Plain (calls.undelete slot letter) m m' (kept memory.now) (kept memory.now) result) }
{
    if !is_name_byte(letter) {
        return Err(Refusal::Name);
    }
    let layout = Layout::of(memory.size);
    if slot >= layout.slots {
        return Err(Refusal::NotErased);
    }
    let entry = read_entry(device, &layout, slot)?;
    let restored = entry.with_first(letter);
    if !is_restorable(&entry, &restored, &layout, slot) {
        return Err(Refusal::NotErased);
    }
    if find(device, &layout, &restored.name)?.is_some() {
        return Err(Refusal::NameTaken);
    }
    let mut sector = zero_sector();
    write_entry(device, slot, &restored, &mut sector)?;
    Ok(())
}
