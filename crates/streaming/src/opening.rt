// Opening a job.
ghost use Rattle.std.specs.Prelude.{◌≡◌, ℕ, List, [], ◌∷◌};
ghost use Rattle.device.specs.Calls.{Keeps, OfSound};
ghost use Rattle.layout.specs.Names.{padded};
ghost use Rattle.places.specs.Places.{places};
ghost use Rattle.plans.specs.Calls as calls;
ghost use Rattle.plans.specs.Plans.{for_entries, entering, place_in, saved_entry, new_job, opened_new};
ghost use Rattle.plans.specs.Slots.{job_in};
ghost use Rattle.volume.specs.Directory.{OfSlot};
ghost use Rattle.volume.specs.Kept.{kept};
ghost use Rattle.volume.specs.Outcomes.{Performs};
ghost use Rattle.volume.specs.Performing.{Runs};
ghost use Rattle.streaming.specs.Opened.{Continues, Makes, InThere, Opened, OpenedIn, opened, HandleOf};

use device::{Fault, SectorDevice, zero_sector};
use entries::Entry;
use layout::{Layout, Name};
use reading::read_into;
use refusals::Refusal;
use volume::{Found, Memory, OpenJob, scan, write_entry};

// The type of jobs that can be opened.
const SEQ: u8 = 0x82;

// A job continued: its part-filled last sector is gathered.
fn continue_job<D: SectorDevice>(
    device: &mut D,
    layout: &Layout,
    job: &Found,
) -> Result<OpenJob, Fault>
    ensures slot { InThere job.now.slot result }
    ensures keeps { Keeps D.SectorDevice device.old device.new }
    ensures continues { OfSlot D.SectorDevice layout.now job.now.slot device.old device.new (λ t m m'. Continues t m m' job.now.slot (job_in job.now.entry (place_in (places layout.now m.sectors) job.now.slot).sectors) result) }
{
    // asked for what a device promises with it: that every sector has 512 bytes, so that the entry tells the job's length
    device.size();
    let size = usize::from(job.entry.size);
    let full = size / 512;
    let filled = size % 512;
    let mut gathered = zero_sector();
    read_into(
        device,
        layout,
        job.slot,
        512 * full,
        &mut gathered[..filled],
    )?;
    Ok(OpenJob {
        slot: job.slot,
        name: job.entry.name,
        full: full as u8,
        filled,
        gathered,
        waiting: 0,
    })
}

// A new job of no bytes.
fn make_job<D: SectorDevice>(
    device: &mut D,
    layout: &Layout,
    room: &Found,
    name: &Name,
) -> Result<OpenJob, Fault>
    ensures slot { InThere room.now.slot result }
    ensures keeps { Keeps D.SectorDevice device.old device.new }
    ensures runs { OfSlot D.SectorDevice layout.now room.now.slot device.old device.new (λ t m m'. (text : List ℕ) → name.now.bytes ≡ padded text → Runs t layout.now for_entries m m' (entering room.now.slot (saved_entry (place_in (places layout.now m.sectors) room.now.slot) (new_job text)) ∷ []) result) }
    ensures makes { (text : List ℕ) → name.now.bytes ≡ padded text → Makes (opened_new room.now.slot text) result }
{
    let first = layout.block(room.slot);
    let entry = Entry::new(name, SEQ, room.slot, first, 0, 0);
    write_entry(device, room.slot, &entry, &mut zero_sector())?;
    Ok(OpenJob {
        slot: room.slot,
        name: name.padded(),
        full: 0,
        filled: 0,
        gathered: zero_sector(),
        waiting: 0,
    })
}

// The job of a name, opened: continued if it is there, and else made.
fn open_job<D: SectorDevice>(
    device: &mut D,
    memory: &Memory,
    name: &[u8],
) -> Result<OpenJob, Refusal>
    ensures inside { OpenedIn memory.now.size result }
    ensures keeps { Keeps D.SectorDevice device.old device.new }
    ensures performs { OfSound D.SectorDevice device.old device.new (λ t m m'. Performs t Opened (calls.open' name.now) m m' (kept memory.now) (opened (kept memory.now) result) result) }
{
    let name = Name::new(name).ok_or(Refusal::Name)?;
    if memory.job.is_some() {
        return Err(Refusal::Open);
    }
    let layout = Layout::of(memory.size);
    let padded = name.padded();
    let scan = scan(device, &layout, &padded, &padded)?;
    if let Some(job) = scan.one {
        if job.entry.kind != SEQ {
            return Err(Refusal::NotSequential);
        }
        return Ok(continue_job(device, &layout, &job)?);
    }
    let room = scan.room.ok_or(Refusal::NoSlot)?;
    Ok(make_job(device, &layout, &room, &name)?)
}

// Opens a job, and answers its handle, which is told by the job's slot.
pub fn open<D: SectorDevice>(
    device: &mut D,
    memory: &mut Memory,
    name: &[u8],
) -> Result<u16, Refusal>
    ensures keeps { Keeps D.SectorDevice device.old device.new }
    ensures performs { OfSound D.SectorDevice device.old device.new (λ t m m'. Performs t HandleOf (calls.open' name.now) m m' (kept memory.old) (kept memory.new) result) }
{
    let job = open_job(device, memory, name)?;
    memory.job = Some(job);
    Ok(job.slot)
}
