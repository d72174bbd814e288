// Putting, committing and finishing.
ghost use Rattle.std.specs.Prelude.{◌≡◌};
ghost use Rattle.device.specs.Calls.{Keeps, OfSound};
ghost use Rattle.plans.specs.Calls as calls;
ghost use Rattle.plans.specs.Plans.{finish_by, tell};
ghost use Rattle.volume.specs.Kept.{open_job, kept};
ghost use Rattle.volume.specs.Outcomes.{Performs, Plain};
ghost use Rattle.streaming.specs.Gathered.{held_job};

use crate::gathering::gather;
use device::SectorDevice;
use layout::Layout;
use refusals::Refusal;
use volume::{Memory, OpenJob, resize_entry, write_data};

// The open job, if it is that of the handle.
fn held(memory: &Memory, handle: u16) -> Option<OpenJob>
    ensures { result ≡ held_job memory.now.job handle }
{
    match memory.job {
        Some(job) if job.slot == handle => Some(job),
        _ => None,
    }
}

// Puts a piece behind the bytes of the open job.
pub fn put<D: SectorDevice>(
    device: &mut D,
    memory: &mut Memory,
    handle: u16,
    piece: &[u8],
) -> Result<(), Refusal>
    ensures keeps { Keeps D.SectorDevice device.old device.new }
    ensures performs { OfSound D.SectorDevice device.old device.new (λ t m m'. Performs t Plain (calls.put handle piece.now) m m' (kept memory.old) (kept memory.new) result) }
{
    let job = held(memory, handle).ok_or(Refusal::NotOpen)?;
    if piece.len() > usize::from(65_535 - job.size()) {
        return Err(Refusal::TooLong);
    }
    let job = gather(device, &Layout::of(memory.size), &job, piece)?;
    memory.job = Some(job);
    Ok(())
}

// Makes every byte put so far part of the job: the part-filled sector is written, and then the entry.
pub fn commit<D: SectorDevice>(
    device: &mut D,
    memory: &mut Memory,
    handle: u16,
) -> Result<(), Refusal>
    ensures keeps { Keeps D.SectorDevice device.old device.new }
    ensures performs { OfSound D.SectorDevice device.old device.new (λ t m m'. Performs t Plain (calls.commit handle) m m' (kept memory.old) (kept memory.new) result) }
{
    let job = held(memory, handle).ok_or(Refusal::NotOpen)?;
    if job.waiting == 0 {
        return Ok(());
    }
    let layout = Layout::of(memory.size);
    write_data(
        device,
        &layout,
        job.slot,
        job.full,
        &job.gathered[..job.filled],
    )?;
    resize_entry(device, &layout, job.slot, job.size())?;
    memory.job = Some(OpenJob {
        slot: job.slot,
        name: job.name,
        full: job.full,
        filled: job.filled,
        gathered: job.gathered,
        waiting: 0,
    });
    Ok(())
}

// Ends the open job, and answers how many bytes it leaves uncommitted.
pub fn finish(memory: &mut Memory, handle: u16) -> u32
    ensures { finish_by (kept memory.old) handle (kept memory.old).job ≡ tell (calls.uncommitted result) (kept memory.new) }
{
    let Some(job) = held(memory, handle) else {
        return 0;
    };
    memory.job = None;
    job.waiting
}
