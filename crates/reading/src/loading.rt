// Loading a job, and reading it from a place on.
ghost use Rattle.std.specs.Prelude.{◌≤◌, length};
ghost use Rattle.device.specs.Calls.{Keeps, OfSound};
ghost use Rattle.plans.specs.Calls as calls;
ghost use Rattle.plans.specs.Plans.{plan};
ghost use Rattle.volume.specs.Kept.{kept};
ghost use Rattle.volume.specs.Outcomes.{Performs};
ghost use Rattle.reading.specs.Answers.{Loaded, Counted};
ghost use Rattle.reading.specs.Buffers.{Filled};

use crate::blocks::read_into;
use crate::job_info::JobInfo;
use device::SectorDevice;
use layout::Layout;
use naming::find_named;
use refusals::Refusal;
use volume::Memory;

// A job's bytes to the front of the buffer, which may not be shorter (14), and what else its entry tells. Where the device
// refuses, the buffer holds the sectors that were read before.
pub fn load<D: SectorDevice>(
    device: &mut D,
    memory: &Memory,
    name: &[u8],
    buffer: &mut [u8],
) -> Result<JobInfo, Refusal>
    ensures keeps { Keeps D.SectorDevice device.old device.new }
    ensures performs { OfSound D.SectorDevice device.old device.new (λ t m m'. Performs t Loaded (calls.load name.now (length buffer.old)) m m' (kept memory.now) (kept memory.now) result) }
    ensures fills { OfSound D.SectorDevice device.old device.new (λ t m m'. memory.now.size ≤ length m.sectors → Filled (plan m.sectors (kept memory.now) (calls.load name.now (length buffer.old))) 0 buffer.old buffer.new result) }
{
    // asked for what a device promises with it: that every sector has 512 bytes, so that the entry tells the job's length
    device.size();
    let job = find_named(device, memory, name)?;
    let size = usize::from(job.entry.size);
    if buffer.len() < size {
        return Err(Refusal::OutOfBounds);
    }
    read_into(
        device,
        &Layout::of(memory.size),
        job.slot,
        0,
        &mut buffer[..size],
    )?;
    Ok(JobInfo {
        size: job.entry.size,
        kind: job.entry.kind,
        address: job.entry.address,
    })
}

// A job's bytes from a place on, as far as job and buffer go, to the front of the buffer, and how many they are. A place past
// the job's end is refused (14). Places are counted as the buffer is: the next read begins at place + count, with no conversion.
pub fn read<D: SectorDevice>(
    device: &mut D,
    memory: &Memory,
    name: &[u8],
    place: usize,
    buffer: &mut [u8],
) -> Result<usize, Refusal>
    ensures keeps { Keeps D.SectorDevice device.old device.new }
    ensures performs { OfSound D.SectorDevice device.old device.new (λ t m m'. Performs t Counted (calls.read name.now place (length buffer.old)) m m' (kept memory.now) (kept memory.now) result) }
    ensures fills { OfSound D.SectorDevice device.old device.new (λ t m m'. memory.now.size ≤ length m.sectors → Filled (plan m.sectors (kept memory.now) (calls.read name.now place (length buffer.old))) place buffer.old buffer.new result) }
{
    device.size(); // as load does
    let job = find_named(device, memory, name)?;
    let size = usize::from(job.entry.size);
    if size < place {
        return Err(Refusal::OutOfBounds);
    }
    let count = buffer.len().min(size - place);
    read_into(
        device,
        &Layout::of(memory.size),
        job.slot,
        place,
        &mut buffer[..count],
    )?;
    Ok(count)
}
