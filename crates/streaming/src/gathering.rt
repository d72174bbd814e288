// Bytes gathered behind the open job.
ghost use Rattle.std.specs.Prelude.{◌≡◌, ◌+◌, ◌≤◌, ◌++◌, length, take, drop};
ghost use Rattle.device.specs.Calls.{Keeps};
ghost use Rattle.plans.specs.Memory.{job_length};
ghost use Rattle.plans.specs.Plans.{never, put_writes};
ghost use Rattle.volume.specs.Directory.{OfSlot};
ghost use Rattle.volume.specs.Kept.{open_job};
ghost use Rattle.volume.specs.Performing.{Runs};
ghost use Rattle.streaming.specs.Gathered.{Gathers};

use device::{Fault, SectorDevice};
use layout::Layout;
use volume::{OpenJob, write_data};

// Puts bytes into a sector from one of its bytes on.
fn put_at(sector: &mut [u8; 512], at: usize, bytes: &[u8])
    requires { at + length bytes.now ≤ 512 }
    ensures { sector.new ≡ take at sector.old ++ (bytes.now ++ drop (at + length bytes.now) sector.old) }
{
    sector[at..at + bytes.len()].copy_from_slice(bytes);
}

// Gathers a piece, and writes a sector each time that 512 bytes are gathered.
pub(crate) fn gather<D: SectorDevice>(
    device: &mut D,
    layout: &Layout,
    job: &OpenJob,
    piece: &[u8],
) -> Result<OpenJob, Fault>
    requires { job_length (open_job job.now) + length piece.now ≤ 65535 }
    ensures keeps { Keeps D.SectorDevice device.old device.new }
    ensures runs { OfSlot D.SectorDevice layout.now job.now.slot device.old device.new (λ t m m'. Runs t layout.now never m m' (put_writes (open_job job.now) piece.now) result) }
    ensures gathers { Gathers (open_job job.now) piece.now result }
{
    let waiting = job.waiting + piece.len() as u32;
    let mut gathered = job.gathered;
    let room = 512 - job.filled;
    if piece.len() < room {
        put_at(&mut gathered, job.filled, piece);
        return Ok(OpenJob {
            slot: job.slot,
            name: job.name,
            full: job.full,
            filled: job.filled + piece.len(),
            gathered,
            waiting,
        });
    }
    let (head, rest) = piece.split_at(room);
    put_at(&mut gathered, job.filled, head);
    write_data(device, layout, job.slot, job.full, &gathered)?;
    let (whole, tail) = rest.split_at(rest.len() - rest.len() % 512);
    write_data(device, layout, job.slot, job.full + 1, whole)?;
    put_at(&mut gathered, 0, tail);
    Ok(OpenJob {
        slot: job.slot,
        name: job.name,
        full: job.full + 1 + (whole.len() / 512) as u8,
        filled: tail.len(),
        gathered,
        waiting,
    })
}
