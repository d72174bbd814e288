// Comparing two jobs.
ghost use Rattle.std.specs.Prelude.{◌≡◌, ◌≤◌, ◌<◌, take};
ghost use Rattle.std.specs.Str.{bytes_eq};
ghost use Rattle.device.specs.Calls.{Keeps, OfSound};
ghost use Rattle.device.specs.Meaning.{Lawful};
ghost use Rattle.plans.specs.Calls as calls;
ghost use Rattle.volume.specs.Directory.{Room};
ghost use Rattle.volume.specs.Kept.{kept};
ghost use Rattle.volume.specs.Outcomes.{Performs};
ghost use Rattle.reading.specs.Answers.{Compared};
ghost use Rattle.reading.specs.Blocks.{block_bytes, ComparesBytes};

use device::{Fault, SectorDevice, zero_sector};
use layout::{Layout, extent};
use naming::padded;
use refusals::Refusal;
use volume::{Memory, block_sector, scan};

// Whether two sectors begin with the same bytes.
fn begin_equal(one: &[u8; 512], other: &[u8; 512], count: usize) -> bool
    requires { count ≤ 512 }
    ensures { result ≡ bytes_eq (take count one.now) (take count other.now) }
{
    one[..count] == other[..count]
}

// Whether the blocks of two slots begin with the same bytes, so many of them: sector by sector, up to the first that differs.
fn equal_blocks<D: SectorDevice>(
    device: &mut D,
    layout: &Layout,
    one: u16,
    other: u16,
    size: u16,
) -> Result<bool, Fault>
    ensures keeps { Keeps D.SectorDevice device.old device.new }
    ensures compares { OfSound D.SectorDevice device.old device.new (λ t m m'. one < layout.now.slots → other < layout.now.slots → Room layout.now m → Lawful m → ComparesBytes t m m' (take size (block_bytes layout.now m.sectors one)) (take size (block_bytes layout.now m.sectors other)) result) }
{
    let mut mine = zero_sector();
    let mut theirs = zero_sector();
    for i in 0..extent(size).0 {
        device.read(block_sector(*layout, one, i), &mut mine)?;
        device.read(block_sector(*layout, other, i), &mut theirs)?;
        let count = (usize::from(size) - 512 * usize::from(i)).min(512);
        if !begin_equal(&mine, &theirs, count) {
            return Ok(false);
        }
    }
    Ok(true)
}

// Whether two jobs have equal bytes. A job equals itself.
pub fn same<D: SectorDevice>(
    device: &mut D,
    memory: &Memory,
    one: &[u8],
    other: &[u8],
) -> Result<bool, Refusal>
    ensures keeps { Keeps D.SectorDevice device.old device.new }
    ensures performs { OfSound D.SectorDevice device.old device.new (λ t m m'. Performs t Compared (calls.same one.now other.now) m m' (kept memory.now) (kept memory.now) result) }
{
    // asked for what a device promises with it: that every sector has 512 bytes, so that entries tell their jobs' lengths
    device.size();
    let one = padded(one)?;
    let other = padded(other)?;
    let layout = Layout::of(memory.size);
    let jobs = scan(device, &layout, &one, &other)?;
    let first = jobs.one.ok_or(Refusal::NoJob)?;
    let second = jobs.other.ok_or(Refusal::NoJob)?;
    let size = first.entry.size;
    if size != second.entry.size {
        return Ok(false);
    }
    Ok(equal_blocks(device, &layout, first.slot, second.slot, size)?)
}
