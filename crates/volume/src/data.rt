// The sectors of a slot's block.
ghost use Rattle.std.specs.Prelude.{◌≡◌, ◌+◌, ◌*◌, ◌≤◌, length};
ghost use Rattle.device.specs.Calls.{Keeps, OfSound};
ghost use Rattle.device.specs.Transfers.{Writes};
ghost use Rattle.layout.specs.Extents.{extent_of};
ghost use Rattle.layout.specs.Sizes.{block_of};
ghost use Rattle.plans.specs.Plans.{never, filling, chunk, zero_chunk};
ghost use Rattle.volume.specs.Directory.{OfSlot};
ghost use Rattle.volume.specs.Performing.{Runs};

use device::{Fault, SectorDevice, zero_sector};
use layout::Layout;
use runs::write_zeros;

// A sector of a slot's block. The layout comes by value: behind a reference its numbers are not known to fit their types.
pub fn block_sector(layout: Layout, slot: u16, i: u8) -> u32
    ensures { result ≡ block_of layout slot + i }
{
    layout.block(slot) + u32::from(i)
}

// At most a sector's bytes, zeros behind them: no conversion of the library pads.
fn padded_sector(part: &[u8]) -> [u8; 512]
    requires { length part.now ≤ 512 }
    ensures { result ≡ chunk part.now 0 }
{
    let mut sector = zero_sector();
    sector[0..part.len()].copy_from_slice(part);
    sector
}

// At most a sector's bytes into a sector, zeros behind them; a whole sector goes straight from the caller's bytes.
pub(crate) fn write_part<D: SectorDevice>(device: &mut D, n: u32, part: &[u8]) -> Result<(), Fault>
    requires { length part.now ≤ 512 }
    ensures keeps { Keeps D.SectorDevice device.old device.new }
    ensures writes { OfSound D.SectorDevice device.old device.new (λ t m m'. Writes t m m' n (chunk part.now 0) result) }
{
    if part.len() == 512 {
        return device.write(n, part);
    }
    device.write(n, &padded_sector(part))
}

// Bytes of a job into the sectors of a slot's block from number `from` on, upwards. Asks: no more than the block holds.
pub fn write_data<D: SectorDevice>(
    device: &mut D,
    layout: &Layout,
    slot: u16,
    from: u8,
    bytes: &[u8],
) -> Result<(), Fault>
    requires { 512 * from + length bytes.now ≤ 65536 }
    ensures keeps { Keeps D.SectorDevice device.old device.new }
    ensures runs { OfSlot D.SectorDevice layout.now slot device.old device.new (λ t m m'. Runs t layout.now never m m' (filling slot from (chunk bytes.now) (extent_of (length bytes.now)).0) result) }
{
    for (i, part) in bytes.chunks(512).enumerate() {
        write_part(device, block_sector(*layout, slot, from + i as u8), part)?;
    }
    Ok(())
}

// Zeros into the first sectors of a slot's block, upwards.
pub fn zero_block<D: SectorDevice>(
    device: &mut D,
    layout: &Layout,
    slot: u16,
    count: u8,
) -> Result<(), Fault>
    ensures keeps { Keeps D.SectorDevice device.old device.new }
    ensures runs { OfSlot D.SectorDevice layout.now slot device.old device.new (λ t m m'. count ≤ 128 → Runs t layout.now never m m' (filling slot 0 zero_chunk count) result) }
{
    write_zeros(
        device,
        layout.block(slot),
        block_sector(*layout, slot, count),
    )
}
