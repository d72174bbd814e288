// The bytes of a slot's block.
ghost use Rattle.std.specs.Prelude.{◌+◌, ◌≤◌, ◌<◌, length};
ghost use Rattle.device.specs.Calls.{Keeps, OfSound};
ghost use Rattle.device.specs.Meaning.{Lawful};
ghost use Rattle.layout.specs.Bytes.{part as part_of};
ghost use Rattle.volume.specs.Directory.{OfSlot};
ghost use Rattle.reading.specs.Blocks.{block_bytes, ReadsPart, ReadsInto};

use device::{Fault, SectorDevice, zero_sector};
use layout::Layout;
use volume::block_sector;

// The bytes of a sector from one on, as many as the part takes; a whole sector goes straight to its place.
fn read_part<D: SectorDevice>(
    device: &mut D,
    n: u32,
    skip: usize,
    part: &mut [u8],
) -> Result<(), Fault>
    requires { skip + length part.old ≤ 512 }
    ensures keeps { Keeps D.SectorDevice device.old device.new }
    ensures reads { OfSound D.SectorDevice device.old device.new (λ t m m'. n < length m.sectors → ReadsPart t m m' n skip part.old part.new result) }
{
    if part.len() == 512 {
        return device.read(n, part);
    }
    let mut sector = zero_sector();
    device.read(n, &mut sector)?;
    part.copy_from_slice(&sector[skip..skip + part.len()]);
    Ok(())
}

// The bytes of a slot's block from a place on, as many as the part takes. Asks: that they are a job's, at most 65,535.
pub fn read_into<D: SectorDevice>(
    device: &mut D,
    layout: &Layout,
    slot: u16,
    place: usize,
    part: &mut [u8],
) -> Result<(), Fault>
    requires { place + length part.old ≤ 65535 }
    ensures keeps { Keeps D.SectorDevice device.old device.new }
    ensures reads { OfSlot D.SectorDevice layout.now slot device.old device.new (λ t m m'. Lawful m → ReadsInto t m m' place (part_of (block_bytes layout.now m.sectors slot) place (length part.old)) part.old part.new result) }
{
    let mut done = 0;
    while done < part.len() {
        let at = place + done;
        let skip = at % 512;
        let end = part.len().min(done + (512 - skip));
        let sector = block_sector(*layout, slot, (at / 512) as u8);
        read_part(device, sector, skip, &mut part[done..end])?;
        done = end;
    }
    Ok(())
}
