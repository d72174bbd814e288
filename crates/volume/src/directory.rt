// The directory, one slot at a time.
ghost use Rattle.std.specs.Prelude.{◌≡◌, [], ◌∷◌};
ghost use Rattle.device.specs.Calls.{Keeps};
ghost use Rattle.entries.specs.Entry.{entry_in, entry_bytes, resized};
ghost use Rattle.layout.specs.Bytes.{part};
ghost use Rattle.layout.specs.Sizes.{place_of};
ghost use Rattle.layout.specs.declared.sizes.Layout.{Layout};
ghost use Rattle.places.specs.SlotWrites.{spliced};
ghost use Rattle.places.specs.Places.{places};
ghost use Rattle.plans.specs.Plans.{for_entries, entering, entry_of, place_in};
ghost use Rattle.volume.specs.Directory.{OfSlot, OfEntry, Turns, ReadsEntry, Holds};
ghost use Rattle.volume.specs.Performing.{Runs};

use device::{Fault, SectorDevice, zero_sector};
use entries::Entry;
use layout::{Layout, entry_place};

// Turns the buffer to a slot: reads its directory sector where the slot is the first in it.
pub fn turn_to<D: SectorDevice>(
    device: &mut D,
    slot: u16,
    sector: &mut [u8; 512],
) -> Result<(), Fault>
    ensures keeps { Keeps D.SectorDevice device.old device.new }
    ensures turns { OfEntry D.SectorDevice slot device.old device.new (λ t m m'. Turns t m m' slot sector.old sector.new result) }
{
    let place = entry_place(slot);
    if place.offset == 0 {
        device.read(place.sector, sector)?;
    }
    Ok(())
}

// A slot's entry in its directory sector.
pub fn entry_in(sector: &[u8; 512], slot: u16) -> Entry
    ensures { result ≡ entry_in (part sector.now (place_of slot).offset 32) }
{
    let at = entry_place(slot).offset;
    let bytes = sector[at..at + 32].try_into().unwrap();
    Entry::decode(&bytes)
}

// A slot's entry into its directory sector, the other fifteen unchanged.
fn put_entry(sector: &mut [u8; 512], slot: u16, entry: &Entry)
    ensures { sector.new ≡ spliced sector.old (place_of slot).offset (entry_bytes entry.now) }
{
    let at = entry_place(slot).offset;
    sector[at..at + 32].copy_from_slice(&entry.encode());
}

// Reads a slot's directory sector into the buffer, puts the entry into it and writes it.
pub fn write_entry<D: SectorDevice>(
    device: &mut D,
    slot: u16,
    entry: &Entry,
    sector: &mut [u8; 512],
) -> Result<(), Fault>
    ensures keeps { Keeps D.SectorDevice device.old device.new }
    ensures runs { OfEntry D.SectorDevice slot device.old device.new (λ t m m'. (c : Layout) → Runs t c for_entries m m' (entering slot entry.now ∷ []) result) }
    ensures holds { OfEntry D.SectorDevice slot device.old device.new (λ t m m'. Holds m' slot sector.new result) }
{
    let n = entry_place(slot).sector;
    device.read(n, sector)?;
    put_entry(sector, slot, entry);
    device.write(n, sector)
}

// The entry of a slot.
pub fn read_entry<D: SectorDevice>(
    device: &mut D,
    layout: &Layout,
    slot: u16,
) -> Result<Entry, Fault>
    ensures keeps { Keeps D.SectorDevice device.old device.new }
    ensures reads { OfSlot D.SectorDevice layout.now slot device.old device.new (λ t m m'. ReadsEntry t layout.now m m' slot result) }
{
    let mut sector = zero_sector();
    device.read(entry_place(slot).sector, &mut sector)?;
    Ok(entry_in(&sector, slot))
}

// Reads a slot's directory sector, gives the entry another size and writes it.
pub fn resize_entry<D: SectorDevice>(
    device: &mut D,
    layout: &Layout,
    slot: u16,
    size: u16,
) -> Result<(), Fault>
    ensures keeps { Keeps D.SectorDevice device.old device.new }
    ensures runs { OfSlot D.SectorDevice layout.now slot device.old device.new (λ t m m'. Runs t layout.now for_entries m m' (entering slot (resized (entry_of (place_in (places layout.now m.sectors) slot)) size) ∷ []) result) }
{
    let n = entry_place(slot).sector;
    let mut sector = zero_sector();
    device.read(n, &mut sector)?;
    let entry = entry_in(&sector, slot).resized(size);
    put_entry(&mut sector, slot, &entry);
    device.write(n, &sector)
}
