// The calls on a device of a make each value of which is sound: what they promise of a sound device they promise of every such
// one. Each function here says so of the call in its body, and the tests make every call.
ghost use Rattle.device.specs.Meaning.{Lawful};
ghost use Rattle.trials.specs.SoundCalls.{AsksRead, AsksWrite, OfCard, OfEntry, OfSlot};
ghost use Rattle.entries.specs.Entry.{resized};
ghost use Rattle.formatting.specs.Format.{Formats, Leaves, ReadsLabel, new_label};
ghost use Rattle.layout.specs.Bytes.{part as part_of};
ghost use Rattle.layout.specs.Extents.{extent_of};
ghost use Rattle.layout.specs.declared.sizes.Layout.{Layout};
ghost use Rattle.listing.specs.Tables.{Checks, HoldsFirst, Lists};
ghost use Rattle.naming.specs.Named.{Finds, named_plan, padded_plan, shut_plan};
ghost use Rattle.places.specs.Places.{places};
ghost use Rattle.plans.specs.Calls as calls;
ghost use Rattle.plans.specs.Memory.{card_layout};
ghost use Rattle.plans.specs.Plans.{card_places, chunk, entering, entry_of, filling, for_entries, never, place_in, plan, zero_chunk};
ghost use Rattle.plans.specs.Rows.{findings, job_rows};
ghost use Rattle.plans.specs.Slots.{slots_in};
ghost use Rattle.reading.specs.Answers.{Compared, Counted, Loaded};
ghost use Rattle.reading.specs.Blocks.{ReadsInto, block_bytes};
ghost use Rattle.reading.specs.Buffers.{Filled};
ghost use Rattle.runs.specs.Writes.{Written, zeroing};
ghost use Rattle.sound.specs.Calls.{KeepsFaults, Means, ReadsSector, WritesSector};
ghost use Rattle.std.specs.Prelude.{OnErr, [], length, ◌*◌, ◌+◌, ◌-◌, ◌∷◌, ◌≡◌, ◌≤◌};
ghost use Rattle.streaming.specs.Opened.{HandleOf};
ghost use Rattle.volume.specs.Directory.{FoundIn, Holds, ReadsEntry, ScanIn, Scans, Seeks, Turns};
ghost use Rattle.volume.specs.Kept.{kept};
ghost use Rattle.volume.specs.Outcomes.{Performs, Plain};
ghost use Rattle.volume.specs.Performing.{Runs};

use device::{Fault, Geometry, SectorDevice};
use entries::Entry;
use layers::Window;
use layout::{Label, Layout};
use reading::JobInfo;
use refusals::Refusal;
use rows::{Finding, JobRow, RowTable};
use sound::SoundDevice;
use volume::{Found, Memory, Scan};

fn size<D: SoundDevice>(device: &D) -> u32
    ensures lawful { Lawful (D.SectorDevice.meaning device.now) }
    ensures value { result ≡ length (D.SectorDevice.meaning device.now).sectors }
{
    device.size()
}

fn geometry<D: SoundDevice>(device: &D) -> Geometry
    ensures { result ≡ (D.SectorDevice.meaning device.now).geometry }
{
    device.geometry()
}

fn read_sector<D: SoundDevice>(device: &mut D, n: u32, buf: &mut [u8]) -> Result<(), Fault>
    ensures faults { KeepsFaults D.SectorDevice device.old device.new }
    ensures reads { ReadsSector D.SectorDevice device.old device.new n buf.old buf.new result }
{
    device.read(n, buf)
}

fn write_sector<D: SoundDevice>(device: &mut D, n: u32, buf: &[u8]) -> Result<(), Fault>
    ensures faults { KeepsFaults D.SectorDevice device.old device.new }
    ensures writes { WritesSector D.SectorDevice device.old device.new n buf.now result }
{
    device.write(n, buf)
}

// What a window asks of the device beneath.
fn read_window<D: SoundDevice>(window: &mut Window<D>, n: u32, buf: &mut [u8]) -> Result<(), Fault>
    ensures { AsksRead D.SectorDevice window.old window.new n buf.old buf.new result }
{
    window.read(n, buf)
}

fn write_window<D: SoundDevice>(window: &mut Window<D>, n: u32, buf: &[u8]) -> Result<(), Fault>
    ensures { AsksWrite D.SectorDevice window.old window.new n buf.now result }
{
    window.write(n, buf)
}

fn write_zeros<D: SoundDevice>(device: &mut D, first: u32, end: u32) -> Result<(), Fault>
    ensures keeps { KeepsFaults D.SectorDevice device.old device.new }
    ensures writes { Means D.SectorDevice device.old device.new (λ t m m'. end ≤ length m.sectors → Written t m m' (zeroing first (end - first)) result) }
{
    runs::write_zeros(device, first, end)
}

fn format<D: SoundDevice>(device: &mut D, name: &[u8], id: &[u8]) -> Result<Layout, Refusal>
    ensures keeps { KeepsFaults D.SectorDevice device.old device.new }
    ensures follows { Means D.SectorDevice device.old device.new (λ t m m'. Formats t m m' name.now id.now result) }
    ensures leaves { Means D.SectorDevice device.old device.new (λ t m m'. Leaves m m' (new_label (length m.sectors) m.geometry name.now id.now) result) }
{
    formatting::format(device, name, id)
}

fn read_label<D: SoundDevice>(device: &mut D) -> Result<Label, Refusal>
    ensures keeps { KeepsFaults D.SectorDevice device.old device.new }
    ensures reads { Means D.SectorDevice device.old device.new (λ t m m'. ReadsLabel t m m' result) }
{
    formatting::read_label(device)
}

fn turn_to<D: SoundDevice>(device: &mut D, slot: u16, sector: &mut [u8; 512]) -> Result<(), Fault>
    ensures keeps { KeepsFaults D.SectorDevice device.old device.new }
    ensures turns { OfEntry D.SectorDevice slot device.old device.new (λ t m m'. Turns t m m' slot sector.old sector.new result) }
{
    volume::turn_to(device, slot, sector)
}

fn write_entry<D: SoundDevice>(
    device: &mut D,
    slot: u16,
    entry: &Entry,
    sector: &mut [u8; 512],
) -> Result<(), Fault>
    ensures keeps { KeepsFaults D.SectorDevice device.old device.new }
    ensures runs { OfEntry D.SectorDevice slot device.old device.new (λ t m m'. (c : Layout) → Runs t c for_entries m m' (entering slot entry.now ∷ []) result) }
    ensures holds { OfEntry D.SectorDevice slot device.old device.new (λ t m m'. Holds m' slot sector.new result) }
{
    volume::write_entry(device, slot, entry, sector)
}

fn read_entry<D: SoundDevice>(device: &mut D, layout: &Layout, slot: u16) -> Result<Entry, Fault>
    ensures keeps { KeepsFaults D.SectorDevice device.old device.new }
    ensures reads { OfSlot D.SectorDevice layout.now slot device.old device.new (λ t m m'. ReadsEntry t layout.now m m' slot result) }
{
    volume::read_entry(device, layout, slot)
}

fn resize_entry<D: SoundDevice>(
    device: &mut D,
    layout: &Layout,
    slot: u16,
    size: u16,
) -> Result<(), Fault>
    ensures keeps { KeepsFaults D.SectorDevice device.old device.new }
    ensures runs { OfSlot D.SectorDevice layout.now slot device.old device.new (λ t m m'. Runs t layout.now for_entries m m' (entering slot (resized (entry_of (place_in (places layout.now m.sectors) slot)) size) ∷ []) result) }
{
    volume::resize_entry(device, layout, slot, size)
}

fn write_data<D: SoundDevice>(
    device: &mut D,
    layout: &Layout,
    slot: u16,
    from: u8,
    bytes: &[u8],
) -> Result<(), Fault>
    requires { 512 * from + length bytes.now ≤ 65536 }
    ensures keeps { KeepsFaults D.SectorDevice device.old device.new }
    ensures runs { OfSlot D.SectorDevice layout.now slot device.old device.new (λ t m m'. Runs t layout.now never m m' (filling slot from (chunk bytes.now) (extent_of (length bytes.now)).0) result) }
{
    volume::write_data(device, layout, slot, from, bytes)
}

fn zero_block<D: SoundDevice>(
    device: &mut D,
    layout: &Layout,
    slot: u16,
    count: u8,
) -> Result<(), Fault>
    ensures keeps { KeepsFaults D.SectorDevice device.old device.new }
    ensures runs { OfSlot D.SectorDevice layout.now slot device.old device.new (λ t m m'. count ≤ 128 → Runs t layout.now never m m' (filling slot 0 zero_chunk count) result) }
{
    volume::zero_block(device, layout, slot, count)
}

fn scan<D: SoundDevice>(
    device: &mut D,
    layout: &Layout,
    one: &[u8; 16],
    other: &[u8; 16],
) -> Result<Scan, Fault>
    ensures inside { ScanIn layout.now.slots result }
    ensures keeps { KeepsFaults D.SectorDevice device.old device.new }
    ensures scans { OfCard D.SectorDevice layout.now device.old device.new (λ t m m'. Scans t layout.now m m' one.now other.now result) }
{
    volume::scan(device, layout, one, other)
}

fn find<D: SoundDevice>(
    device: &mut D,
    layout: &Layout,
    name: &[u8; 16],
) -> Result<Option<Found>, Fault>
    ensures inside { FoundIn layout.now.slots result }
    ensures keeps { KeepsFaults D.SectorDevice device.old device.new }
    ensures seeks { OfCard D.SectorDevice layout.now device.old device.new (λ t m m'. Seeks t layout.now m m' name.now result) }
{
    volume::find(device, layout, name)
}

fn find_job<D: SoundDevice>(
    device: &mut D,
    memory: &Memory,
    name: &[u8; 16],
) -> Result<Found, Refusal>
    ensures keeps { KeepsFaults D.SectorDevice device.old device.new }
    ensures finds { Means D.SectorDevice device.old device.new (λ t m m'. memory.now.size ≤ length m.sectors → Finds (padded_plan (card_places (kept memory.now) m.sectors) name.now) t m m' (kept memory.now) result) }
{
    naming::find_job(device, memory, name)
}

fn find_named<D: SoundDevice>(
    device: &mut D,
    memory: &Memory,
    name: &[u8],
) -> Result<Found, Refusal>
    ensures keeps { KeepsFaults D.SectorDevice device.old device.new }
    ensures finds { Means D.SectorDevice device.old device.new (λ t m m'. memory.now.size ≤ length m.sectors → Finds (named_plan (card_places (kept memory.now) m.sectors) name.now) t m m' (kept memory.now) result) }
{
    naming::find_named(device, memory, name)
}

fn find_shut<D: SoundDevice>(device: &mut D, memory: &Memory, name: &[u8]) -> Result<Found, Refusal>
    ensures keeps { KeepsFaults D.SectorDevice device.old device.new }
    ensures finds { Means D.SectorDevice device.old device.new (λ t m m'. memory.now.size ≤ length m.sectors → Finds (shut_plan (card_places (kept memory.now) m.sectors) (kept memory.now).job name.now) t m m' (kept memory.now) result) }
{
    naming::find_shut(device, memory, name)
}

fn read_into<D: SoundDevice>(
    device: &mut D,
    layout: &Layout,
    slot: u16,
    place: usize,
    part: &mut [u8],
) -> Result<(), Fault>
    requires { place + length part.old ≤ 65535 }
    ensures keeps { KeepsFaults D.SectorDevice device.old device.new }
    ensures reads { OfSlot D.SectorDevice layout.now slot device.old device.new (λ t m m'. Lawful m → ReadsInto t m m' place (part_of (block_bytes layout.now m.sectors slot) place (length part.old)) part.old part.new result) }
{
    reading::read_into(device, layout, slot, place, part)
}

fn load<D: SoundDevice>(
    device: &mut D,
    memory: &Memory,
    name: &[u8],
    buffer: &mut [u8],
) -> Result<JobInfo, Refusal>
    ensures keeps { KeepsFaults D.SectorDevice device.old device.new }
    ensures performs { Means D.SectorDevice device.old device.new (λ t m m'. Performs t Loaded (calls.load name.now (length buffer.old)) m m' (kept memory.now) (kept memory.now) result) }
    ensures fills { Means D.SectorDevice device.old device.new (λ t m m'. memory.now.size ≤ length m.sectors → Filled (plan m.sectors (kept memory.now) (calls.load name.now (length buffer.old))) 0 buffer.old buffer.new result) }
{
    reading::load(device, memory, name, buffer)
}

fn read<D: SoundDevice>(
    device: &mut D,
    memory: &Memory,
    name: &[u8],
    place: usize,
    buffer: &mut [u8],
) -> Result<usize, Refusal>
    ensures keeps { KeepsFaults D.SectorDevice device.old device.new }
    ensures performs { Means D.SectorDevice device.old device.new (λ t m m'. Performs t Counted (calls.read name.now place (length buffer.old)) m m' (kept memory.now) (kept memory.now) result) }
    ensures fills { Means D.SectorDevice device.old device.new (λ t m m'. memory.now.size ≤ length m.sectors → Filled (plan m.sectors (kept memory.now) (calls.read name.now place (length buffer.old))) place buffer.old buffer.new result) }
{
    reading::read(device, memory, name, place, buffer)
}

fn same<D: SoundDevice>(
    device: &mut D,
    memory: &Memory,
    one: &[u8],
    other: &[u8],
) -> Result<bool, Refusal>
    ensures keeps { KeepsFaults D.SectorDevice device.old device.new }
    ensures performs { Means D.SectorDevice device.old device.new (λ t m m'. Performs t Compared (calls.same one.now other.now) m m' (kept memory.now) (kept memory.now) result) }
{
    reading::same(device, memory, one, other)
}

fn save<D: SoundDevice>(
    device: &mut D,
    memory: &Memory,
    name: &[u8],
    kind: u8,
    address: u16,
    bytes: &[u8],
) -> Result<(), Refusal>
    ensures keeps { KeepsFaults D.SectorDevice device.old device.new }
    ensures performs { Means D.SectorDevice device.old device.new (λ t m m'. Performs t Plain (calls.save name.now kind address bytes.now) m m' (kept memory.now) (kept memory.now) result) }
{
    saving::save(device, memory, name, kind, address, bytes)
}

fn open<D: SoundDevice>(device: &mut D, memory: &mut Memory, name: &[u8]) -> Result<u16, Refusal>
    ensures keeps { KeepsFaults D.SectorDevice device.old device.new }
    ensures performs { Means D.SectorDevice device.old device.new (λ t m m'. Performs t HandleOf (calls.open' name.now) m m' (kept memory.old) (kept memory.new) result) }
{
    streaming::open(device, memory, name)
}

fn put<D: SoundDevice>(
    device: &mut D,
    memory: &mut Memory,
    handle: u16,
    piece: &[u8],
) -> Result<(), Refusal>
    ensures keeps { KeepsFaults D.SectorDevice device.old device.new }
    ensures performs { Means D.SectorDevice device.old device.new (λ t m m'. Performs t Plain (calls.put handle piece.now) m m' (kept memory.old) (kept memory.new) result) }
{
    streaming::put(device, memory, handle, piece)
}

fn commit<D: SoundDevice>(device: &mut D, memory: &mut Memory, handle: u16) -> Result<(), Refusal>
    ensures keeps { KeepsFaults D.SectorDevice device.old device.new }
    ensures performs { Means D.SectorDevice device.old device.new (λ t m m'. Performs t Plain (calls.commit handle) m m' (kept memory.old) (kept memory.new) result) }
{
    streaming::commit(device, memory, handle)
}

fn list<'a, D: SoundDevice>(
    device: &mut D,
    memory: &Memory,
    rows: &mut RowTable<'a, JobRow>,
) -> Result<usize, Refusal>
    ensures keeps { KeepsFaults D.SectorDevice device.old device.new }
    ensures performs { Means D.SectorDevice device.old device.new (λ t m m'. Performs t (Lists rows.old.rows.now rows.new) calls.list m m' (kept memory.now) (kept memory.now) result) }
    ensures refused { Means D.SectorDevice device.old device.new (λ t m m'. memory.now.size ≤ length m.sectors → OnErr result (HoldsFirst (job_rows (slots_in (card_places (kept memory.now) m.sectors))) rows.old.rows.now rows.new)) }
    ensures lender { rows.new.rows.ghost_name ≡ rows.old.rows.ghost_name }
{
    listing::list(device, memory, rows)
}

fn check<'a, D: SoundDevice>(
    device: &mut D,
    memory: &Memory,
    rows: &mut RowTable<'a, Finding>,
) -> Result<usize, Refusal>
    ensures keeps { KeepsFaults D.SectorDevice device.old device.new }
    ensures performs { Means D.SectorDevice device.old device.new (λ t m m'. Performs t (Checks rows.old.rows.now rows.new) calls.check m m' (kept memory.now) (kept memory.now) result) }
    ensures refused { Means D.SectorDevice device.old device.new (λ t m m'. memory.now.size ≤ length m.sectors → OnErr result (HoldsFirst (findings (card_layout (kept memory.now)) m.sectors) rows.old.rows.now rows.new)) }
    ensures lender { rows.new.rows.ghost_name ≡ rows.old.rows.ghost_name }
{
    listing::check(device, memory, rows)
}

fn mount<D: SoundDevice>(device: &mut D, memory: &mut Memory) -> Result<(), Refusal>
    ensures keeps { KeepsFaults D.SectorDevice device.old device.new }
    ensures performs { Means D.SectorDevice device.old device.new (λ t m m'. Performs t Plain calls.mount m m' (kept memory.old) (kept memory.new) result) }
{
    changing::mount(device, memory)
}

fn erase<D: SoundDevice>(device: &mut D, memory: &Memory, name: &[u8]) -> Result<(), Refusal>
    ensures keeps { KeepsFaults D.SectorDevice device.old device.new }
    ensures performs { Means D.SectorDevice device.old device.new (λ t m m'. Performs t Plain (calls.erase name.now) m m' (kept memory.now) (kept memory.now) result) }
{
    changing::erase(device, memory, name)
}

fn rename<D: SoundDevice>(
    device: &mut D,
    memory: &Memory,
    old: &[u8],
    new: &[u8],
) -> Result<(), Refusal>
    ensures keeps { KeepsFaults D.SectorDevice device.old device.new }
    ensures performs { Means D.SectorDevice device.old device.new (λ t m m'. Performs t Plain (calls.rename old.now new.now) m m' (kept memory.now) (kept memory.now) result) }
{
    changing::rename(device, memory, old, new)
}

fn undelete<D: SoundDevice>(
    device: &mut D,
    memory: &Memory,
    slot: u16,
    letter: u8,
) -> Result<(), Refusal>
    ensures keeps { KeepsFaults D.SectorDevice device.old device.new }
    ensures performs { Means D.SectorDevice device.old device.new (λ t m m'. Performs t Plain (calls.undelete slot letter) m m' (kept memory.now) (kept memory.now) result) }
{
    changing::undelete(device, memory, slot, letter)
}

fn wipe<D: SoundDevice>(device: &mut D, memory: &Memory, name: &[u8]) -> Result<(), Refusal>
    ensures keeps { KeepsFaults D.SectorDevice device.old device.new }
    ensures performs { Means D.SectorDevice device.old device.new (λ t m m'. Performs t Plain (calls.wipe name.now) m m' (kept memory.now) (kept memory.now) result) }
{
    changing::wipe(device, memory, name)
}

fn sweep<D: SoundDevice>(device: &mut D, memory: &Memory) -> Result<(), Refusal>
    ensures keeps { KeepsFaults D.SectorDevice device.old device.new }
    ensures performs { Means D.SectorDevice device.old device.new (λ t m m'. Performs t Plain calls.sweep m m' (kept memory.now) (kept memory.now) result) }
{
    changing::sweep(device, memory)
}

mod tests {
    use super::*;
    use device::zero_sector;
    use layers::{Counting, Span};
    use layout::Name;
    use rows::FindingKind;
    use sound::SoundCache;
    use std::test::Fail;
    use stores::{ImageDevice, SparseDevice};

    const GEOMETRY: Geometry = Geometry {
        cylinders: 1,
        sectors_per_track: 1,
        heads: 1,
    };

    // A card of four slots in an image of 528 sectors.
    const CARD: Span = Span {
        first: 8,
        count: 520,
    };

    const UNMOUNTED: Memory = Memory { size: 0, job: None };

    // A window on a cache, each value of which is sound, on a counted image.
    fn card_on<'a>(bytes: &'a mut [u8]) -> Window<SoundCache<Counting<ImageDevice<'a>>>> {
        let image = ImageDevice::new(bytes, GEOMETRY);
        Window::new(SoundCache::new(Counting::new(image)), CARD)
    }

    // A name with spaces to 16 bytes; all zero where it is no lawful one.
    fn padded(name: &[u8]) -> [u8; 16] {
        Name::new(name).map_or([0; 16], |n| n.padded())
    }

    // Formats a card, and saves the bytes as two jobs; answers how many slots and sectors there are.
    fn prepare<D: SoundDevice>(card: &mut D, bytes: &[u8]) -> Result<(u16, u32), Refusal> {
        let mut memory = UNMOUNTED;
        let layout = format(card, b"TRIAL", b"A1B2")?;
        let label = read_label(card)?;
        mount(card, &mut memory)?;
        save(card, &memory, b"ONE", 0x81, 7, bytes)?;
        save(card, &memory, b"TWO", 0x81, 7, bytes)?;
        Ok((layout.slots, label.layout.sectors))
    }

    // The size of the first job, how many of its bytes are read from 500 on, and whether the jobs are the same.
    fn look<D: SoundDevice>(
        card: &mut D,
        buffer: &mut [u8],
    ) -> Result<(u16, usize, bool), Refusal> {
        let mut memory = UNMOUNTED;
        mount(card, &mut memory)?;
        let same = same(card, &memory, b"ONE", b"TWO")?;
        let count = read(card, &memory, b"ONE", 500, buffer)?;
        let info = load(card, &memory, b"ONE", buffer)?;
        Ok((info.size, count, same))
    }

    // Puts the bytes and commits them, and puts more that is not committed; answers the job's slot and its size on the card.
    fn stream<D: SoundDevice>(card: &mut D, bytes: &[u8]) -> Result<(u16, u16), Refusal> {
        let mut memory = UNMOUNTED;
        mount(card, &mut memory)?;
        let handle = open(card, &mut memory, b"LONG")?;
        put(card, &mut memory, handle, bytes)?;
        commit(card, &mut memory, handle)?;
        put(card, &mut memory, handle, b"lost")?;
        let found = find_named(card, &memory, b"LONG")?;
        Ok((handle, found.entry.size))
    }

    // Renames the second job, erases it and brings it back, and wipes the first; answers the slots that the two had.
    fn change<D: SoundDevice>(card: &mut D) -> Result<(u16, u16), Refusal> {
        let mut memory = UNMOUNTED;
        mount(card, &mut memory)?;
        rename(card, &memory, b"TWO", b"FOUR")?;
        let found = find_job(card, &memory, &padded(b"FOUR"))?;
        erase(card, &memory, b"FOUR")?;
        undelete(card, &memory, found.slot, b'F')?;
        let other = find_shut(card, &memory, b"ONE")?;
        wipe(card, &memory, b"ONE")?;
        sweep(card, &memory)?;
        Ok((found.slot, other.slot))
    }

    // How many jobs and faults there are, and the size of the last job.
    fn count<D: SoundDevice>(card: &mut D) -> Result<(usize, usize, u16), Refusal> {
        let mut jobs = [JobRow {
            slot: 0,
            name: [0; 16],
            kind: 0,
            address: 0,
            size: 0,
        }; 2];
        let mut faults = [Finding {
            slot: 0,
            kind: FindingKind::Name,
        }; 2];
        let mut memory = UNMOUNTED;
        mount(card, &mut memory)?;
        let listed = list(card, &memory, &mut RowTable::new(&mut jobs))?;
        let found = check(card, &memory, &mut RowTable::new(&mut faults))?;
        Ok((listed, found, jobs[1].size))
    }

    // Bytes in a block, then zeros over its first sector: the bytes at its end and at the start of its second sector.
    fn fill<D: SoundDevice>(card: &mut D) -> Result<(u8, u8), Fault> {
        let layout = Layout::of(520);
        let mut part = [0; 600];
        write_data(card, &layout, 0, 0, &[9; 600])?;
        zero_block(card, &layout, 0, 1)?;
        read_into(card, &layout, 0, 0, &mut part)?;
        Ok((part[511], part[512]))
    }

    // An entry written on a directory that is zeroed first, and given a size; answers that size and the first byte of this
    // entry and of the next.
    fn enter<D: SoundDevice>(card: &mut D, entry: &Entry) -> Result<(u16, u8, u8), Fault> {
        let layout = Layout::of(520);
        let mut sector = zero_sector();
        write_entry(card, 1, entry, &mut sector)?;
        write_zeros(card, 1, 3)?;
        write_entry(card, 0, entry, &mut sector)?;
        resize_entry(card, &layout, 0, 600)?;
        sector = zero_sector();
        turn_to(card, 0, &mut sector)?;
        let read = read_entry(card, &layout, 0)?;
        Ok((read.size, sector[0], sector[32]))
    }

    // Whether a name is found, and whether there is room.
    fn search<D: SoundDevice>(card: &mut D, name: &[u8; 16]) -> Result<(bool, bool), Fault> {
        let layout = Layout::of(520);
        let found = find(card, &layout, name)?;
        let scan = scan(card, &layout, name, name)?;
        Ok((found.is_some(), scan.room.is_some()))
    }

    #[test]
    fn jobs(rt: HostRuntime) -> Result<(), Fail> {
        let mut bytes = vec![in rt.alloc(); 0u8; 270_336]?;
        let mut card = card_on(&mut bytes);
        assert_eq!(rt; prepare(&mut card, &[65; 600]), Ok((4, 520)));
        let mut buffer = [0; 700];
        assert_eq!(rt; look(&mut card, &mut buffer), Ok((600, 100, true)));
        assert_eq!(rt; buffer[599], 65);
        assert_eq!(rt; buffer[600], 0);
        assert_eq!(rt; search(&mut card, &padded(b"TWO")), Ok((true, true)));
        assert_eq!(rt; search(&mut card, &padded(b"SIX")), Ok((false, true)));
        Ok(())
    }

    // The card is pulled: what was put and not committed is lost, and nothing else.
    #[test]
    fn pulled(rt: HostRuntime) -> Result<(), Fail> {
        let mut bytes = vec![in rt.alloc(); 0u8; 270_336]?;
        let mut card = card_on(&mut bytes);
        assert_eq!(rt; prepare(&mut card, &[65; 600]), Ok((4, 520)));
        assert_eq!(rt; stream(&mut card, &[66; 700]), Ok((2, 700)));
        assert_eq!(rt; change(&mut card), Ok((1, 0)));
        let bytes = card
            .into_beneath()
            .into_beneath()
            .into_beneath()
            .into_bytes();
        assert_eq!(rt; count(&mut card_on(bytes)), Ok((2, 0, 700)));
        Ok(())
    }

    #[test]
    fn steps(rt: HostRuntime) -> Result<(), Fail> {
        let mut bytes = vec![in rt.alloc(); 0u8; 270_336]?;
        let mut card = card_on(&mut bytes);
        let entry = Entry {
            name: padded(b"ONE"),
            ..Entry::default()
        };
        assert_eq!(rt; fill(&mut card), Ok((0, 9)));
        assert_eq!(rt; enter(&mut card, &entry), Ok((600, b'O', 0)));
        Ok(())
    }

    #[test]
    fn transfers(rt: HostRuntime) {
        let mut places = [None; 2];
        let mut sector = zero_sector();
        let mut card = SoundCache::new(SparseDevice::new(&mut places, 200, GEOMETRY));
        assert_eq!(rt; size(&card), 200);
        assert_eq!(rt; geometry(&card), GEOMETRY);
        assert_eq!(rt; write_sector(&mut card, 7, &[5; 512]), Ok(()));
        assert_eq!(rt; read_sector(&mut card, 7, &mut sector), Ok(()));
        assert_eq!(rt; sector[511], 5);
        let mut window = Window::new(&mut card, Span { first: 7, count: 2 });
        assert_eq!(rt; write_window(&mut window, 1, &[6; 512]), Ok(()));
        assert_eq!(rt; read_window(&mut window, 0, &mut sector), Ok(()));
        assert_eq!(rt; sector[511], 5);
        assert_eq!(rt; read_window(&mut window, 1, &mut sector), Ok(()));
        assert_eq!(rt; sector[511], 6);
    }
}
