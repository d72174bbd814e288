// Passes over the directory, each of whose sectors is read once.
ghost use Rattle.std.specs.Prelude.{◌≡◌, Ok, Err};
ghost use Rattle.device.specs.Calls.{Keeps};
ghost use Rattle.device.specs.Meaning.{Sectors};
ghost use Rattle.plans.specs.Slots.{Job, job_in, as_slot, usable, named};
ghost use Rattle.volume.specs.Directory.{OfCard, Scans, Seeks, InSlots, ScanIn, FoundIn};

use crate::directory::{entry_in, turn_to};
use crate::found::{Found, Scan};
use device::{Fault, SectorDevice, zero_sector};
use entries::{Entry, EntryState};
use layout::Layout;

// Whether an entry of this state is that of a live job of the name.
fn is_named(entry: &Entry, state: EntryState, name: &[u8; 16]) -> bool
    ensures { (s : Sectors) → result ≡ named name.now (as_slot state (job_in entry.now s)) }
{
    state == EntryState::Live && *name == entry.name
}

// Whether a new job can take a slot of this state.
fn is_usable(state: EntryState) -> bool
    ensures { (j : Job) → result ≡ usable (as_slot state j) }
{
    matches!(state, EntryState::Empty | EntryState::Erased)
}

// The first live jobs of two names and the lowest usable slot, in one pass.
pub fn scan<D: SectorDevice>(
    device: &mut D,
    layout: &Layout,
    one: &[u8; 16],
    other: &[u8; 16],
) -> Result<Scan, Fault>
    ensures inside { ScanIn layout.now.slots result }
    ensures keeps { Keeps D.SectorDevice device.old device.new }
    ensures scans { OfCard D.SectorDevice layout.now device.old device.new (λ t m m'. Scans t layout.now m m' one.now other.now result) }
{
    let mut sector = zero_sector();
    let mut scan = Scan::default();
    for slot in 0..layout.slots {
        turn_to(device, slot, &mut sector)?;
        let entry = entry_in(&sector, slot);
        let state = entry.state(layout, slot);
        let found = Found { slot, entry };
        scan.one = scan.one.or(is_named(&entry, state, one).then_some(found));
        scan.other = scan
            .other
            .or(is_named(&entry, state, other).then_some(found));
        scan.room = scan.room.or(is_usable(state).then_some(found));
    }
    Ok(scan)
}

// The first live job of a name: the pass stops at its slot.
// It looks at a slot as `scan` does, in three lines: a helper would need a longer contract.
pub fn find<D: SectorDevice>(
    device: &mut D,
    layout: &Layout,
    name: &[u8; 16],
) -> Result<Option<Found>, Fault>
    ensures inside { FoundIn layout.now.slots result }
    ensures keeps { Keeps D.SectorDevice device.old device.new }
    ensures seeks { OfCard D.SectorDevice layout.now device.old device.new (λ t m m'. Seeks t layout.now m m' name.now result) }
{
    let mut sector = zero_sector();
    for slot in 0..layout.slots {
        turn_to(device, slot, &mut sector)?;
        let entry = entry_in(&sector, slot);
        let state = entry.state(layout, slot);
        if is_named(&entry, state, name) {
            return Ok(Some(Found { slot, entry }));
        }
    }
    Ok(None)
}
