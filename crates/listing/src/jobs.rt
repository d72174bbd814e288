// The jobs of a card.
ghost use Rattle.std.specs.Prelude.{◌≡◌, ◌≤◌, length, OnErr};
ghost use Rattle.device.specs.Calls.{Keeps, OfSound};
ghost use Rattle.device.specs.Meaning.{Sectors};
ghost use Rattle.plans.specs.Calls as calls;
ghost use Rattle.plans.specs.Plans.{card_places};
ghost use Rattle.plans.specs.Rows.{row_of, job_rows};
ghost use Rattle.plans.specs.Slots.{as_slot, bytes_in, job_in, slots_in};
ghost use Rattle.volume.specs.Kept.{kept};
ghost use Rattle.volume.specs.Outcomes.{Performs};
ghost use Rattle.listing.specs.Tables.{HoldsFirst, Lists};

use crate::offering::offer;
use device::{SectorDevice, zero_sector};
use entries::{Entry, EntryState};
use layout::Layout;
use refusals::Refusal;
use rows::{JobRow, RowTable};
use volume::{Memory, entry_in, turn_to};

// The row of a slot with an entry of this state: a live or an erased job has one. The entry comes by value: behind a
// reference its size is not known to fit its type.
fn row_of(entry: Entry, state: EntryState, slot: u16) -> Option<JobRow>
    ensures { (s : Sectors) → 65535 ≤ length (bytes_in s) → result ≡ row_of slot (as_slot state (job_in entry s)) }
{
    let name = entry.name;
    match state {
        EntryState::Live | EntryState::Erased => Some(JobRow {
            slot,
            name,
            kind: entry.kind,
            address: entry.address,
            size: entry.size,
        }),
        _ => None,
    }
}

// A row for each live or erased job, upwards, into a table that is begun anew; answers how many there are.
pub fn list<'a, D: SectorDevice>(
    device: &mut D,
    memory: &Memory,
    rows: &mut RowTable<'a, JobRow>,
) -> Result<usize, Refusal>
    ensures keeps { Keeps D.SectorDevice device.old device.new }
    ensures performs { OfSound D.SectorDevice device.old device.new (λ t m m'. Performs t (Lists rows.old.rows.now rows.new) calls.list m m' (kept memory.now) (kept memory.now) result) }
    ensures refused { OfSound D.SectorDevice device.old device.new (λ t m m'. memory.now.size ≤ length m.sectors → OnErr result (HoldsFirst (job_rows (slots_in (card_places (kept memory.now) m.sectors))) rows.old.rows.now rows.new)) }
    ensures lender { rows.new.rows.ghost_name ≡ rows.old.rows.ghost_name }
{
    rows.clear();
    // Asked of every device, since its clause says that sectors are whole: a job's bytes are as many as its entry says.
    let _size = device.size();
    let layout = Layout::of(memory.size);
    let mut sector = zero_sector();
    for slot in 0..layout.slots {
        turn_to(device, slot, &mut sector)?;
        let entry = entry_in(&sector, slot);
        let state = entry.state(&layout, slot);
        offer(rows, row_of(entry, state, slot));
    }
    Ok(rows.total())
}
