// The faults of a directory.
ghost use Rattle.std.specs.Prelude.{◌≡◌, ◌≤◌, length, OnErr};
ghost use Rattle.device.specs.Calls.{Keeps, OfSound};
ghost use Rattle.plans.specs.Calls as calls;
ghost use Rattle.plans.specs.Memory.{card_layout};
ghost use Rattle.plans.specs.Rows.{findings};
ghost use Rattle.volume.specs.Kept.{kept};
ghost use Rattle.volume.specs.Outcomes.{Performs};
ghost use Rattle.listing.specs.Faults.{findings_in};
ghost use Rattle.listing.specs.Tables.{OfferedAll, HoldsFirst, Checks};

use crate::faults::finding;
use crate::names::taken_names;
use crate::offering::offer;
use device::{SectorDevice, zero_sector};
use layout::Layout;
use refusals::Refusal;
use rows::{Finding, RowTable};
use volume::{Memory, entry_in};

// The rows of the sixteen entries in a directory sector, the first of them that of slot `first`.
fn offer_sector<'a>(
    rows: &mut RowTable<'a, Finding>,
    layout: &Layout,
    first: u16,
    sector: &[u8; 512],
    taken: &[bool; 16],
)
    requires { first ≤ 65520 }
    ensures offered { OfferedAll (findings_in layout.now sector.now taken.now first 16) rows.old rows.new }
    ensures lender { rows.new.rows.ghost_name ≡ rows.old.rows.ghost_name }
{
    for i in 0..16u16 {
        let slot = first + i;
        let entry = entry_in(sector, slot);
        offer(rows, finding(layout, slot, &entry, taken[usize::from(i)]));
    }
}

// A row for the first fault of each entry, upwards, into a table that is begun anew; answers how many there are. Each directory sector
// is read once for its own entries, and once for each sector above it, whose names are compared with its names.
pub fn check<'a, D: SectorDevice>(
    device: &mut D,
    memory: &Memory,
    rows: &mut RowTable<'a, Finding>,
) -> Result<usize, Refusal>
    ensures keeps { Keeps D.SectorDevice device.old device.new }
    ensures performs { OfSound D.SectorDevice device.old device.new (λ t m m'. Performs t (Checks rows.old.rows.now rows.new) calls.check m m' (kept memory.now) (kept memory.now) result) }
    ensures refused { OfSound D.SectorDevice device.old device.new (λ t m m'. memory.now.size ≤ length m.sectors → OnErr result (HoldsFirst (findings (card_layout (kept memory.now)) m.sectors) rows.old.rows.now rows.new)) }
    ensures lender { rows.new.rows.ghost_name ≡ rows.old.rows.ghost_name }
{
    rows.clear();
    let layout = Layout::of(memory.size);
    let mut sector = zero_sector();
    for n in 1..layout.area {
        let first = 16 * (n - 1);
        device.read(u32::from(n), &mut sector)?;
        let taken = taken_names(device, &layout, first, &sector)?;
        offer_sector(rows, &layout, first, &sector, &taken);
    }
    Ok(rows.total())
}
