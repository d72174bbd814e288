// The first fault of an entry.
ghost use Rattle.std.specs.Prelude.{◌≡◌};
ghost use Rattle.layout.specs.Sizes.{block_of};
ghost use Rattle.plans.specs.Rows.{fault_in, finding, known_kind};

use entries::Entry;
use layout::{Layout, Name, extent};
use rows::{Finding, FindingKind};

// Whether this is the type of a BAS, BIN or SEQ job.
fn is_known(kind: u8) -> bool
    ensures { result ≡ known_kind kind }
{
    matches!(kind, 0x80 | 0x81 | 0x82)
}

// The first fault of a slot's entry, if it has one. `taken`: its name is live in a lower slot already.
#[tactic(auto, unfolding(plans::specs::Rows::fault_in))]
fn fault_in(layout: &Layout, slot: u16, entry: &Entry, taken: bool) -> Option<FindingKind>
    ensures { result ≡ fault_in layout.now.slots taken slot (block_of layout.now slot) entry.now }
{
    let inside = slot < layout.slots;
    match entry.name[0] {
        0 if entry.sectors == 0 => None,
        0 if inside => Some(FindingKind::Held),
        0x7F if inside => None,
        0 | 0x7F => Some(FindingKind::NoBlock),
        _ if Name::new(&entry.name).is_none() => Some(FindingKind::Name),
        _ if entry.slot != slot => Some(FindingKind::Slot),
        _ if entry.first != layout.block(slot) => Some(FindingKind::FirstSector),
        _ if entry.sectors != extent(entry.size).0 => Some(FindingKind::Sectors),
        _ if taken => Some(FindingKind::NameTaken),
        _ if !inside => Some(FindingKind::NoBlock),
        _ if !is_known(entry.kind) => Some(FindingKind::FileType),
        _ => None,
    }
}

// Its row.
pub(crate) fn finding(layout: &Layout, slot: u16, entry: &Entry, taken: bool) -> Option<Finding>
    ensures { result ≡ finding slot (fault_in layout.now.slots taken slot (block_of layout.now slot) entry.now) }
{
    fault_in(layout, slot, entry, taken).map(|kind| Finding { slot, kind })
}
