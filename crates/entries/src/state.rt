// What an entry says of its slot.
ghost use Rattle.std.specs.Prelude.{◌≡◌};
ghost use Rattle.entries.specs.State.{live_entry, state_of};

use crate::entry::Entry;
use layout::{Layout, Name, extent};

#[derive(Clone, Copy, PartialEq, Eq, Debug)]
pub enum EntryState {
    // never used, or wiped
    Empty,
    // a wipe was cut off: so many sectors are still to be zeroed
    Held(u8),
    // a file that was erased and can be brought back
    Erased,
    // a file
    Live,
    // none of these
    Damaged,
}

impl Entry {
    // What this entry says as that of a slot on a card with this layout.
    #[tactic(auto, unfolding(crate::specs::State::state_of, crate::specs::State::state_by))]
    pub fn state(&self, layout: &Layout, slot: u16) -> EntryState
        ensures { result ≡ state_of layout.now slot self.now }
    {
        match self.name[0] {
            0 if self.sectors == 0 => EntryState::Empty,
            0 => EntryState::Held(self.sectors.min(128)),
            0x7F => EntryState::Erased,
            _ if self.is_live(layout, slot) => EntryState::Live,
            _ => EntryState::Damaged,
        }
    }

    // Whether slot, name, slot field, first sector and size in sectors are those of a file.
    #[tactic(auto, unfolding(crate::specs::State::live_entry, crate::specs::State::lawful_fields))]
    fn is_live(&self, layout: &Layout, slot: u16) -> bool
        ensures { result ≡ live_entry layout.now slot self.now }
    {
        slot < layout.slots
            && Name::new(&self.name).is_some()
            && self.slot == slot
            && self.first == layout.block(slot)
            && self.sectors == extent(self.size).0
    }
}
