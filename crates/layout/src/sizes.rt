// Where everything lies on a card of so many sectors.
ghost use Rattle.std.specs.Prelude.{◌≡◌};
ghost use Rattle.layout.specs.Sizes.{layout_of, place_of, block_of};

// The parts of a card: its sectors, the entries of its directory, the first sector of its data area, and the slots
// that files can take.
#[derive(Clone, Copy, PartialEq, Eq, Debug)]
pub struct Layout {
    pub sectors: u32,
    pub entries: u16,
    pub area: u16,
    pub slots: u16,
}

impl Layout {
    // The layout of a card of so many sectors.
    pub fn of(sectors: u32) -> Layout
        ensures { result ≡ layout_of sectors }
    {
        let entries = (sectors / 128).min(65_535);
        let area = 1 + entries.div_ceil(16);
        let slots = entries.min(sectors.saturating_sub(area) / 128);
        Layout {
            sectors,
            entries: entries as u16,
            area: area as u16,
            slots: slots as u16,
        }
    }

    // The first sector of a slot's block.
    pub fn block(&self, slot: u16) -> u32
        ensures { result ≡ block_of self.now slot }
    {
        u32::from(self.area) + 128 * u32::from(slot)
    }
}

// Where a slot's entry lies: its directory sector, and its first byte there.
#[derive(Clone, Copy, PartialEq, Eq, Debug)]
pub struct EntryPlace {
    pub sector: u32,
    pub offset: usize,
}

pub fn entry_place(slot: u16) -> EntryPlace
    ensures { result ≡ place_of slot }
{
    EntryPlace {
        sector: 1 + u32::from(slot) / 16,
        offset: 32 * usize::from(slot % 16),
    }
}
