// A row of a check: the first fault of a slot.
ghost use Rattle.std.specs.Prelude.{◌≡◌};
ghost use Rattle.rows.specs.Findings.{finding_number};

#[derive(Clone, Copy, PartialEq, Eq, Debug)]
pub enum FindingKind {
    // the name is not lawful
    Name,
    // the slot field is not the slot
    Slot,
    // the first sector is not that of the slot's block
    FirstSector,
    // the size in sectors is not that of the size in bytes
    Sectors,
    // a live job in a lower slot has the name
    NameTaken,
    // the slot has no block on the card, and is not empty
    NoBlock,
    // a wipe was cut off
    Held,
    // the type is none of BAS, BIN and SEQ
    FileType,
}

// A line, as the numbers of faults have: this crate stands on no other.
impl FindingKind {
    pub fn number(self) -> u8
        ensures { result ≡ finding_number self }
    {
        self as u8 + 1
    }
}

#[derive(Clone, Copy, PartialEq, Eq, Debug)]
pub struct Finding {
    pub slot: u16,
    pub kind: FindingKind,
}
