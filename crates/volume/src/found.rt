// What a pass over the directory finds.
use entries::Entry;

// A slot and its entry.
#[derive(Clone, Copy)]
pub struct Found {
    pub slot: u16,
    pub entry: Entry,
}

// The first live jobs of two names, and the lowest usable slot.
#[derive(Clone, Copy, Default)]
pub struct Scan {
    pub one: Option<Found>,
    pub other: Option<Found>,
    pub room: Option<Found>,
}
