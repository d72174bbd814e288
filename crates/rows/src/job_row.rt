// A row of a listing: a live or an erased job. The name is as its entry has it, padded; that of an erased job begins
// with $7F. The kind is the entry's type, a byte since any may stand on a card.
#[derive(Clone, Copy, PartialEq, Eq, Debug)]
pub struct JobRow {
    pub slot: u16,
    pub name: [u8; 16],
    pub kind: u8,
    pub address: u16,
    pub size: u16,
}
