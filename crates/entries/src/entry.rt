// An entry of the directory, field by field, and the 32 bytes that store it.
ghost use Rattle.std.specs.Prelude.{◌≡◌, length};
ghost use Rattle.entries.specs.Entry.{entry_in, entry_bytes, new_entry, resized, renamed, first_set, hold_entry};

use layout::words::{double_at, put_double, put_word, word_at};
use layout::{Name, extent};

// What the 32 bytes say. Any bytes make an entry; `EntryState` says whether it is a file's. Type and attributes may be any
// byte, so they are no enums.
#[derive(Clone, Copy, PartialEq, Eq, Debug, Default)]
pub struct Entry {
    pub name: [u8; 16],
    pub kind: u8,
    pub attributes: u8,
    pub slot: u16,
    pub first: u32,
    pub size: u16,
    pub sectors: u8,
    pub address: u16,
    pub reserved: [u8; 3],
}

impl Entry {
    // By name both ways and not by `From`: nothing in 32 bytes says that they are an entry.
    #[tactic(auto, using(crate::proofs::Entries::bytes_back), unfolding(crate::specs::Entry::entry_in))]
    pub fn decode(bytes: &[u8; 32]) -> Entry
        ensures value { result ≡ entry_in bytes.now }
        ensures back { entry_bytes result ≡ bytes.now }
    {
        Entry {
            name: bytes[0..16].try_into().unwrap(),
            kind: bytes[16],
            attributes: bytes[17],
            slot: word_at(bytes, 18),
            first: double_at(bytes, 20),
            size: word_at(bytes, 24),
            sectors: bytes[26],
            address: word_at(bytes, 27),
            reserved: bytes[29..32].try_into().unwrap(),
        }
    }

    // The reserved bytes and the name go in last: up to there the bytes stand at fixed places.
    pub fn encode(&self) -> [u8; 32]
        ensures value { result ≡ entry_bytes self.now }
        ensures back { entry_in result ≡ self.now }
    {
        let mut bytes = [0u8; 32];
        bytes[16] = self.kind;
        bytes[17] = self.attributes;
        put_word(&mut bytes, 18, self.slot);
        put_double(&mut bytes, 20, self.first);
        put_word(&mut bytes, 24, self.size);
        bytes[26] = self.sectors;
        put_word(&mut bytes, 27, self.address);
        bytes[29..32].copy_from_slice(&self.reserved);
        bytes[0..16].copy_from_slice(&self.name);
        bytes
    }

    // The entry of a new file: no attributes, nothing reserved.
    #[tactic(auto, unfolding(crate::specs::Entry::new_entry, device::specs::Meaning::zeros))]
    pub fn new(name: &Name, kind: u8, slot: u16, first: u32, size: u16, address: u16) -> Entry
        ensures { result ≡ new_entry name.now.bytes kind slot first size address }
    {
        Entry {
            name: name.padded(),
            kind,
            attributes: 0,
            slot,
            first,
            size,
            sectors: extent(size).0,
            address,
            reserved: [0; 3],
        }
    }

    // The entry of a slot that is still to be wiped: so many sectors, and nothing else.
    #[tactic(auto, unfolding(crate::specs::Entry::hold_entry, device::specs::Meaning::zeros))]
    pub fn held(sectors: u8) -> Entry
        ensures { result ≡ hold_entry sectors }
    {
        Entry {
            sectors,
            ..Entry::default()
        }
    }

    // The same file under another name.
    pub fn renamed(self, name: &Name) -> Entry
        ensures { result ≡ renamed self name.now.bytes }
    {
        let name = name.padded();
        Entry { name, ..self }
    }

    // The same file with another first byte of its name: $7F erases it, a letter brings it back.
    pub fn with_first(self, byte: u8) -> Entry
        ensures { result ≡ first_set self byte }
    {
        let mut name = self.name;
        name[0] = byte;
        Entry { name, ..self }
    }

    // The same file with another size.
    pub fn resized(self, size: u16) -> Entry
        ensures { result ≡ resized self size }
    {
        let (sectors, _) = extent(size);
        Entry {
            size,
            sectors,
            ..self
        }
    }
}
