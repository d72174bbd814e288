// The label: what the master sector says of a card.
ghost use Rattle.std.specs.Prelude.{◌≡◌, ℕ, ◌++◌, length, take, Ok};
ghost use Rattle.layout.specs.Label.{signature, label_head, label_sector, bad_field, label_in, read_label, LawfulLabel};

use crate::sizes::Layout;
use crate::words::{double_at, put_double, put_word, word_at};
use device::{Geometry, zero_sector};

// A card's label. The name and the id are as the card has them, padded, and on a card from elsewhere they may be
// anything.
#[derive(Clone, Copy, PartialEq, Eq, Debug)]
pub struct Label {
    pub layout: Layout,
    pub geometry: Geometry,
    pub name: [u8; 16],
    pub id: [u8; 4],
}

impl Label {
    // The master sector of a card with this label. By name and not by `From`, as `Label::read` is, since it promises the way
    // back too.
    pub fn to_sector(&self) -> [u8; 512]
        ensures value { result ≡ label_sector self.now }
        ensures back { (n : ℕ) → LawfulLabel self.now n → read_label n result ≡ Ok self.now }
    {
        let mut sector = zero_sector();
        sign(&mut sector);
        sector[0x000..0x034].copy_from_slice(&self.head());
        sector
    }

    // The label in a master sector on a device of so many sectors, or else the offset of the first field at fault: the
    // number is a place in the sector, and no code for a reason.
    pub fn read(sector: &[u8; 512], size: u32) -> Result<Label, u16>
        ensures { result ≡ read_label size sector.now }
    {
        match bad_field(sector, size) {
            None => Ok(Label::in_sector(sector)),
            Some(offset) => Err(offset),
        }
    }

    // The fields in front. The name goes in last: up to there the bytes stand at fixed places.
    #[tactic(auto, unfolding(crate::specs::Label::label_front))]
    fn head(&self) -> [u8; 52]
        ensures value { result ≡ label_head self.now }
        ensures lengths { (length self.now.name ≡ 16) × (length self.now.id ≡ 4) }
    {
        let mut head = [0u8; 52];
        head[0x000..0x009].copy_from_slice(b"LM80C DOS");
        head[0x00A..0x00E].copy_from_slice(b"1.06");
        put_double(&mut head, 0x00F, self.layout.sectors);
        put_word(&mut head, 0x013, self.geometry.cylinders);
        put_word(&mut head, 0x015, self.geometry.sectors_per_track);
        put_word(&mut head, 0x017, self.geometry.heads);
        put_word(&mut head, 0x019, self.layout.entries);
        put_word(&mut head, 0x01B, 1);
        put_word(&mut head, 0x01D, self.layout.area);
        head[0x030..0x034].copy_from_slice(&self.id);
        head[0x020..0x030].copy_from_slice(&self.name);
        head
    }

    #[tactic(auto, unfolding(crate::specs::Label::label_in))]
    fn in_sector(sector: &[u8; 512]) -> Label
        ensures { result ≡ label_in sector.now }
    {
        Label {
            layout: Layout::of(double_at(sector, 0x00F)),
            geometry: Geometry {
                cylinders: word_at(sector, 0x013),
                sectors_per_track: word_at(sector, 0x015),
                heads: word_at(sector, 0x017),
            },
            name: sector[0x020..0x030].try_into().unwrap(),
            id: sector[0x030..0x034].try_into().unwrap(),
        }
    }
}

// The signature into the last two bytes.
fn sign(sector: &mut [u8; 512])
    ensures { sector.new ≡ take 510 sector.old ++ signature }
{
    sector[0x1FE..0x200].copy_from_slice(b"80");
}

// The offset of the first field of a master sector that does not hold what it must, if there is one. Field by field, since most
// sectors that are no label fail at once: a list of all the checks, made before it is searched, takes twice as long for them.
fn bad_field(sector: &[u8; 512], size: u32) -> Option<u16>
    ensures { result ≡ bad_field size sector.now }
{
    if size == 0 || sector[0x000..0x009] != b"LM80C DOS"[..] {
        return Some(0x000);
    }
    if sector[0x00A..0x00E] != b"1.06"[..] {
        return Some(0x00A);
    }
    let layout = Layout::of(double_at(sector, 0x00F));
    if layout.sectors > size || layout.slots == 0 {
        return Some(0x00F);
    }
    if word_at(sector, 0x019) != layout.entries {
        return Some(0x019);
    }
    if word_at(sector, 0x01B) != 1 {
        return Some(0x01B);
    }
    if word_at(sector, 0x01D) != layout.area {
        return Some(0x01D);
    }
    if sector[0x1FE..0x200] != b"80"[..] {
        return Some(0x1FE);
    }
    None
}
