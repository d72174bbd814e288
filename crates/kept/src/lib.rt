// Kept sectors: places for some sectors of a device, each free or with one sector and its bytes.
#![tactic(auto)]

ghost use Rattle.std.specs.Prelude.{◌≡◌, map};
ghost use Rattle.std.specs.Option.{option_copied};
ghost use Rattle.kept.specs.Kept.{kept_bytes, given_back};

// A sector with its bytes.
#[derive(Clone, Copy, PartialEq, Eq, Debug)]
pub struct KeptSector {
    pub sector: u32,
    pub bytes: [u8; 512],
}

// The bytes of sector n, as the first place that keeps it has them. A chain of iterators would have to leave out the free places
// first, and is no shorter.
pub fn find(places: &[Option<KeptSector>], n: u32) -> Option<&[u8; 512]>
    ensures { option_copied result ≡ kept_bytes places.now n }
{
    for place in places {
        if let Some(kept) = place
            && kept.sector == n
        {
            return Some(&kept.bytes);
        }
    }
    None
}

// Gives back every place that keeps sector n.
pub fn give_back(places: &mut [Option<KeptSector>], n: u32)
    ensures { places.new ≡ map (given_back n) places.old }
{
    for place in places {
        if place.is_some_and(|kept| kept.sector == n) {
            *place = None;
        }
    }
}
