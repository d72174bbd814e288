// Jobs by their names.
ghost use Rattle.std.specs.Prelude.{◌≡◌, ◌<◌, ◌≤◌, length};
ghost use Rattle.device.specs.Calls.{Keeps, OfSound};
ghost use Rattle.plans.specs.Plans.{card_places};
ghost use Rattle.volume.specs.Kept.{kept};
ghost use Rattle.naming.specs.Named.{Finds, open_named, padded_name, padded_plan, named_plan, shut_plan};

use device::SectorDevice;
use layout::{Layout, Name};
use refusals::Refusal;
use volume::{Found, Memory, find};

// The padded bytes of a name that is lawful.
pub fn padded(name: &[u8]) -> Result<[u8; 16], Refusal>
    ensures { result ≡ padded_name name.now }
{
    Ok(Name::new(name).ok_or(Refusal::Name)?.padded())
}

// Whether the open job has this name.
pub fn is_open(memory: &Memory, name: &[u8; 16]) -> bool
    ensures { result ≡ open_named (kept memory.now).job name.now }
{
    memory.job.is_some_and(|job| *name == job.name)
}

// The job of a padded name: its slot and its entry.
pub fn find_job<D: SectorDevice>(
    device: &mut D,
    memory: &Memory,
    name: &[u8; 16],
) -> Result<Found, Refusal>
    ensures keeps { Keeps D.SectorDevice device.old device.new }
    ensures finds { OfSound D.SectorDevice device.old device.new (λ t m m'. memory.now.size ≤ length m.sectors → Finds (padded_plan (card_places (kept memory.now) m.sectors) name.now) t m m' (kept memory.now) result) }
{
    find(device, &Layout::of(memory.size), name)?.ok_or(Refusal::NoJob)
}

// The job of a name.
pub fn find_named<D: SectorDevice>(
    device: &mut D,
    memory: &Memory,
    name: &[u8],
) -> Result<Found, Refusal>
    ensures keeps { Keeps D.SectorDevice device.old device.new }
    ensures finds { OfSound D.SectorDevice device.old device.new (λ t m m'. memory.now.size ≤ length m.sectors → Finds (named_plan (card_places (kept memory.now) m.sectors) name.now) t m m' (kept memory.now) result) }
{
    find_job(device, memory, &padded(name)?)
}

// The job of a name, which may not be open.
pub fn find_shut<D: SectorDevice>(
    device: &mut D,
    memory: &Memory,
    name: &[u8],
) -> Result<Found, Refusal>
    ensures keeps { Keeps D.SectorDevice device.old device.new }
    ensures finds { OfSound D.SectorDevice device.old device.new (λ t m m'. memory.now.size ≤ length m.sectors → Finds (shut_plan (card_places (kept memory.now) m.sectors) (kept memory.now).job name.now) t m m' (kept memory.now) result) }
{
    let name = padded(name)?;
    if is_open(memory, &name) {
        return Err(Refusal::Open);
    }
    find_job(device, memory, &name)
}
