// Formatting a card on any device, and reading its label back.
#![tactic(auto)]

ghost use Rattle.std.specs.Prelude.{◌≡◌, ◌<◌, ◌≤◌, length};
ghost use Rattle.device.specs.Calls.{Keeps, OfSound};
ghost use Rattle.runs.specs.Writes.{Written};
ghost use Rattle.formatting.specs.Format.{format_writes, new_label, Formats, Leaves, ReadsLabel};

use device::{Fault, SectorDevice, zero_sector};
use layout::{DiskId, Label, Layout, Name};
use refusals::Refusal;
use runs::write_zeros;

// Makes an empty card of all sectors of a device that no card uses, and answers its layout. Refuses an unlawful name
// (1), an unlawful id (2) and a device on which no file would have room (6), before anything is written. Sector 0 is
// zeroed first and written last: cut off in between, the card is not taken for one.
pub fn format<D: SectorDevice>(device: &mut D, name: &[u8], id: &[u8]) -> Result<Layout, Refusal>
    ensures keeps { Keeps D.SectorDevice device.old device.new }
    ensures follows { OfSound D.SectorDevice device.old device.new (λ t m m'. Formats t m m' name.now id.now result) }
    ensures leaves { OfSound D.SectorDevice device.old device.new (λ t m m'. Leaves m m' (new_label (length m.sectors) m.geometry name.now id.now) result) }
{
    let disk_name = Name::new(name).ok_or(Refusal::Name)?;
    let disk_id = DiskId::new(id).ok_or(Refusal::DiskId)?;
    let layout = Layout::of(device.size());
    if layout.slots == 0 {
        return Err(Refusal::TooSmall);
    }
    let label = Label {
        layout,
        geometry: device.geometry(),
        name: disk_name.padded(),
        id: disk_id.bytes(),
    };
    write_card(device, &label)?;
    Ok(layout)
}

// The writes of a format: zeros over sector 0 and the directory, then the label.
fn write_card<D: SectorDevice>(device: &mut D, label: &Label) -> Result<(), Fault>
    ensures keeps { Keeps D.SectorDevice device.old device.new }
    ensures writes { OfSound D.SectorDevice device.old device.new (λ t m m'. 0 < length m.sectors → label.now.layout.area ≤ length m.sectors → Written t m m' (format_writes label.now) result) }
{
    write_zeros(device, 0, u32::from(label.layout.area))?;
    device.write(0, &label.to_sector())
}

// The label of the card on a device. Refuses a device whose sector 0 is no master sector, or that is too small for the
// card that it names (7, with the offset of the first field at fault).
pub fn read_label<D: SectorDevice>(device: &mut D) -> Result<Label, Refusal>
    ensures keeps { Keeps D.SectorDevice device.old device.new }
    ensures reads { OfSound D.SectorDevice device.old device.new (λ t m m'. ReadsLabel t m m' result) }
{
    let size = device.size();
    if size == 0 {
        return Err(Refusal::Field(0x000));
    }
    let mut sector = zero_sector();
    device.read(0, &mut sector)?;
    Label::read(&sector, size).map_err(Refusal::Field)
}
