// A card in memory: formatted, its label read back, and what is refused.
use crate::failure::Failure;
use crate::geometry::image_geometry;
use crate::show;
use formatting::{format, read_label};
use stores::ImageDevice;

pub(crate) fn run(rt: &HostRuntime) -> Result<(), Failure> {
    let sectors = 2_179u32;
    println!(rt; "a card of {sectors} sectors in memory")?;
    let mut bytes = vec![in rt.alloc(); 0u8; 512 * sectors as usize]?;
    let mut card = ImageDevice::new(&mut bytes, image_geometry(sectors));
    attempt(rt, &mut card, "LETTERS", "B1Y7")?;
    println!(rt; "its label, read back:")?;
    rt.println(show::Lines(&read_label(&mut card)?))?;
    attempt(rt, &mut card, "letters", "B1Y7")?;
    attempt(rt, &mut card, "LETTERS", "7Y1B")?;
    println!(rt; "its label then:")?;
    rt.println(show::Lines(&read_label(&mut card)?))?;
    Ok(())
}

// Formats a card, and prints the call and its answer.
fn attempt(rt: &HostRuntime, card: &mut ImageDevice, name: &str, id: &str) -> Result<(), Failure> {
    match format(card, name.as_bytes(), id.as_bytes()) {
        Ok(layout) => println!(rt;
            "format \"{name}\" {id}: ok, room for {} files",
            layout.slots
        )?,
        Err(refusal) => println!(rt; "format \"{name}\" {id}: {}", Failure::from(refusal))?,
    }
    Ok(())
}
