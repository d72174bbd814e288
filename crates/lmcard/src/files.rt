// Card images as files. An image is read whole; a changed one goes to a new file beside it, which then takes its place.
use crate::failure::Failure;
use crate::geometry::image_geometry;
use crate::show;
use device::SectorDevice;
use formatting::{format, read_label};
use std::{fs, io};
use stores::{ImageDevice, is_image_length};

// Makes a card image and formats it.
pub(crate) fn new(
    rt: &HostRuntime,
    image: &str,
    sectors: u32,
    name: &str,
    id: &str,
) -> Result<(), Failure> {
    if fs::exists(rt, image)? {
        return Err(Failure::Exists);
    }
    let mut bytes = vec![in rt.alloc(); 0u8; 512 * sectors as usize]?;
    let mut card = ImageDevice::new(&mut bytes, image_geometry(sectors));
    format(&mut card, name.as_bytes(), id.as_bytes())?;
    let label = read_label(&mut card)?;
    store(rt, image, &bytes)?;
    println!(rt; "{image}: made and formatted")?;
    rt.println(show::Lines(&label))?;
    Ok(())
}

// Prints the label of a card image.
pub(crate) fn info(rt: &HostRuntime, image: &str) -> Result<(), Failure> {
    let mut bytes = fs::read(rt, image)?;
    let len = bytes.len();
    if !is_image_length(len) {
        return Err(Failure::NoImage(len));
    }
    let mut card = ImageDevice::new(&mut bytes, image_geometry((len / 512) as u32));
    let label = read_label(&mut card)?;
    println!(rt; "{image}")?;
    rt.println(show::Lines(&label))?;
    Ok(())
}

// Writes the bytes to a new file beside the image, and then puts that in the image's place.
fn store(rt: &HostRuntime, image: &str, bytes: &[u8]) -> Result<(), Failure> {
    let beside = format!(in rt.alloc(); "{image}.new")?;
    if fs::exists(rt, beside.as_str())? {
        return Err(Failure::Beside);
    }
    replace(rt, image, beside.as_str(), bytes).inspect_err(|_| {
        let _ = fs::remove_file(rt, beside.as_str());
    })?;
    Ok(())
}

fn replace(rt: &HostRuntime, image: &str, beside: &str, bytes: &[u8]) -> io::Result<()> {
    fs::write(rt, beside, bytes)?;
    fs::rename(rt, beside, image)
}

#[cfg(test)]
mod tests {
    use super::*;
    use std::test::Fail;

    // Whether a card can be made at this path.
    fn makes(rt: &HostRuntime, image: &str, sectors: u32, name: &str, id: &str) -> bool {
        new(rt, image, sectors, name, id).is_ok()
    }

    #[test]
    fn made_once(rt: HostRuntime) -> Result<(), Fail> {
        assert!(rt; makes(&rt, "once.img", 130, "ONE", "A0Z9"));
        let first = fs::read(&rt, "once.img")?;
        assert_eq!(rt; first.len(), 66_560);
        assert!(rt;
            !makes(&rt, "once.img", 130, "TWO", "A0Z9"),
            "a file is not overwritten"
        );
        assert!(rt; fs::read(&rt, "once.img")?.as_slice() == first.as_slice());
        assert!(rt; info(&rt, "once.img").is_ok());
        assert!(rt; !fs::exists(&rt, "once.img.new")?);
        fs::remove_file(&rt, "once.img")?;
        Ok(())
    }

    #[test]
    fn refusals_make_nothing(rt: HostRuntime) -> Result<(), Fail> {
        assert!(rt;
            !makes(&rt, "none.img", 129, "ONE", "A0Z9"),
            "no room for a file"
        );
        assert!(rt;
            !makes(&rt, "none.img", 130, "one", "A0Z9"),
            "unlawful name"
        );
        assert!(rt; !makes(&rt, "none.img", 130, "ONE", "AAAA"), "unlawful id");
        assert!(rt;
            !makes(&rt, "missing/none.img", 130, "ONE", "A0Z9"),
            "no such folder"
        );
        assert!(rt; !fs::exists(&rt, "none.img")?);
        assert!(rt; !info(&rt, "none.img").is_ok(), "no such file");
        Ok(())
    }

    #[test]
    fn a_file_in_the_way_is_left(rt: HostRuntime) -> Result<(), Fail> {
        fs::write(&rt, "way.img.new", "mine")?;
        assert!(rt; !makes(&rt, "way.img", 130, "ONE", "A0Z9"));
        assert!(rt; fs::read_to_string(&rt, "way.img.new")?.as_str() == "mine");
        assert!(rt; !fs::exists(&rt, "way.img")?);
        fs::remove_file(&rt, "way.img.new")?;
        Ok(())
    }

    #[test]
    fn no_card(rt: HostRuntime) -> Result<(), Fail> {
        fs::write(&rt, "short.img", "not a whole sector")?;
        assert!(rt; !info(&rt, "short.img").is_ok());
        let zeros = vec![in rt.alloc(); 0u8; 1_024]?;
        fs::write(&rt, "zeros.img", zeros.as_slice())?;
        assert!(rt; !info(&rt, "zeros.img").is_ok());
        fs::remove_file(&rt, "short.img")?;
        fs::remove_file(&rt, "zeros.img")?;
        Ok(())
    }
}
