// Transfers of whole sectors, printed with their answers.
use crate::failure::Failure;
use device::{SectorDevice, zero_sector};

// Writes a sector full of one byte.
pub(crate) fn write<D: SectorDevice>(
    rt: &HostRuntime,
    device: &mut D,
    n: u32,
    byte: u8,
) -> Result<(), Failure> {
    print!(rt; "write sector {n}, all ${byte:02X}: ")?;
    match device.write(n, &[byte; 512]) {
        Ok(()) => println!(rt; "ok")?,
        Err(fault) => println!(rt; "refused, {fault}")?,
    }
    Ok(())
}

// Reads a sector, and prints its first byte.
pub(crate) fn read<D: SectorDevice>(
    rt: &HostRuntime,
    device: &mut D,
    n: u32,
) -> Result<(), Failure> {
    let mut sector = zero_sector();
    print!(rt; "read sector {n}: ")?;
    match device.read(n, &mut sector) {
        Ok(()) => println!(rt; "ok, begins with ${:02X}", sector[0])?,
        Err(fault) => println!(rt; "refused, {fault}")?,
    }
    Ok(())
}
