// Faults: which transfer a device refused, and why.
ghost use Rattle.std.specs.Prelude.{◌≡◌};
ghost use Rattle.device.specs.Faults.{cause_number, act_number, fault, raised_fault, Checks};

// Why a transfer was refused.
#[derive(Clone, Copy, PartialEq, Eq, Debug)]
pub enum Cause {
    // the buffer is not one sector long
    Length,
    // there is no such sector
    Range,
    // the device itself would not
    Device,
}

// `number` of causes and of acts is the same line: a trait, or a `From`, would need it for each of them too.
impl Cause {
    pub fn number(self) -> u8
        ensures { result ≡ cause_number self }
    {
        self as u8 + 1 // 1 to 3
    }
}

// What was asked of the device.
#[derive(Clone, Copy, PartialEq, Eq, Debug)]
pub enum Act {
    Read,
    Write,
}

impl Act {
    pub fn number(self) -> u8
        ensures { result ≡ act_number self }
    {
        self as u8 + 1 // 1 or 2
    }
}

// A refused transfer. The sector is counted as the refuser counts it; the level says how many layers lie
// between the refuser and the caller, 0 where the fault arose.
#[derive(Clone, Copy, PartialEq, Eq, Debug)]
pub struct Fault {
    pub cause: Cause,
    pub act: Act,
    pub sector: u32,
    pub level: u8,
}

impl Fault {
    // A fault where it arises.
    pub fn new(cause: Cause, act: Act, sector: u32) -> Fault
        ensures { result ≡ fault cause act sector }
    {
        Fault {
            cause,
            act,
            sector,
            level: 0,
        }
    }

    // The fault as the layer above passes it on: one level up, at most 255.
    pub fn raised(self) -> Fault
        ensures { result ≡ raised_fault self }
    {
        Fault {
            level: self.level.saturating_add(1),
            ..self
        }
    }
}

// The shape that a card reports of itself. The format stores it and uses it for nothing.
#[derive(Clone, Copy, PartialEq, Eq, Debug)]
pub struct Geometry {
    pub cylinders: u16,
    pub sectors_per_track: u16,
    pub heads: u16,
}

// What every device tests before it transfers anything: that the buffer is one sector long, then that there is
// such a sector.
pub fn check_transfer(act: Act, sector: u32, size: u32, len: usize) -> Result<(), Fault>
    ensures { Checks act sector size len result }
{
    if len != 512 {
        return Err(Fault::new(Cause::Length, act, sector));
    }
    if sector >= size {
        return Err(Fault::new(Cause::Range, act, sector));
    }
    Ok(())
}
