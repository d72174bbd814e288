// A fault as text: its numbers.
ghost use Rattle.std.specs.Prelude.{Some};
ghost use Rattle.device.specs.FaultText.{fault_text};

use crate::faults::Fault;
use std::error::Error;
use std::fmt;

impl fmt::Display for Fault {
    ghost output = { λ fault. Some (fault_text fault) };

    fn fmt<W: fmt::Write>(&self, f: &mut fmt::Formatter<W>) -> fmt::Result {
        write!(
            f,
            "cause {}, act {}, sector {}, level {}",
            self.cause.number(),
            self.act.number(),
            self.sector,
            self.level
        )
    }
}

impl Error for Fault {}
