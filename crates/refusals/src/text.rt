// A refusal as text: its number and what stood in the way.
ghost use Rattle.std.specs.Prelude.{Some};
ghost use Rattle.refusals.specs.RefusalText.{refusal_text, reason_text};

use crate::Refusal;
use std::error::Error;
use std::fmt;

impl fmt::Display for Refusal {
    ghost output = { λ refusal. Some (refusal_text refusal) };

    fn fmt<W: fmt::Write>(&self, f: &mut fmt::Formatter<W>) -> fmt::Result {
        write!(f, "refused {}: {}", self.number(), Reason(self))
    }
}

impl Error for Refusal {}

// What stood in the way, without the number.
#[derive(Clone, Copy)]
struct Reason<'a>(&'a Refusal);

impl fmt::Display for Reason<'_> {
    ghost output = { λ reason. Some (reason_text reason.0.now) };

    fn fmt<W: fmt::Write>(&self, f: &mut fmt::Formatter<W>) -> fmt::Result {
        match self.0 {
            Refusal::Name => f.write_str(
                "a name is 1 to 16 of A to Z, 0 to 9, space and minus, not all of them spaces",
            ),
            Refusal::DiskId => f.write_str(
                "a disk id is a letter, a digit, a letter and a digit, as B1Y7",
            ),
            Refusal::FileType => f.write_str("a job's type is BAS, BIN or SEQ"),
            Refusal::NotOpen => f.write_str("no job is open in the slot of that handle"),
            Refusal::TooLong => f.write_str("a job has at most 65535 bytes"),
            Refusal::TooSmall => f.write_str("a card that small has no room for a file"),
            Refusal::Field(offset) => write!(
                f,
                "no card of this format: its master sector fails at ${offset:03X}"
            ),
            Refusal::Open => f.write_str("a job is open and has to be finished first"),
            Refusal::NoJob => f.write_str("no job of that name is on the card"),
            Refusal::NotSequential => f.write_str("only a job of type SEQ can be continued"),
            Refusal::NotErased => f.write_str(
                "no erased job that could be brought back is in that slot",
            ),
            Refusal::NameTaken => f.write_str("a job of that name is on the card already"),
            Refusal::NoSlot => f.write_str("no slot of the card is free"),
            Refusal::OutOfBounds => f.write_str(
                "the job is longer than the buffer, or ends before that place",
            ),
            Refusal::Device(fault) => write!(f, "the device refused ({fault})"),
        }
    }
}
