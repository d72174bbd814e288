// The refusals of card calls, by number. docs/CALLS.md says which call refuses when, and what it leaves.
#![tactic(auto)]

// A refusal as text.
mod text;

ghost use Rattle.std.specs.Prelude.{◌≡◌};
ghost use Rattle.refusals.specs.Refusals.{refusal_number};
ghost use Rattle.refusals.specs.declared.Refusal.TheVariants.{Device as ByDevice};

use device::Fault;

#[derive(Clone, Copy, PartialEq, Eq, Debug)]
pub enum Refusal {
    // a name, or the letter of an undelete, that is not lawful
    Name,
    // a disk id that is not lawful
    DiskId,
    // a type that a job cannot be saved with
    FileType,
    // no job is open in the slot of the handle
    NotOpen,
    // a job that would have more than 65,535 bytes
    TooLong,
    // a card on which no file would have room
    TooSmall,
    // a field of the master sector at fault, by its offset
    Field(u16),
    // a job is open: some job where another is to be opened, else the named one
    Open,
    // no live job has the name
    NoJob,
    // a job that is not sequential cannot be continued
    NotSequential,
    // a slot that holds no erased job, or whose job would not be live again
    NotErased,
    // a live job has the name already
    NameTaken,
    // no slot is empty or erased
    NoSlot,
    // a buffer that is shorter than the job, or a place past its end
    OutOfBounds,
    // a transfer that the device refused
    Device(Fault),
}

impl Refusal {
    // A table: `as` takes no enum whose variants have fields.
    pub fn number(&self) -> u8
        ensures { result ≡ refusal_number self.now }
    {
        match self {
            Refusal::Name => 1,
            Refusal::DiskId => 2,
            Refusal::FileType => 3,
            Refusal::NotOpen => 4,
            Refusal::TooLong => 5,
            Refusal::TooSmall => 6,
            Refusal::Field(_) => 7,
            Refusal::Open => 8,
            Refusal::NoJob => 9,
            Refusal::NotSequential => 10,
            Refusal::NotErased => 11,
            Refusal::NameTaken => 12,
            Refusal::NoSlot => 13,
            Refusal::OutOfBounds => 14,
            Refusal::Device(_) => 15,
        }
    }
}

// By hand, since contracts of calls say which refusal their `?` makes.
impl From<Fault> for Refusal {
    ghost from_gives = { λ f r. r ≡ ByDevice f };

    fn from(fault: Fault) -> Refusal {
        Refusal::Device(fault)
    }
}
