// The model of a card, and that every call keeps it, whatever part of its writes persists.
#![tactic(auto)]

ghost use Rattle.history.specs.Preserved.{CallsPreserve, WipeZeroes};
ghost use Rattle.history.specs.Examples.{Streaming, Wiping, SavingOver};

// Whatever first part of a call's writes persists, the card holds what the model says; and an accepted wipe leaves the
// job's sectors zero.
// By the repository's rule a function that only names a law answers 0.
pub fn calls_preserve() -> u8
    ensures models { CallsPreserve }
    ensures zeroes { WipeZeroes }
{
    0
}

// A pulled card while a job is streamed, a wipe cut in each of its steps, a save over an erased job cut in each of its
// steps.
// By the repository's rule a function that only names a law answers 0.
pub fn examples_hold() -> u8
    ensures streaming { Streaming }
    ensures wiping { Wiping }
    ensures saving { SavingOver }
{
    0
}
