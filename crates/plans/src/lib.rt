// What each call of a card is to do: its refusals, its writes in order, its answer and what the program then keeps.
#![tactic(auto)]

ghost use Rattle.plans.specs.Cases.{RefusesAsListed};

// Every call refuses with a number exactly if that case is the first of its listed cases that holds.
// By the repository's rule a function that only names a law answers 0.
pub fn refuses_as_listed() -> u8
    ensures { RefusesAsListed }
{
    0
}
