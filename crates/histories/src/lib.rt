// Whole histories of a card: calls with their answers, pulled cards, cold starts.
#![tactic(auto)]

ghost use Rattle.histories.specs.Theorem.{HistoriesUpheld};

// From a card whose format counted, every history upholds what the model says.
// By the repository's rule a function that only names a law answers 0.
pub fn histories_upheld() -> u8
    ensures { HistoriesUpheld }
{
    0
}
