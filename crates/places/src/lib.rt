// A card's sectors seen as slots, each with its entry and its block. All arithmetic of the layout is done here, once.
#![tactic(auto)]

ghost use Rattle.places.specs.Places.{LayoutsSound, WritesRefine};

// Every layout is sound; and writes of entries and of block sectors do to the slots of a card what they say, and
// nothing else.
// By the repository's rule a function that only names a law answers 0.
pub fn writes_refine() -> u8
    ensures layouts { LayoutsSound }
    ensures writes { WritesRefine }
{
    0
}
