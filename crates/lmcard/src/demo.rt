// What there is so far, start to end on devices in memory: a card formatted, a pile of layers written through, a sparse
// card filled until it refuses.

// A card made and its label read back.
mod cards;
// Layers over an image.
mod piles;
// A sparse card.
mod sparse;
// Transfers, printed with their answers.
mod transfers;

use crate::failure::Failure;

pub(crate) fn run(rt: &HostRuntime) -> Result<(), Failure> {
    cards::run(rt)?;
    println!(rt; "")?;
    piles::run(rt)?;
    println!(rt; "")?;
    sparse::run(rt)
}
