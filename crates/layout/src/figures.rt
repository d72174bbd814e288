// The worked figures of the format, held against its definitions.
ghost use Rattle.layout.specs.Figures.{FiguresHold};

// Every worked figure of docs/FORMAT.md is right.
// By the repository's rule a function that only names a law answers 0.
pub fn figures_hold() -> u8
    ensures { FiguresHold }
{
    0
}
