// What the program keeps of a card.
ghost use Rattle.std.specs.Prelude.{◌≡◌};
ghost use Rattle.plans.specs.Memory.{unmounted};
ghost use Rattle.volume.specs.Invariants.{Each, InSlot};

use crate::open_job::OpenJob;

#[derive(Clone, Copy)]
pub struct Memory {
    // the sectors of the mounted card, 0 before the first mount: it has no slots then, so no call needs a case
    pub size: u32,
    pub job: Option<OpenJob>,
    ghost slotted: { Each InSlot size job },
}
