//! Registers that are exchanged by their numbers in the plan of their frame, as a journal keeps them. It takes no memory, and the
//! same call undoes it.
ghost use Rattle.std.specs.Prelude.{◌≡◌, ◌<◌, ◌∷◌, [], Some, length};
ghost use Rattle.spv_frame.specs.Calls.{id_at};
ghost use Rattle.spv_frame.specs.Registers.{cells_before, ids, number_of};

use crate::plans::Plan;
use crate::slots::{PointerSlot, path_to};
use spv_base::{Ghost, Path};

/// Where the register of a value with a number lies.
#[derive(Drop)]
pub(crate) struct Lying {
    pub(crate) path: Ghost<Path>,
    pub(crate) start: usize,
}

/// Where the register of a value with a number lies in the frames of a plan.
pub(crate) fn found(plan: &Plan, number: usize) -> Lying
    requires { number < length plan.now.values }
    ensures path { result.path.value ≡ number ∷ [] }
    ensures start { result.start ≡ cells_before number plan.now.values }
    ensures named { number_of (id_at (ids plan.now.values) number) (ids plan.now.values) ≡ Some number }
{
    let slot = plan.slot(number);
    Lying {
        path: path_to(number),
        start: slot.start,
    }
}

/// The slot of the register of a pointer with a number.
pub(crate) fn pointer_slot(plan: &Plan, number: usize) -> PointerSlot
    requires { number < length plan.now.pointers }
    ensures named { number_of result.id plan.now.pointers ≡ Some result.number }
    ensures id { result.id ≡ id_at plan.now.pointers number }
{
    plan.pointer_slot(number)
}
