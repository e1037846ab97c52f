//! What the registers of pointers of the top frame of an invocation hold, by their ids.
ghost use Rattle.std.specs.Prelude.{◌≡◌, ◌<◌, None, option_copied};
ghost use Rattle.std.specs.Option.{MatchOption};
ghost use Rattle.spv_frame.specs.Registers.{number_of};
ghost use Rattle.spv_plans.specs.Plans.{plans_in};
ghost use Rattle.spv_state.specs.Slots.{IsHeldPointer};
ghost use Rattle.spv_state.specs.Sound.{IsSoundFrame};

use crate::registers::pointer_slot_of;
use spv_base::Pointer;
use spv_frame::{Frame, Plans};
use spv_plans::laws::plans_are_of_functions;
use spv_valid::Module;

/// A register of a pointer: its number in the plan of its frame, and its pointer, if it has one.
#[derive(Drop)]
pub struct HeldPointer<'a> {
    pub number: usize,
    pub pointer: Option<&'a Pointer>,
}

/// What the register with an id of a frame holds, if it is one of a pointer there.
pub(crate) fn held_pointer_in<'a>(
    accepted: &Module,
    plans: &Plans,
    frame: &'a Frame,
    id: u32,
) -> Option<HeldPointer<'a>>
    requires plans { plans.now ≡ plans_in accepted.now }
    requires frame { IsSoundFrame accepted.now frame.now }
    ensures { MatchOption result (number_of id frame.now.plan.pointers ≡ None) (λ h. IsHeldPointer id frame.now h.number (option_copied h.pointer)) }
{
    plans_are_of_functions();
    let _insts = accepted.insts();
    match pointer_slot_of(accepted, plans, frame.function(), id) {
        Some(slot) => Some(HeldPointer {
            number: slot.number,
            pointer: frame.pointer(slot),
        }),
        None => None,
    }
}
