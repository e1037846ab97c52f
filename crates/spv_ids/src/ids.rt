//! What an id stands for where a state is looked at.
ghost use Rattle.std.specs.Prelude.{◌≡◌, IfOk, IfSome, Some, option_copied, option_map, slice_get};
ghost use Rattle.spv_operands.specs.Operands.{IsPlain, shown};
ghost use Rattle.spv_plans.specs.Plans.{plans_in};
ghost use Rattle.spv_state.specs.Sound.{IsSound, IsSoundFrame};
ghost use Rattle.spv_state.specs.State.{frames_of};
ghost use Rattle.spv_valid.specs.Meanings.{meaning_of};
ghost use Rattle.spv_ids.specs.Ids.{frame_value, id_value, module_value};

use spv_base::NoMemory;
use spv_frame::{Frame, Plans};
use spv_operands::{Operand, constant, module_root, operand};
use spv_state::laws::top_frames_are_sound;
use spv_state::{Runnable, Whole};
use spv_valid::{Meaning, Module};
use std::alloc::Global;

/// What an id stands for outside frames: a constant, or a variable of the module.
fn outside<'a>(accepted: &'a Module, id: u32, meaning: Meaning) -> Option<Operand<'a>>
    ensures value { option_map shown result ≡ module_value accepted.now id meaning }
    ensures plain { IfSome result IsPlain }
{
    let _insts = accepted.insts();
    match meaning {
        Meaning::Constant => match constant(accepted, id) {
            Some(part) => Some(Operand::Value(part)),
            None => None,
        },
        Meaning::ModuleVariable => Some(Operand::Variable(module_root(accepted, id))),
        _ => None,
    }
}

/// What an id stands for in the frame at a depth.
fn inside<'a>(
    alloc: Global,
    accepted: &'a Module,
    plans: &Plans,
    frame: &'a Frame,
    depth: u32,
    id: u32,
    meaning: Meaning,
) -> Result<Option<Operand<'a>>, NoMemory>
    requires plans { plans.now ≡ plans_in accepted.now }
    requires frame { IsSoundFrame accepted.now frame.now }
    requires meant { meaning_of accepted.now.insts id ≡ Some meaning }
    ensures value { IfOk result (λ o. option_map shown o ≡ frame_value accepted.now frame.now depth id meaning) }
    ensures plain { IfOk result (λ o. IfSome o IsPlain) }
{
    top_frames_are_sound();
    match meaning {
        Meaning::Undefined(_) => Ok(None),
        _ => operand(alloc, accepted, plans, frame, depth, id),
    }
}

/// The frame of an invocation at a depth, if there is one.
fn frame_at(state: &Whole, inv: u32, depth: u32) -> Option<&Frame>
    ensures { option_copied result ≡ slice_get (frames_of state.now inv) depth }
{
    if inv < state.invocations() {
        state.stack(inv).frame(depth)
    } else {
        None
    }
}

/// What an id stands for at a depth of an invocation, if it stands for something there.
pub(crate) fn found<'a>(
    alloc: Global,
    m: &'a Runnable,
    state: &'a Whole,
    inv: u32,
    depth: Option<u32>,
    id: u32,
) -> Result<Option<Operand<'a>>, NoMemory>
    requires { IsSound m.now state.now }
    ensures value { IfOk result (λ o. option_map shown o ≡ id_value m.now state.now inv depth id) }
    ensures plain { IfOk result (λ o. IfSome o IsPlain) }
{
    let accepted = m.accepted();
    let Some(meaning) = accepted.meaning(id) else {
        return Ok(None);
    };
    let Some(depth) = depth else {
        return Ok(outside(accepted, id, meaning));
    };
    match frame_at(state, inv, depth) {
        Some(frame) => inside(alloc, accepted, state.plans(), frame, depth, id, meaning),
        None => Ok(outside(accepted, id, meaning)),
    }
}
