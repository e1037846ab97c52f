//! What an instruction does to a world, before any of it is done, or why it faults.
ghost use Rattle.std.specs.Prelude.{◌≡◌, ◌<◌, IfOk, Some, length};
ghost use Rattle.spv_index.specs.Definitions.{at};
ghost use Rattle.spv_sites.specs.Planned.{IsDue, IsTaken, PlannedFits};
ghost use Rattle.spv_sites.specs.Instructions as spec;
ghost use Rattle.spv_state.specs.Sound.{IsSound};
ghost use Rattle.spv_state.specs.State as state;

use spv_accesses::accesses::{copy_memory, load, store};
use spv_accesses::atomics::atomic;
use spv_accesses::chains::{chain, ptr_chain};
use spv_accesses::lengths::array_length;
use spv_accesses::pointers::{ptr_equal, ptr_not_equal};
use spv_base::{Fail, Inst};
use spv_computing::computing::compute;
use spv_computing::selects::select;
use spv_control::barriers::{control_barrier, memory_barrier};
use spv_control::branches::{branch, branch_conditional, switch};
use spv_control::calls::{call, return_value};
use spv_frame::Frame;
use spv_sites::{Cause, Control, Effect, Gain, Site};
use spv_state::{Action, Runnable, Whole};
use spv_values::Row;
use std::alloc::Global;

/// What an instruction does at which the top frame of an invocation stands, or why it faults. What it does can be done.
pub fn effect_at(
    alloc: Global,
    m: &Runnable,
    w: &Whole,
    inv: u32,
    frame: &Frame,
    inst: &Inst,
    row: &mut Row,
) -> Result<Effect, Fail<Cause>>
    requires inv { inv < length w.now.stacks }
    requires sound { IsSound m.now w.now }
    requires frame { state.top_of w.now inv ≡ Some frame.now }
    requires inst { at m.now.accepted.insts frame.now.pc ≡ Some inst.now }
    ensures due { IsDue (spec.effect_of m.now w.now inv frame.now inst.now) row.new result }
    ensures fits { PlannedFits m.now w.now inv inst.now row.new result }
    ensures taken { IfOk result (λ e. IsTaken w.now inv e row.new) }
{
    let site = Site::of(alloc, m, w, inv, frame, inst);
    match Action::of(inst) {
        Action::Compute => compute(&site, row),
        Action::Select => select(&site, row),
        Action::Load => load(&site, row),
        Action::Store => store(&site, row),
        Action::Return => Ok(Effect {
            store: None,
            gain: Gain::Nothing,
            control: Control::Leave(Gain::Nothing),
        }),
        Action::CopyMemory => copy_memory(&site, row),
        Action::Chain => chain(&site),
        Action::PtrChain => ptr_chain(&site),
        Action::PtrEqual => ptr_equal(&site, row),
        Action::PtrNotEqual => ptr_not_equal(&site, row),
        Action::ArrayLength => array_length(&site, row),
        Action::Branch => branch(&site),
        Action::BranchConditional => branch_conditional(&site),
        Action::Switch => switch(&site),
        Action::Call => call(&site),
        Action::ReturnValue => return_value(&site, row),
        Action::Unreachable => Err(Fail::Refused(Cause::Unreachable)),
        Action::ControlBarrier => control_barrier(&site, row),
        Action::MemoryBarrier => memory_barrier(&site, row),
        Action::Atomic(operation) => atomic(&site, operation, row),
    }
}
