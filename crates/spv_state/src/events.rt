//! The debug events that a frame passes as it comes to an executable, each with the value that it captures.
ghost use Rattle.std.specs.Prelude.{◌≡◌, ◌<◌, IfOk, IfSome, OnOk, OnErr, Some, length, option_map};
ghost use Rattle.std.specs.Option.{option_and_then};
ghost use Rattle.spv_frame.specs.Events as passing;
ghost use Rattle.spv_operands.specs.Operands.{IsPlain, shown};
ghost use Rattle.spv_operands.specs.Values.{value_of};
ghost use Rattle.spv_plans.specs.Plans.{plans_in};
ghost use Rattle.spv_state.specs.Events as spec;

use crate::captures::Capture;
use crate::runnable::Runnable;
use crate::whole::Whole;
use spv_base::{NoMemory, Pointer};
use spv_frame::{Captured, DebugEvent, Frame, Plans};
use spv_operands::{Operand, operand};
use spv_valid::Module;
use spv_values::Row;
use std::alloc::Global;

/// The value that an operand stands for, copied.
fn copied(alloc: Global, operand: &Operand<'_>) -> Result<Captured, NoMemory>
    requires { IsPlain operand.now }
    ensures value { IfOk result (λ c. passing.seen c ≡ Some (shown operand.now)) }
    ensures plain { IfOk result (λ c. ∥ passing.IsPlain c ∥₁) }
{
    match operand {
        Operand::Value(_) | Operand::Undefined(_) => match operand.part() {
            Some(part) => Ok(Captured::Data(Row::of_part(alloc, &part)?)),
            None => unreachable!(),
        },
        Operand::Variable(root) => Ok(Captured::Pointer(Pointer::whole(alloc, *root))),
        Operand::Pointer(pointer) => Ok(Captured::Pointer(pointer.copy(alloc)?)),
    }
}

/// The value of an operand that was found, copied.
fn found(alloc: Global, operand: &Option<Operand<'_>>) -> Result<Captured, NoMemory>
    requires { IfSome operand.now IsPlain }
    ensures value { IfOk result (λ c. passing.seen c ≡ option_map shown operand.now) }
    ensures plain { IfOk result (λ c. ∥ passing.IsPlain c ∥₁) }
{
    match operand {
        Some(operand) => copied(alloc, operand),
        None => Ok(Captured::Nothing),
    }
}

/// The value of an id in a frame at a depth, copied, if the id has one there.
fn value(
    alloc: Global,
    accepted: &Module,
    plans: &Plans,
    frame: &Frame,
    depth: u32,
    id: Option<u32>,
) -> Result<Captured, NoMemory>
    requires plans { plans.now ≡ plans_in accepted.now }
    requires frame { spec.IsReadable accepted.now frame.now }
    ensures value { IfOk result (λ c. passing.seen c ≡ option_and_then (value_of accepted.now frame.now depth) id) }
    ensures plain { IfOk result (λ c. ∥ passing.IsPlain c ∥₁) }
{
    match id {
        Some(id) => found(alloc, &operand(alloc, accepted, plans, frame, depth, id)?),
        None => Ok(Captured::Nothing),
    }
}

/// The event of a debug instruction that a frame at a depth passes.
fn event(
    alloc: Global,
    accepted: &Module,
    plans: &Plans,
    frame: &Frame,
    depth: u32,
    capture: Capture,
) -> Result<DebugEvent, NoMemory>
    requires plans { plans.now ≡ plans_in accepted.now }
    requires frame { spec.IsReadable accepted.now frame.now }
    ensures { IfOk result (λ e. e ≡ spec.captured accepted.now frame.now depth capture) }
{
    let captured = value(alloc, accepted, plans, frame, depth, capture.id)?;
    Ok(DebugEvent::new(capture.word, captured))
}

/// The events that are due in a frame at a depth which has come to its pc.
fn due(
    alloc: Global,
    m: &Runnable,
    plans: &Plans,
    frame: &Frame,
    depth: u32,
) -> Result<Vec<DebugEvent>, NoMemory>
    requires plans { plans.now ≡ plans_in m.now.accepted }
    requires frame { spec.IsReadable m.now.accepted frame.now }
    ensures { IfOk result (λ events. events.items ≡ spec.due m.now.accepted depth frame.now) }
{
    let accepted = m.accepted();
    let captures = m.captures(frame.pc());
    let mut events = Vec::new(alloc);
    for capture in captures {
        events.push(event(alloc, accepted, plans, frame, depth, *capture)?)?;
    }
    Ok(events)
}

/// A frame at a depth has come to its pc: it passes the debug events that are due there. Where memory runs out nothing changes.
pub fn pass_events(
    alloc: Global,
    m: &Runnable,
    plans: &Plans,
    frame: &mut Frame,
    depth: u32,
) -> Result<(), NoMemory>
    requires plans { plans.now ≡ plans_in m.now.accepted }
    requires frame { spec.IsReadable m.now.accepted frame.old }
    ensures ok { OnOk result (frame.new ≡ spec.passed m.now.accepted depth frame.old) }
    ensures err { OnErr result (frame.new ≡ frame.old) }
{
    let events = due(alloc, m, plans, frame, depth)?;
    frame.append_all(events)
}

/// The events that are due in the top frame of an invocation, which has come to its pc; none where it has no frame. Nothing changes.
pub fn captured_at(
    alloc: Global,
    m: &Runnable,
    whole: &Whole,
    i: u32,
) -> Result<Vec<DebugEvent>, NoMemory>
    requires inv { i < length whole.now.stacks }
    requires plans { whole.now.plans ≡ plans_in m.now.accepted }
    requires frame { spec.IsReadableAt m.now.accepted whole.now i }
    ensures { IfOk result (λ events. events.items ≡ spec.due_at m.now.accepted whole.now i) }
{
    match whole.top(i) {
        Some(frame) => due(alloc, m, whole.plans(), frame, whole.depth(i)),
        None => Ok(Vec::new(alloc)),
    }
}
