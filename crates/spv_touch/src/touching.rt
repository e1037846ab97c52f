//! What the next event of an invocation touches.
ghost use Rattle.std.specs.Prelude.{◌≡◌, ◌<◌, IfOk, Some, length, slice_get};
ghost use Rattle.spv_index.specs.Definitions.{at};
ghost use Rattle.spv_state.specs.Sound.{IsSound};
ghost use Rattle.spv_state.specs.State.{top_of};
ghost use Rattle.spv_touch.specs.Seen.{ends};
ghost use Rattle.spv_touch.specs.Touching.{IsEvent};

use crate::accesses::{event_at, untouching};
use spv_base::{Inst, NoMemory};
use spv_frame::Frame;
use spv_machine::{Runnable, Whole, World};
use spv_order::Event;
use spv_sites::Site;
use spv_statuses::Status;
use std::alloc::Global;

/// Whether an invocation that leaves its function arrives: it finishes then, and finished ones count as arrived.
fn is_ending(m: &Runnable, whole: &Whole, inv: u32) -> bool
    requires { inv < length whole.now.stacks }
    ensures { result ≡ ends m.now whole.now inv }
{
    m.setup().finished_count() && whole.stack(inv).depth() <= 1
}

/// The event of a Ready invocation that has come to an instruction.
fn at_inst(
    alloc: Global,
    m: &Runnable,
    whole: &Whole,
    inv: u32,
    frame: &Frame,
    inst: &Inst,
) -> Result<Event, NoMemory>
    requires inv { inv < length whole.now.statuses.list }
    requires ready { slice_get whole.now.statuses.list inv ≡ Some Status.Ready }
    requires sound { IsSound m.now whole.now }
    requires frame { top_of whole.now inv ≡ Some frame.now }
    requires inst { at m.now.accepted.insts frame.now.pc ≡ Some inst.now }
    ensures { IfOk result (IsEvent m.now whole.now inv) }
{
    let ending = is_ending(m, whole, inv);
    let site = Site::of(alloc, m, whole, inv, frame, inst);
    let event = event_at(&site, ending)?;
    Ok(event)
}

/// The event of a Ready invocation with a frame.
fn at_frame(
    alloc: Global,
    m: &Runnable,
    whole: &Whole,
    inv: u32,
    frame: &Frame,
) -> Result<Event, NoMemory>
    requires inv { inv < length whole.now.statuses.list }
    requires ready { slice_get whole.now.statuses.list inv ≡ Some Status.Ready }
    requires sound { IsSound m.now whole.now }
    requires frame { top_of whole.now inv ≡ Some frame.now }
    ensures { IfOk result (IsEvent m.now whole.now inv) }
{
    let accepted = m.accepted();
    match accepted.at(frame.pc()) {
        Some(inst) => at_inst(alloc, m, whole, inv, frame, inst),
        None => Ok(untouching(alloc, inv, false)),
    }
}

/// The event of a Ready invocation.
fn ready(alloc: Global, m: &Runnable, whole: &Whole, inv: u32) -> Result<Event, NoMemory>
    requires inv { inv < length whole.now.statuses.list }
    requires ready { slice_get whole.now.statuses.list inv ≡ Some Status.Ready }
    requires sound { IsSound m.now whole.now }
    ensures { IfOk result (IsEvent m.now whole.now inv) }
{
    match whole.top(inv) {
        Some(frame) => at_frame(alloc, m, whole, inv, frame),
        None => Ok(untouching(alloc, inv, false)),
    }
}

/// What the next event of an invocation reads and writes of the variables that all invocations share, and whether it arrives at a barrier.
/// Nothing is read or written, nor does it arrive, where the invocation waits at a barrier, leaves one or is finished, and where the event
/// is a fault. A part of a variable is one range, however many leaves it has. In constant time (measured, and said by no clause).
pub fn touch(alloc: Global, m: &Runnable, w: &World, inv: u32) -> Result<Event, NoMemory>
    requires inv { inv < length w.now.state.statuses.list }
    requires sound { IsSound m.now w.now.state }
    ensures { IfOk result (IsEvent m.now w.now.state inv) }
{
    let whole = w.whole();
    match whole.statuses().get(inv) {
        Status::Ready => ready(alloc, m, whole, inv),
        Status::Passed | Status::Arrived(_) | Status::Finished => Ok(untouching(alloc, inv, false)),
    }
}
