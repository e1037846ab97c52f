//! One step of an invocation.
ghost use Rattle.std.specs.Prelude.{◌≡◌, ◌<◌, ◌+◌, ◌∷◌, [], IfOk, None, OnOk, Some, length, slice_get};
ghost use Rattle.std.specs.Option.{IsSomeAnd, MatchOption};
ghost use Rattle.spv_sites.specs.Effects.{code_of};
ghost use Rattle.spv_sites.specs.Fits.{Fits};
ghost use Rattle.spv_sites.specs.Planned.{IsTaken, PlannedFits, shown};
ghost use Rattle.spv_journal.specs.Events.{older};
ghost use Rattle.spv_journal.specs.Held.{IsMaking, Records};
ghost use Rattle.spv_machine.specs.Does.{Does};
ghost use Rattle.spv_machine.specs.Recording.{IsSingleBack, Made};
ghost use Rattle.spv_machine.specs.Reached.{IsReached, IsStepBy};
ghost use Rattle.spv_machine.specs.Step as spec;
ghost use Rattle.spv_machine.specs.Weights.{effect_weight, events_before, weight_of};
ghost use Rattle.spv_machine.specs.World.{past_of, seen};
ghost use Rattle.spv_state.specs.Sound.{IsSound};
ghost use Rattle.spv_state.specs.State as state;

use crate::applying::{apply, word_behind};
use crate::cells::{cell_due, cell_event};
use crate::finishing::{finished, idle};
use crate::happenings::{happening_of, plain};
use crate::passing::come_to;
use crate::world::World;
use spv_actions::effect_at;
use spv_base::{Cell, Fail, Fault, Happening, Inst, NoMemory, Steps};
use spv_journal::Recorded;
use spv_sites::{Cause, Effect};
use spv_state::{Runnable, Whole};
use spv_statuses::Status;
use spv_values::Row;
use std::alloc::Global;
use std::sync::ledger::Ledger;

/// What a step did.
#[derive(Clone, Copy)]
pub enum Did {
    /// The invocation waits or is finished: nothing changed.
    Idle,
    Moved(Happening),
}

/// Why a step was not made. The world is as before.
#[derive(Clone, Copy)]
pub enum StepErr {
    Fault(Fault),
    NoMemory,
}

/// The fault at an instruction.
fn fault(cause: Cause, inv: u32, word: u32) -> Fault
    ensures { result ≡ record { code = code_of cause; inv = inv; word = word } }
{
    Fault {
        code: cause.code(),
        inv,
        word,
    }
}

/// The instruction that a Ready invocation has reached.
fn due_inst<'a>(m: &'a Runnable, whole: &Whole, inv: u32) -> &'a Inst
    requires inv { inv < length whole.now.statuses.list }
    requires ready { slice_get whole.now.statuses.list inv ≡ Some Status.Ready }
    requires sound { IsSound m.now whole.now }
    ensures { IsReached m.now whole.now inv result.now }
{
    let accepted = m.accepted();
    let _insts = accepted.insts();
    let Some(frame) = whole.top(inv) else {
        unreachable!();
    };
    match accepted.at(frame.pc()) {
        Some(inst) => inst,
        None => unreachable!(),
    }
}

/// What the instruction does that a Ready invocation has reached, or why it faults.
fn due(
    alloc: Global,
    m: &Runnable,
    whole: &Whole,
    inv: u32,
    inst: &Inst,
    row: &mut Row,
) -> Result<Effect, Fail<Cause>>
    requires inv { inv < length whole.now.statuses.list }
    requires reached { IsReached m.now whole.now inv inst.now }
    ensures due { IsStepBy m.now whole.now inv inst.now row.new result }
    ensures fits { PlannedFits m.now whole.now inv inst.now row.new result }
    ensures taken { IfOk result (λ e. IsTaken whole.now inv e row.new) }
    ensures single { IfOk result (λ e. IsSingleBack m.now whole.now inv inst.now (shown e row.new)) }
    ensures weight { IfOk result (λ e. weight_of m.now whole.now inv ≡ effect_weight m.now whole.now inv inst.now (shown e row.new)) }
{
    match whole.top(inv) {
        Some(frame) => effect_at(alloc, m, whole, inv, frame, inst, row),
        None => unreachable!(),
    }
}

/// Does an effect as one event, or leaves all as it was.
fn perform(
    alloc: Global,
    m: &Runnable,
    recorded: &mut Recorded,
    inv: u32,
    inst: &Inst,
    effect: Effect,
    row: &mut Row,
) -> Result<Did, StepErr>
    requires none { recorded.old.gathered ≡ None }
    requires reached { IsReached m.now recorded.old.state inv inst.now }
    requires fits { Fits m.now recorded.old.state inv inst.now (shown effect row.old) }
    requires taken { IsTaken recorded.old.state inv effect row.old }
    requires single { IsSingleBack m.now recorded.old.state inv inst.now (shown effect row.old) }
    ensures { Made (spec.happening_of m.now recorded.old.state inv inst.now.word (shown effect row.old)) (spec.apply m.now inv inst.now (shown effect row.old) recorded.old.state) (effect_weight m.now recorded.old.state inv inst.now (shown effect row.old)) result recorded.old recorded.new }
{
    let happening = happening_of(m, recorded.whole(), inv, inst.word, &effect);
    match recorded.mark(happening) {
        Ok(()) => {
            let done = apply(alloc, m, recorded, inv, inst, effect, row);
            finished(recorded, happening, done)
        }
        Err(NoMemory) => Err(StepErr::NoMemory),
    }
}

/// The event of a Ready invocation.
fn ready(
    alloc: Global,
    m: &Runnable,
    recorded: &mut Recorded,
    inv: u32,
    row: &mut Row,
) -> Result<Did, StepErr>
    requires none { recorded.old.gathered ≡ None }
    requires inv { inv < length recorded.old.state.statuses.list }
    requires ready { slice_get recorded.old.state.statuses.list inv ≡ Some Status.Ready }
    requires sound { IsSound m.now recorded.old.state }
    ensures does { Does inv (spec.step_of m.now recorded.old.state inv) (weight_of m.now recorded.old.state inv) result (seen recorded.old) (seen recorded.new) }
    ensures none { recorded.new.gathered ≡ None }
    ensures sound { IsSound m.now recorded.new.state }
    ensures invocations { length recorded.new.state.statuses.list ≡ length recorded.old.state.statuses.list }
{
    let accepted = m.accepted();
    let _insts = accepted.insts();
    let whole = recorded.whole();
    let inst = due_inst(m, whole, inv);
    if let Some(step) = cell_due(alloc, m, whole, inv, inst) {
        return Ok(cell_event(m, recorded, inv, inst, step));
    }
    match due(alloc, m, recorded.whole(), inv, inst, row) {
        Ok(effect) => perform(alloc, m, recorded, inv, inst, effect, row),
        Err(Fail::Refused(cause)) => Err(StepErr::Fault(fault(cause, inv, inst.word))),
        Err(Fail::NoMemory) => Err(StepErr::NoMemory),
    }
}

/// The word at which a Passed invocation stands.
fn barrier(m: &Runnable, whole: &Whole, inv: u32) -> u32
    requires inv { inv < length whole.now.statuses.list }
    requires passed { slice_get whole.now.statuses.list inv ≡ Some Status.Passed }
    requires sound { IsSound m.now whole.now }
    ensures { IsSomeAnd (state.top_of whole.now inv) (λ f. f.pc ≡ result) }
{
    match whole.top(inv) {
        Some(frame) => frame.pc(),
        None => unreachable!(),
    }
}

/// Moves a Passed invocation past its barrier, which stands at a word.
fn move_past(
    alloc: Global,
    m: &Runnable,
    recorded: &mut Recorded,
    inv: u32,
    pc: u32,
) -> Result<(), NoMemory>
    requires making { IsMaking recorded.old.gathered inv }
    requires inv { inv < length recorded.old.state.statuses.list }
    requires passed { slice_get recorded.old.state.statuses.list inv ≡ Some Status.Passed }
    requires sound { IsSound m.now recorded.old.state }
    requires stands { IsSomeAnd (state.top_of recorded.old.state inv) (λ f. f.pc ≡ pc) }
    ensures ok { OnOk result (recorded.new.state ≡ state.set_status inv Status.Ready (spec.go_on m.now.accepted inv recorded.old.state)) }
    ensures recorded { Records (events_before m.now.accepted (spec.go_on m.now.accepted inv recorded.old.state) inv + 1 + 1) recorded.old recorded.new }
{
    let accepted = m.accepted();
    let _insts = accepted.insts();
    come_to(alloc, m, recorded, inv, word_behind(accepted, pc))?;
    recorded.set_status(inv, Status::Ready)
}

/// Moves a Passed invocation past its barrier as one event, or leaves all as it was.
fn pass_by(
    alloc: Global,
    m: &Runnable,
    recorded: &mut Recorded,
    inv: u32,
    pc: u32,
) -> Result<Did, StepErr>
    requires none { recorded.old.gathered ≡ None }
    requires inv { inv < length recorded.old.state.statuses.list }
    requires passed { slice_get recorded.old.state.statuses.list inv ≡ Some Status.Passed }
    requires sound { IsSound m.now recorded.old.state }
    requires stands { IsSomeAnd (state.top_of recorded.old.state inv) (λ f. f.pc ≡ pc) }
    ensures { Made (spec.plain inv pc) (state.set_status inv Status.Ready (spec.go_on m.now.accepted inv recorded.old.state)) (4 + events_before m.now.accepted (spec.go_on m.now.accepted inv recorded.old.state) inv) result recorded.old recorded.new }
{
    let happening = plain(inv, pc);
    match recorded.mark(happening) {
        Ok(()) => {
            let done = move_past(alloc, m, recorded, inv, pc);
            finished(recorded, happening, done)
        }
        Err(NoMemory) => Err(StepErr::NoMemory),
    }
}

/// The event of a Passed invocation: it moves past the barrier.
fn pass(alloc: Global, m: &Runnable, recorded: &mut Recorded, inv: u32) -> Result<Did, StepErr>
    requires none { recorded.old.gathered ≡ None }
    requires inv { inv < length recorded.old.state.statuses.list }
    requires passed { slice_get recorded.old.state.statuses.list inv ≡ Some Status.Passed }
    requires sound { IsSound m.now recorded.old.state }
    ensures does { Does inv (spec.step_of m.now recorded.old.state inv) (weight_of m.now recorded.old.state inv) result (seen recorded.old) (seen recorded.new) }
    ensures none { recorded.new.gathered ≡ None }
    ensures sound { IsSound m.now recorded.new.state }
    ensures invocations { length recorded.new.state.statuses.list ≡ length recorded.old.state.statuses.list }
{
    let accepted = m.accepted();
    let _insts = accepted.insts();
    let pc = barrier(m, recorded.whole(), inv);
    pass_by(alloc, m, recorded, inv, pc)
}

/// The event of an invocation that waits or is finished.
fn wait(m: &Runnable, recorded: &mut Recorded, inv: u32) -> Result<Did, StepErr>
    requires none { recorded.old.gathered ≡ None }
    requires idles { spec.step_of m.now recorded.old.state inv ≡ spec.Idles }
    requires weight { weight_of m.now recorded.old.state inv ≡ 4 }
    ensures does { Does inv (spec.step_of m.now recorded.old.state inv) (weight_of m.now recorded.old.state inv) result (seen recorded.old) (seen recorded.new) }
    ensures none { recorded.new.gathered ≡ None }
    ensures state { recorded.new.state ≡ recorded.old.state }
{
    match idle(recorded, inv) {
        Ok(()) => Ok(Did::Idle),
        Err(NoMemory) => Err(StepErr::NoMemory),
    }
}

/// The event of an invocation, not counted.
fn event(
    alloc: Global,
    m: &Runnable,
    recorded: &mut Recorded,
    inv: u32,
    row: &mut Row,
) -> Result<Did, StepErr>
    requires none { recorded.old.gathered ≡ None }
    requires inv { inv < length recorded.old.state.statuses.list }
    requires sound { IsSound m.now recorded.old.state }
    ensures does { Does inv (spec.step_of m.now recorded.old.state inv) (weight_of m.now recorded.old.state inv) result (seen recorded.old) (seen recorded.new) }
    ensures none { recorded.new.gathered ≡ None }
    ensures sound { IsSound m.now recorded.new.state }
    ensures invocations { length recorded.new.state.statuses.list ≡ length recorded.old.state.statuses.list }
{
    match recorded.whole().statuses().get(inv) {
        Status::Ready => ready(alloc, m, recorded, inv, row),
        Status::Passed => pass(alloc, m, recorded, inv),
        Status::Arrived(_) | Status::Finished => wait(m, recorded, inv),
    }
}

/// One event of an invocation (SPIR-V 1.6, Execution Model), recorded in the journal. It counts one step, also where it faults or finds no
/// memory. After an error the world is as before, its journal included.
pub fn step<L: Ledger>(
    alloc: Global,
    m: &Runnable,
    w: &mut World,
    inv: u32,
    steps: &mut Steps<L>,
) -> Result<Did, StepErr>
    requires inv { inv < length w.old.state.statuses.list }
    requires sound { IsSound m.now w.old.state }
    ensures does { Does inv (spec.step_of m.now w.old.state inv) (weight_of m.now w.old.state inv) result w.old w.new }
    ensures sound { IsSound m.now w.new.state }
    ensures invocations { length w.new.state.statuses.list ≡ length w.old.state.statuses.list }
    ensures count { steps.new ≡ steps.old + 1 }
{
    steps.tick();
    let World { recorded, row } = w;
    event(alloc, m, recorded, inv, row)
}

/// Undoes the newest event that is kept, and gives it; none exactly where no event is kept. It takes no memory and counts no step.
pub fn unstep(w: &mut World) -> Option<Happening>
    ensures undone { MatchOption result ((w.old.ring ≡ []) × (w.new ≡ w.old)) (λ h. past_of w.old ≡ record { happening = h; state = w.new.state } ∷ past_of w.new) }
    ensures ring { w.new.ring ≡ older w.old.ring }
    ensures limit { w.new.limit ≡ w.old.limit }
{
    w.recorded.unwind()
}

/// The fault of a Ready invocation's next event, if it faults.
fn ready_fault(
    alloc: Global,
    m: &Runnable,
    whole: &Whole,
    inv: u32,
) -> Result<Option<Fault>, NoMemory>
    requires inv { inv < length whole.now.statuses.list }
    requires ready { slice_get whole.now.statuses.list inv ≡ Some Status.Ready }
    requires sound { IsSound m.now whole.now }
    ensures { IfOk result (λ f. f ≡ spec.fault_in (spec.step_of m.now whole.now inv)) }
{
    let blank = Cell {
        bits: 0,
        width: 1,
        defined: false,
    };
    let mut row = Row::of_cell(alloc, blank)?;
    let inst = due_inst(m, whole, inv);
    match due(alloc, m, whole, inv, inst, &mut row) {
        Ok(_effect) => Ok(None),
        Err(Fail::Refused(cause)) => Ok(Some(fault(cause, inv, inst.word))),
        Err(Fail::NoMemory) => Err(NoMemory),
    }
}

/// The fault of an invocation's next event, if it faults. It counts no step, and takes memory as a step does.
pub fn fault_of(alloc: Global, m: &Runnable, w: &World, inv: u32) -> Result<Option<Fault>, NoMemory>
    requires inv { inv < length w.now.state.statuses.list }
    requires sound { IsSound m.now w.now.state }
    ensures { IfOk result (λ f. f ≡ spec.fault_in (spec.step_of m.now w.now.state inv)) }
{
    let whole = w.whole();
    match whole.statuses().get(inv) {
        Status::Ready => ready_fault(alloc, m, whole, inv),
        Status::Passed | Status::Arrived(_) | Status::Finished => Ok(None),
    }
}
