//! What an effect does to a state, each change recorded. Where memory runs out some of it may be done: what is recorded leads back.
ghost use Rattle.std.specs.Prelude.{◌≡◌, ◌<◌, ◌+◌, [], ℕ, None, IsSome, OnOk, Some, length, map, option_copied, true};
ghost use Rattle.std.specs.List.{AllByRecursion};
ghost use Rattle.std.specs.Option.{option_and_then, option_map};
ghost use Rattle.spv_base.specs.Entries.{reads};
ghost use Rattle.spv_base.specs.declared.values.Pointer.{Pointer as Reference};
ghost use Rattle.spv_index.specs.Definitions.{at};
ghost use Rattle.spv_actions.specs.Below.spv_mem.specs.Memory.{load_of};
ghost use Rattle.spv_sites.specs.Effects as effects;
ghost use Rattle.spv_sites.specs.Fits.{ControlFits, ControlRooted, EnterFits, Fits, IsOfType, JumpFits, LeaveFits, ResultFits, ResultRooted, StoreFits};
ghost use Rattle.spv_sites.specs.Planned.{IsPlain, IsTaken, gained, gone, phi_value, shown, taken};
ghost use Rattle.spv_journal.specs.Held.{IsMaking, Records};
ghost use Rattle.spv_machine.specs.Reached.{IsCarried, IsHeld, IsReached};
ghost use Rattle.spv_machine.specs.Recording as entries;
ghost use Rattle.spv_machine.specs.Step as spec;
ghost use Rattle.spv_machine.specs.Weights.{events_before, taking};
ghost use Rattle.spv_state.specs.Sound.{IsBarrier, IsSound};
ghost use Rattle.spv_state.specs.State as state;
ghost use Rattle.spv_statuses.specs.Group.{first_waiting};

use crate::passing::come_to;
use spv_base::{Inst, NoMemory, Pointer};
use spv_journal::Recorded;
use spv_sites::{Control, Effect, Entered, Gain, PhiValue, Place, Taken, Target};
use spv_state::{Runnable, Whole};
use spv_statuses::Status;
use spv_valid::Module;
use spv_values::Row;
use std::alloc::Global;

/// Puts the value of a row where a target is; the old one is in the row then. The pointer to a whole variable is made here: it takes no
/// memory.
fn put_at(
    alloc: Global,
    recorded: &mut Recorded,
    inv: u32,
    target: &Target,
    row: &mut Row,
) -> Result<(), NoMemory>
    requires making { IsMaking recorded.old.gathered inv }
    requires fits { StoreFits recorded.old.state inv (Some (target.now, row.old)) }
    ensures store { OnOk result (recorded.new.state ≡ state.put_store inv (Some (target.now, row.old)) recorded.old.state) }
    ensures handed { OnOk result (load_of recorded.old.state.memory inv target.now ≡ Some row.new) }
    ensures recorded { Records (entries.store_entries (Some (target.now, row.old))) recorded.old recorded.new }
{
    match &target.place {
        Place::Whole(root) => {
            let pointer = Pointer::whole(alloc, *root);
            recorded.store(inv, &pointer, row)
        }
        Place::Part(pointer) => recorded.store(inv, pointer, row),
    }
}

/// Puts the value of a row where a store leads; the old one is in the row then.
fn put_store(
    alloc: Global,
    recorded: &mut Recorded,
    inv: u32,
    store: Option<Target>,
    row: &mut Row,
) -> Result<(), NoMemory>
    requires making { IsMaking recorded.old.gathered inv }
    requires fits { StoreFits recorded.old.state inv (option_map (λ q. (q, row.old)) store) }
    ensures store { OnOk result (recorded.new.state ≡ state.put_store inv (option_map (λ q. (q, row.old)) store) recorded.old.state) }
    ensures row { store ≡ None → row.new ≡ row.old }
    ensures handed { OnOk result ((q : Reference) → store ≡ Some q → load_of recorded.old.state.memory inv q ≡ Some row.new) }
    ensures recorded { Records (entries.store_entries (option_map (λ q. (q, row.old)) store)) recorded.old recorded.new }
{
    match store {
        Some(target) => put_at(alloc, recorded, inv, &target, row),
        None => Ok(()),
    }
}

/// Gives the register of an instruction what it takes.
#[inline(always)]
fn put_result(
    m: &Runnable,
    recorded: &mut Recorded,
    inv: u32,
    inst: &Inst,
    gain: Gain,
    row: &mut Row,
) -> Result<(), NoMemory>
    requires making { IsMaking recorded.old.gathered inv }
    requires reached { IsReached m.now recorded.old.state inv inst.now }
    requires fits { ResultFits m.now.accepted inst.now (gained gain row.old) }
    requires held { IsHeld gain row.old }
    ensures result { OnOk result (recorded.new.state ≡ spec.put_result inv inst.now.id (gained gain row.old) recorded.old.state) }
    ensures row { gain ≡ Gain.Nothing → row.new ≡ row.old }
    ensures recorded { Records (taking (gained gain row.old)) recorded.old recorded.new }
{
    let accepted = m.accepted();
    let _insts = accepted.insts();
    match gain {
        Gain::Nothing => Ok(()),
        Gain::Row => recorded.set_value(accepted, inv, inst.id, row),
        Gain::Pointer(boxed) => {
            let pointer = Box::into_inner(boxed);
            recorded.set_pointer(accepted, inv, inst.id, pointer)
        }
        Gain::Handed(_cell) => recorded.set_value(accepted, inv, inst.id, row),
    }
}

/// The executable behind the one at a word, which is there.
pub(crate) fn word_behind(accepted: &Module, pc: u32) -> u32
    requires { (word : ℕ) × (reads pc accepted.now.flow.nexts ≡ Some (Some word)) }
    ensures { result ≡ spec.next_of accepted.now pc }
{
    match accepted.next(pc) {
        Some(word) => word,
        None => unreachable!(),
    }
}

/// On to the next executable of the block, past the debug instructions before it.
fn go_on(
    alloc: Global,
    m: &Runnable,
    recorded: &mut Recorded,
    inv: u32,
    inst: &Inst,
) -> Result<(), NoMemory>
    requires making { IsMaking recorded.old.gathered inv }
    requires reached { IsReached m.now recorded.old.state inv inst.now }
    requires fits { ControlFits m.now.accepted inst.now effects.Next }
    ensures ok { OnOk result (recorded.new.state ≡ spec.go_on m.now.accepted inv recorded.old.state) }
    ensures recorded { Records (events_before m.now.accepted (spec.go_on m.now.accepted inv recorded.old.state) inv + 1) recorded.old recorded.new }
{
    let word = word_behind(m.accepted(), inst.word);
    come_to(alloc, m, recorded, inv, word)
}

/// The first executable of a block, which is there.
fn first_word(accepted: &Module, label: u32) -> u32
    requires { (word : ℕ) × (reads label accepted.now.flow.blocks ≡ Some word) }
    ensures { result ≡ spec.first_of accepted.now label }
{
    accepted.first(label)
}

/// Gives the register of a phi what it takes.
fn put_phi(
    m: &Runnable,
    recorded: &mut Recorded,
    inv: u32,
    inst: &Inst,
    phi: PhiValue,
) -> Result<(), NoMemory>
    requires making { IsMaking recorded.old.gathered inv }
    requires reached { IsReached m.now recorded.old.state inv inst.now }
    requires value { IsOfType m.now.accepted phi.id (taken phi.value) }
    requires plain { IsPlain phi.value }
    ensures ok { OnOk result (recorded.new.state ≡ state.on_frame inv (state.with_register phi.id (taken phi.value)) recorded.old.state) }
    ensures recorded { Records 1 recorded.old recorded.new }
{
    let accepted = m.accepted();
    let _insts = accepted.insts();
    let PhiValue { id, value } = phi;
    match value {
        Taken::Value(mut row) => recorded.set_value(accepted, inv, id, &mut row),
        Taken::Pointer(pointer) => recorded.set_pointer(accepted, inv, id, pointer),
    }
}

/// Gives the registers of phis what they take. All was read before, so they take it at once.
fn put_phis(
    m: &Runnable,
    recorded: &mut Recorded,
    inv: u32,
    inst: &Inst,
    phis: Vec<PhiValue>,
) -> Result<(), NoMemory>
    requires making { IsMaking recorded.old.gathered inv }
    requires reached { IsReached m.now recorded.old.state inv inst.now }
    requires values { AllByRecursion (λ r. IsOfType m.now.accepted r.0 r.1) (map phi_value phis.items) }
    requires rooted { AllByRecursion (λ r. ResultRooted m.now.accepted (state.frames_of recorded.old.state inv) (Some r.1)) (map phi_value phis.items) }
    requires plain { AllByRecursion (λ p. IsPlain p.value) phis.items }
    ensures registers { OnOk result (recorded.new.state ≡ state.on_frame inv (state.with_registers (map phi_value phis.items)) recorded.old.state) }
    ensures reached { OnOk result (IsReached m.now recorded.new.state inv inst.now) }
    ensures recorded { Records (length phis.items) recorded.old recorded.new }
{
    let accepted = m.accepted();
    let _insts = accepted.insts();
    for phi in phis {
        put_phi(m, recorded, inv, inst, phi)?;
    }
    Ok(())
}

/// To a block of the function, whose phis take their values, past the debug instructions before its first executable.
fn jump(
    alloc: Global,
    m: &Runnable,
    recorded: &mut Recorded,
    inv: u32,
    inst: &Inst,
    block: u32,
    phis: Vec<PhiValue>,
) -> Result<(), NoMemory>
    requires making { IsMaking recorded.old.gathered inv }
    requires reached { IsReached m.now recorded.old.state inv inst.now }
    requires fits { JumpFits m.now.accepted inst.now block (map phi_value phis.items) }
    requires rooted { ControlRooted m.now.accepted (state.frames_of recorded.old.state inv) (effects.Jump block (map phi_value phis.items)) }
    requires plain { AllByRecursion (λ p. IsPlain p.value) phis.items }
    ensures ok { OnOk result (recorded.new.state ≡ spec.jump m.now.accepted inv block (map phi_value phis.items) recorded.old.state) }
    ensures recorded { Records (length phis.items + (events_before m.now.accepted (spec.jump m.now.accepted inv block (map phi_value phis.items) recorded.old.state) inv + 1)) recorded.old recorded.new }
{
    let accepted = m.accepted();
    let _insts = accepted.insts();
    put_phis(m, recorded, inv, inst, phis)?;
    come_to(alloc, m, recorded, inv, first_word(accepted, block))
}

/// Into a function: a frame with its variables.
fn enter(
    m: &Runnable,
    recorded: &mut Recorded,
    inv: u32,
    inst: &Inst,
    entered: Entered,
) -> Result<(), NoMemory>
    requires making { IsMaking recorded.old.gathered inv }
    requires reached { IsReached m.now recorded.old.state inv inst.now }
    requires fits { EnterFits m.now.accepted inst.now entered.frame entered.locals }
    ensures ok { OnOk result (recorded.new.state ≡ state.push_frame inv entered.frame entered.locals recorded.old.state) }
    ensures recorded { Records 1 recorded.old recorded.new }
{
    let accepted = m.accepted();
    let _insts = accepted.insts();
    recorded.enter(inv, entered.frame, entered.locals)
}

/// The instruction at which the top frame of an invocation stands, where it has one.
fn caller<'a>(m: &'a Runnable, whole: &Whole, inv: u32) -> Option<&'a Inst>
    requires { inv < length whole.now.stacks }
    ensures { option_copied result ≡ option_and_then (λ f. at m.now.accepted.insts f.pc) (state.top_of whole.now inv) }
{
    let frame = whole.top(inv)?;
    m.accepted().at(frame.pc())
}

/// The caller takes what the function gave, and moves behind its call.
fn resume(
    alloc: Global,
    m: &Runnable,
    recorded: &mut Recorded,
    inv: u32,
    call: &Inst,
    gain: Gain,
    row: &mut Row,
) -> Result<(), NoMemory>
    requires making { IsMaking recorded.old.gathered inv }
    requires reached { IsReached m.now recorded.old.state inv call.now }
    requires next { ControlFits m.now.accepted call.now effects.Next }
    requires fits { ResultFits m.now.accepted call.now (gained gain row.old) }
    requires rooted { ResultRooted m.now.accepted (state.frames_of recorded.old.state inv) (gained gain row.old) }
    requires held { IsHeld gain row.old }
    ensures ok { OnOk result (recorded.new.state ≡ spec.go_on m.now.accepted inv (spec.put_result inv call.now.id (gained gain row.old) recorded.old.state)) }
    ensures recorded { Records (taking (gained gain row.old) + (events_before m.now.accepted (spec.go_on m.now.accepted inv (spec.put_result inv call.now.id (gained gain row.old) recorded.old.state)) inv + 1)) recorded.old recorded.new }
{
    let accepted = m.accepted();
    let _insts = accepted.insts();
    put_result(m, recorded, inv, call, gain, row)?;
    go_on(alloc, m, recorded, inv, call)
}

/// Opens the barrier at a word, where it opens.
#[tactic(auto, using(spv_statuses::proofs::Exports::opens_waiting))]
fn open_at(m: &Runnable, recorded: &mut Recorded, word: u32) -> Result<(), NoMemory>
    requires making { IsSome recorded.old.gathered }
    requires within { word < recorded.old.state.statuses.words }
    ensures ok { OnOk result (recorded.new.state ≡ spec.opened m.now word recorded.old.state) }
    ensures recorded { Records 1 recorded.old recorded.new }
{
    let counts = m.setup().finished_count();
    if recorded.whole().statuses().opens_at(counts, word) {
        recorded.open_barrier(word)
    } else {
        Ok(())
    }
}

/// Opens the barrier at which all wait that aren't finished, where there is one. The setup counts finished ones as arrived.
fn open_for_finished(m: &Runnable, recorded: &mut Recorded) -> Result<(), NoMemory>
    requires making { IsSome recorded.old.gathered }
    requires sound { IsSound m.now recorded.old.state }
    requires counts { m.now.setup.finished_count ≡ true }
    ensures ok { OnOk result (recorded.new.state ≡ spec.opened_at m.now (first_waiting recorded.old.state.statuses.list) recorded.old.state) }
    ensures recorded { Records 1 recorded.old recorded.new }
{
    let accepted = m.accepted();
    let _insts = accepted.insts();
    match recorded.whole().statuses().first_waiting() {
        Some(word) => open_at(m, recorded, word),
        None => Ok(()),
    }
}

/// The entry point returned: the invocation is Finished, which may open a barrier where the setup counts finished ones as arrived.
fn finish(m: &Runnable, recorded: &mut Recorded, inv: u32) -> Result<(), NoMemory>
    requires making { IsMaking recorded.old.gathered inv }
    requires inside { inv < length recorded.old.state.statuses.list }
    requires sound { IsSound m.now (spec.finished inv recorded.old.state) }
    ensures ok { OnOk result (recorded.new.state ≡ spec.finish m.now inv recorded.old.state) }
    ensures recorded { Records 2 recorded.old recorded.new }
{
    recorded.set_status(inv, Status::Finished)?;
    if m.setup().finished_count() {
        open_for_finished(m, recorded)
    } else {
        Ok(())
    }
}

/// Out of a function: where a frame is left, its call goes on with what the function gave; else the entry point returned.
fn leave(
    alloc: Global,
    m: &Runnable,
    recorded: &mut Recorded,
    inv: u32,
    inst: &Inst,
    gain: Gain,
    row: &mut Row,
) -> Result<(), NoMemory>
    requires making { IsMaking recorded.old.gathered inv }
    requires reached { IsReached m.now recorded.old.state inv inst.now }
    requires fits { LeaveFits m.now.accepted inst.now (gained gain row.old) }
    requires rooted { ResultRooted m.now.accepted [] (gained gain row.old) }
    requires held { IsHeld gain row.old }
    ensures ok { OnOk result (recorded.new.state ≡ spec.leave m.now inv (gained gain row.old) recorded.old.state) }
    ensures recorded { Records (taking (gained gain row.old) + (events_before m.now.accepted (spec.leave m.now inv (gained gain row.old) recorded.old.state) inv + 3)) recorded.old recorded.new }
{
    let accepted = m.accepted();
    let _insts = accepted.insts();
    recorded.leave(inv)?;
    match caller(m, recorded.whole(), inv) {
        Some(call) => resume(alloc, m, recorded, inv, call, gain, row),
        None => finish(m, recorded, inv),
    }
}

/// An arrival at a barrier, which may open it.
fn arrive(m: &Runnable, recorded: &mut Recorded, inv: u32, inst: &Inst) -> Result<(), NoMemory>
    requires making { IsMaking recorded.old.gathered inv }
    requires reached { IsReached m.now recorded.old.state inv inst.now }
    requires barrier { IsBarrier m.now.accepted inst.now.word }
    ensures ok { OnOk result (recorded.new.state ≡ spec.arrive m.now inv inst.now.word recorded.old.state) }
    ensures recorded { Records 2 recorded.old recorded.new }
{
    let accepted = m.accepted();
    let _insts = accepted.insts();
    recorded.set_status(inv, Status::Arrived(inst.word))?;
    open_at(m, recorded, inst.word)
}

/// Goes where control goes.
fn go(
    alloc: Global,
    m: &Runnable,
    recorded: &mut Recorded,
    inv: u32,
    inst: &Inst,
    control: Control,
    row: &mut Row,
) -> Result<(), NoMemory>
    requires making { IsMaking recorded.old.gathered inv }
    requires reached { IsReached m.now recorded.old.state inv inst.now }
    requires fits { ControlFits m.now.accepted inst.now (gone control row.old) }
    requires rooted { ControlRooted m.now.accepted (state.frames_of recorded.old.state inv) (gone control row.old) }
    requires carried { IsCarried control row.old }
    ensures ok { OnOk result (recorded.new.state ≡ spec.go m.now inv inst.now.word (gone control row.old) recorded.old.state) }
    ensures recorded { Records (entries.control_entries m.now.accepted inv (gone control row.old) (spec.go m.now inv inst.now.word (gone control row.old) recorded.old.state)) recorded.old recorded.new }
{
    let accepted = m.accepted();
    let _insts = accepted.insts();
    match control {
        Control::Next => go_on(alloc, m, recorded, inv, inst),
        Control::Jump { block, phis } => jump(alloc, m, recorded, inv, inst, block, phis),
        Control::Enter(entered) => enter(m, recorded, inv, inst, Box::into_inner(entered)),
        Control::Leave(gain) => leave(alloc, m, recorded, inv, inst, gain, row),
        Control::Wait => arrive(m, recorded, inv, inst),
    }
}

/// Does an effect.
pub(crate) fn apply(
    alloc: Global,
    m: &Runnable,
    recorded: &mut Recorded,
    inv: u32,
    inst: &Inst,
    effect: Effect,
    row: &mut Row,
) -> Result<(), NoMemory>
    requires making { IsMaking recorded.old.gathered inv }
    requires reached { IsReached m.now recorded.old.state inv inst.now }
    requires fits { Fits m.now recorded.old.state inv inst.now (shown effect row.old) }
    requires taken { IsTaken recorded.old.state inv effect row.old }
    ensures ok { OnOk result (recorded.new.state ≡ spec.apply m.now inv inst.now (shown effect row.old) recorded.old.state) }
    ensures recorded { Records (entries.effect_entries m.now.accepted inv (shown effect row.old) (spec.apply m.now inv inst.now (shown effect row.old) recorded.old.state)) recorded.old recorded.new }
{
    let accepted = m.accepted();
    let _insts = accepted.insts();
    let Effect {
        store,
        gain,
        control,
    } = effect;
    put_store(alloc, recorded, inv, store, row)?;
    put_result(m, recorded, inv, inst, gain, row)?;
    go(alloc, m, recorded, inv, inst, control, row)
}
