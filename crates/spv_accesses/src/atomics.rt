//! Atomics (SPIR-V 1.6 section 3.42.18): each reads, computes and writes in one event, and all but OpAtomicStore give the old value.
ghost use Rattle.std.specs.Prelude.{◌≡◌, IfOk, OnOk};
ghost use Rattle.std.specs.Result.{result_map_both};
ghost use Rattle.spv_alu.specs.Integers.{IsWidth};
ghost use Rattle.spv_base.specs.Answers.{Answers};
ghost use Rattle.spv_bodies.specs.Atomics.{KeepsAtomicCompare, KeepsAtomicRead, KeepsAtomicStore, KeepsAtomicUpdate};
ghost use Rattle.spv_base.specs.Cell.{IsCell};
ghost use Rattle.spv_base.specs.declared.values.Value.{Scalar};
ghost use Rattle.spv_state.specs.Actions.{action_of};
ghost use Rattle.spv_accesses.specs.AtomicSites as at_site;
ghost use Rattle.spv_accesses.specs.AtomicSites.{IsCount, IsIntegerAt, IsTarget, IsUpdate, LeadsToInteger};
ghost use Rattle.spv_sites.specs.Atomics as spec;
ghost use Rattle.spv_sites.specs.Effects.{Next};
ghost use Rattle.spv_sites.specs.Fits.{ControlFits, Fits};
ghost use Rattle.spv_sites.specs.Planned.{IsDue, IsTaken, PlannedFits, shown as shown_effect};
ghost use Rattle.spv_sites.specs.Sites as sites;
ghost use Rattle.spv_sites.specs.Sites.{IsShaped};
ghost use Rattle.spv_operands.specs.Operands.{IsPlain, shown};
ghost use Rattle.spv_results.specs.Operands.{IsOperand, IsResult, known};

use crate::accesses::{place, variables_are_shaped};
use crate::kept::atomic_is_kept;
use spv_alu::arithmetic::{difference, sum};
use spv_alu::results::defined_if;
use spv_alu::{BinaryOp, GlslOp};
use spv_base::{Cell, Fail, NoMemory, Pointer};
use spv_mem::cell_of;
use spv_operands::Operand;
use spv_sites::{Cause, Control, Effect, Gain, Site, Target, copied};
use spv_state::{Action, AtomicOp};
use spv_values::{Part, Row};

/// What AtomicIIncrement and AtomicIDecrement store over an old scalar.
#[tactic(auto, unfolding(spv_sites::specs::Atomics::atomic_row))]
fn counted_cell(operation: AtomicOp, old: Cell) -> Cell
    requires { IsWidth old.width }
    ensures lane { result ≡ at_site.counted_cell (spec.atomic_row operation) old }
    ensures width { result.width ≡ old.width }
{
    let Cell { bits, width, .. } = old;
    match operation {
        AtomicOp::Increment => defined_if(old.defined, sum(bits, 1, width)),
        AtomicOp::Decrement => defined_if(old.defined, difference(bits, 1, width)),
        _ => old,
    }
}

/// What an atomic stores over an old scalar by a value: AtomicExchange and AtomicIAdd to AtomicXor.
#[tactic(auto, unfolding(spv_sites::specs::Atomics::atomic_row, spv_alu::specs::Binary::binary_row, spv_alu::specs::Glsl::glsl_row))]
fn updated_cell(operation: AtomicOp, old: Cell, value: Cell) -> Cell
    requires old { IsWidth old.width }
    requires value { value.width ≡ old.width }
    ensures lane { result ≡ at_site.updated_cell (spec.atomic_row operation) old value }
    ensures width { result.width ≡ old.width }
{
    match operation {
        AtomicOp::Exchange => defined_if(old.defined, value),
        AtomicOp::Add => BinaryOp::IAdd.apply(old, value),
        AtomicOp::Sub => BinaryOp::ISub.apply(old, value),
        AtomicOp::SMin => GlslOp::SMin.apply(old, value, value),
        AtomicOp::UMin => GlslOp::UMin.apply(old, value, value),
        AtomicOp::SMax => GlslOp::SMax.apply(old, value, value),
        AtomicOp::UMax => GlslOp::UMax.apply(old, value, value),
        AtomicOp::And => BinaryOp::BitwiseAnd.apply(old, value),
        AtomicOp::Or => BinaryOp::BitwiseOr.apply(old, value),
        AtomicOp::Xor => BinaryOp::BitwiseXor.apply(old, value),
        AtomicOp::Load | AtomicOp::Store | AtomicOp::CompareExchange => old,
        AtomicOp::Increment | AtomicOp::Decrement => old,
    }
}

/// What AtomicCompareExchange stores over an old scalar: the value, where the old one equals the comparator.
fn compared_cell(old: Cell, value: Cell, comparator: Cell) -> Cell
    requires { value.width ≡ old.width }
    ensures lane { result ≡ spec.compared_cell old value comparator }
    ensures width { result.width ≡ old.width }
{
    let chosen = if old.bits == comparator.bits {
        value
    } else {
        old
    };
    defined_if(old.defined && comparator.defined, chosen)
}

/// The first of three operands, where each has a value. F4 where one has none.
pub(crate) fn first_of_three<'a>(site: &Site<'a>) -> Result<Operand<'a>, Fail<Cause>>
    ensures value { Answers (sites.first_of_three site.now) (result_map_both shown (λ e. e) result) }
    ensures plain { IfOk result IsPlain }
    ensures shape { IfOk result (λ o. IsShaped site.now.program.accepted site.now.inst 0 (shown o)) }
{
    let first = site.operand(0)?;
    let _second = site.operand(1)?;
    let _third = site.operand(2)?;
    Ok(first)
}

/// The scalar that the operand with a number is. F4 where it has no value.
pub(crate) fn scalar(site: &Site, n: usize) -> Result<Cell, Fail<Cause>>
    requires { IsIntegerAt site.now.program.accepted site.now.inst n }
    ensures value { Answers (at_site.scalar site.now n) result }
    ensures shape { IfOk result (λ c. IsOperand site.now.program.accepted site.now.inst n (Scalar c)) }
{
    let _insts = site.accepted().insts();
    let datum = site.value(n)?;
    Ok(cell_of(&datum.part()))
}

/// Where an atomic's pointer leads, with the integer there. F3 where there is none.
fn target(site: &Site, at: &Operand) -> Result<(Pointer, Cell), Fail<Cause>>
    requires plain { IsPlain at.now }
    requires shape { IsShaped site.now.program.accepted site.now.inst 0 (shown at.now) }
    requires leads { LeadsToInteger site.now.program.accepted site.now.inst }
    ensures target { Answers (at_site.target site.now (shown at.now)) result }
    ensures is { IfOk result (IsTarget site.now) }
{
    variables_are_shaped(site.memory());
    site.is_reached();
    let _insts = site.accepted().insts();
    let place = place(site, at)?;
    match site.memory().load_cell(site.inv(), &place) {
        Ok(old) => Ok((place, old)),
        Err(_) => Err(Fail::Refused(Cause::OutOfBounds)),
    }
}

/// Puts a scalar into a row. It takes no memory where the row ever had room for a cell.
pub(crate) fn put(cell: Cell, row: &mut Row) -> Result<(), NoMemory>
    ensures { OnOk result (row.new ≡ Scalar cell) }
{
    let cells = [cell];
    copied(&Part::of(&cells), row)
}

/// A fact, with nothing to run: the bits of a scalar fit its width.
fn is_lane(cell: Cell)
    ensures { IsCell cell }
{
    let _bits = cell.bits;
}

/// The effect of a scalar that is stored over another, which the register takes.
fn exchange(
    site: &Site,
    target: (Pointer, Cell),
    new: Cell,
    row: &mut Row,
) -> Result<Effect, NoMemory>
    requires target { IsTarget site.now target }
    requires width { new.width ≡ target.1.width }
    requires result { IsResult site.now.program.accepted site.now.inst (Scalar target.1) }
    requires next { ControlFits site.now.program.accepted site.now.inst Next }
    ensures shown { IfOk result (λ e. shown_effect e row.new ≡ spec.exchanges target.0 new target.1) }
    ensures fits { IfOk result (λ e. Fits site.now.program site.now.state site.now.inv site.now.inst (shown_effect e row.new)) }
    ensures taken { IfOk result (λ e. IsTaken site.now.state site.now.inv e row.new) }
{
    variables_are_shaped(site.memory());
    let _insts = site.accepted().insts();
    is_lane(new);
    put(new, row)?;
    let (place, old) = target;
    let store = Target::of(site.alloc(), place)?;
    Ok(Effect {
        store: Some(store),
        gain: Gain::Handed(old),
        control: Control::Next,
    })
}

/// OpAtomicLoad: the register takes the integer.
fn load(site: &Site, row: &mut Row) -> Result<Effect, Fail<Cause>>
    requires action { action_of site.now.inst ≡ Action.Atomic AtomicOp.Load }
    requires rule { KeepsAtomicRead (known site.now.program.accepted) site.now.inst }
    requires next { ControlFits site.now.program.accepted site.now.inst Next }
    ensures due { IsDue (sites.due site.now) row.new result }
    ensures fits { PlannedFits site.now.program site.now.state site.now.inv site.now.inst row.new result }
    ensures taken { IfOk result (λ e. IsTaken site.now.state site.now.inv e row.new) }
{
    let at = first_of_three(site)?;
    let (_place, old) = target(site, &at)?;
    put(old, row)?;
    Ok(Effect {
        store: None,
        gain: Gain::Row,
        control: Control::Next,
    })
}

/// OpAtomicStore: the integer is the value then.
fn store(site: &Site, row: &mut Row) -> Result<Effect, Fail<Cause>>
    requires action { action_of site.now.inst ≡ Action.Atomic AtomicOp.Store }
    requires rule { KeepsAtomicStore (known site.now.program.accepted) site.now.inst }
    requires next { ControlFits site.now.program.accepted site.now.inst Next }
    ensures due { IsDue (sites.due site.now) row.new result }
    ensures fits { PlannedFits site.now.program site.now.state site.now.inv site.now.inst row.new result }
    ensures taken { IfOk result (λ e. IsTaken site.now.state site.now.inv e row.new) }
{
    variables_are_shaped(site.memory());
    let _insts = site.accepted().insts();
    let at = first_of_three(site)?;
    let value = scalar(site, 3)?;
    let (place, _old) = target(site, &at)?;
    is_lane(value);
    put(value, row)?;
    let store = Target::of(site.alloc(), place)?;
    Ok(Effect {
        store: Some(store),
        gain: Gain::Nothing,
        control: Control::Next,
    })
}

/// OpAtomicIIncrement and OpAtomicIDecrement: the integer is counted up or down.
fn count(site: &Site, operation: AtomicOp, row: &mut Row) -> Result<Effect, Fail<Cause>>
    requires action { action_of site.now.inst ≡ Action.Atomic operation }
    requires counts { IsCount (spec.atomic_row operation) }
    requires rule { KeepsAtomicRead (known site.now.program.accepted) site.now.inst }
    requires next { ControlFits site.now.program.accepted site.now.inst Next }
    ensures due { IsDue (sites.due site.now) row.new result }
    ensures fits { PlannedFits site.now.program site.now.state site.now.inv site.now.inst row.new result }
    ensures taken { IfOk result (λ e. IsTaken site.now.state site.now.inv e row.new) }
{
    let at = first_of_three(site)?;
    let target = target(site, &at)?;
    let new = counted_cell(operation, target.1);
    Ok(exchange(site, target, new, row)?)
}

/// OpAtomicExchange and OpAtomicIAdd to OpAtomicXor: the integer is updated by the value.
fn update(site: &Site, operation: AtomicOp, row: &mut Row) -> Result<Effect, Fail<Cause>>
    requires action { action_of site.now.inst ≡ Action.Atomic operation }
    requires updates { IsUpdate (spec.atomic_row operation) }
    requires rule { KeepsAtomicUpdate (known site.now.program.accepted) site.now.inst }
    requires next { ControlFits site.now.program.accepted site.now.inst Next }
    ensures due { IsDue (sites.due site.now) row.new result }
    ensures fits { PlannedFits site.now.program site.now.state site.now.inv site.now.inst row.new result }
    ensures taken { IfOk result (λ e. IsTaken site.now.state site.now.inv e row.new) }
{
    let _insts = site.accepted().insts();
    let at = first_of_three(site)?;
    let value = scalar(site, 3)?;
    let target = target(site, &at)?;
    let new = updated_cell(operation, target.1, value);
    Ok(exchange(site, target, new, row)?)
}

/// OpAtomicCompareExchange: where the integer equals the comparator, it is the value then.
fn compare_exchange(site: &Site, row: &mut Row) -> Result<Effect, Fail<Cause>>
    requires action { action_of site.now.inst ≡ Action.Atomic AtomicOp.CompareExchange }
    requires rule { KeepsAtomicCompare (known site.now.program.accepted) site.now.inst }
    requires next { ControlFits site.now.program.accepted site.now.inst Next }
    ensures due { IsDue (sites.due site.now) row.new result }
    ensures fits { PlannedFits site.now.program site.now.state site.now.inv site.now.inst row.new result }
    ensures taken { IfOk result (λ e. IsTaken site.now.state site.now.inv e row.new) }
{
    let _insts = site.accepted().insts();
    let at = first_of_three(site)?;
    let _unequal = site.operand(3)?;
    let value = scalar(site, 4)?;
    let comparator = scalar(site, 5)?;
    let target = target(site, &at)?;
    let new = compared_cell(target.1, value, comparator);
    Ok(exchange(site, target, new, row)?)
}

/// An atomic.
#[tactic(auto, unfolding(spv_sites::specs::Atomics::atomic_row))]
pub fn atomic(site: &Site, operation: AtomicOp, row: &mut Row) -> Result<Effect, Fail<Cause>>
    requires { action_of site.now.inst ≡ Action.Atomic operation }
    ensures due { IsDue (sites.due site.now) row.new result }
    ensures fits { PlannedFits site.now.program site.now.state site.now.inv site.now.inst row.new result }
    ensures taken { IfOk result (λ e. IsTaken site.now.state site.now.inv e row.new) }
{
    atomic_is_kept(site, operation);
    match operation {
        AtomicOp::Load => load(site, row),
        AtomicOp::Store => store(site, row),
        AtomicOp::CompareExchange => compare_exchange(site, row),
        AtomicOp::Increment | AtomicOp::Decrement => count(site, operation, row),
        AtomicOp::Exchange | AtomicOp::Add | AtomicOp::Sub => update(site, operation, row),
        AtomicOp::SMin | AtomicOp::UMin | AtomicOp::SMax | AtomicOp::UMax => {
            update(site, operation, row)
        }
        AtomicOp::And | AtomicOp::Or | AtomicOp::Xor => update(site, operation, row),
    }
}
