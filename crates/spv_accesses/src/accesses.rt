//! Loads, stores and copies (SPIR-V 1.6 section 3.42.8, OpLoad, OpStore and OpCopyMemory).
ghost use Rattle.std.specs.Prelude.{◌≡◌, IfOk};
ghost use Rattle.spv_base.specs.Answers.{Answers};
ghost use Rattle.spv_mem.specs.Memory.{IsMemory};
ghost use Rattle.spv_state.specs.Actions.{action_of};
ghost use Rattle.spv_sites.specs.Effects.{pointer};
ghost use Rattle.spv_sites.specs.Planned.{IsDue, IsTaken, PlannedFits};
ghost use Rattle.spv_sites.specs.Sites as spec;
ghost use Rattle.spv_operands.specs.Operands.{IsPlain, shown};
ghost use Rattle.spv_operands.specs.Values.{pointer_to};

use crate::kept::{copy_memory_is_kept, load_is_kept, store_is_kept};
use spv_base::{Fail, Pointer, Root};
use spv_mem::Memory;
use spv_operands::Operand;
use spv_sites::{Cause, Control, Effect, Gain, Site, Target, copied, owned};
use spv_state::Action;
use spv_values::{Part, Row};

/// A fact, with nothing to run: each variable of a memory has a value of its type.
pub fn variables_are_shaped(memory: &Memory)
    ensures { ∥ IsMemory memory.now ∥₁ }
{
    memory.keeps_types();
}

/// The value of a whole variable. F3 where there is none.
#[tactic(auto, using(spv_sites::proofs::Exports::whole_part))]
fn whole<'a>(site: &Site<'a>, root: Root) -> Result<Part<'a>, Fail<Cause>>
    ensures { Answers (spec.part_of site.now (pointer_to root)) result }
{
    match site.memory().whole(site.inv(), root) {
        Some(part) => Ok(part),
        None => Err(Fail::Refused(Cause::OutOfBounds)),
    }
}

/// The part of memory that an operand names. F3 where there is none. No pointer is made where it is a whole variable. Inlined: most
/// loads go through it.
#[inline(always)]
fn part<'a>(site: &Site<'a>, at: &Operand) -> Result<Part<'a>, Fail<Cause>>
    requires { IsPlain at.now }
    ensures { Answers (spec.part_of site.now (shown at.now)) result }
{
    if let Operand::Variable(root) = at {
        return whole(site, *root);
    }
    let Some(reference) = at.pointer(site.alloc()) else {
        return Err(Fail::Refused(Cause::OutOfBounds));
    };
    match site.memory().load(site.inv(), reference.pointer()) {
        Ok(part) => Ok(part),
        Err(_) => Err(Fail::Refused(Cause::OutOfBounds)),
    }
}

/// The pointer that an operand is, owned. F3 where it is none.
pub(crate) fn place(site: &Site, at: &Operand) -> Result<Pointer, Fail<Cause>>
    requires { IsPlain at.now }
    ensures { Answers (pointer (shown at.now)) result }
{
    let Some(reference) = at.pointer(site.alloc()) else {
        return Err(Fail::Refused(Cause::OutOfBounds));
    };
    Ok(owned(site.alloc(), reference)?)
}

/// Where a store goes by an operand. F3 where it is no pointer. It takes no memory where that is a whole variable. Inlined: most
/// stores go through it.
#[inline(always)]
fn target(site: &Site, at: &Operand) -> Result<Target, Fail<Cause>>
    requires { IsPlain at.now }
    ensures { Answers (pointer (shown at.now)) result }
{
    if let Operand::Variable(root) = at {
        return Ok(Target::whole(*root));
    }
    Ok(Target::of(site.alloc(), place(site, at)?)?)
}

/// OpLoad: the register takes the part that the pointer names.
pub fn load(site: &Site, row: &mut Row) -> Result<Effect, Fail<Cause>>
    requires { action_of site.now.inst ≡ Action.Load }
    ensures due { IsDue (spec.due site.now) row.new result }
    ensures fits { PlannedFits site.now.program site.now.state site.now.inv site.now.inst row.new result }
    ensures taken { IfOk result (λ e. IsTaken site.now.state site.now.inv e row.new) }
{
    variables_are_shaped(site.memory());
    load_is_kept(site);
    site.is_reached();
    let _insts = site.accepted().insts();
    let at = site.operand(0)?;
    copied(&part(site, &at)?, row)?;
    Ok(Effect {
        store: None,
        gain: Gain::Row,
        control: Control::Next,
    })
}

/// OpStore: the part that the pointer names takes the object.
pub fn store(site: &Site, row: &mut Row) -> Result<Effect, Fail<Cause>>
    requires { action_of site.now.inst ≡ Action.Store }
    ensures due { IsDue (spec.due site.now) row.new result }
    ensures fits { PlannedFits site.now.program site.now.state site.now.inv site.now.inst row.new result }
    ensures taken { IfOk result (λ e. IsTaken site.now.state site.now.inv e row.new) }
{
    store_is_kept(site);
    site.is_reached();
    let _insts = site.accepted().insts();
    let at = site.operand(0)?;
    let object = site.value(1)?;
    let _part = part(site, &at)?;
    copied(&object.part(), row)?;
    let place = target(site, &at)?;
    Ok(Effect {
        store: Some(place),
        gain: Gain::Nothing,
        control: Control::Next,
    })
}

/// OpCopyMemory: the part that the target names takes the value of the part that the source names, with its marks.
pub fn copy_memory(site: &Site, row: &mut Row) -> Result<Effect, Fail<Cause>>
    requires { action_of site.now.inst ≡ Action.CopyMemory }
    ensures due { IsDue (spec.due site.now) row.new result }
    ensures fits { PlannedFits site.now.program site.now.state site.now.inv site.now.inst row.new result }
    ensures taken { IfOk result (λ e. IsTaken site.now.state site.now.inv e row.new) }
{
    variables_are_shaped(site.memory());
    copy_memory_is_kept(site);
    site.is_reached();
    let _insts = site.accepted().insts();
    let to = site.operand(0)?;
    let source = site.operand(1)?;
    let _part = part(site, &to)?;
    copied(&part(site, &source)?, row)?;
    let place = target(site, &to)?;
    Ok(Effect {
        store: Some(place),
        gain: Gain::Nothing,
        control: Control::Next,
    })
}
