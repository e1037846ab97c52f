//! Pointers that are compared (SPIR-V 1.6 section 3.42.8, OpPtrEqual and OpPtrNotEqual).
ghost use Rattle.std.specs.Prelude.{◌≡◌, IfOk};
ghost use Rattle.spv_base.specs.Answers.{Answers};
ghost use Rattle.spv_operands.specs.Operands.{IsPlain, shown};
ghost use Rattle.spv_state.specs.Actions.{action_of};
ghost use Rattle.spv_accesses.specs.PointerSites.{equal_operands, equal_values};
ghost use Rattle.spv_sites.specs.Planned.{IsDue, IsTaken, PlannedFits};
ghost use Rattle.spv_sites.specs.Pointers as spec;
ghost use Rattle.spv_sites.specs.Sites as sites;

use crate::atomics::put;
use crate::kept::ptr_equal_is_kept;
use spv_alu::results::truth;
use spv_base::{Fail, Pointer, Root};
use spv_operands::Operand;
use spv_sites::{Cause, Control, Effect, Gain, Site};
use spv_state::Action;
use spv_values::Row;

/// Whether two roots name one variable.
fn same_root(first: Root, second: Root) -> bool
    ensures { result ≡ spec.same_root first second }
{
    match first {
        Root::Shared(id) => match second {
            Root::Shared(other) => id == other,
            _ => false,
        },
        Root::Private(id) => match second {
            Root::Private(other) => id == other,
            _ => false,
        },
        Root::Local { depth, id } => match second {
            Root::Local {
                depth: at,
                id: other,
            } => depth == at && id == other,
            _ => false,
        },
    }
}

/// Whether two pointers are equal: their roots and their paths.
fn are_equal(first: &Pointer, second: &Pointer) -> bool
    ensures { result ≡ spec.are_equal first.now second.now }
{
    same_root(first.root, second.root) && first.path.as_slice() == second.path.as_slice()
}

/// Whether two operands are equal pointers. F3 where one is none.
fn equal_values(site: &Site, first: &Operand, second: &Operand) -> Result<bool, Fail<Cause>>
    requires first { IsPlain first.now }
    requires second { IsPlain second.now }
    ensures { Answers (equal_values (shown first.now) (shown second.now)) result }
{
    let alloc = site.alloc();
    let Some(one) = first.pointer(alloc) else {
        return Err(Fail::Refused(Cause::OutOfBounds));
    };
    let Some(other) = second.pointer(alloc) else {
        return Err(Fail::Refused(Cause::OutOfBounds));
    };
    Ok(are_equal(one.pointer(), other.pointer()))
}

/// Whether the two operands of a comparison are equal pointers. F4 where one has no value.
fn equal_operands(site: &Site) -> Result<bool, Fail<Cause>>
    ensures { Answers (equal_operands site.now) result }
{
    let first = site.operand(0)?;
    let second = site.operand(1)?;
    equal_values(site, &first, &second)
}

/// OpPtrEqual: the register takes whether the two pointers are equal.
pub fn ptr_equal(site: &Site, row: &mut Row) -> Result<Effect, Fail<Cause>>
    requires { action_of site.now.inst ≡ Action.PtrEqual }
    ensures due { IsDue (sites.due site.now) row.new result }
    ensures fits { PlannedFits site.now.program site.now.state site.now.inv site.now.inst row.new result }
    ensures taken { IfOk result (λ e. IsTaken site.now.state site.now.inv e row.new) }
{
    ptr_equal_is_kept(site);
    let _insts = site.accepted().insts();
    let equal = equal_operands(site)?;
    put(truth(equal), row)?;
    Ok(Effect {
        store: None,
        gain: Gain::Row,
        control: Control::Next,
    })
}

/// OpPtrNotEqual: the register takes whether they are not.
pub fn ptr_not_equal(site: &Site, row: &mut Row) -> Result<Effect, Fail<Cause>>
    requires { action_of site.now.inst ≡ Action.PtrNotEqual }
    ensures due { IsDue (sites.due site.now) row.new result }
    ensures fits { PlannedFits site.now.program site.now.state site.now.inv site.now.inst row.new result }
    ensures taken { IfOk result (λ e. IsTaken site.now.state site.now.inv e row.new) }
{
    ptr_equal_is_kept(site);
    let _insts = site.accepted().insts();
    let equal = equal_operands(site)?;
    put(truth(!equal), row)?;
    Ok(Effect {
        store: None,
        gain: Gain::Row,
        control: Control::Next,
    })
}
