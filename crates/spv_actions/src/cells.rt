//! What predecoded instructions do: those on values of one cell.
ghost use Rattle.std.specs.Prelude.{◌≡◌, IfSome, Some};
ghost use Rattle.spv_actions.specs.Cells.{IsCellEffect};
ghost use Rattle.spv_results.specs.Computations.{computation_of};
ghost use Rattle.spv_state.specs.Actions.{action_of};
ghost use Rattle.spv_state.specs.Predecoded.{IsNamedAt, IsReadAt, IsResultAt, IsShort};

use spv_accesses::accesses::variables_are_shaped;
use spv_accesses::kept::{load_is_kept, store_is_kept};
use spv_alu::BinaryOp;
use spv_base::Root;
use spv_computing::computing_lanes::binary_single;
use spv_computing::kept::is_kept;
use spv_results::Computation;
use spv_sites::Site;
use spv_state::{Action, CellSlot, Short, Source, VariableName};
use spv_values::Single;

/// What an instruction does with a value of one cell.
#[derive(Drop)]
pub enum CellEffect {
    /// The register in the slot takes it.
    Gives { slot: CellSlot, value: Single },
    /// The whole variable takes it.
    Sets { root: Root, value: Single },
}

/// A binary operation. Inlined, as `cell_effect` is.
#[inline(always)]
fn binary(
    site: &Site,
    operation: BinaryOp,
    first: &Source,
    second: &Source,
    into: &CellSlot,
) -> Option<CellEffect>
    requires computes { action_of site.now.inst ≡ Action.Compute }
    requires operation { computation_of site.now.inst ≡ Some (Computation.Binary operation) }
    requires first { ∥ IsReadAt site.now.program.accepted site.now.frame.plan.function site.now.inst 0 first.now ∥₁ }
    requires second { ∥ IsReadAt site.now.program.accepted site.now.frame.plan.function site.now.inst 1 second.now ∥₁ }
    requires into { ∥ IsResultAt site.now.program.accepted site.now.frame.plan.function site.now.inst into.now ∥₁ }
    ensures { IfSome result (IsCellEffect site.now) }
{
    is_kept(site, Computation::Binary(operation));
    site.is_reached();
    let _insts = site.accepted().insts();
    let a = site.read(0, first)?;
    let b = site.read(1, second)?;
    if a.cells().len() != 1 {
        return None;
    }
    let value = binary_single(site, operation, &a, &b);
    Some(CellEffect::Gives { slot: *into, value })
}

/// OpLoad of a whole variable. Inlined, as `cell_effect` is.
#[inline(always)]
fn load(site: &Site, from: &VariableName, into: &CellSlot) -> Option<CellEffect>
    requires loads { action_of site.now.inst ≡ Action.Load }
    requires from { ∥ IsNamedAt site.now.program.accepted site.now.frame.plan.function site.now.inst 0 from.now ∥₁ }
    requires into { ∥ IsResultAt site.now.program.accepted site.now.frame.plan.function site.now.inst into.now ∥₁ }
    ensures { IfSome result (IsCellEffect site.now) }
{
    variables_are_shaped(site.memory());
    load_is_kept(site);
    site.is_reached();
    let _insts = site.accepted().insts();
    let root = site.variable(0, from);
    let part = site.memory().whole(site.inv(), root)?;
    if part.cells().len() != 1 {
        return None;
    }
    let value = Single::of_part(&part);
    Some(CellEffect::Gives { slot: *into, value })
}

/// OpStore to a whole variable. Inlined, as `cell_effect` is.
#[inline(always)]
fn store(site: &Site, to: &VariableName, object: &Source) -> Option<CellEffect>
    requires stores { action_of site.now.inst ≡ Action.Store }
    requires to { ∥ IsNamedAt site.now.program.accepted site.now.frame.plan.function site.now.inst 0 to.now ∥₁ }
    requires object { ∥ IsReadAt site.now.program.accepted site.now.frame.plan.function site.now.inst 1 object.now ∥₁ }
    ensures { IfSome result (IsCellEffect site.now) }
{
    store_is_kept(site);
    site.is_reached();
    let _insts = site.accepted().insts();
    let root = site.variable(0, to);
    let value = site.read(1, object)?;
    let part = site.memory().whole(site.inv(), root)?;
    if part.cells().len() != 1 || value.cells().len() != 1 {
        return None;
    }
    let value = Single::of_part(&value);
    Some(CellEffect::Sets { root, value })
}

/// What a predecoded instruction does; none where it is to be worked out as any other, as where an operand has no value. Nothing is
/// looked up but constants and the variable of a load or a store. Inlined: it is called once an event.
#[inline(always)]
pub fn cell_effect(site: &Site, short: &Short) -> Option<CellEffect>
    requires { ∥ IsShort site.now.program.accepted site.now.frame.plan.function site.now.inst short.now ∥₁ }
    ensures { IfSome result (IsCellEffect site.now) }
{
    match short {
        Short::Binary {
            operation,
            first,
            second,
            into,
        } => binary(site, *operation, first, second, into),
        Short::Load { from, into } => load(site, from, into),
        Short::Store { to, object } => store(site, to, object),
    }
}
