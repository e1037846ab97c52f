//! What the instructions that compute do: their register takes the value that spv_results gives for their operands.
ghost use Rattle.std.specs.Prelude.{◌≡◌, IfOk, Some, false};
ghost use Rattle.spv_results.specs.Computations.{computation_of};
ghost use Rattle.spv_state.specs.Actions.{action_of};
ghost use Rattle.spv_sites.specs.Computing.{compute_effect};
ghost use Rattle.spv_sites.specs.Kept.{Keeps};
ghost use Rattle.spv_sites.specs.Planned.{IsDue, IsTaken, PlannedFits};
ghost use Rattle.spv_sites.specs.Sites as spec;
ghost use Rattle.spv_types.specs.Queries.{is_pointer};
ghost use Rattle.spv_types.specs.Rules.{has_runtime};
ghost use Rattle.spv_types.specs.Types.{form_of};

use crate::kept::is_kept;
use crate::{computing_composites as composites, computing_lanes as lanes};
use spv_base::Fail;
use spv_results::Computation;
use spv_sites::{Cause, Control, Effect, Gain, Site};
use spv_state::Action;
use spv_values::Row;

/// What the register takes.
fn gain(site: &Site, computation: Computation, row: &mut Row) -> Result<Gain, Fail<Cause>>
    requires rule { Keeps site.now.program.accepted site.now.inst computation }
    requires sized { has_runtime site.now.program.accepted.types site.now.inst.ty ≡ false }
    requires lanes { computation ≡ Computation.Select → is_pointer (form_of site.now.program.accepted.types site.now.inst.ty) ≡ false }
    ensures { spec.Computes site.now computation row.new result }
{
    match computation {
        Computation::Undef => composites::undefined(site, row),
        Computation::Unary(operation) => lanes::unary(site, operation, row),
        Computation::Bitcast => lanes::bitcast(site, row),
        Computation::Truth(operation) => lanes::truth(site, operation, row),
        Computation::Binary(operation) => lanes::binary(site, operation, row),
        Computation::Field(operation) => lanes::field(site, operation, row),
        Computation::Extended(operation) => lanes::extended(site, operation, row),
        Computation::Select => lanes::select(site, row),
        Computation::Glsl(operation) => lanes::glsl(site, operation, row),
        Computation::ExtractDynamic => composites::extract_dynamic(site, row),
        Computation::InsertDynamic => composites::insert_dynamic(site, row),
        Computation::Shuffle => composites::shuffle(site, row),
        Computation::Construct => composites::construct(site, row),
        Computation::Extract => composites::extract(site, row),
        Computation::Insert => composites::insert(site, row),
        Computation::Copy => composites::copy(site, row),
    }
}

/// What the instruction computes: an executable of an accepted module that is neither named nor an atomic computes a value.
fn computation_at(site: &Site) -> Computation
    requires { action_of site.now.inst ≡ Action.Compute }
    ensures { computation_of site.now.inst ≡ Some result }
{
    site.is_reached();
    let _insts = site.accepted().insts();
    match Computation::of(site.inst()) {
        Some(computation) => computation,
        None => unreachable!(),
    }
}

/// An instruction that computes on values: its register takes the result.
pub(crate) fn computed(
    site: &Site,
    computation: Computation,
    row: &mut Row,
) -> Result<Effect, Fail<Cause>>
    requires operation { computation_of site.now.inst ≡ Some computation }
    requires lanes { computation ≡ Computation.Select → is_pointer (form_of site.now.program.accepted.types site.now.inst.ty) ≡ false }
    requires due { spec.due site.now ≡ compute_effect site.now.program site.now.state site.now.inv site.now.frame site.now.inst }
    ensures due { IsDue (spec.due site.now) row.new result }
    ensures fits { PlannedFits site.now.program site.now.state site.now.inv site.now.inst row.new result }
    ensures taken { IfOk result (λ e. IsTaken site.now.state site.now.inv e row.new) }
{
    is_kept(site, computation);
    let _insts = site.accepted().insts();
    let gain = gain(site, computation, row)?;
    Ok(Effect {
        store: None,
        gain,
        control: Control::Next,
    })
}

/// An instruction that computes: its register takes the result.
pub fn compute(site: &Site, row: &mut Row) -> Result<Effect, Fail<Cause>>
    requires { action_of site.now.inst ≡ Action.Compute }
    ensures due { IsDue (spec.due site.now) row.new result }
    ensures fits { PlannedFits site.now.program site.now.state site.now.inv site.now.inst row.new result }
    ensures taken { IfOk result (λ e. IsTaken site.now.state site.now.inv e row.new) }
{
    let computation = computation_at(site);
    computed(site, computation, row)
}
