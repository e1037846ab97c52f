//! Choices between two values or two pointers (SPIR-V 1.6 section 3.42.15, OpSelect).
ghost use Rattle.std.specs.Prelude.{◌≡◌, IfOk, true};
ghost use Rattle.spv_operands.specs.Operands.{IsPlain, shown};
ghost use Rattle.spv_state.specs.Actions.{action_of};
ghost use Rattle.spv_sites.specs.Effects.{gives};
ghost use Rattle.spv_sites.specs.Planned as planned;
ghost use Rattle.spv_sites.specs.Planned.{IsDue, IsTaken, PlannedFits};
ghost use Rattle.spv_sites.specs.Sites as spec;
ghost use Rattle.spv_types.specs.Queries as queries;
ghost use Rattle.spv_types.specs.Types.{form_of};

use crate::computing::computed;
use crate::kept::{select_chooses, select_computes};
use spv_base::{Fail, NoMemory};
use spv_mem::cell_of;
use spv_operands::Operand;
use spv_results::Computation;
use spv_sites::{Cause, Control, Effect, Site, given};
use spv_state::Action;
use spv_types::queries::is_pointer;
use spv_values::Row;

/// The register takes what an operand stands for.
fn takes(site: &Site, operand: &Operand, row: &mut Row) -> Result<Effect, NoMemory>
    requires { IsPlain operand.now }
    ensures value { IfOk result (λ e. planned.shown e row.new ≡ gives (shown operand.now)) }
    ensures taken { IfOk result (λ e. IsTaken site.now.state site.now.inv e row.new) }
{
    let gain = given(site.alloc(), operand, row)?;
    Ok(Effect {
        store: None,
        gain,
        control: Control::Next,
    })
}

/// OpSelect of pointers: condition and two pointers. F2 where the condition is undefined.
fn select_pointer(site: &Site, row: &mut Row) -> Result<Effect, Fail<Cause>>
    requires action { action_of site.now.inst ≡ Action.Select }
    requires pointers { queries.is_pointer (form_of site.now.program.accepted.types site.now.inst.ty) ≡ true }
    ensures due { IsDue (spec.due site.now) row.new result }
    ensures fits { PlannedFits site.now.program site.now.state site.now.inv site.now.inst row.new result }
    ensures taken { IfOk result (λ e. IsTaken site.now.state site.now.inv e row.new) }
{
    select_chooses(site);
    site.is_reached();
    let _insts = site.accepted().insts();
    let condition = site.value(0)?;
    let object = site.operand(1)?;
    let other = site.operand(2)?;
    let cell = cell_of(&condition.part());
    if !cell.defined {
        return Err(Fail::Refused(Cause::UndefinedIndex));
    }
    if cell.bits == 0 {
        Ok(takes(site, &other, row)?)
    } else {
        Ok(takes(site, &object, row)?)
    }
}

/// OpSelect: its register takes one of two values, or of two pointers.
pub fn select(site: &Site, row: &mut Row) -> Result<Effect, Fail<Cause>>
    requires { action_of site.now.inst ≡ Action.Select }
    ensures due { IsDue (spec.due site.now) row.new result }
    ensures fits { PlannedFits site.now.program site.now.state site.now.inv site.now.inst row.new result }
    ensures taken { IfOk result (λ e. IsTaken site.now.state site.now.inv e row.new) }
{
    let accepted = site.accepted();
    if is_pointer(accepted.types().form(site.inst().ty)) {
        select_pointer(site, row)
    } else {
        select_computes(site);
        computed(site, Computation::Select, row)
    }
}
