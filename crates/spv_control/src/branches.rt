//! Branches and switches (SPIR-V 1.6 section 3.42.17, OpBranch, OpBranchConditional and OpSwitch).
ghost use Rattle.std.specs.Prelude.{◌≡◌, ℕ, IfOk, IsSome, Some};
ghost use Rattle.spv_base.specs.Answers.{Answers};
ghost use Rattle.spv_base.specs.declared.values.Value.{Value, out-Value};
ghost use Rattle.spv_cfg.specs.Laws.{IsEntered};
ghost use Rattle.spv_state.specs.Actions.{action_of};
ghost use Rattle.spv_state.specs.Sound.{StandsIn};
ghost use Rattle.spv_types.specs.Shapes.{scalar_in};
ghost use Rattle.spv_sites.specs.Branches as effects;
ghost use Rattle.spv_sites.specs.Planned.{IsDue, IsTaken, PlannedFits};
ghost use Rattle.spv_sites.specs.Sites as spec;

use crate::kept_control::{branch_is_kept, condition_is_kept, phis_are_kept, switch_is_kept};
use crate::phis::phi_values;
use crate::switches::switch_label;
use spv_base::{Fail, Inst};
use spv_index::id_operand;
use spv_mem::cell_of;
use spv_operands::laws::operands_have_shapes;
use spv_sites::{Cause, Control, Effect, Gain, Site};
use spv_state::Action;
use spv_values::Part;

/// Control to the block with a label that a branch names. F4 where a phi there has no value.
fn jump(site: &Site, label: Option<u32>) -> Result<Effect, Fail<Cause>>
    requires { (block function : ℕ) → label ≡ Some block → StandsIn site.now.program.accepted function site.now.inst.word
        → IsEntered site.now.program.accepted.insts site.now.program.accepted.flow function block }
    ensures due { (v : Value) → IsDue (effects.jump_by site.now.program site.now.state site.now.inv site.now.frame site.now.inst label) v result }
    ensures fits { (v : Value) → PlannedFits site.now.program site.now.state site.now.inv site.now.inst v result }
    ensures taken { (v : Value) → IfOk result (λ e. IsTaken site.now.state site.now.inv e v) }
{
    operands_have_shapes();
    site.is_reached();
    let _insts = site.accepted().insts();
    let Some(block) = label else {
        return Err(Fail::Refused(Cause::NoValue));
    };
    phis_are_kept(site, block);
    let phis = phi_values(site, block)?;
    Ok(Effect {
        store: None,
        gain: Gain::Nothing,
        control: Control::Jump { block, phis },
    })
}

/// The number of a scalar. F1 where it is undefined.
fn deciding_number(part: &Part) -> Result<u64, Fail<Cause>>
    requires { IsSome (scalar_in (out-Value part.now)) }
    ensures { Answers (effects.deciding_number part.now) result }
{
    let cell = cell_of(part);
    if cell.defined {
        Ok(cell.bits)
    } else {
        Err(Fail::Refused(Cause::UndefinedBranch))
    }
}

/// The label of a true condition, and that of a false one, 0.
fn chosen_label(inst: &Inst, number: u64) -> Option<u32>
    ensures { result ≡ effects.chosen_label inst.now number }
{
    if number == 0 {
        id_operand(inst, 2)
    } else {
        id_operand(inst, 1)
    }
}

/// OpBranch: to the block of its label.
pub fn branch(site: &Site) -> Result<Effect, Fail<Cause>>
    requires { action_of site.now.inst ≡ Action.Branch }
    ensures due { (v : Value) → IsDue (spec.due site.now) v result }
    ensures fits { (v : Value) → PlannedFits site.now.program site.now.state site.now.inv site.now.inst v result }
    ensures taken { (v : Value) → IfOk result (λ e. IsTaken site.now.state site.now.inv e v) }
{
    branch_is_kept(site);
    jump(site, id_operand(site.inst(), 0))
}

/// OpBranchConditional: to the block of its first label where the condition is true, and to that of its second where it is false. F1 where
/// it is undefined.
pub fn branch_conditional(site: &Site) -> Result<Effect, Fail<Cause>>
    requires { action_of site.now.inst ≡ Action.BranchConditional }
    ensures due { (v : Value) → IsDue (spec.due site.now) v result }
    ensures fits { (v : Value) → PlannedFits site.now.program site.now.state site.now.inv site.now.inst v result }
    ensures taken { (v : Value) → IfOk result (λ e. IsTaken site.now.state site.now.inv e v) }
{
    condition_is_kept(site);
    let condition = site.value(0)?;
    let number = deciding_number(&condition.part())?;
    jump(site, chosen_label(site.inst(), number))
}

/// OpSwitch: to the block of the case whose literal is the selector's number, and to the default where there is none. F1 where the selector
/// is undefined.
pub fn switch(site: &Site) -> Result<Effect, Fail<Cause>>
    requires { action_of site.now.inst ≡ Action.Switch }
    ensures due { (v : Value) → IsDue (spec.due site.now) v result }
    ensures fits { (v : Value) → PlannedFits site.now.program site.now.state site.now.inv site.now.inst v result }
    ensures taken { (v : Value) → IfOk result (λ e. IsTaken site.now.state site.now.inv e v) }
{
    switch_is_kept(site);
    let selector = site.value(0)?;
    let number = deciding_number(&selector.part())?;
    jump(site, switch_label(site.accepted(), site.inst(), number))
}
