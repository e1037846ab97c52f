//! What acceptance gives of a branch, a switch or a barrier where a run has come to it.
ghost use Rattle.std.specs.Prelude.{◌≡◌, ℕ, Some, drop, slice_get, true};
ghost use Rattle.std.specs.List.{list_all};
ghost use Rattle.spv_base.specs.declared.instructions.Inst.{Inst};
ghost use Rattle.spv_base.specs.declared.values.Value.{Value, out-Value};
ghost use Rattle.std.specs.Option.{is_some};
ghost use Rattle.spv_bodies.specs.Control.{KeepsPhi};
ghost use Rattle.spv_cfg.specs.Branches.{is_target};
ghost use Rattle.spv_cfg.specs.Laws.{IsEntered};
ghost use Rattle.spv_cfg.specs.Operands.{is_literal};
ghost use Rattle.spv_index.specs.Classes.{sets_of};
ghost use Rattle.spv_index.specs.Operands.{id_operand};
ghost use Rattle.spv_results.specs.Operands.{IsOperand, known};
ghost use Rattle.spv_state.specs.Sound.{StandsIn};
ghost use Rattle.spv_types.specs.Shapes.{scalar_in};
ghost use Rattle.spv_state.specs.Actions.{action_of};
ghost use Rattle.spv_sites.specs.Effects.{Next, Wait};
ghost use Rattle.spv_sites.specs.Fits.{ControlFits};
ghost use Rattle.spv_sites.specs.Branches.{chosen_label, switch_label};
ghost use Rattle.spv_sites.specs.Phis.{behind_label, first_ones, is_phi};
ghost use Rattle.spv_sites.specs.Sites.{is_data_at};

use spv_bodies::instructions_keep_their_rules;
use spv_sites::Site;
use spv_state::Action;

/// A fact, with nothing to run: the block of an OpBranch's label is entered.
pub(crate) fn branch_is_kept(site: &Site)
    requires { site.now.inst.op ≡ 249 }
    ensures { (block function : ℕ) → id_operand site.now.inst 0 ≡ Some block → StandsIn site.now.program.accepted function site.now.inst.word
        → IsEntered site.now.program.accepted.insts site.now.program.accepted.flow function block }
{
    site.is_reached();
    let _insts = site.accepted().insts();
}

/// A fact, with nothing to run: the condition of an OpBranchConditional is a scalar, and the block of each of its labels is entered.
pub(crate) fn condition_is_kept(site: &Site)
    requires { site.now.inst.op ≡ 250 }
    ensures data { is_data_at site.now.program.accepted site.now.inst 0 ≡ true }
    ensures scalar { (v : Value) → IsOperand site.now.program.accepted site.now.inst 0 v → is_some (scalar_in (out-Value v)) ≡ true }
    ensures entered { (number block function : ℕ) → chosen_label site.now.inst number ≡ Some block → StandsIn site.now.program.accepted function site.now.inst.word
        → IsEntered site.now.program.accepted.insts site.now.program.accepted.flow function block }
{
    instructions_keep_their_rules();
    site.is_reached();
    let _insts = site.accepted().insts();
}

/// A fact, with nothing to run: the selector of an OpSwitch is a scalar, words stand behind its default, and the block of each of its labels
/// is entered.
pub(crate) fn switch_is_kept(site: &Site)
    requires { site.now.inst.op ≡ 251 }
    ensures data { is_data_at site.now.program.accepted site.now.inst 0 ≡ true }
    ensures scalar { (v : Value) → IsOperand site.now.program.accepted site.now.inst 0 v → is_some (scalar_in (out-Value v)) ≡ true }
    ensures literals { list_all is_literal (drop 2 site.now.inst.operands) ≡ true }
    ensures entered { (number block function : ℕ) → switch_label site.now.program.accepted.insts site.now.inst number ≡ Some block
        → StandsIn site.now.program.accepted function site.now.inst.word → IsEntered site.now.program.accepted.insts site.now.program.accepted.flow function block }
{
    instructions_keep_their_rules();
    site.is_reached();
    let _insts = site.accepted().insts();
}

/// A fact, with nothing to run: the phis of a block to which a branch may go keep the rule of phis.
pub(crate) fn phis_are_kept(site: &Site, block: u32)
    requires { is_target site.now.program.accepted.insts site.now.frame.plan.function block ≡ true }
    ensures { (k : ℕ) (phi : Inst) → slice_get (first_ones (sets_of site.now.program.accepted.insts) (behind_label site.now.program.accepted.insts block)) k ≡ Some phi
        → is_phi phi ≡ true → KeepsPhi (known site.now.program.accepted) phi }
{
    instructions_keep_their_rules();
    site.is_reached();
    let _insts = site.accepted().insts();
    let _block = block;
}

/// A fact, with nothing to run: an OpControlBarrier stands at its word.
pub(crate) fn barrier_is_kept(site: &Site)
    requires { action_of site.now.inst ≡ Action.ControlBarrier }
    ensures { ControlFits site.now.program.accepted site.now.inst Wait }
{
    site.is_reached();
    let _insts = site.accepted().insts();
}

/// A fact, with nothing to run: an executable stands behind an OpMemoryBarrier.
pub(crate) fn fence_is_kept(site: &Site)
    requires { action_of site.now.inst ≡ Action.MemoryBarrier }
    ensures { ControlFits site.now.program.accepted site.now.inst Next }
{
    instructions_keep_their_rules();
    site.is_reached();
    let _insts = site.accepted().insts();
}
