//! What acceptance gives of an instruction that computes where a run has come to it.
ghost use Rattle.std.specs.Prelude.{◌≡◌, Some, false, true};
ghost use Rattle.spv_bodies.specs.Pointers.{KeepsPointerSelect};
ghost use Rattle.spv_sites.specs.Computing.{compute_effect};
ghost use Rattle.spv_sites.specs.Effects.{Next};
ghost use Rattle.spv_sites.specs.Fits.{ControlFits};
ghost use Rattle.spv_sites.specs.Kept.{Keeps};
ghost use Rattle.spv_sites.specs.Sites.{due};
ghost use Rattle.spv_results.specs.Computations.{computation_of};
ghost use Rattle.spv_results.specs.Operands.{known};
ghost use Rattle.spv_state.specs.Actions.{action_of};
ghost use Rattle.spv_types.specs.Queries.{is_pointer};
ghost use Rattle.spv_types.specs.Rules.{has_runtime};
ghost use Rattle.spv_types.specs.Types.{form_of};

use spv_bodies::instructions_keep_their_rules;
use spv_operands::laws::operands_have_shapes;
use spv_results::Computation;
use spv_sites::Site;
use spv_state::Action;

/// A fact, with nothing to run: an instruction that computes keeps the rule of its opcode, and its result has no runtime array.
pub fn is_kept(site: &Site, computation: Computation)
    requires { computation_of site.now.inst ≡ Some computation }
    ensures rule { Keeps site.now.program.accepted site.now.inst computation }
    ensures sized { has_runtime site.now.program.accepted.types site.now.inst.ty ≡ false }
    ensures next { ControlFits site.now.program.accepted site.now.inst Next }
{
    instructions_keep_their_rules();
    site.is_reached();
    let _insts = site.accepted().insts();
}

/// A fact, with nothing to run: an OpSelect whose result type is no pointer type computes on values.
pub(crate) fn select_computes(site: &Site)
    requires action { action_of site.now.inst ≡ Action.Select }
    requires values { is_pointer (form_of site.now.program.accepted.types site.now.inst.ty) ≡ false }
    ensures operation { computation_of site.now.inst ≡ Some Computation.Select }
    ensures due { due site.now ≡ compute_effect site.now.program site.now.state site.now.inv site.now.frame site.now.inst }
{
    operands_have_shapes();
    is_kept(site, Computation::Select);
    site.is_reached();
    let _insts = site.accepted().insts();
}

/// A fact, with nothing to run: an OpSelect whose result type is a pointer type chooses by a Boolean between two pointers of this type, and an
/// executable stands behind it.
pub(crate) fn select_chooses(site: &Site)
    requires action { action_of site.now.inst ≡ Action.Select }
    requires pointers { is_pointer (form_of site.now.program.accepted.types site.now.inst.ty) ≡ true }
    ensures rule { KeepsPointerSelect (known site.now.program.accepted) site.now.inst }
    ensures next { ControlFits site.now.program.accepted site.now.inst Next }
{
    is_kept(site, Computation::Select);
}
