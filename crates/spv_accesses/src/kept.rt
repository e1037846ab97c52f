//! What acceptance gives of an instruction where a run has come to it.
ghost use Rattle.std.specs.Prelude.{◌≡◌};
ghost use Rattle.spv_bodies.specs.Chains.{KeepsChain};
ghost use Rattle.spv_bodies.specs.Pointers.{KeepsPtrChain, KeepsPtrEqual};
ghost use Rattle.spv_accesses.specs.PointerSites.{IsComparison};
ghost use Rattle.spv_bodies.specs.Memory.{KeepsArrayLength, KeepsCopyMemory, KeepsLoad, KeepsStore};
ghost use Rattle.spv_state.specs.Actions.{action_of};
ghost use Rattle.spv_accesses.specs.AtomicSites.{KeepsRow};
ghost use Rattle.spv_sites.specs.Atomics.{atomic_row};
ghost use Rattle.spv_sites.specs.Effects.{Next};
ghost use Rattle.spv_sites.specs.Fits.{ControlFits};
ghost use Rattle.spv_results.specs.Operands.{known};

use spv_bodies::instructions_keep_their_rules;
use spv_sites::Site;
use spv_state::{Action, AtomicOp};

/// A fact, with nothing to run: an OpLoad keeps its rule, and an executable stands behind it.
pub fn load_is_kept(site: &Site)
    requires { site.now.inst.op ≡ 61 }
    ensures rule { KeepsLoad (known site.now.program.accepted) site.now.inst }
    ensures next { ControlFits site.now.program.accepted site.now.inst Next }
{
    instructions_keep_their_rules();
    site.is_reached();
    let _insts = site.accepted().insts();
}

/// A fact, with nothing to run: an OpStore keeps its rule, and an executable stands behind it.
pub fn store_is_kept(site: &Site)
    requires { site.now.inst.op ≡ 62 }
    ensures rule { KeepsStore (known site.now.program.accepted) site.now.inst }
    ensures next { ControlFits site.now.program.accepted site.now.inst Next }
{
    instructions_keep_their_rules();
    site.is_reached();
    let _insts = site.accepted().insts();
}

/// A fact, with nothing to run: an OpCopyMemory keeps its rule, and an executable stands behind it.
pub(crate) fn copy_memory_is_kept(site: &Site)
    requires { action_of site.now.inst ≡ Action.CopyMemory }
    ensures rule { KeepsCopyMemory (known site.now.program.accepted) site.now.inst }
    ensures next { ControlFits site.now.program.accepted site.now.inst Next }
{
    instructions_keep_their_rules();
    site.is_reached();
    let _insts = site.accepted().insts();
}

/// A fact, with nothing to run: an access chain keeps its rule, and an executable stands behind it.
pub(crate) fn chain_is_kept(site: &Site)
    requires { action_of site.now.inst ≡ Action.Chain }
    ensures rule { KeepsChain (known site.now.program.accepted) site.now.inst }
    ensures next { ControlFits site.now.program.accepted site.now.inst Next }
{
    instructions_keep_their_rules();
    site.is_reached();
    let _insts = site.accepted().insts();
}

/// A fact, with nothing to run: an OpPtrAccessChain keeps its rule, and an executable stands behind it.
pub(crate) fn ptr_chain_is_kept(site: &Site)
    requires { action_of site.now.inst ≡ Action.PtrChain }
    ensures rule { KeepsPtrChain (known site.now.program.accepted) site.now.inst }
    ensures next { ControlFits site.now.program.accepted site.now.inst Next }
{
    instructions_keep_their_rules();
    site.is_reached();
    let _insts = site.accepted().insts();
}

/// A fact, with nothing to run: an OpPtrEqual or OpPtrNotEqual keeps its rule, and an executable stands behind it.
pub(crate) fn ptr_equal_is_kept(site: &Site)
    requires { IsComparison site.now.inst }
    ensures rule { KeepsPtrEqual (known site.now.program.accepted) site.now.inst }
    ensures next { ControlFits site.now.program.accepted site.now.inst Next }
{
    instructions_keep_their_rules();
    site.is_reached();
    let _insts = site.accepted().insts();
}

/// A fact, with nothing to run: an OpArrayLength keeps its rule, and an executable stands behind it.
pub(crate) fn length_is_kept(site: &Site)
    requires { action_of site.now.inst ≡ Action.ArrayLength }
    ensures rule { KeepsArrayLength (known site.now.program.accepted) site.now.inst }
    ensures next { ControlFits site.now.program.accepted site.now.inst Next }
{
    instructions_keep_their_rules();
    site.is_reached();
    let _insts = site.accepted().insts();
}

/// A fact, with nothing to run: an atomic keeps its rule, and an executable stands behind it.
pub(crate) fn atomic_is_kept(site: &Site, operation: AtomicOp)
    requires { action_of site.now.inst ≡ Action.Atomic operation }
    ensures rule { KeepsRow site.now.program.accepted site.now.inst (atomic_row operation) }
    ensures next { ControlFits site.now.program.accepted site.now.inst Next }
{
    instructions_keep_their_rules();
    site.is_reached();
    let _insts = site.accepted().insts();
}
