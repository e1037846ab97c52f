//! What acceptance gives of a call, and of a return with a value, where a run has come to it.
ghost use Rattle.std.specs.Prelude.{◌≡◌, [], ℕ, Some};
ghost use Rattle.std.specs.List.{Contains};
ghost use Rattle.spv_base.specs.declared.values.Value.{Value};
ghost use Rattle.spv_index.specs.Operands.{id_operand};
ghost use Rattle.spv_plans.specs.Plans.{functions_in};
ghost use Rattle.spv_state.specs.Sound.{IsCallOf};
ghost use Rattle.spv_sites.specs.Calls.{callee};
ghost use Rattle.spv_sites.specs.Fits.{LeaveFits, ResultRooted};
ghost use Rattle.spv_control.specs.Passing.{Passes};
ghost use Rattle.spv_sites.specs.Sites.{IsShaped, values};

use spv_sites::Site;

/// A fact, with nothing to run: an OpFunctionCall names a function of the module, and has an argument of its type for each parameter.
pub(crate) fn call_is_kept(site: &Site)
    requires { site.now.inst.op ≡ 57 }
    ensures names { (function : ℕ) × (id_operand site.now.inst 0 ≡ Some function) }
    ensures known { ∥ Contains (functions_in site.now.program.accepted) (callee site.now.inst) ∥₁ }
    ensures passes { Passes site.now.program.accepted site.now.inst (callee site.now.inst) }
    ensures call { IsCallOf site.now.program.accepted site.now.inst.word (callee site.now.inst) }
{
    site.is_reached();
    let _insts = site.accepted().insts();
}

/// A fact, with nothing to run: the operand of an OpReturnValue has the type that its function returns, and where it is a pointer, this names
/// a variable outside functions.
pub(crate) fn return_value_is_kept(site: &Site)
    requires { site.now.inst.op ≡ 254 }
    ensures returns { (v : Value) → IsShaped site.now.program.accepted site.now.inst 0 v → LeaveFits site.now.program.accepted site.now.inst (Some v) }
    ensures rooted { (v : Value) → values site.now 0 ≡ Some v → IsShaped site.now.program.accepted site.now.inst 0 v
        → ResultRooted site.now.program.accepted [] (Some v) }
{
    site.is_reached();
    let _insts = site.accepted().insts();
}
