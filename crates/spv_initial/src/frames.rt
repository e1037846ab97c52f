//! The variables that a frame begins with (SPIR-V 1.6 section 3.7, Function).
ghost use Rattle.std.specs.Prelude.{◌≡◌, ◌++◌, ℕ, [], IfOk, List, None, OnOk};
ghost use Rattle.std.specs.List.{cons_option};
ghost use Rattle.spv_base.specs.Entries.{reads};
ghost use Rattle.spv_mem.specs.Memory.{AreVariables};
ghost use Rattle.spv_initial.specs.Start.{local_roots, root};
ghost use Rattle.spv_initial.specs.Values.{local_value};
ghost use Rattle.spv_initial.specs.Variables.{AreDeclared, HaveTargets};

use crate::constants::local;
use crate::variables::Declared;
use spv_base::NoMemory;
use spv_mem::{Locals, Roots};
use spv_valid::Module;
use std::alloc::Global;

/// Adds a variable of a frame, where it is one.
fn add_local(
    alloc: Global,
    accepted: &Module,
    locals: &mut Locals,
    declared: &Declared,
) -> Result<(), NoMemory>
    requires { reads declared.now.id locals.old ≡ None }
    ensures { OnOk result (locals.new ≡ locals.old ++ cons_option (root declared.now (local_value accepted.now declared.now)) []) }
{
    match local(alloc, accepted, declared)? {
        Some(variable) => locals.push(declared.id, variable),
        None => Ok(()),
    }
}

/// The variables of a frame, each with the value of its initializer, or else undefined. They are those of some variables of the module
/// that are of the class Function.
pub fn local_variables(
    alloc: Global,
    accepted: &Module,
    list: &[Declared],
) -> Result<Locals, NoMemory>
    requires { ∥ AreDeclared accepted.now.types list.now ∥₁ }
    ensures value { IfOk result (λ locals. locals ≡ local_roots accepted.now list.now) }
    // A memory whose targets name them takes them.
    ensures may { IfOk result (λ locals. (targets : List (ℕ × ℕ)) → HaveTargets targets list.now → ∥ AreVariables accepted.now.types targets locals ∥₁) }
{
    let _insts = accepted.insts();
    let mut locals = Roots::new(alloc);
    for declared in list {
        add_local(alloc, accepted, &mut locals, declared)?;
    }
    Ok(locals)
}
