//! The variables of the functions of a module (SPIR-V 1.6 section 3.42.8, OpVariable).
ghost use Rattle.std.specs.Prelude.{◌≡◌, ◌==◌, ◌++◌, ℕ, [], ◌∷◌, IfOk, OnOk, filter, if◌then◌else◌};
ghost use Rattle.spv_state.specs.Variables as spec;

use spv_base::NoMemory;
use spv_initial::{Declared, declared_in};
use spv_valid::Module;
use spv_valid::meanings::Meaning;
use std::alloc::Global;
use std::collections::BTreeMap;

/// The function whose variable a meaning is that of, if it is one of a function.
fn function_in(meaning: Meaning) -> Option<u32>
    ensures { result ≡ spec.function_in meaning }
{
    match meaning {
        Meaning::Variable(function) => Some(function),
        _ => None,
    }
}

/// The function that a variable is one of, if it is one of a function.
fn function_of(accepted: &Module, declared: Declared) -> Option<u32>
    ensures { result ≡ spec.function_of accepted.now declared }
{
    function_in(accepted.meaning(declared.id)?)
}

/// Adds a variable to those of a function.
fn add(
    alloc: Global,
    groups: &mut BTreeMap<u32, Vec<Declared>>,
    function: u32,
    declared: Declared,
) -> Result<(), NoMemory>
    ensures { OnOk result ((other : ℕ) → spec.under groups.new other ≡ spec.under groups.old other ++ (if function == other then declared ∷ [] else [])) }
{
    let mut list = groups.remove(&function).unwrap_or(Vec::new(alloc));
    list.push(declared)?;
    groups.insert(function, list)?;
    Ok(())
}

/// Adds a variable to those of its function, where it is one of a function.
fn add_own(
    alloc: Global,
    accepted: &Module,
    groups: &mut BTreeMap<u32, Vec<Declared>>,
    declared: Declared,
) -> Result<(), NoMemory>
    ensures { OnOk result ((function : ℕ) → spec.under groups.new function ≡ spec.under groups.old function ++ filter (spec.is_variable_of accepted.now function) (declared ∷ [])) }
{
    match function_of(accepted, declared) {
        Some(function) => add(alloc, groups, function, declared),
        None => Ok(()),
    }
}

/// The variables of each function by its id, in the order of the module. Each variable of the module is looked at once.
pub(crate) fn by_function(
    alloc: Global,
    accepted: &Module,
) -> Result<BTreeMap<u32, Vec<Declared>>, NoMemory>
    ensures { IfOk result (λ groups. (function : ℕ) → spec.under groups function ≡ spec.variables_of accepted.now function) }
{
    let all = declared_in(alloc, accepted.types(), accepted.insts())?;
    let mut groups = BTreeMap::new(alloc);
    for declared in &all {
        add_own(alloc, accepted, &mut groups, *declared)?;
    }
    Ok(groups)
}
