//! Tests of what the calls of a memory ask.
ghost use Rattle.std.specs.Prelude.{◌≡◌, ◌<◌, IsTrue, None, Some, option_copied};
ghost use Rattle.std.specs.List.{list_all};
ghost use Rattle.spv_mem.specs.Conditions.{integer_width};
ghost use Rattle.spv_mem.specs.Memory.{AreTargets, MayBeTargets};
ghost use Rattle.spv_mem.specs.Targets.{end_open, is_open_array, is_open_block, may_be_target};
ghost use Rattle.spv_types.specs.Laws.{AreSound};

use spv_types::{Form, Member, TypeTable};

/// Whether a type is a runtime array of values with one number of leaves.
fn is_open_array(types: &TypeTable, form: Option<&Form>) -> bool
    ensures { result ≡ is_open_array types.now (option_copied form.entry) }
{
    match form {
        Some(Form::Runtime { element, .. }) => types.cells(*element).is_some(),
        _ => false,
    }
}

/// Whether the last of some members is such an array, and each of the others has a number of leaves.
fn end_open(types: &TypeTable, members: &[Member]) -> bool
    ensures { result ≡ end_open types.now members.now }
{
    match members {
        [] => false,
        [last] => is_open_array(types, types.form(last.ty)),
        [first, rest @ ..] => types.cells(first.ty).is_some() && end_open(types, rest),
    }
}

/// Whether a type is a block that ends in such an array.
fn is_open_block(types: &TypeTable, form: Option<&Form>) -> bool
    ensures { result ≡ is_open_block types.now (option_copied form.entry) }
{
    match form {
        Some(Form::Struct { members, .. }) => end_open(types, members.as_slice()),
        _ => false,
    }
}

/// Whether a variable may have a type: data of one number of leaves, or a block that ends in a runtime array of such.
pub fn may_be_target(types: &TypeTable, ty: u32) -> bool
    ensures { result ≡ may_be_target types.now ty }
{
    types.cells(ty).is_some() || is_open_block(types, types.form(ty))
}

/// Whether each entry of a list names such a type.
fn name_targets(types: &TypeTable, targets: &[(u32, u32)]) -> bool
    ensures { result ≡ list_all (λ t. may_be_target types.now t.1) targets.now }
{
    targets.iter().all(|target| may_be_target(types, target.1))
}

/// Whether each variable of a list may have the type that stands beside its id.
pub fn may_be_targets(types: &TypeTable, targets: &[(u32, u32)]) -> bool
    ensures tests { result ≡ list_all (λ t. may_be_target types.now t.1) targets.now }
    ensures each { IsTrue result → MayBeTargets types.now targets.now }
    ensures together { IsTrue result → ∥ AreSound types.now ∥₁ → ∥ AreTargets types.now targets.now ∥₁ }
{
    name_targets(types, targets)
}

/// The width of an integer type, in bits.
pub(crate) fn integer_width(form: Option<&Form>) -> Option<u32>
    ensures { result ≡ integer_width (option_copied form.entry) }
{
    match form {
        Some(Form::Int { width, .. }) => Some(*width),
        _ => None,
    }
}
