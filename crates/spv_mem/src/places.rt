//! Where the part that a path names lies in the row of a variable.
ghost use Rattle.std.specs.Prelude.{◌≡◌};
ghost use Rattle.spv_mem.specs.Targets.{element_index, is_array_at};
ghost use Rattle.spv_types.specs.Shapes.{part_type, reached_type};
ghost use Rattle.std.specs.Option.{option_and_then};
ghost use Rattle.std.specs.Prelude.{option_copied};
ghost use Rattle.spv_types.specs.Rules.{is_runtime};

use spv_types::queries::member_type;
use spv_types::{Form, TypeTable};

/// Where a part of a variable lies: the number of cells before it, and its own.
#[derive(Clone, Copy)]
pub struct Place {
    pub start: usize,
    pub len: usize,
}

/// The type of part `i` of a form; an index of an array or a vector may be any number.
fn part_type(form: Option<&Form>, i: u64) -> Option<u32>
    ensures { result ≡ option_and_then (λ f. part_type f i) (option_copied form.entry) }
{
    match form? {
        Form::Vector { component, .. } => Some(*component),
        Form::Array { element, .. } | Form::Runtime { element, .. } => Some(*element),
        Form::Struct { members, .. } => member_type(members.as_slice(), i as usize),
        _ => None,
    }
}

/// The type of the part that a path names.
#[tactic(auto, unfolding(spv_types::specs::Shapes::reached_type))]
pub(crate) fn reached_type(types: &TypeTable, ty: u32, path: &[u64]) -> Option<u32>
    ensures { result ≡ reached_type types.now ty path.now }
{
    let Some((first, rest)) = path.split_first() else {
        return Some(ty);
    };
    reached_type(types, part_type(types.form(ty), *first)?, rest)
}

/// Whether a type is a runtime array.
fn is_runtime(form: Option<&Form>) -> bool
    ensures { result ≡ is_runtime (option_copied form.entry) }
{
    matches!(form, Some(Form::Runtime { .. }))
}

/// Whether a member of a block is a runtime array.
pub(crate) fn is_array_at(types: &TypeTable, form: Option<&Form>, member: u64) -> bool
    ensures { result ≡ is_array_at types.now (option_copied form.entry) member }
{
    match form {
        Some(Form::Struct { members, .. }) => {
            match member_type(members.as_slice(), member as usize) {
                Some(ty) => is_runtime(types.form(ty)),
                None => false,
            }
        }
        _ => false,
    }
}

/// The index of an element of a block's runtime array, where a path leads into it.
pub(crate) fn element_index(types: &TypeTable, ty: u32, path: &[u64]) -> Option<u64>
    ensures { result ≡ element_index types.now ty path.now }
{
    match path {
        [member, index, ..] => is_array_at(types, types.form(ty), *member).then_some(*index),
        _ => None,
    }
}
