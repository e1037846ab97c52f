//! The leaves of each type, counted once.
ghost use Rattle.std.specs.Prelude.{◌≡◌, ◌<◌, ◌↔◌, IfOk, IsTrue, Some, length};
ghost use Rattle.std.specs.Option.{option_map};
ghost use Rattle.spv_types.specs.Cells.{added, cells_among};
ghost use Rattle.spv_base.specs.Saturation.{saturated};
ghost use Rattle.spv_types.specs.Laws.{IsAmong};
ghost use Rattle.spv_types.specs.Types.{IsUnset, form_at};
ghost use Rattle.spv_types.specs.Counted.{AreBefore, HasFirsts, IsCounted, PartsAreBefore, members_of};

use crate::counts::{cells_among, form_cells};
use crate::forms::{Form, Member};
use crate::table::TypeTable;
use spv_base::{Items, NoMemory};
use std::alloc::Global;

/// How many leaves the values of a type have, and how many of a struct's lie before each member: none where there is no such
/// number, and the greatest u64 where there are more.
#[derive(Drop)]
pub struct Count {
    pub cells: Option<u64>,
    pub(crate) firsts: Items<Option<u64>>,
}

/// The members of a struct, and none of any other type.
pub fn members_of(form: &Form) -> &[Member]
    ensures { result.now ≡ members_of form.now }
{
    match form {
        Form::Struct { members, .. } => members.as_slice(),
        _ => &[],
    }
}

/// Whether a form is an array without a length.
pub(crate) fn is_unset(form: &Form) -> bool
    ensures { IsTrue result ↔ IsUnset (Some form.now) }
{
    matches!(form, Form::Array { length: None, .. })
}

/// The sum of two numbers, where both are there.
fn sum(a: Option<u64>, b: Option<u64>) -> Option<u64>
    ensures { result ≡ option_map saturated (added a b) }
{
    Some(a?.saturating_add(b?))
}

/// Whether a type is among the first types.
fn is_before(types: &TypeTable, limit: usize, ty: u32) -> bool
    ensures { IsTrue result → IsAmong types.now limit ty }
{
    match types.number(ty) {
        Some(number) => number < limit,
        None => false,
    }
}

/// Whether the types of members are among the first types.
fn members_before(types: &TypeTable, limit: usize, members: &[Member]) -> bool
    ensures { IsTrue result → AreBefore types.now limit members.now }
{
    members
        .iter()
        .all(|member| is_before(types, limit, member.ty))
}

/// Whether the parts of a form are among the first types.
pub(crate) fn parts_before(types: &TypeTable, limit: usize, form: &Form) -> bool
    ensures { IsTrue result → PartsAreBefore types.now limit form.now }
{
    match form {
        Form::Vector { component, .. } => is_before(types, limit, *component),
        Form::Array { element, .. } | Form::Runtime { element, .. } => {
            is_before(types, limit, *element)
        }
        Form::Struct { members, .. } => members_before(types, limit, members.as_slice()),
        Form::Void | Form::Bool | Form::Int { .. } | Form::Pointer { .. } | Form::Function { .. } =>
            true,
    }
}

/// The leaves before each of some members, whose types are among the first types.
pub(crate) fn firsts(
    alloc: Global,
    types: &TypeTable,
    limit: usize,
    members: &[Member],
) -> Result<Items<Option<u64>>, NoMemory>
    ensures { IfOk result (λ firsts. HasFirsts (cells_among types.now limit) members.now (length members.now) firsts) }
{
    let mut firsts = Items::new(alloc);
    let mut before = Some(0);
    for member in members {
        firsts.push(before)?;
        before = sum(before, cells_among(types, limit, member.ty));
    }
    Ok(firsts)
}

/// The count of the type with a number, whose parts come before it.
pub(crate) fn count_at(alloc: Global, types: &TypeTable, number: usize) -> Result<Count, NoMemory>
    requires within { number < length types.now }
    requires parts { PartsAreBefore types.now number (form_at types.now number) }
    ensures { IfOk result (λ count. IsCounted types.now number count) }
{
    let form = types.form_at(number);
    Ok(Count {
        cells: form_cells(types, number, form),
        firsts: firsts(alloc, types, number, members_of(form))?,
    })
}
