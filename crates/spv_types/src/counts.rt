//! How many leaves the values of a type have.
ghost use Rattle.std.specs.Prelude.{◌≡◌, ◌*◌, ◌<◌, length, option_map, take};
ghost use Rattle.spv_types.specs.Cells.{cells_of, cells_among, cells_step, members_cells};
ghost use Rattle.spv_types.specs.Counted.{members_of};
ghost use Rattle.spv_base.specs.Saturation.{saturated};
ghost use Rattle.spv_types.specs.Types.{form_at};

use crate::forms::{Form, Member};
use crate::table::TypeTable;

/// The leaves of some members together, or the greatest number where there are more.
#[tactic(auto, unfolding(crate::specs::Cells::cells_of))]
fn sum_of_cells(types: &TypeTable, members: &[Member]) -> Option<u64>
    ensures { result ≡ option_map saturated (members_cells (cells_of types.now) members.now) }
{
    members_cells(types, types.len(), members)
}

/// The leaves before member `i` of the struct with a number.
pub(crate) fn first_leaf(
    types: &TypeTable,
    number: usize,
    members: &[Member],
    i: usize,
) -> Option<u64>
    requires inside { i < length members.now }
    requires members { members.now ≡ members_of (form_at types.now number) }
    ensures { result ≡ option_map saturated (members_cells (cells_of types.now) (take i members.now)) }
{
    match types.count_of(number) {
        Some(count) => count.firsts.as_slice()[i],
        None => sum_of_cells(types, &members[..i]),
    }
}

/// The leaves of a type among the first types.
#[tactic(auto, using(crate::proofs::CellLemmas::cells_among_is))]
#[cycle(cells)]
pub(crate) fn cells_among(types: &TypeTable, limit: usize, ty: u32) -> Option<u64>
    ensures { result ≡ option_map saturated (cells_among types.now limit ty) }
{
    let (n, form) = types.found(limit, ty)?;
    match types.count_of(n) {
        Some(count) => count.cells,
        None => form_cells(types, n, form),
    }
}

/// The leaves of a form whose parts are among the first types.
#[cycle(cells)]
pub(crate) fn form_cells(types: &TypeTable, limit: usize, form: &Form) -> Option<u64>
    ensures { result ≡ option_map saturated (cells_step (cells_among types.now limit) form.now) }
{
    match form {
        Form::Void | Form::Function { .. } => Some(0),
        Form::Bool | Form::Int { .. } | Form::Pointer { .. } => Some(1),
        Form::Vector { component, count } => repeated_cells(types, limit, *component, *count),
        Form::Array {
            element,
            length,
            ..
        } => repeated_cells(types, limit, *element, (*length)?),
        Form::Runtime { .. } => None,
        Form::Struct { members, .. } => members_cells(types, limit, members.as_slice()),
    }
}

/// The leaves of so many values of a type among the first types.
#[tactic(auto, using(crate::proofs::CellLemmas::repeated_saturated))]
#[cycle(cells)]
fn repeated_cells(types: &TypeTable, limit: usize, ty: u32, count: u32) -> Option<u64>
    ensures { result ≡ option_map saturated (option_map (λ c. c * count) (cells_among types.now limit ty)) }
{
    let cells = cells_among(types, limit, ty)?;
    Some(cells.saturating_mul(u64::from(count)))
}

/// The leaves of some members together, each among the first types.
#[tactic(auto, using(crate::proofs::CellLemmas::members_cells_more, crate::proofs::CellLemmas::members_cells_none, crate::proofs::CellLemmas::added_saturated))]
#[cycle(cells)]
fn members_cells(types: &TypeTable, limit: usize, members: &[Member]) -> Option<u64>
    ensures { result ≡ option_map saturated (members_cells (cells_among types.now limit) members.now) }
{
    let mut total: u64 = 0;
    for member in members {
        let cells = cells_among(types, limit, member.ty)?;
        total = total.saturating_add(cells);
    }
    Some(total)
}
