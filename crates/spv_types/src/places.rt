//! The byte places of the leaves of a block.
ghost use Rattle.std.specs.Prelude.{◌≡◌, ◌<◌, ◌+◌, ◌↔◌, IsTrue, length, option_map};
ghost use Rattle.spv_types.specs.Cells.{cells_of};
ghost use Rattle.spv_types.specs.Counted.{members_of};
ghost use Rattle.spv_types.specs.Types.{form_at, form_of};
ghost use Rattle.spv_types.specs.Places.{BeginsBy, elements_in, place_among, place_in_elements, place_in_member, place_in_members, place_step, row_number, scalar_bytes};
ghost use Rattle.spv_base.specs.Saturation.{saturated};

use crate::counts::first_leaf;
use crate::forms::{Form, Member};
use crate::table::TypeTable;

/// How many elements of a runtime array fit so many bytes, of which it begins at a place.
pub fn elements_in(size: u64, at: u128, stride: Option<u32>) -> u64
    ensures { result ≡ elements_in size at stride }
{
    match stride {
        Some(stride) if stride > 0 => match u64::try_from(at) {
            Ok(at) => size.saturating_sub(at) / u64::from(stride),
            Err(_) => 0,
        },
        _ => 0,
    }
}

/// The place of a leaf of a type among the first types.
#[cycle(place)]
#[tactic(auto, using(crate::proofs::PlaceLemmas::place_among_is))]
pub(crate) fn place_among(types: &TypeTable, limit: usize, ty: u32, leaf: u64) -> Option<u64>
    requires { leaf < 67108864 }
    ensures { result ≡ option_map saturated (place_among types.now limit ty leaf) }
{
    let (n, form) = types.found(limit, ty)?;
    form_place(types, n, form, leaf)
}

/// The place of a leaf of a form whose parts are among the first types.
#[cycle(place)]
fn form_place(types: &TypeTable, limit: usize, form: &Form, leaf: u64) -> Option<u64>
    requires near { leaf < 67108864 }
    requires form { form.now ≡ form_at types.now limit }
    ensures { result ≡ option_map saturated (place_step types.now (place_among types.now limit) form.now leaf) }
{
    match form {
        Form::Void | Form::Function { .. } => None,
        Form::Bool | Form::Int { .. } | Form::Pointer { .. } => (leaf == 0).then_some(0),
        Form::Vector { component, count } => {
            let stride = scalar_bytes(types, *component);
            element_place(types, limit, *component, Some(*count), stride, leaf)
        }
        Form::Array {
            element,
            length,
            stride,
        } => {
            let count = Some((*length)?);
            element_place(types, limit, *element, count, stride.unwrap_or(0), leaf)
        }
        Form::Runtime { element, stride } => {
            element_place(types, limit, *element, None, stride.unwrap_or(0), leaf)
        }
        Form::Struct { members, .. } => member_place(types, limit, members.as_slice(), leaf),
    }
}

/// The place of a leaf of a row of elements, which begin a stride apart.
#[cycle(place)]
fn element_place(
    types: &TypeTable,
    limit: usize,
    element: u32,
    count: Option<u32>,
    stride: u32,
    leaf: u64,
) -> Option<u64>
    requires { leaf < 67108864 }
    ensures { result ≡ option_map saturated (place_in_elements types.now (place_among types.now limit) element count stride leaf) }
{
    let cells = types.cells(element)?;
    let number = row_number(cells, count, leaf)?;
    let within = place_among(types, limit, element, leaf % cells)?;
    let start = number * u64::from(stride);
    Some(start.saturating_add(within))
}

/// The bytes of a scalar type in a block, where 0 stands for what is no integer (SPIR-V 1.6 section 2.16.2).
pub fn scalar_bytes(types: &TypeTable, ty: u32) -> u32
    ensures { result ≡ scalar_bytes (form_of types.now ty) }
{
    match types.form(ty) {
        Some(Form::Int { width, .. }) => *width / 8,
        _ => 0,
    }
}

/// The place of a leaf of the members of the struct with a number, each at its offset.
#[cycle(place)]
fn member_place(types: &TypeTable, number: usize, members: &[Member], leaf: u64) -> Option<u64>
    requires near { leaf < 67108864 }
    requires members { members.now ≡ members_of (form_at types.now number) }
    ensures { result ≡ option_map saturated (place_in_members (cells_of types.now) (place_among types.now number) members.now leaf) }
{
    if members.is_empty() {
        return None;
    }
    let i = member_with(types, number, members, leaf);
    let left = leaf - first_leaf(types, number, members, i)?;
    match types.cells(members[i].ty) {
        Some(cells) if cells <= left => None,
        _ => leaf_place(types, number, &members[i], left),
    }
}

/// The place of a leaf of a member, which begins at its offset.
#[cycle(place)]
fn leaf_place(types: &TypeTable, limit: usize, member: &Member, leaf: u64) -> Option<u64>
    requires { leaf < 67108864 }
    ensures { result ≡ option_map saturated (place_in_member (place_among types.now limit) member.now leaf) }
{
    let within = place_among(types, limit, member.ty, leaf)?;
    let start = u64::from(member.offset.unwrap_or(0));
    Some(start.saturating_add(within))
}

/// Whether at most so many leaves are before member `i` of the struct with a number.
fn begins_by(types: &TypeTable, number: usize, members: &[Member], i: usize, leaf: u64) -> bool
    requires near { leaf < 67108864 }
    requires inside { i < length members.now }
    requires members { members.now ≡ members_of (form_at types.now number) }
    ensures { IsTrue result ↔ BeginsBy (cells_of types.now) members.now i leaf }
{
    match first_leaf(types, number, members, i) {
        Some(first) => first <= leaf,
        None => false,
    }
}

/// The member of the struct with a number that has a leaf, or the last one.
fn member_with(types: &TypeTable, number: usize, members: &[Member], leaf: u64) -> usize
    requires near { leaf < 67108864 }
    requires some { 0 < length members.now }
    requires members { members.now ≡ members_of (form_at types.now number) }
    ensures inside { result < length members.now }
    ensures begins { BeginsBy (cells_of types.now) members.now result leaf }
    ensures last { result + 1 < length members.now → ¬ (BeginsBy (cells_of types.now) members.now (result + 1) leaf) }
{
    let mut low = 0;
    let mut high = members.len();
    while high - low > 1 {
        let middle = low + (high - low) / 2;
        if begins_by(types, number, members, middle, leaf) {
            low = middle;
        } else {
            high = middle;
        }
    }
    low
}

/// The number of the element in which a leaf of a row lies.
fn row_number(cells: u64, count: Option<u32>, leaf: u64) -> Option<u64>
    ensures { result ≡ row_number cells count leaf }
{
    if cells == 0 {
        return None;
    }
    let number = leaf / cells;
    match count {
        Some(count) if number >= u64::from(count) => None,
        _ => Some(number),
    }
}
