//! Where the leaves of a part of a type begin.
ghost use Rattle.std.specs.Prelude.{◌≡◌, ◌<◌, length, option_map};
ghost use Rattle.spv_types.specs.Cells.{cells_of};
ghost use Rattle.spv_types.specs.Counted.{members_of};
ghost use Rattle.spv_types.specs.Types.{form_at};
ghost use Rattle.spv_types.specs.Leaves.{element_part, member_part, part_of};
ghost use Rattle.spv_base.specs.Saturation.{saturated_first};

use crate::counts::first_leaf;
use crate::forms::{Form, Member};
use crate::table::TypeTable;

/// The leaves before part `i` of the type with a number, and the type of that part.
pub(crate) fn part_at(types: &TypeTable, number: usize, i: u64) -> Option<(u64, u32)>
    requires { number < length types.now }
    ensures { result ≡ option_map saturated_first (part_of (cells_of types.now) (form_at types.now number) i) }
{
    match types.form_at(number) {
        Form::Vector { component, count } if i < u64::from(*count) => element_at(
            types, *component, i,
        ),
        Form::Array {
            element,
            length: Some(length),
            ..
        } if i < u64::from(*length) => element_at(types, *element, i),
        Form::Runtime { element, .. } => element_at(types, *element, i),
        Form::Struct { members, .. } => member_at(types, number, members.as_slice(), i),
        _ => None,
    }
}

/// The leaves before element `i` of a row, and the type of an element.
fn element_at(types: &TypeTable, ty: u32, i: u64) -> Option<(u64, u32)>
    ensures { result ≡ option_map saturated_first (element_part (cells_of types.now) ty i) }
{
    let cells = types.cells(ty)?;
    Some((cells.saturating_mul(i), ty))
}

/// The leaves before member `i` of the struct with a number, and the member's type.
fn member_at(types: &TypeTable, number: usize, members: &[Member], i: u64) -> Option<(u64, u32)>
    requires { members.now ≡ members_of (form_at types.now number) }
    ensures { result ≡ option_map saturated_first (member_part (cells_of types.now) members.now i) }
{
    let i = i as usize;
    let ty = members.get(i)?.ty;
    Some((first_leaf(types, number, members, i)?, ty))
}
