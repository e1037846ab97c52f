//! How many leaves and bits the values of each type have.
ghost use Rattle.std.specs.Prelude.{◌≡◌, ◌+◌, ◌*◌, ◌≤◌, ◌∷◌, [], ℕ, IfOk, IfSome, Option, length};
ghost use Rattle.spv_base.specs.Cell.{Cell as Leaf};
ghost use Rattle.spv_types.specs.declared.forms.Form.TheVariants.{Array};
ghost use Rattle.spv_expr.specs.Sizes.{AreSized, AreSizes, IsFormSize, IsLong, IsMore, IsRowSize, IsSize};

use spv_base::NoMemory;
use spv_types::{Form, Member, TypeTable};
use std::alloc::Global;

/// So many leaves, and the bits that they have together.
#[derive(Clone, Copy)]
pub(crate) struct Stretch {
    pub(crate) leaves: u64,
    pub(crate) bits: u64,
}

/// No leaves.
pub(crate) const NOTHING: Stretch = Stretch { leaves: 0, bits: 0 };

/// As long as a `u64` counts.
const ANY: Stretch = Stretch {
    leaves: u64::MAX,
    bits: u64::MAX,
};

/// So many stretches that are alike, where a `u64` counts them.
fn times(one: Stretch, count: u32) -> Option<Stretch>
    ensures { IfSome result (λ all. (all.leaves ≡ one.leaves * count) × (all.bits ≡ one.bits * count)) }
{
    let count = u64::from(count);
    Some(Stretch {
        leaves: one.leaves.checked_mul(count)?,
        bits: one.bits.checked_mul(count)?,
    })
}

/// How long a scalar of a width is. A Boolean, whose width is 1, has 32 bits.
fn scalar_size(width: u32) -> Stretch
    ensures { (c : Leaf) → c.width ≡ width → IsLong (c ∷ []) result }
{
    let bits = if width == 1 { 32 } else { u64::from(width) };
    Stretch { leaves: 1, bits }
}

/// How long each value of a type is, where that is known.
pub(crate) fn size_of(types: &TypeTable, sizes: &[Option<Stretch>], ty: u32) -> Option<Stretch>
    requires { AreSizes types.now sizes.now }
    ensures { IfSome result (λ size. IsSize types.now ty size) }
{
    let number = types.number(ty)?;
    *sizes.get(number)?
}

/// How long so many values of a type are together.
fn row_size(types: &TypeTable, sizes: &[Option<Stretch>], ty: u32, count: u32) -> Option<Stretch>
    requires { AreSizes types.now sizes.now }
    ensures { IfSome result (λ size. IsRowSize types.now ty count size) }
{
    times(size_of(types, sizes, ty)?, count)
}

/// How long each array of values of a type is, where it has a length.
fn array_size(
    types: &TypeTable,
    sizes: &[Option<Stretch>],
    element: u32,
    length: Option<u32>,
) -> Option<Stretch>
    requires { AreSizes types.now sizes.now }
    ensures { IfSome result (λ size. (stride : Option ℕ) → IsFormSize types.now (Array element length stride) size) }
{
    row_size(types, sizes, element, length?)
}

/// One stretch with another behind it, where both together fit within a third.
fn with_more(total: Stretch, more: Stretch, room: Stretch) -> Option<Stretch>
    requires leaves { total.leaves ≤ room.leaves }
    requires bits { total.bits ≤ room.bits }
    ensures { IfSome result (λ all. (all.leaves ≡ total.leaves + more.leaves) × (all.bits ≡ total.bits + more.bits) × (all.leaves ≤ room.leaves) × (all.bits ≤ room.bits)) }
{
    if more.leaves > room.leaves - total.leaves || more.bits > room.bits - total.bits {
        return None;
    }
    Some(Stretch {
        leaves: total.leaves + more.leaves,
        bits: total.bits + more.bits,
    })
}

/// A stretch with a value of a type behind it, where it is known how long that is, and both together fit within another.
fn with_value(
    types: &TypeTable,
    sizes: &[Option<Stretch>],
    ty: u32,
    total: Stretch,
    room: Stretch,
) -> Option<Stretch>
    requires sizes { AreSizes types.now sizes.now }
    requires leaves { total.leaves ≤ room.leaves }
    requires bits { total.bits ≤ room.bits }
    ensures { IfSome result (λ all. IsMore types.now ty total room all) }
{
    with_more(total, size_of(types, sizes, ty)?, room)
}

/// The first members whose values are known to be so long that all together fit within a stretch: how many, and how long they are.
pub(crate) fn first_members(
    types: &TypeTable,
    sizes: &[Option<Stretch>],
    members: &[Member],
    room: Stretch,
) -> (usize, Stretch)
    requires { AreSizes types.now sizes.now }
    ensures few { result.0 ≤ length members.now }
    ensures leaves { result.1.leaves ≤ room.leaves }
    ensures bits { result.1.bits ≤ room.bits }
    ensures sized { AreSized types.now members.now result.0 result.1 }
{
    let mut total = NOTHING;
    for k in 0..members.len() {
        let Some(more) = with_value(types, sizes, members[k].ty, total, room) else {
            return (k, total);
        };
        total = more;
    }
    (members.len(), total)
}

/// How long the values of some members are together.
fn members_size(types: &TypeTable, sizes: &[Option<Stretch>], members: &[Member]) -> Option<Stretch>
    requires { AreSizes types.now sizes.now }
    ensures { IfSome result (λ size. AreSized types.now members.now (length members.now) size) }
{
    let (count, size) = first_members(types, sizes, members, ANY);
    (count == members.len()).then_some(size)
}

/// How long each value of a form is, where its parts tell.
fn form_size(types: &TypeTable, sizes: &[Option<Stretch>], form: &Form) -> Option<Stretch>
    requires { AreSizes types.now sizes.now }
    ensures { IfSome result (λ size. IsFormSize types.now form.now size) }
{
    match form {
        Form::Bool => Some(scalar_size(1)),
        Form::Int { width, .. } => Some(scalar_size(*width)),
        Form::Vector { component, count } => row_size(types, sizes, *component, *count),
        Form::Array {
            element,
            length,
            ..
        } => array_size(types, sizes, *element, *length),
        Form::Struct { members, .. } => members_size(types, sizes, members.as_slice()),
        _ => None,
    }
}

/// How long the values of each type are, by the numbers of types.
pub(crate) fn sizes_of(alloc: Global, types: &TypeTable) -> Result<Vec<Option<Stretch>>, NoMemory>
    ensures { IfOk result (λ sizes. AreSizes types.now sizes.items) }
{
    let mut sizes = Vec::with_capacity(alloc, types.len())?;
    for number in 0..types.len() {
        let size = form_size(types, sizes.as_slice(), types.form_at(number));
        sizes.push(size)?;
    }
    Ok(sizes)
}
