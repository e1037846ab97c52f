//! The leaves of a value that lie before a bit, found by the value's type: no leaf is looked at.
ghost use Rattle.std.specs.Prelude.{◌+◌, ◌≤◌, ◌<◌, IfSome, length};
ghost use Rattle.spv_expr.specs.Sizes.{AreSizes, IsFormFront, IsMemberLong, IsMembersFront, IsRowFront, IsTypeFront};

use crate::sizes::{NOTHING, Stretch, first_members, size_of};
use spv_types::{Form, Member, TypeTable};

/// How many leaves the value of a member has, where all from it on have so many.
fn member_leaves(
    types: &TypeTable,
    sizes: &[Option<Stretch>],
    members: &[Member],
    k: usize,
    left: u64,
) -> Option<u64>
    requires sizes { AreSizes types.now sizes.now }
    requires inside { k < length members.now }
    ensures long { IfSome result (λ count. IsMemberLong types.now members.now k left count) }
    ensures within { IfSome result (λ count. count ≤ left) }
{
    match size_of(types, sizes, members[k].ty) {
        Some(size) if size.leaves <= left => Some(size.leaves),
        None if k + 1 == members.len() => Some(left),
        _ => None,
    }
}

/// Leaves of a value of a type, from its first on, that have at most so many bits, among the first types. The value has so many leaves.
#[cycle(front)]
pub(crate) fn type_front(
    types: &TypeTable,
    sizes: &[Option<Stretch>],
    limit: usize,
    ty: u32,
    room: Stretch,
) -> Stretch
    requires { AreSizes types.now sizes.now }
    ensures leaves { result.leaves ≤ room.leaves }
    ensures bits { result.bits ≤ room.bits }
    ensures front { IsTypeFront types.now ty room.leaves result }
{
    match types.found(limit, ty) {
        Some((n, form)) => form_front(types, sizes, n, form, room),
        None => NOTHING,
    }
}

/// Those of a value of a form whose parts are among the first types.
#[cycle(front)]
fn form_front(
    types: &TypeTable,
    sizes: &[Option<Stretch>],
    limit: usize,
    form: &Form,
    room: Stretch,
) -> Stretch
    requires { AreSizes types.now sizes.now }
    ensures leaves { result.leaves ≤ room.leaves }
    ensures bits { result.bits ≤ room.bits }
    ensures front { IsFormFront types.now form.now room.leaves result }
{
    match form {
        Form::Vector { component, .. } => row_front(types, sizes, limit, *component, room),
        Form::Array { element, .. } => row_front(types, sizes, limit, *element, room),
        Form::Runtime { element, .. } => row_front(types, sizes, limit, *element, room),
        Form::Struct { members, .. } => {
            members_front(types, sizes, limit, members.as_slice(), room)
        }
        _ => NOTHING,
    }
}

/// Those of values of a type, one after another.
#[cycle(front)]
fn row_front(
    types: &TypeTable,
    sizes: &[Option<Stretch>],
    limit: usize,
    ty: u32,
    room: Stretch,
) -> Stretch
    requires { AreSizes types.now sizes.now }
    ensures leaves { result.leaves ≤ room.leaves }
    ensures bits { result.bits ≤ room.bits }
    ensures front { IsRowFront types.now ty room.leaves result }
{
    let Some(size) = size_of(types, sizes, ty) else {
        return NOTHING;
    };
    if size.leaves == 0 || size.bits == 0 {
        return NOTHING;
    }
    let count = room.leaves / size.leaves;
    let whole = count.min(room.bits / size.bits);
    let start = Stretch {
        leaves: size.leaves * whole,
        bits: size.bits * whole,
    };
    if whole == count {
        return start;
    }
    let left = Stretch {
        leaves: size.leaves,
        bits: room.bits - start.bits,
    };
    let within = type_front(types, sizes, limit, ty, left);
    Stretch {
        leaves: start.leaves + within.leaves,
        bits: start.bits + within.bits,
    }
}

/// Those of the values of some members.
#[cycle(front)]
fn members_front(
    types: &TypeTable,
    sizes: &[Option<Stretch>],
    limit: usize,
    members: &[Member],
    room: Stretch,
) -> Stretch
    requires { AreSizes types.now sizes.now }
    ensures leaves { result.leaves ≤ room.leaves }
    ensures bits { result.bits ≤ room.bits }
    ensures front { IsMembersFront types.now members.now room.leaves result }
{
    let (k, start) = first_members(types, sizes, members, room);
    if k == members.len() {
        return start;
    }
    let Some(leaves) = member_leaves(types, sizes, members, k, room.leaves - start.leaves) else {
        return start;
    };
    let left = Stretch {
        leaves,
        bits: room.bits - start.bits,
    };
    let within = type_front(types, sizes, limit, members[k].ty, left);
    Stretch {
        leaves: start.leaves + within.leaves,
        bits: start.bits + within.bits,
    }
}
