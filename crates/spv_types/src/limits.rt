//! What the limits on types count.
ghost use Rattle.std.specs.Prelude.{◌≡◌, length};
ghost use Rattle.spv_types.specs.Limits.{AreLimits, limit_among, limit_step, members_limit, repeated_limit, struct_limit};

use crate::forms::{Form, Member};
use crate::table::TypeTable;

/// How deep a type is nested, and how many cells it counts as. Both stop at the greatest u64.
#[derive(Clone, Copy)]
pub struct Limit {
    pub nesting: u64,
    pub cells: u64,
}

/// A scalar type.
fn alone(cells: u64) -> Limit
    ensures { result ≡ record { nesting = 1; cells = cells } }
{
    Limit { nesting: 1, cells }
}

impl Limit {
    /// So many parts of a type.
    fn times(self, count: u32) -> Limit
        ensures { result ≡ repeated_limit self count }
    {
        Limit {
            nesting: self.nesting.saturating_add(1),
            cells: self.cells.saturating_mul(u64::from(count)),
        }
    }
}

/// What a type among the first counts as, where it is known of them.
pub fn known_limit(types: &TypeTable, limits: &[Limit], ty: u32) -> Limit
    requires { AreLimits types.now limits.now }
    ensures { result ≡ limit_among types.now (length limits.now) ty }
{
    match types.number(ty) {
        Some(n) if n < limits.len() => limits[n],
        _ => Limit {
            nesting: 0,
            cells: 0,
        },
    }
}

/// The deepest of some members, and their cells together.
fn members_limit(types: &TypeTable, limits: &[Limit], members: &[Member]) -> Limit
    requires { AreLimits types.now limits.now }
    ensures { result ≡ members_limit (limit_among types.now (length limits.now)) members.now }
{
    let mut nesting: u64 = 0;
    let mut cells: u64 = 0;
    for member in members {
        let limit = known_limit(types, limits, member.ty);
        nesting = nesting.max(limit.nesting);
        cells = cells.saturating_add(limit.cells);
    }
    Limit { nesting, cells }
}

/// What a struct counts as; one without members is a cell.
fn struct_limit(types: &TypeTable, limits: &[Limit], members: &[Member]) -> Limit
    requires { AreLimits types.now limits.now }
    ensures { result ≡ struct_limit (limit_among types.now (length limits.now)) members.now }
{
    if members.is_empty() {
        return alone(1);
    }
    let inside = members_limit(types, limits, members);
    Limit {
        nesting: inside.nesting.saturating_add(1),
        cells: inside.cells,
    }
}

/// What a form counts as, where it is known of the types before it.
pub fn form_limit(types: &TypeTable, limits: &[Limit], form: &Form) -> Limit
    requires { AreLimits types.now limits.now }
    ensures { result ≡ limit_step (limit_among types.now (length limits.now)) form.now }
{
    match form {
        Form::Void | Form::Function { .. } => alone(0),
        Form::Bool | Form::Int { .. } | Form::Pointer { .. } => alone(1),
        Form::Vector { component, count } => known_limit(types, limits, *component).times(*count),
        Form::Array {
            element,
            length,
            ..
        } => known_limit(types, limits, *element).times(length.unwrap_or(0)),
        Form::Runtime { element, .. } => known_limit(types, limits, *element).times(0),
        Form::Struct { members, .. } => struct_limit(types, limits, members.as_slice()),
    }
}
