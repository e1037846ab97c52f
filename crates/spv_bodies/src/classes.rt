//! The classes of types that match logically.
ghost use Rattle.std.specs.Prelude.{◌≡◌, ◌≤◌, IfOk, Option, length, option_map};
ghost use Rattle.std.specs.Option.{option_and_then};
ghost use Rattle.spv_types.specs.Queries.{member_type};
ghost use Rattle.spv_bodies.specs.Classes.{AreClasses, HaveClasses, class_among, same_class};
ghost use Rattle.spv_bodies.specs.Matching.{Number, Pair, Term, array_term, form_term, members_term, repeated, same_terms, term_among, term_of};
ghost use Rattle.spv_bodies.specs.Terms.{Grows, IsClass, Makes};

use crate::terms::Terms;
use spv_base::NoMemory;
use spv_ops::op;
use spv_types::queries::member_type;
use spv_types::{Form, Member, TypeTable};
use std::alloc::Global;

/// The class of a type among the first `limit` types.
pub fn class_among(
    types: &TypeTable,
    classes: &[Option<usize>],
    limit: usize,
    ty: u32,
) -> Option<usize>
    requires { limit ≤ length classes.now }
    ensures { result ≡ class_among types.now classes.now limit ty }
{
    match types.found(limit, ty) {
        Some((number, _)) => classes[number],
        None => None,
    }
}

/// The class of as many parts of one class, by the opcode of their type; none where the parts have none.
fn repeated_class(
    terms: &mut Terms,
    opcode: u16,
    part: Option<usize>,
    count: u32,
) -> Result<Option<usize>, NoMemory>
    ensures grows { Grows terms.old terms.new }
    ensures class { IfOk result (λ class. (t : Option Term) → IsClass terms.old part t → IsClass terms.new class (option_map (repeated opcode count) t)) }
{
    let Some(part) = part else {
        return Ok(None);
    };
    let count = terms.number(count)?;
    let rest = terms.pair(part, count)?;
    let opcode = terms.number(u32::from(opcode))?;
    Ok(Some(terms.pair(opcode, rest)?))
}

/// The class of an integer type.
fn int_class(terms: &mut Terms, width: u32, sign: u32) -> Result<usize, NoMemory>
    ensures grows { Grows terms.old terms.new }
    ensures class { IfOk result (λ class. Makes terms.new class (Pair (Number 21) (Pair (Number width) (Number sign)))) }
{
    let width = terms.number(width)?;
    let sign = terms.number(sign)?;
    let rest = terms.pair(width, sign)?;
    let opcode = terms.number(u32::from(op::TYPE_INT))?;
    terms.pair(opcode, rest)
}

/// The class of an array type, by that of its elements; none where its length is not set.
fn array_class(
    terms: &mut Terms,
    part: Option<usize>,
    length: Option<u32>,
) -> Result<Option<usize>, NoMemory>
    ensures grows { Grows terms.old terms.new }
    ensures class { IfOk result (λ class. (t : Option Term) → IsClass terms.old part t → IsClass terms.new class (array_term length t)) }
{
    match length {
        Some(count) => Ok(repeated_class(terms, op::TYPE_ARRAY, part, count)?),
        None => Ok(None),
    }
}

/// The class of member `n`.
fn member_class(
    types: &TypeTable,
    classes: &[Option<usize>],
    limit: usize,
    members: &[Member],
    n: usize,
) -> Option<usize>
    requires { limit ≤ length classes.now }
    ensures { result ≡ option_and_then (class_among types.now classes.now limit) (member_type members.now n) }
{
    class_among(types, classes, limit, member_type(members, n)?)
}

/// The class of members one after another; none where one of them has none.
fn members_class(
    terms: &mut Terms,
    types: &TypeTable,
    classes: &[Option<usize>],
    limit: usize,
    members: &[Member],
) -> Result<Option<usize>, NoMemory>
    requires few { limit ≤ length classes.now }
    requires have { HaveClasses terms.old types.now classes.now limit }
    ensures grows { Grows terms.old terms.new }
    ensures class { IfOk result (λ class. IsClass terms.new class (members_term (term_among types.now limit) members.now)) }
{
    let mut rest = terms.number(0)?;
    let mut n = members.len();
    'back: while n > 0 {
        n -= 1;
        let Some(class) = member_class(types, classes, limit, members, n) else {
            return Ok(None);
        };
        rest = terms.pair(class, rest)?;
    }
    Ok(Some(rest))
}

/// The class of a struct type, by that of its members.
fn struct_class(terms: &mut Terms, members: Option<usize>) -> Result<Option<usize>, NoMemory>
    ensures grows { Grows terms.old terms.new }
    ensures class { IfOk result (λ class. (t : Option Term) → IsClass terms.old members t → IsClass terms.new class (option_map (Pair (Number 30)) t)) }
{
    let Some(members) = members else {
        return Ok(None);
    };
    let opcode = terms.number(u32::from(op::TYPE_STRUCT))?;
    Ok(Some(terms.pair(opcode, members)?))
}

/// The class of a form, whose parts are among the first `limit` types.
fn form_class(
    terms: &mut Terms,
    types: &TypeTable,
    classes: &[Option<usize>],
    limit: usize,
    form: &Form,
) -> Result<Option<usize>, NoMemory>
    requires few { limit ≤ length classes.now }
    requires have { HaveClasses terms.old types.now classes.now limit }
    ensures grows { Grows terms.old terms.new }
    ensures class { IfOk result (λ class. IsClass terms.new class (form_term (term_among types.now limit) form.now)) }
{
    match form {
        Form::Bool => Ok(Some(terms.number(u32::from(op::TYPE_BOOL))?)),
        Form::Int { width, sign } => Ok(Some(int_class(terms, *width, *sign)?)),
        Form::Vector { component, count } => {
            let part = class_among(types, classes, limit, *component);
            Ok(repeated_class(terms, op::TYPE_VECTOR, part, *count)?)
        }
        Form::Array {
            element,
            length,
            ..
        } => {
            let part = class_among(types, classes, limit, *element);
            Ok(array_class(terms, part, *length)?)
        }
        Form::Struct { members, .. } => {
            let members = members_class(terms, types, classes, limit, members.as_slice())?;
            struct_class(terms, members)
        }
        Form::Void | Form::Runtime { .. } | Form::Pointer { .. } | Form::Function { .. } => Ok(
            None,
        ),
    }
}

/// The class of each type, by its number; none of a type that matches itself alone.
///
/// The time grows with the number of members, and with its logarithm.
pub fn classes_of(alloc: Global, types: &TypeTable) -> Result<Vec<Option<usize>>, NoMemory>
    ensures all { IfOk result (λ classes. length classes.items ≡ length types.now) }
    ensures classes { IfOk result (λ classes. AreClasses types.now classes.items) }
{
    let mut terms = Terms::new(alloc);
    let mut classes = Vec::new(alloc);
    for n in 0..types.len() {
        let class = form_class(&mut terms, types, classes.as_slice(), n, types.form_at(n))?;
        classes.push(class)?;
    }
    terms.differ();
    Ok(classes)
}

/// Whether both types have a class, and the same one.
fn same_class(a: Option<usize>, b: Option<usize>) -> bool
    ensures { result ≡ same_class a b }
{
    match (a, b) {
        (Some(a), Some(b)) => a == b,
        _ => false,
    }
}

/// Whether two types are of one class.
pub fn are_of_one_class(types: &TypeTable, classes: &[Option<usize>], a: u32, b: u32) -> bool
    requires all { length classes.now ≡ length types.now }
    requires classes { AreClasses types.now classes.now }
    ensures { result ≡ same_terms (term_of types.now a) (term_of types.now b) }
{
    let limit = types.len();
    same_class(
        class_among(types, classes, limit, a),
        class_among(types, classes, limit, b),
    )
}
