//! The rules of composite operations and copies.
ghost use Rattle.std.specs.Prelude.{◌≡◌, option_copied};
ghost use Rattle.std.specs.List.{list_all};
ghost use Rattle.spv_base.specs.Options.{holds};
ghost use Rattle.spv_bodies.specs.Composites as spec;
ghost use Rattle.spv_bodies.specs.Context.{type_in};

use crate::context::Context;
use spv_base::{Inst, Operand};
use spv_index::{literal_in, operands_from};
use spv_types::queries::{Components, components_in, member_type};
use spv_types::{Form, Member};
use spv_typing::fitting::is_selectable;

/// The literal of VectorShuffle that names no component.
const NO_COMPONENT: u32 = 0xFFFF_FFFF;

/// Whether a literal of VectorShuffle names one of so many components, or none.
fn is_choice(count: u64, operand: &Operand) -> bool
    ensures { result ≡ spec.is_choice count operand.now }
{
    match literal_in(operand) {
        Some(choice) => u64::from(choice) < count || choice == NO_COMPONENT,
        None => false,
    }
}

/// Whether literals of VectorShuffle each name one of so many components, or none.
fn are_choices(count: u64, operands: &[Operand]) -> bool
    ensures { result ≡ list_all (spec.is_choice count) operands.now }
{
    operands.iter().all(|operand| is_choice(count, operand))
}

/// Whether some literals shuffle `a` and `b` to `r`.
fn is_shuffle(operands: &[Operand], a: Components, b: Components, r: Components) -> bool
    ensures { result ≡ spec.is_shuffle operands.now a b r }
{
    a.ty == r.ty
        && b.ty == r.ty
        && operands.len() == r.count as usize
        && are_choices(u64::from(a.count) + u64::from(b.count), operands)
}

/// The type of an element, where number `n` is below the number of elements.
fn element_below(element: u32, count: Option<u32>, n: u32) -> Option<u32>
    ensures { result ≡ spec.element_below element count n }
{
    match count {
        Some(count) if n < count => Some(element),
        _ => None,
    }
}

/// Part `n` of a type.
fn part(form: Option<&Form>, n: u32) -> Option<u32>
    ensures { result ≡ spec.part (option_copied form.entry) n }
{
    match form? {
        Form::Vector { component, count } => element_below(*component, Some(*count), n),
        Form::Array {
            element,
            length,
            ..
        } => element_below(*element, *length, n),
        Form::Struct { members, .. } => member_type(members.as_slice(), n as usize),
        Form::Void
        | Form::Bool
        | Form::Int { .. }
        | Form::Runtime { .. }
        | Form::Pointer { .. }
        | Form::Function { .. } => None,
    }
}

/// Whether a component is taken from a vector of such components, by a scalar integer.
pub fn keeps_extract_dynamic(context: &Context, inst: &Inst) -> bool
    ensures { result ≡ spec.keeps_extract_dynamic context.now inst.now }
{
    if !context.is_integer_at(inst, 1) {
        return false;
    }
    match components_in(context.form_at(inst, 0)) {
        Some(vector) => vector.ty == inst.ty,
        None => false,
    }
}

/// Whether a component is put into a vector of such components, by a scalar integer.
pub fn keeps_insert_dynamic(context: &Context, inst: &Inst) -> bool
    ensures { result ≡ spec.keeps_insert_dynamic context.now inst.now }
{
    if context.type_at(inst, 0) != Some(inst.ty) || !context.is_integer_at(inst, 2) {
        return false;
    }
    match components_in(context.form(inst.ty)) {
        Some(vector) => context.type_at(inst, 1) == Some(vector.ty),
        None => false,
    }
}

/// Whether a shuffle keeps its rule.
pub fn keeps_shuffle(context: &Context, inst: &Inst) -> bool
    ensures { result ≡ spec.keeps_shuffle context.now inst.now }
{
    let Some(a) = components_in(context.form_at(inst, 0)) else {
        return false;
    };
    let Some(b) = components_in(context.form_at(inst, 1)) else {
        return false;
    };
    match components_in(context.form(inst.ty)) {
        Some(r) => is_shuffle(operands_from(inst, 2), a, b, r),
        None => false,
    }
}

/// How many components a constituent of a vector gives, by its type.
fn given(context: &Context, component: u32, ty: Option<u32>) -> u32
    ensures { result ≡ spec.given context.now component ty }
{
    let Some(ty) = ty else { return 0 };
    if ty == component {
        return 1;
    }
    match components_in(context.form(ty)) {
        Some(vector) if vector.ty == component => vector.count,
        _ => 0,
    }
}

/// Whether each constituent of a vector gives components, and all together so many.
fn fill(context: &Context, component: u32, count: u32, constituents: &[Operand]) -> bool
    ensures { result ≡ spec.fill context.now component count constituents.now }
{
    let mut left = count;
    for constituent in constituents {
        let given = given(context, component, context.type_in(constituent));
        if given == 0 || given > left {
            return false;
        }
        left -= given;
    }
    left == 0
}

/// Whether there is one operand for each member, and of its type.
fn are_members(context: &Context, members: &[Member], operands: &[Operand]) -> bool
    ensures { result ≡ spec.are_members context.now members.now operands.now }
{
    if members.len() != operands.len() {
        return false;
    }
    for (n, member) in members.iter().enumerate() {
        if context.type_in(&operands[n]) != Some(member.ty) {
            return false;
        }
    }
    true
}

/// Whether operands are of one type.
fn are_all(context: &Context, ty: u32, operands: &[Operand]) -> bool
    ensures { result ≡ list_all (λ o. holds ty (type_in context.now o)) operands.now }
{
    operands
        .iter()
        .all(|operand| context.type_in(operand) == Some(ty))
}

/// Whether there are so many operands, of one type.
fn are_elements(context: &Context, element: u32, count: Option<u32>, operands: &[Operand]) -> bool
    ensures { result ≡ spec.are_elements context.now element count operands.now }
{
    match count {
        Some(count) => count as usize == operands.len() && are_all(context, element, operands),
        None => false,
    }
}

/// Whether operands are the parts of a value of a form.
fn are_parts(context: &Context, operands: &[Operand], form: Option<&Form>) -> bool
    ensures { result ≡ spec.are_parts context.now operands.now (option_copied form.entry) }
{
    match form {
        Some(Form::Vector { component, count }) => fill(context, *component, *count, operands),
        Some(
            Form::Array {
                element,
                length,
                ..
            },
        ) => are_elements(context, *element, *length, operands),
        Some(Form::Struct { members, .. }) => are_members(context, members.as_slice(), operands),
        _ => false,
    }
}

/// Whether a composite is made of its parts.
pub fn keeps_construct(context: &Context, inst: &Inst) -> bool
    ensures { result ≡ spec.keeps_construct context.now inst.now }
{
    are_parts(context, inst.operands.as_slice(), context.form(inst.ty))
}

/// The part of a type that some literals name.
fn named_type(context: &Context, whole: u32, literals: &[Operand]) -> Option<u32>
    ensures { result ≡ spec.named_type context.now whole literals.now }
{
    let mut ty = whole;
    for literal in literals {
        ty = part(context.form(ty), literal_in(literal)?)?;
    }
    Some(ty)
}

/// Whether some literals name a part with a type, which is no pointer type.
fn is_part(context: &Context, whole: u32, literals: &[Operand], ty: u32) -> bool
    ensures { result ≡ spec.is_part context.now whole literals.now ty }
{
    is_selectable(context.types(), ty) && named_type(context, whole, literals) == Some(ty)
}

/// Whether an extraction gives the part that it names.
pub fn keeps_extract(context: &Context, inst: &Inst) -> bool
    ensures { result ≡ spec.keeps_extract context.now inst.now }
{
    match context.type_at(inst, 0) {
        Some(whole) => is_part(context, whole, operands_from(inst, 1), inst.ty),
        None => false,
    }
}

/// Whether an insertion puts an object in the place of a part of its type.
pub fn keeps_insert(context: &Context, inst: &Inst) -> bool
    ensures { result ≡ spec.keeps_insert context.now inst.now }
{
    if context.type_at(inst, 1) != Some(inst.ty) {
        return false;
    }
    match context.type_at(inst, 0) {
        Some(ty) => is_part(context, inst.ty, operands_from(inst, 2), ty),
        None => false,
    }
}

/// Whether a copy has its operand's type.
pub fn keeps_copy_object(context: &Context, inst: &Inst) -> bool
    ensures { result ≡ spec.keeps_copy_object context.now inst.now }
{
    context.type_at(inst, 0) == Some(inst.ty)
}
