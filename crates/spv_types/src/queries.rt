//! What a type's form is made of (SPIR-V 1.6 section 3.42.6).
ghost use Rattle.std.specs.Prelude.{◌≡◌, option_copied};
ghost use Rattle.spv_types.specs.Queries as spec;

use crate::forms::{Form, Member};

/// The storage class and the target of a pointer type.
#[derive(Clone, Copy)]
pub struct Pointed {
    pub class: u32,
    pub target: u32,
}

/// The type of the components of a vector type, and how many there are.
#[derive(Clone, Copy)]
pub struct Components {
    pub ty: u32,
    pub count: u32,
}

/// Whether a type is void.
pub fn is_void(form: Option<&Form>) -> bool
    ensures { result ≡ spec.is_void (option_copied form.entry) }
{
    matches!(form, Some(Form::Void))
}

/// Whether a type is a scalar Boolean.
pub fn is_boolean(form: Option<&Form>) -> bool
    ensures { result ≡ spec.is_boolean (option_copied form.entry) }
{
    matches!(form, Some(Form::Bool))
}

/// Whether a type is a scalar integer, of any width.
pub fn is_integer(form: Option<&Form>) -> bool
    ensures { result ≡ spec.is_integer (option_copied form.entry) }
{
    matches!(form, Some(Form::Int { .. }))
}

/// Whether a type is a pointer type.
pub fn is_pointer(form: Option<&Form>) -> bool
    ensures { result ≡ spec.is_pointer (option_copied form.entry) }
{
    matches!(form, Some(Form::Pointer { .. }))
}

/// The storage class and the target of a pointer type.
pub fn pointee(form: Option<&Form>) -> Option<Pointed>
    ensures { result ≡ spec.pointee (option_copied form.entry) }
{
    match form {
        Some(Form::Pointer { class, target }) => Some(Pointed {
            class: *class,
            target: *target,
        }),
        _ => None,
    }
}

/// The components of a vector type.
pub fn components_in(form: Option<&Form>) -> Option<Components>
    ensures { result ≡ spec.components_in (option_copied form.entry) }
{
    match form {
        Some(Form::Vector { component, count }) => Some(Components {
            ty: *component,
            count: *count,
        }),
        _ => None,
    }
}

/// The type of a member.
pub fn member_type(members: &[Member], n: usize) -> Option<u32>
    ensures { result ≡ spec.member_type members.now n }
{
    match members.get(n) {
        Some(member) => Some(member.ty),
        None => None,
    }
}

/// The type of a member of a struct type.
pub fn member_of(form: Option<&Form>, n: usize) -> Option<u32>
    ensures { result ≡ spec.member_of (option_copied form.entry) n }
{
    match form {
        Some(Form::Struct { members, .. }) => member_type(members.as_slice(), n),
        _ => None,
    }
}

/// The type that a function of a type returns.
pub fn return_type(form: Option<&Form>) -> Option<u32>
    ensures { result ≡ spec.return_type (option_copied form.entry) }
{
    match form {
        Some(Form::Function { returns, .. }) => Some(*returns),
        _ => None,
    }
}

/// The types of the parameters of a function type.
pub fn parameters_in<'a>(form: Option<&'a Form>) -> &'a [u32]
    ensures { result.now ≡ spec.parameters_in (option_copied form.entry) }
{
    match form {
        Some(Form::Function { parameters, .. }) => parameters.as_slice(),
        _ => &[],
    }
}
