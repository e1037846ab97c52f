//! How many parts a value of a form has, and the type of the last one.
ghost use Rattle.std.specs.Prelude.{◌≡◌, IfOk};
ghost use Rattle.spv_mem.specs.Blanks.{if_any, last_part, part_count};

use spv_base::NoMemory;
use spv_types::Form;
use spv_types::rules::last_type;

/// A type, if there is a value of it.
fn if_any(count: u32, ty: u32) -> Option<u32>
    ensures { result ≡ if_any count ty }
{
    if count > 0 { Some(ty) } else { None }
}

/// The type of the last part of a value of a form, where a runtime array has so many elements.
pub fn last_part(form: &Form, elements: u32) -> Option<u32>
    ensures { result ≡ last_part elements form.now }
{
    match form {
        Form::Vector { component, count } => if_any(*count, *component),
        Form::Array {
            element,
            length,
            ..
        } => if_any(length.unwrap_or(0), *element),
        Form::Runtime { element, .. } => if_any(elements, *element),
        Form::Struct { members, .. } => last_type(members.as_slice()),
        _ => None,
    }
}

/// How many parts a value of a form has, where a runtime array has so many elements. A type of 2 ^ 32 members has no variable:
/// there would be no memory for it.
pub fn part_count(form: &Form, elements: u32) -> Result<u32, NoMemory>
    ensures { IfOk result (λ n. n ≡ part_count elements form.now) }
{
    match form {
        Form::Vector { count, .. } => Ok(*count),
        Form::Array { length, .. } => Ok(length.unwrap_or(0)),
        Form::Runtime { .. } => Ok(elements),
        Form::Struct { members, .. } => match u32::try_from(members.len()) {
            Ok(count) => Ok(count),
            Err(_) => Err(NoMemory),
        },
        _ => Ok(0),
    }
}
