//! How many parts values have: a variable keeps beside its row those of its last part.
ghost use Rattle.std.specs.Prelude.{◌≡◌, IfOk};
ghost use Rattle.spv_initial.specs.Elements.{array_elements, last_count, member_count};

use spv_base::NoMemory;
use spv_mem::parts::part_count;
use spv_types::places::elements_in;
use spv_types::{Form, Member, TypeTable};

/// A number of 32 bits. No variable has 2^32 parts: there would be no memory for them.
fn number(count: u64) -> Result<u32, NoMemory>
    ensures { IfOk result (λ n. n ≡ count) }
{
    match u32::try_from(count) {
        Ok(count) => Ok(count),
        Err(_) => Err(NoMemory),
    }
}

/// How many elements of a runtime array fit so many bytes, of which it begins at a place; 0 where a form is none.
fn array_elements(size: u64, at: u32, form: &Form) -> u64
    ensures { result ≡ array_elements size at form.now }
{
    match form {
        Form::Runtime { stride, .. } => elements_in(size, u128::from(at), *stride),
        _ => 0,
    }
}

/// How many parts a member has, whose type is among the first `limit`.
fn member_count(
    types: &TypeTable,
    size: u64,
    limit: usize,
    member: &Member,
) -> Result<u32, NoMemory>
    ensures { IfOk result (λ n. n ≡ member_count types.now size limit member.now) }
{
    match types.found(limit, member.ty) {
        Some((_, form)) => {
            let elements = array_elements(size, member.offset.unwrap_or(0), form);
            part_count(form, number(elements)?)
        }
        None => Ok(0),
    }
}

/// How many parts the last of some members has.
pub fn last_count(
    types: &TypeTable,
    size: u64,
    limit: usize,
    members: &[Member],
) -> Result<u32, NoMemory>
    ensures { IfOk result (λ n. n ≡ last_count types.now size limit members.now) }
{
    match members.last() {
        Some(last) => member_count(types, size, limit, last),
        None => Ok(0),
    }
}
