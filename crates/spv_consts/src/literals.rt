//! Literals of integer constants.
ghost use Rattle.std.specs.Prelude.{◌≡◌};
ghost use Rattle.spv_types.specs.Types.{form_of};
ghost use Rattle.spv_consts.specs.Literals.{integer_width, keeps_literal, literal_lane, literal_number, word_count};

use spv_alu::results;
use spv_base::{Cell, Inst};
use spv_index::literal_operand;
use spv_types::{Form, TypeTable};

/// The width of an integer type.
pub(crate) fn integer_width(types: &TypeTable, ty: u32) -> Option<u8>
    ensures { result ≡ integer_width (form_of types.now ty) }
{
    match types.form(ty) {
        Some(Form::Int { width: 8, .. }) => Some(8),
        Some(Form::Int { width: 16, .. }) => Some(16),
        Some(Form::Int { width: 32, .. }) => Some(32),
        Some(Form::Int { width: 64, .. }) => Some(64),
        _ => None,
    }
}

/// How many words a literal of a width has.
fn word_count(width: u8) -> usize
    ensures { result ≡ word_count width }
{
    if width <= 32 { 1 } else { 2 }
}

/// Whether a literal of an integer type has as many words as its width wants.
pub(crate) fn keeps_literal(width: Option<u8>, inst: &Inst) -> bool
    ensures { result ≡ keeps_literal width inst.now.operands }
{
    match width {
        Some(width) => {
            inst.operands.len() == word_count(width) && literal_number(width, inst).is_some()
        }
        None => false,
    }
}

/// The number of a literal of a width, of one or two words.
fn literal_number(width: u8, inst: &Inst) -> Option<u64>
    ensures { result ≡ literal_number width inst.now.operands }
{
    let low = u64::from(literal_operand(inst, 0)?);
    if width <= 32 {
        return Some(low);
    }
    let high = u64::from(literal_operand(inst, 1)?);
    Some(low + high * 4_294_967_296)
}

/// The lane of a literal.
pub(crate) fn literal_lane(types: &TypeTable, inst: &Inst) -> Cell
    ensures { result ≡ literal_lane (integer_width (form_of types.now inst.now.ty)) inst.now.operands }
{
    let Some(width) = integer_width(types, inst.ty) else {
        return results::undefined(1);
    };
    match literal_number(width, inst) {
        Some(number) => results::integer(number, width),
        None => results::undefined(width),
    }
}
