//! Whether the types of an operation's operands fit the type of its result.
ghost use Rattle.std.specs.Prelude.{◌≡◌};
ghost use Rattle.spv_types.specs.Types.{form_of};
ghost use Rattle.spv_typing.specs.Fitting as spec;
ghost use Rattle.spv_typing.specs.Operands.{operand_type};

use crate::lanes::{
    Lanes, are_booleans, are_integers, are_several, is_single, lanes_at, lanes_of, same_count,
    same_lanes, same_size,
};
use crate::operands::OperandTypes;
use crate::rules::{Rule, rule_of};
use spv_types::forms::Member;
use spv_types::{Form, TypeTable};

/// Whether the lanes are integers, and as many as of the outcome.
pub fn are_counted(outcome: Option<Lanes>, operand: Option<Lanes>) -> bool
    ensures { result ≡ spec.are_counted outcome operand }
{
    are_integers(operand) && same_count(operand, outcome)
}

/// Whether the lanes are one integer.
pub fn is_one_integer(operand: Option<Lanes>) -> bool
    ensures { result ≡ spec.is_one_integer operand }
{
    are_integers(operand) && is_single(operand)
}

/// Whether the lanes are one Boolean.
pub fn is_one_boolean(lanes: Option<Lanes>) -> bool
    ensures { result ≡ spec.is_one_boolean lanes }
{
    are_booleans(lanes) && is_single(lanes)
}

/// Whether the lanes are a vector of Booleans.
pub fn is_boolean_vector(lanes: Option<Lanes>) -> bool
    ensures { result ≡ spec.is_boolean_vector lanes }
{
    are_booleans(lanes) && are_several(lanes)
}

/// Whether these are two members of one type.
pub fn is_pair(ty: u32, members: &[Member]) -> bool
    ensures { result ≡ spec.is_pair ty members.now }
{
    match members {
        [first, second] => first.ty == ty && second.ty == ty,
        _ => false,
    }
}

/// Whether a type is a struct of two members of a type.
pub fn is_pair_of(types: &TypeTable, ty: u32, outcome: u32) -> bool
    ensures { result ≡ spec.is_pair_of ty (form_of types.now outcome) }
{
    match types.form(outcome) {
        Some(Form::Struct { members, .. }) => is_pair(ty, members.as_slice()),
        _ => false,
    }
}

/// Whether Select may choose values of a type, and CopyLogical copy them: of any type but a pointer type.
pub fn is_selectable(types: &TypeTable, ty: u32) -> bool
    ensures { result ≡ spec.is_selectable (form_of types.now ty) }
{
    match types.form(ty) {
        None | Some(Form::Pointer { .. }) => false,
        _ => true,
    }
}

/// Whether there is one Boolean for the whole, or one for each component of a vector.
pub fn is_condition(outcome: Option<Lanes>, condition: Option<Lanes>) -> bool
    ensures { result ≡ spec.is_condition outcome condition }
{
    is_one_boolean(condition) || is_boolean_vector(condition) && same_count(condition, outcome)
}

/// UConvert and SConvert: integers of any width, as many as of the outcome.
pub fn fits_convert(outcome: Option<Lanes>, a: Option<Lanes>) -> bool
    ensures { result ≡ spec.fits_convert outcome a }
{
    are_integers(outcome) && are_counted(outcome, a)
}

/// Bitcast: integers with as many bits together.
pub fn fits_bitcast(outcome: Option<Lanes>, a: Option<Lanes>) -> bool
    ensures { result ≡ spec.fits_bitcast outcome a }
{
    are_integers(outcome) && are_integers(a) && same_size(a, outcome)
}

/// SNegate, Not, BitReverse and BitCount: integers of the outcome's width.
pub fn fits_integer(outcome: Option<Lanes>, a: Option<Lanes>) -> bool
    ensures { result ≡ spec.fits_integer outcome a }
{
    are_integers(outcome) && same_lanes(a, outcome)
}

/// Arithmetic and bitwise operations: integers of the outcome's width.
pub fn fits_integers(outcome: Option<Lanes>, a: Option<Lanes>, b: Option<Lanes>) -> bool
    ensures { result ≡ spec.fits_integers outcome a b }
{
    fits_integer(outcome, a) && same_lanes(b, outcome)
}

/// Clamps: integers of the outcome's width.
pub fn fits_clamp(
    outcome: Option<Lanes>,
    a: Option<Lanes>,
    least: Option<Lanes>,
    greatest: Option<Lanes>,
) -> bool
    ensures { result ≡ spec.fits_clamp outcome a least greatest }
{
    fits_integers(outcome, a, least) && same_lanes(greatest, outcome)
}

/// Shifts: the amounts have any width.
pub fn fits_shift(outcome: Option<Lanes>, base: Option<Lanes>, shift: Option<Lanes>) -> bool
    ensures { result ≡ spec.fits_shift outcome base shift }
{
    fits_integer(outcome, base) && are_counted(outcome, shift)
}

/// LogicalNot: Booleans.
pub fn fits_boolean(outcome: Option<Lanes>, a: Option<Lanes>) -> bool
    ensures { result ≡ spec.fits_boolean outcome a }
{
    are_booleans(outcome) && same_lanes(a, outcome)
}

/// Logical operations: Booleans.
pub fn fits_booleans(outcome: Option<Lanes>, a: Option<Lanes>, b: Option<Lanes>) -> bool
    ensures { result ≡ spec.fits_booleans outcome a b }
{
    fits_boolean(outcome, a) && same_lanes(b, outcome)
}

/// Any and All: a vector of Booleans gives one.
pub fn fits_reduce(outcome: Option<Lanes>, a: Option<Lanes>) -> bool
    ensures { result ≡ spec.fits_reduce outcome a }
{
    is_one_boolean(outcome) && is_boolean_vector(a)
}

/// Comparisons: integers of one width give Booleans.
pub fn fits_compare(outcome: Option<Lanes>, a: Option<Lanes>, b: Option<Lanes>) -> bool
    ensures { result ≡ spec.fits_compare outcome a b }
{
    are_booleans(outcome) && are_counted(outcome, a) && same_lanes(b, a)
}

/// IAddCarry, ISubBorrow, UMulExtended and SMulExtended: integers of one type give a struct of two of it.
pub fn fits_extended(types: &TypeTable, outcome: u32, a: Option<u32>, b: Option<u32>) -> bool
    ensures { result ≡ spec.fits_extended types.now outcome a b }
{
    let Some(ty) = a else {
        return false;
    };
    are_integers(lanes_of(types, ty)) && b == Some(ty) && is_pair_of(types, ty, outcome)
}

/// Select: both objects have the outcome's type, which is no pointer.
pub fn fits_select(
    types: &TypeTable,
    outcome: u32,
    condition: Option<u32>,
    a: Option<u32>,
    b: Option<u32>,
) -> bool
    ensures { result ≡ spec.fits_select types.now outcome condition a b }
{
    is_selectable(types, outcome)
        && a == Some(outcome)
        && b == Some(outcome)
        && is_condition(lanes_of(types, outcome), lanes_at(types, condition))
}

/// Whether the offset and the number of bits of a bit field are one integer each.
pub fn is_field(offset: Option<Lanes>, count: Option<Lanes>) -> bool
    ensures { result ≡ spec.is_field offset count }
{
    is_one_integer(offset) && is_one_integer(count)
}

/// Whether operands of these types fit an outcome of a type, by a rule.
pub(crate) fn fits_rule(types: &TypeTable, rule: Rule, outcome: u32, tys: OperandTypes) -> bool
    ensures { result ≡ spec.fits_rule types.now rule outcome (operand_type tys) }
{
    let lanes = lanes_of(types, outcome);
    let first = lanes_at(types, tys.first);
    let second = lanes_at(types, tys.second);
    let third = lanes_at(types, tys.third);
    match rule {
        Rule::Convert => fits_convert(lanes, first),
        Rule::Bitcast => fits_bitcast(lanes, first),
        Rule::Integer => fits_integer(lanes, first),
        Rule::Integers => fits_integers(lanes, first, second),
        Rule::Clamp => fits_clamp(lanes, first, second, third),
        Rule::Shift => fits_shift(lanes, first, second),
        Rule::Boolean => fits_boolean(lanes, first),
        Rule::Booleans => fits_booleans(lanes, first, second),
        Rule::Reduce => fits_reduce(lanes, first),
        Rule::Compare => fits_compare(lanes, first, second),
        Rule::Extended => fits_extended(types, outcome, tys.first, tys.second),
        Rule::Select => fits_select(types, outcome, tys.first, tys.second, tys.third),
        Rule::InsertField => {
            fits_integers(lanes, first, second) && is_field(third, lanes_at(types, tys.fourth))
        }
        Rule::ExtractField => fits_integer(lanes, first) && is_field(second, third),
    }
}

/// Whether operands of these types fit the outcome of an operation, whose opcode is `op`.
pub fn fits_types(types: &TypeTable, op: u16, outcome: u32, tys: OperandTypes) -> bool
    ensures { result ≡ spec.fits types.now op outcome (operand_type tys) }
{
    match rule_of(op) {
        Some(rule) => fits_rule(types, rule, outcome, tys),
        None => false,
    }
}
