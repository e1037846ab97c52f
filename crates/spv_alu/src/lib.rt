//! The lane-wise operations of SPIR-V on integers and Booleans. An undefined operand makes a lane undefined.
#![tactic(auto)]

ghost use Rattle.std.specs.Prelude.{◌≡◌, Some};
ghost use Rattle.std.specs.Option.{unwrap_or};
ghost use Rattle.spv_base.specs.Cell.{undefined_cell};
ghost use Rattle.spv_alu.specs.Unary.{UnaryFits, unary_of};
ghost use Rattle.spv_alu.specs.Binary.{BinaryFits, binary_of, binary_width_of};
ghost use Rattle.spv_alu.specs.Extended.{extended_of};
ghost use Rattle.spv_alu.specs.Fields.{field_of};
ghost use Rattle.spv_alu.specs.Glsl.{glsl_of};
ghost use Rattle.spv_alu.specs.Integers.{IsWidth};
ghost use Rattle.spv_alu.specs.Select.{select_of};
ghost use Rattle.spv_alu.specs.Vectors.{any_all_of};

pub mod arithmetic;
pub mod binary_op;
pub mod bitcasts;
pub mod bits;
pub mod division;
pub mod extended_op;
pub mod field_op;
pub mod glsl_op;
pub mod integers;
pub mod results;
pub mod shifts;
pub mod unary_op;
pub mod vector_op;

pub use binary_op::BinaryOp;
pub use bitcasts::bitcast;
pub use extended_op::ExtendedOp;
pub use field_op::FieldOp;
pub use glsl_op::GlslOp;
use spv_base::Cell;
pub use unary_op::UnaryOp;
pub use vector_op::VectorOp;

/// The lane of a unary operation, by its opcode, with a result of this width.
#[tactic(auto, unfolding(crate::specs::Unary::unary_of))]
pub fn unary(op: u16, a: Cell, width: u8) -> Cell
    requires { UnaryFits op a.width width }
    ensures lane { unary_of op a width ≡ Some result }
    ensures width { result.width ≡ width }
{
    match UnaryOp::of(op) {
        Some(operation) => operation.apply(a, width),
        None => unreachable!(),
    }
}

/// The lane of a binary operation, by its opcode.
#[tactic(auto, unfolding(crate::specs::Binary::binary_of, crate::specs::Binary::binary_width_of))]
pub fn binary(op: u16, a: Cell, b: Cell) -> Cell
    requires { BinaryFits op a.width b.width }
    ensures lane { binary_of op a b ≡ Some result }
    ensures width { binary_width_of op a.width ≡ Some result.width }
{
    match BinaryOp::of(op) {
        Some(operation) => operation.apply(a, b),
        None => unreachable!(),
    }
}

/// The lane of OpSelect: the first object where the condition is true, else the second.
pub fn select(c: Cell, a: Cell, b: Cell) -> Cell
    requires { b.width ≡ a.width }
    ensures lane { result ≡ select_of c a b }
    ensures width { result.width ≡ a.width }
{
    let chosen = if c.bits == 1 { a } else { b };
    results::defined_if(c.defined && a.defined && b.defined, chosen)
}

/// The Boolean of OpAny or OpAll on the lanes of a vector; undefined for another opcode.
#[tactic(auto, unfolding(crate::specs::Vectors::any_all_of))]
pub fn any_all(op: u16, lanes: &[Cell]) -> Cell
    ensures lane { result ≡ unwrap_or (any_all_of op lanes.now) (undefined_cell 1) }
    ensures width { result.width ≡ 1 }
{
    match VectorOp::of(op) {
        Some(operation) => operation.apply(lanes),
        None => results::undefined(1),
    }
}

/// The lane of an operation on a field of bits, by its opcode; undefined for another opcode. Only an insertion looks at
/// `insert`.
#[tactic(auto, unfolding(crate::specs::Fields::field_of))]
pub fn field(op: u16, base: Cell, insert: Cell, offset: Cell, count: Cell) -> Cell
    requires { IsWidth base.width }
    ensures lane { result ≡ unwrap_or (field_of op base insert offset count) (undefined_cell base.width) }
    ensures width { result.width ≡ base.width }
{
    match FieldOp::of(op) {
        Some(operation) => operation.apply(base, insert, offset, count),
        None => results::undefined(base.width),
    }
}

/// The lanes of an operation that gives two integers, by its opcode; both undefined for another opcode.
#[tactic(auto, unfolding(crate::specs::Extended::extended_of))]
pub fn extended(op: u16, a: Cell, b: Cell) -> (Cell, Cell)
    requires first { IsWidth a.width }
    requires second { b.width ≡ a.width }
    ensures lanes { result ≡ unwrap_or (extended_of op a b) (undefined_cell a.width, undefined_cell a.width) }
    ensures low_width { result.0.width ≡ a.width }
    ensures high_width { result.1.width ≡ a.width }
{
    match ExtendedOp::of(op) {
        Some(operation) => operation.apply(a, b),
        None => (results::undefined(a.width), results::undefined(a.width)),
    }
}

/// The lane of an extended instruction of GLSL.std.450, by its number, on as many of the operands as it has; undefined for
/// another number.
#[tactic(auto, unfolding(crate::specs::Glsl::glsl_of))]
pub fn glsl(number: u32, a: Cell, b: Cell, c: Cell) -> Cell
    requires first { IsWidth a.width }
    requires second { b.width ≡ a.width }
    requires third { c.width ≡ a.width }
    ensures lane { result ≡ unwrap_or (glsl_of number a b c) (undefined_cell a.width) }
    ensures width { result.width ≡ a.width }
{
    match GlslOp::of(number) {
        Some(operation) => operation.apply(a, b, c),
        None => results::undefined(a.width),
    }
}
