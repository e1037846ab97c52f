//! The operands of an operation, by their types.

/// The types of the operands of an operation, which has at most four; none where there is no such operand, or it has no type.
#[derive(Clone, Copy)]
pub struct OperandTypes {
    pub first: Option<u32>,
    pub second: Option<u32>,
    pub third: Option<u32>,
    pub fourth: Option<u32>,
}
