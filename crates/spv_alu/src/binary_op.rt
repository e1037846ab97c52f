//! The binary operations.
ghost use Rattle.std.specs.Prelude.{◌≡◌, ◌^◌, ◌<◌, ◌↔◌, IsTrue};
ghost use Rattle.spv_alu.specs.Binary.{binary_row, BinaryWidths, binary_width, binary_result, binary_lane, binary_op};

use crate::integers::{is_width, signed};
use crate::results::{integer, truth};
use crate::{arithmetic, division, results, shifts};
use spv_base::Cell;
use spv_ops::op;

/// A binary operation on lanes.
#[derive(Clone, Copy)]
pub enum BinaryOp {
    IAdd,
    ISub,
    IMul,
    UDiv,
    SDiv,
    UMod,
    SRem,
    SMod,
    LogicalEqual,
    LogicalNotEqual,
    LogicalOr,
    LogicalAnd,
    IEqual,
    INotEqual,
    UGreaterThan,
    SGreaterThan,
    UGreaterThanEqual,
    SGreaterThanEqual,
    ULessThan,
    SLessThan,
    ULessThanEqual,
    SLessThanEqual,
    ShiftRightLogical,
    ShiftRightArithmetic,
    ShiftLeftLogical,
    BitwiseOr,
    BitwiseXor,
    BitwiseAnd,
}

impl BinaryOp {
    /// The operation of an opcode, if it is one of these.
    #[tactic(auto, unfolding(crate::specs::Binary::binary_op))]
    pub fn of(opcode: u16) -> Option<BinaryOp>
        ensures { result ≡ binary_op opcode }
    {
        match opcode {
            op::I_ADD => Some(BinaryOp::IAdd),
            op::I_SUB => Some(BinaryOp::ISub),
            op::I_MUL => Some(BinaryOp::IMul),
            op::U_DIV => Some(BinaryOp::UDiv),
            op::S_DIV => Some(BinaryOp::SDiv),
            op::U_MOD => Some(BinaryOp::UMod),
            op::S_REM => Some(BinaryOp::SRem),
            op::S_MOD => Some(BinaryOp::SMod),
            op::LOGICAL_EQUAL => Some(BinaryOp::LogicalEqual),
            op::LOGICAL_NOT_EQUAL => Some(BinaryOp::LogicalNotEqual),
            op::LOGICAL_OR => Some(BinaryOp::LogicalOr),
            op::LOGICAL_AND => Some(BinaryOp::LogicalAnd),
            op::I_EQUAL => Some(BinaryOp::IEqual),
            op::I_NOT_EQUAL => Some(BinaryOp::INotEqual),
            op::U_GREATER_THAN => Some(BinaryOp::UGreaterThan),
            op::S_GREATER_THAN => Some(BinaryOp::SGreaterThan),
            op::U_GREATER_THAN_EQUAL => Some(BinaryOp::UGreaterThanEqual),
            op::S_GREATER_THAN_EQUAL => Some(BinaryOp::SGreaterThanEqual),
            op::U_LESS_THAN => Some(BinaryOp::ULessThan),
            op::S_LESS_THAN => Some(BinaryOp::SLessThan),
            op::U_LESS_THAN_EQUAL => Some(BinaryOp::ULessThanEqual),
            op::S_LESS_THAN_EQUAL => Some(BinaryOp::SLessThanEqual),
            op::SHIFT_RIGHT_LOGICAL => Some(BinaryOp::ShiftRightLogical),
            op::SHIFT_RIGHT_ARITHMETIC => Some(BinaryOp::ShiftRightArithmetic),
            op::SHIFT_LEFT_LOGICAL => Some(BinaryOp::ShiftLeftLogical),
            op::BITWISE_OR => Some(BinaryOp::BitwiseOr),
            op::BITWISE_XOR => Some(BinaryOp::BitwiseXor),
            op::BITWISE_AND => Some(BinaryOp::BitwiseAnd),
            _ => None,
        }
    }

    /// Whether operands may have these widths.
    #[tactic(auto, unfolding(crate::specs::Binary::binary_row))]
    pub fn takes(self, first: u8, second: u8) -> bool
        ensures { IsTrue result ↔ BinaryWidths (binary_row self) first second }
    {
        match self {
            BinaryOp::LogicalEqual
            | BinaryOp::LogicalNotEqual
            | BinaryOp::LogicalOr
            | BinaryOp::LogicalAnd => first == 1 && second == 1,
            BinaryOp::ShiftRightLogical
            | BinaryOp::ShiftRightArithmetic
            | BinaryOp::ShiftLeftLogical => is_width(first) && is_width(second),
            BinaryOp::IAdd
            | BinaryOp::ISub
            | BinaryOp::IMul
            | BinaryOp::UDiv
            | BinaryOp::SDiv
            | BinaryOp::UMod
            | BinaryOp::SRem
            | BinaryOp::SMod
            | BinaryOp::IEqual
            | BinaryOp::INotEqual
            | BinaryOp::UGreaterThan
            | BinaryOp::SGreaterThan
            | BinaryOp::UGreaterThanEqual
            | BinaryOp::SGreaterThanEqual
            | BinaryOp::ULessThan
            | BinaryOp::SLessThan
            | BinaryOp::ULessThanEqual
            | BinaryOp::SLessThanEqual
            | BinaryOp::BitwiseOr
            | BinaryOp::BitwiseXor
            | BinaryOp::BitwiseAnd => is_width(first) && second == first,
        }
    }

    /// The lane of the operation.
    pub fn apply(self, a: Cell, b: Cell) -> Cell
        requires { BinaryWidths (binary_row self) a.width b.width }
        ensures lane { result ≡ binary_lane self a b }
        ensures width { result.width ≡ binary_width (binary_row self) a.width }
    {
        results::defined_if(a.defined && b.defined, self.result(a, b))
    }

    /// The result at the bits of the operands.
    #[tactic(auto, unfolding(crate::specs::Binary::binary_row))]
    fn result(self, a: Cell, b: Cell) -> Cell
        requires { BinaryWidths (binary_row self) a.width b.width }
        ensures lane { result ≡ binary_result (binary_row self) a.width a.bits b.bits }
        ensures width { result.width ≡ binary_width (binary_row self) a.width }
    {
        let Cell { bits: x, width, .. } = a;
        let y = b.bits;
        match self {
            BinaryOp::IAdd => arithmetic::sum(x, y, width),
            BinaryOp::ISub => arithmetic::difference(x, y, width),
            BinaryOp::IMul => arithmetic::product(x, y, width),
            BinaryOp::UDiv => division::quotient(x, y, width),
            BinaryOp::SDiv => division::signed_quotient(x, y, width),
            BinaryOp::UMod => division::remainder(x, y, width),
            BinaryOp::SRem => division::signed_remainder(x, y, width),
            BinaryOp::SMod => division::signed_modulus(x, y, width),
            BinaryOp::LogicalEqual | BinaryOp::IEqual => truth(x == y),
            BinaryOp::LogicalNotEqual | BinaryOp::INotEqual => truth(x != y),
            BinaryOp::LogicalOr => truth(x == 1 || y == 1),
            BinaryOp::LogicalAnd => truth(x == 1 && y == 1),
            BinaryOp::UGreaterThan => truth(x > y),
            BinaryOp::SGreaterThan => truth(signed(x, width) > signed(y, width)),
            BinaryOp::UGreaterThanEqual => truth(x >= y),
            BinaryOp::SGreaterThanEqual => truth(signed(x, width) >= signed(y, width)),
            BinaryOp::ULessThan => truth(x < y),
            BinaryOp::SLessThan => truth(signed(x, width) < signed(y, width)),
            BinaryOp::ULessThanEqual => truth(x <= y),
            BinaryOp::SLessThanEqual => truth(signed(x, width) <= signed(y, width)),
            BinaryOp::ShiftRightLogical => shifts::right_logical(x, y, width),
            BinaryOp::ShiftRightArithmetic => shifts::right_arithmetic(x, y, width),
            BinaryOp::ShiftLeftLogical => shifts::left_logical(x, y, width),
            BinaryOp::BitwiseOr => integer(x | y, width),
            BinaryOp::BitwiseXor => integer(x ^ y, width),
            BinaryOp::BitwiseAnd => integer(x & y, width),
        }
    }
}
