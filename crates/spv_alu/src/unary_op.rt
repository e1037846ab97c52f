//! The unary operations.
ghost use Rattle.std.specs.Prelude.{◌≡◌, ◌^◌, ◌<◌, ◌↔◌, IsTrue};
ghost use Rattle.spv_alu.specs.Unary.{unary_row, UnaryWidths, unary_result, unary_lane, unary_op};

use crate::integers::is_width;
use crate::{arithmetic, bits, integers, results};
use spv_base::Cell;
use spv_ops::op;

/// A unary operation on lanes.
#[derive(Clone, Copy)]
pub enum UnaryOp {
    UConvert,
    SConvert,
    SNegate,
    LogicalNot,
    Not,
    BitReverse,
    BitCount,
}

impl UnaryOp {
    /// The operation of an opcode, if it is one of these.
    #[tactic(auto, unfolding(crate::specs::Unary::unary_op))]
    pub fn of(opcode: u16) -> Option<UnaryOp>
        ensures { result ≡ unary_op opcode }
    {
        match opcode {
            op::U_CONVERT => Some(UnaryOp::UConvert),
            op::S_CONVERT => Some(UnaryOp::SConvert),
            op::S_NEGATE => Some(UnaryOp::SNegate),
            op::LOGICAL_NOT => Some(UnaryOp::LogicalNot),
            op::NOT => Some(UnaryOp::Not),
            op::BIT_REVERSE => Some(UnaryOp::BitReverse),
            op::BIT_COUNT => Some(UnaryOp::BitCount),
            _ => None,
        }
    }

    /// Whether the operand and the result may have these widths.
    #[tactic(auto, unfolding(crate::specs::Unary::unary_row))]
    pub fn takes(self, from: u8, to: u8) -> bool
        ensures { IsTrue result ↔ UnaryWidths (unary_row self) from to }
    {
        match self {
            UnaryOp::UConvert | UnaryOp::SConvert => is_width(from) && is_width(to),
            UnaryOp::SNegate | UnaryOp::Not | UnaryOp::BitReverse | UnaryOp::BitCount => {
                is_width(from) && to == from
            }
            UnaryOp::LogicalNot => from == 1 && to == 1,
        }
    }

    /// The lane of the operation, with a result of this width.
    pub fn apply(self, a: Cell, width: u8) -> Cell
        requires { UnaryWidths (unary_row self) a.width width }
        ensures lane { result ≡ unary_lane self a width }
        ensures width { result.width ≡ width }
    {
        results::defined_if(a.defined, self.result(a.width, a.bits, width))
    }

    /// The result at an operand of a width with these bits.
    #[tactic(auto, unfolding(crate::specs::Unary::unary_row))]
    fn result(self, from: u8, x: u64, width: u8) -> Cell
        requires widths { UnaryWidths (unary_row self) from width }
        requires fits { x < 2 ^ from }
        ensures lane { result ≡ unary_result (unary_row self) from x width }
        ensures width { result.width ≡ width }
    {
        match self {
            UnaryOp::UConvert => results::integer(x, width),
            UnaryOp::SConvert => results::signed_integer(integers::signed(x, from), width),
            UnaryOp::SNegate => arithmetic::difference(0, x, width),
            UnaryOp::LogicalNot => results::truth(x != 1),
            UnaryOp::Not => bits::complement(x, width),
            UnaryOp::BitReverse => bits::reversed(x, width),
            UnaryOp::BitCount => bits::count(x, width),
        }
    }
}
