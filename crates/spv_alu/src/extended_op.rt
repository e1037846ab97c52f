//! The operations that give two integers.
ghost use Rattle.std.specs.Prelude.{◌≡◌, ◌^◌, ◌<◌};
ghost use Rattle.spv_alu.specs.Integers.{IsWidth};
ghost use Rattle.spv_alu.specs.Extended.{extended_results, extended_lanes, extended_op};

use crate::arithmetic;
use crate::results::{defined_if, integer};
use spv_base::Cell;
use spv_ops::op;

/// An operation that gives two integers.
#[derive(Clone, Copy)]
pub enum ExtendedOp {
    IAddCarry,
    ISubBorrow,
    UMulExtended,
    SMulExtended,
}

impl ExtendedOp {
    /// The operation of an opcode, if it is one of these.
    #[tactic(auto, unfolding(crate::specs::Extended::extended_op))]
    pub fn of(opcode: u16) -> Option<ExtendedOp>
        ensures { result ≡ extended_op opcode }
    {
        match opcode {
            op::I_ADD_CARRY => Some(ExtendedOp::IAddCarry),
            op::I_SUB_BORROW => Some(ExtendedOp::ISubBorrow),
            op::U_MUL_EXTENDED => Some(ExtendedOp::UMulExtended),
            op::S_MUL_EXTENDED => Some(ExtendedOp::SMulExtended),
            _ => None,
        }
    }

    /// The lanes of the operation: the low-order part, and the carry, the borrow or the high-order part.
    pub fn apply(self, a: Cell, b: Cell) -> (Cell, Cell)
        requires first { IsWidth a.width }
        requires second { b.width ≡ a.width }
        ensures lanes { result ≡ extended_lanes self a b }
        ensures low_width { result.0.width ≡ a.width }
        ensures high_width { result.1.width ≡ a.width }
    {
        let defined = a.defined && b.defined;
        let (low, high) = self.results(a.width, a.bits, b.bits);
        (defined_if(defined, low), defined_if(defined, high))
    }

    /// The results at the bits of the operands.
    #[tactic(auto, unfolding(crate::specs::Extended::extended_row))]
    fn results(self, width: u8, x: u64, y: u64) -> (Cell, Cell)
        requires width { IsWidth width }
        requires x { x < 2 ^ width }
        requires y { y < 2 ^ width }
        ensures { result ≡ extended_results self width x y }
    {
        match self {
            ExtendedOp::IAddCarry => (arithmetic::sum(x, y, width), arithmetic::carry(x, y, width)),
            ExtendedOp::ISubBorrow => (
                arithmetic::difference(x, y, width),
                integer((x < y) as u64, width),
            ),
            ExtendedOp::UMulExtended => (
                arithmetic::product(x, y, width),
                arithmetic::high_product(x, y, width),
            ),
            ExtendedOp::SMulExtended => arithmetic::signed_products(x, y, width),
        }
    }
}
