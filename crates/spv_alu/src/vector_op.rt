//! The operations on all lanes of a vector of Booleans.
ghost use Rattle.std.specs.Prelude.{◌≡◌};
ghost use Rattle.spv_alu.specs.Vectors.{vector_row, vector_lane, vector_op};

use crate::results::{defined_if, truth};
use spv_base::Cell;
use spv_ops::op;

/// An operation on all lanes of a vector.
#[derive(Clone, Copy)]
pub enum VectorOp {
    Any,
    All,
}

impl VectorOp {
    /// The operation of an opcode, if it is one of these.
    #[tactic(auto, unfolding(crate::specs::Vectors::vector_op))]
    pub fn of(opcode: u16) -> Option<VectorOp>
        ensures { result ≡ vector_op opcode }
    {
        match opcode {
            op::ANY => Some(VectorOp::Any),
            op::ALL => Some(VectorOp::All),
            _ => None,
        }
    }

    /// The Boolean of the operation.
    pub fn apply(self, lanes: &[Cell]) -> Cell
        ensures { result ≡ vector_lane self lanes.now }
    {
        defined_if(
            lanes.iter().all(|lane| lane.defined),
            truth(self.holds(lanes)),
        )
    }

    /// Whether it holds of the bits of the lanes.
    #[tactic(auto, unfolding(crate::specs::Vectors::vector_row))]
    fn holds(self, lanes: &[Cell]) -> bool
        ensures { result ≡ vector_row self lanes.now }
    {
        match self {
            VectorOp::Any => lanes.iter().any(|lane| lane.bits == 1),
            VectorOp::All => lanes.iter().all(|lane| lane.bits == 1),
        }
    }
}
