//! The function that an instruction stands in.
ghost use Rattle.std.specs.Prelude.{◌≡◌, ◌<◌, ◌+◌, ◌^◌};
ghost use Rattle.spv_bodies.specs.Places as spec;

use spv_base::Inst;
use spv_index::id_operand;
use spv_ops::op;

/// The function at hand: the type that it returns, its function type, and how many of its parameters came.
#[derive(Clone, Copy)]
pub struct Within {
    pub returns: Option<u32>,
    pub ty: Option<u32>,
    pub parameters: usize,
}

impl Within {
    /// In no function.
    pub fn nowhere() -> Within
        ensures { result ≡ spec.nowhere }
    {
        Within {
            returns: None,
            ty: None,
            parameters: 0,
        }
    }

    /// The function at hand behind an instruction.
    pub fn after(self, inst: &Inst) -> Within
        requires { self.parameters + 1 < 2 ^ 64 }
        ensures { result ≡ spec.within_after self inst.now }
    {
        match inst.op {
            op::FUNCTION => Within {
                returns: Some(inst.ty),
                ty: id_operand(inst, 1),
                parameters: 0,
            },
            op::FUNCTION_PARAMETER => Within {
                parameters: self.parameters + 1,
                ..self
            },
            _ => self,
        }
    }
}
