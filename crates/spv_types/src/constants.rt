//! Which instructions define constants (SPIR-V 1.6 section 3.42.7).
ghost use Rattle.std.specs.Prelude.{◌≡◌};
ghost use Rattle.spv_types.specs.Constants as spec;

use spv_ops::op;

/// Whether an opcode is that of a constant.
pub fn is_constant(op: u16) -> bool
    ensures { result ≡ spec.is_constant op }
{
    op >= op::CONSTANT_TRUE && op <= op::CONSTANT_COMPOSITE
        || op == op::CONSTANT_NULL
        || op >= op::SPEC_CONSTANT_TRUE && op <= op::SPEC_CONSTANT_OP
}
