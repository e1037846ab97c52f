//! Which instructions compute a value.
ghost use Rattle.std.specs.Prelude.{◌≡◌};
ghost use Rattle.std.specs.Option.{option_and_then, option_map};
ghost use Rattle.spv_alu.specs.Glsl.{glsl_op};
ghost use Rattle.spv_base.specs.Entries.{reads};
ghost use Rattle.spv_index.specs.Operands as operands;
ghost use Rattle.spv_results.specs.Computations as spec;

use spv_alu::{BinaryOp, ExtendedOp, FieldOp, GlslOp, UnaryOp, VectorOp};
use spv_base::Inst;
use spv_index::literal_operand;
use spv_ops::op;

/// What an instruction computes (SPIR-V 1.6 sections 3.42.11 to 3.42.15, and GLSL.std.450).
#[derive(Clone, Copy)]
pub enum Computation {
    /// OpUndef: a value of which nothing is defined.
    Undef,
    Unary(UnaryOp),
    Bitcast,
    /// OpAny and OpAll.
    Truth(VectorOp),
    Binary(BinaryOp),
    /// The fields of bits.
    Field(FieldOp),
    /// The operations that give a struct of two.
    Extended(ExtendedOp),
    Select,
    /// An instruction of GLSL.std.450.
    Glsl(GlslOp),
    ExtractDynamic,
    InsertDynamic,
    Shuffle,
    Construct,
    Extract,
    Insert,
    /// OpCopyObject and OpCopyLogical.
    Copy,
}

impl Computation {
    /// What an instruction computes, where it computes a value.
    #[tactic(auto, unfolding(crate::specs::Computations::computation_of))]
    pub fn of(inst: &Inst) -> Option<Computation>
        ensures { result ≡ spec.computation_of inst.now }
    {
        if inst.op == op::EXT_INST {
            of_set(inst)
        } else {
            by_opcode(inst.op)
        }
    }
}

/// What an instruction of an imported set computes.
fn of_set(inst: &Inst) -> Option<Computation>
    ensures { result ≡ option_map Computation.Glsl (option_and_then glsl_op (operands.literal_operand inst.now 1)) }
{
    let operation = GlslOp::of(literal_operand(inst, 1)?)?;
    Some(Computation::Glsl(operation))
}

/// What the instructions with an opcode compute.
fn by_opcode(opcode: u16) -> Option<Computation>
    ensures { result ≡ spec.by_opcode opcode }
{
    if let Some(other) = other(opcode) {
        return Some(other);
    }
    if let Some(operation) = UnaryOp::of(opcode) {
        return Some(Computation::Unary(operation));
    }
    if let Some(operation) = BinaryOp::of(opcode) {
        return Some(Computation::Binary(operation));
    }
    if let Some(operation) = FieldOp::of(opcode) {
        return Some(Computation::Field(operation));
    }
    if let Some(operation) = ExtendedOp::of(opcode) {
        return Some(Computation::Extended(operation));
    }
    Some(Computation::Truth(VectorOp::of(opcode)?))
}

/// The same of the opcodes that no table of lanes has.
fn other(opcode: u16) -> Option<Computation>
    ensures { result ≡ reads opcode spec.others }
{
    match opcode {
        op::UNDEF => Some(Computation::Undef),
        op::VECTOR_EXTRACT_DYNAMIC => Some(Computation::ExtractDynamic),
        op::VECTOR_INSERT_DYNAMIC => Some(Computation::InsertDynamic),
        op::VECTOR_SHUFFLE => Some(Computation::Shuffle),
        op::COMPOSITE_CONSTRUCT => Some(Computation::Construct),
        op::COMPOSITE_EXTRACT => Some(Computation::Extract),
        op::COMPOSITE_INSERT => Some(Computation::Insert),
        op::COPY_OBJECT | op::COPY_LOGICAL => Some(Computation::Copy),
        op::BITCAST => Some(Computation::Bitcast),
        op::SELECT => Some(Computation::Select),
        _ => None,
    }
}
