//! The rules of lane-wise operations, and of the instructions of an imported set.
ghost use Rattle.std.specs.Prelude.{◌≡◌};
ghost use Rattle.spv_index.specs.Classes.{is_debug};
ghost use Rattle.spv_typing.specs.Operands.{types_by};
ghost use Rattle.spv_bodies.specs.Lanes as spec;

use crate::context::Context;
use spv_base::Inst;
use spv_index::{classes, literal_operand};
use spv_typing::{OperandTypes, fits_glsl_types, fits_types};

/// The types of the first four operands.
fn types_of(context: &Context, inst: &Inst) -> OperandTypes
    ensures { result ≡ types_by (spec.types_after context.now inst.now 0) }
{
    OperandTypes {
        first: context.type_at(inst, 0),
        second: context.type_at(inst, 1),
        third: context.type_at(inst, 2),
        fourth: context.type_at(inst, 3),
    }
}

/// The types of the four operands after a set and a number.
fn extended_types_of(context: &Context, inst: &Inst) -> OperandTypes
    ensures { result ≡ types_by (spec.types_after context.now inst.now 2) }
{
    OperandTypes {
        first: context.type_at(inst, 2),
        second: context.type_at(inst, 3),
        third: context.type_at(inst, 4),
        fourth: context.type_at(inst, 5),
    }
}

/// Whether the operands of a lane-wise operation fit its result.
#[tactic(auto, using(spv_typing::proofs::Exports::fits_by))]
pub fn keeps_lanes(context: &Context, inst: &Inst) -> bool
    ensures { result ≡ spec.keeps_lanes context.now inst.now }
{
    fits_types(context.types(), inst.op, inst.ty, types_of(context, inst))
}

/// Whether an instruction is of a set that has no meaning at run time.
fn is_debug(context: &Context, inst: &Inst) -> bool
    ensures { result ≡ is_debug context.now.sets inst.now }
{
    classes::is_debug(context.sets(), inst)
}

/// Whether the operands of an instruction of GLSL.std.450 fit its result.
#[tactic(auto, using(spv_typing::proofs::Exports::fits_glsl_by))]
fn fits_number(context: &Context, inst: &Inst, number: u32) -> bool
    ensures { result ≡ spec.fits_number context.now inst.now number }
{
    let count = inst.operands.len().saturating_sub(2);
    fits_glsl_types(
        context.types(),
        number,
        count,
        inst.ty,
        extended_types_of(context, inst),
    )
}

/// Whether the operands of an instruction of an imported set fit its result, where the set has a meaning at run time.
pub fn keeps_extended(context: &Context, inst: &Inst) -> bool
    ensures { result ≡ spec.keeps_extended context.now inst.now }
{
    is_debug(context, inst)
        || match literal_operand(inst, 1) {
            Some(number) => fits_number(context, inst, number),
            None => false,
        }
}
