//! The values of constants.
ghost use Rattle.std.specs.Prelude.{◌≡◌, ◌≢◌, IfOk};
ghost use Rattle.std.specs.List.{flat_map};
ghost use Rattle.spv_base.specs.declared.instructions.Operand.{Operand as Given};
ghost use Rattle.spv_index.specs.Operands.{id_in};
ghost use Rattle.spv_consts.specs.State.{given_cells};
ghost use Rattle.spv_consts.specs.Evaluation as spec;

use crate::context::Context;
use crate::literals::literal_lane;
use crate::operations::{PairOp, by_one, by_two, lane_width, selected};
use crate::overrides::overridden;
use crate::rules::opcode_of;
use crate::walk::Walk;
use spv_alu::{UnaryOp, results};
use spv_base::{Cell, Inst, NoMemory, Operand};
use spv_index::{id_in, id_operand};
use spv_ops::op;
use std::alloc::Global;

/// The lane of a scalar constant without its override.
fn scalar_lane(walk: &Walk, inst: &Inst) -> Cell
    ensures { result ≡ spec.scalar_lane walk.now inst.now }
{
    match inst.op {
        op::CONSTANT_TRUE | op::SPEC_CONSTANT_TRUE => results::truth(true),
        op::CONSTANT_FALSE | op::SPEC_CONSTANT_FALSE => results::truth(false),
        _ => literal_lane(&walk.types, inst),
    }
}

/// The cells of constituents, one after another.
fn constituents(
    alloc: Global,
    walk: &Walk,
    context: &Context,
    operands: &[Operand],
) -> Result<Vec<Cell>, NoMemory>
    ensures { IfOk result (λ cells. cells.items ≡ flat_map (λ (o : Given). given_cells context.now walk.now (id_in o)) operands.now) }
{
    let mut cells = Vec::new(alloc);
    for operand in operands {
        walk.append_given(&mut cells, context, id_in(operand))?;
    }
    Ok(cells)
}

/// The cells of an operand of an OpSpecConstantOp.
fn operand(
    alloc: Global,
    walk: &Walk,
    context: &Context,
    inst: &Inst,
    place: usize,
) -> Result<Vec<Cell>, NoMemory>
    ensures { IfOk result (λ cells. cells.items ≡ spec.operand_at context.now walk.now inst.now place) }
{
    let mut cells = Vec::new(alloc);
    walk.append_given(&mut cells, context, id_operand(inst, place))?;
    Ok(cells)
}

/// The cells of OpSelect.
fn select(alloc: Global, walk: &Walk, context: &Context, inst: &Inst) -> Result<Vec<Cell>, NoMemory>
    ensures { IfOk result (λ cells. cells.items ≡ spec.select_cells context.now walk.now inst.now) }
{
    let conditions = operand(alloc, walk, context, inst, 1)?;
    let a = operand(alloc, walk, context, inst, 2)?;
    let b = operand(alloc, walk, context, inst, 3)?;
    selected(alloc, conditions.as_slice(), a.as_slice(), b.as_slice())
}

/// The cells of a unary operation.
fn unary(
    alloc: Global,
    walk: &Walk,
    context: &Context,
    inst: &Inst,
    op: u16,
) -> Result<Vec<Cell>, NoMemory>
    ensures { IfOk result (λ cells. cells.items ≡ spec.unary_cells context.now walk.now inst.now op) }
{
    let width = lane_width(&walk.types, inst.ty);
    let a = operand(alloc, walk, context, inst, 1)?;
    by_one(alloc, op, width, a.as_slice())
}

/// The cells of a binary operation.
fn binary(
    alloc: Global,
    walk: &Walk,
    context: &Context,
    inst: &Inst,
    op: u16,
) -> Result<Vec<Cell>, NoMemory>
    ensures { IfOk result (λ cells. cells.items ≡ spec.binary_cells context.now walk.now inst.now op) }
{
    let a = operand(alloc, walk, context, inst, 1)?;
    let b = operand(alloc, walk, context, inst, 2)?;
    by_two(alloc, &PairOp::Binary { op }, a.as_slice(), b.as_slice())
}

/// The cells of an OpSpecConstantOp, by its opcode.
fn computed_cells(
    alloc: Global,
    walk: &Walk,
    context: &Context,
    inst: &Inst,
    opcode: u16,
) -> Result<Vec<Cell>, NoMemory>
    ensures { IfOk result (λ cells. cells.items ≡ spec.computed_cells context.now walk.now inst.now opcode) }
{
    if opcode == op::SELECT {
        return select(alloc, walk, context, inst);
    }
    if UnaryOp::of(opcode).is_some() {
        return unary(alloc, walk, context, inst, opcode);
    }
    binary(alloc, walk, context, inst, opcode)
}

/// The cells of an OpSpecConstantOp, and none where its opcode is no opcode.
fn operation(
    alloc: Global,
    walk: &Walk,
    context: &Context,
    inst: &Inst,
) -> Result<Vec<Cell>, NoMemory>
    ensures { IfOk result (λ cells. cells.items ≡ spec.operation_cells context.now walk.now inst.now) }
{
    match opcode_of(inst) {
        Some(opcode) => computed_cells(alloc, walk, context, inst, opcode),
        None => Ok(Vec::new(alloc)),
    }
}

/// The cells of a constant other than OpConstantNull.
pub(crate) fn cells_of(
    alloc: Global,
    walk: &Walk,
    context: &Context,
    inst: &Inst,
) -> Result<Vec<Cell>, NoMemory>
    requires { inst.now.op ≢ 46 }
    ensures { IfOk result (λ cells. cells.items ≡ spec.cells_of context.now walk.now inst.now) }
{
    match inst.op {
        op::CONSTANT_COMPOSITE | op::SPEC_CONSTANT_COMPOSITE => {
            constituents(alloc, walk, context, inst.operands.as_slice())
        }
        op::SPEC_CONSTANT_OP => operation(alloc, walk, context, inst),
        _ => Ok(vec![in alloc; overridden(scalar_lane(walk, inst), context.override_of(inst))]?),
    }
}
