//! The leaves that an operation of OpSpecConstantOp gives.
ghost use Rattle.std.specs.Prelude.{◌≡◌, IfOk, map, slice_get};
ghost use Rattle.std.specs.Simd.Lanes.{zip2};
ghost use Rattle.spv_alu.specs.Lanes.{zip3};
ghost use Rattle.spv_types.specs.Types.{form_of};
ghost use Rattle.spv_consts.specs.Lanes.{select_lane, unary_lane};
ghost use Rattle.spv_consts.specs.Operations as spec;

use crate::lanes::{binary_lane, select_lane, unary_lane};
use spv_base::{Cell, NoMemory};
use spv_types::{Form, TypeTable};
use std::alloc::Global;

/// An operation on two lanes.
#[derive(Clone, Copy)]
pub(crate) enum PairOp {
    Binary { op: u16 },
    Select { condition: Cell },
}

impl PairOp {
    fn lane(&self, a: Cell, b: Cell) -> Cell
        ensures { result ≡ spec.lane_of self.now a b }
    {
        match self {
            PairOp::Binary { op } => binary_lane(*op, a, b),
            PairOp::Select { condition } => select_lane(*condition, a, b),
        }
    }
}

fn cell_at(row: &[Cell], n: usize) -> Option<Cell>
    ensures { result ≡ slice_get row.now n }
{
    row.get(n).copied()
}

/// A unary operation on each lane of a row, with results of a width.
pub(crate) fn by_one(alloc: Global, op: u16, width: u8, row: &[Cell]) -> Result<Vec<Cell>, NoMemory>
    ensures { IfOk result (λ cells. cells.items ≡ map (unary_lane op width) row.now) }
{
    let mut cells = Vec::new(alloc);
    for a in row {
        cells.push(unary_lane(op, width, *a))?;
    }
    Ok(cells)
}

/// An operation on the lanes of two rows, one after another.
pub(crate) fn by_two(
    alloc: Global,
    op: &PairOp,
    first: &[Cell],
    second: &[Cell],
) -> Result<Vec<Cell>, NoMemory>
    ensures { IfOk result (λ cells. cells.items ≡ zip2 (spec.lane_of op.now) first.now second.now) }
{
    let mut cells = Vec::new(alloc);
    for (n, a) in first.iter().enumerate() {
        let Some(b) = cell_at(second, n) else {
            continue;
        };
        cells.push(op.lane(*a, b))?;
    }
    Ok(cells)
}

/// Select with a condition for each lane of two rows.
fn by_three(
    alloc: Global,
    conditions: &[Cell],
    first: &[Cell],
    second: &[Cell],
) -> Result<Vec<Cell>, NoMemory>
    ensures { IfOk result (λ cells. cells.items ≡ zip3 select_lane conditions.now first.now second.now) }
{
    let mut cells = Vec::new(alloc);
    for (n, condition) in conditions.iter().enumerate() {
        let Some(a) = cell_at(first, n) else {
            continue;
        };
        let Some(b) = cell_at(second, n) else {
            continue;
        };
        cells.push(select_lane(*condition, a, b))?;
    }
    Ok(cells)
}

/// Select: one condition for all leaves, or one for each.
pub(crate) fn selected(
    alloc: Global,
    conditions: &[Cell],
    first: &[Cell],
    second: &[Cell],
) -> Result<Vec<Cell>, NoMemory>
    ensures { IfOk result (λ cells. cells.items ≡ spec.selected conditions.now first.now second.now) }
{
    match conditions {
        [condition] => by_two(
            alloc,
            &PairOp::Select {
                condition: *condition,
            },
            first,
            second,
        ),
        _ => by_three(alloc, conditions, first, second),
    }
}

fn scalar_width(types: &TypeTable, ty: u32) -> u8
    ensures { result ≡ spec.scalar_width (form_of types.now ty) }
{
    match types.form(ty) {
        Some(Form::Bool) => 1,
        Some(Form::Int { width, .. }) => (*width).min(64) as u8,
        _ => 0,
    }
}

/// The width of the lanes of a scalar or vector.
pub(crate) fn lane_width(types: &TypeTable, ty: u32) -> u8
    ensures { result ≡ spec.lane_width types.now (form_of types.now ty) }
{
    match types.form(ty) {
        Some(Form::Vector { component, .. }) => scalar_width(types, *component),
        _ => scalar_width(types, ty),
    }
}
