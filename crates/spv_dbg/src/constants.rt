//! The constants of a module, kept for the operands that name them.
ghost use Rattle.std.specs.Prelude.{◌≡◌, ◌++◌, IfOk, OnOk};
ghost use Rattle.spv_dbg.specs.Tables as spec;

use crate::literals::number_of_row;
use spv_base::{Cells, Inst, NoMemory};
use spv_consts::table::Row;
use spv_index::Keyed;
use spv_valid::Module;
use std::alloc::Global;

/// A constant: its type, the leaves of its value in order, and its number where it is an integer of 32 bits.
#[derive(Drop)]
pub struct Constant {
    pub ty: u32,
    pub cells: Cells,
    pub number: Option<u32>,
}

/// The constant with a row.
fn constant_in(alloc: Global, module: &Module, row: Row<'_>) -> Result<Constant, NoMemory>
    ensures { IfOk result (λ c. c ≡ spec.constant_in module.now (record { ty = row.entry.ty; cells = row.entry.cells.now })) }
{
    Ok(Constant {
        ty: row.ty,
        cells: Cells::from_slice(alloc, row.cells)?,
        number: number_of_row(module.types(), row),
    })
}

/// Adds the constant that an instruction defines, if it does.
fn add_constant(
    alloc: Global,
    module: &Module,
    inst: &Inst,
    constants: &mut Vec<(u32, Constant)>,
) -> Result<(), NoMemory>
    ensures { OnOk result (constants.new.items ≡ constants.old.items ++ spec.constant_entry module.now inst.now) }
{
    if let Some(row) = module.consts().value(inst.id) {
        constants.push((inst.id, constant_in(alloc, module, row)?))?;
    }
    Ok(())
}

/// The constants of a module.
pub(crate) fn constants_of(alloc: Global, module: &Module) -> Result<Keyed<Constant>, NoMemory>
    ensures { IfOk result (λ constants. constants ≡ spec.constants_of module.now) }
{
    let mut constants = Vec::new(alloc);
    for inst in module.insts() {
        add_constant(alloc, module, inst, &mut constants)?;
    }
    Keyed::of(alloc, constants)
}
