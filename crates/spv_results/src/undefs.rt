//! OpUndef: a value of which nothing is defined (SPIR-V 1.6 section 3.42.1).
ghost use Rattle.std.specs.Prelude.{◌≡◌, OnOk};
ghost use Rattle.spv_valid.specs.Below.spv_bodies.specs.Memory.{KeepsUndef};
ghost use Rattle.spv_mem.specs.Blanks.{blank_of};
ghost use Rattle.spv_results.specs.Operands.{IsResult, known};

use crate::room::make_room;
use spv_base::{Inst, NoMemory, Path};
use spv_mem::Variable;
use spv_valid::Module;
use spv_values::Row;
use std::alloc::Global;

/// OpUndef: the undefined value of the result's type. It takes memory for as many cells.
pub fn undefined(
    alloc: Global,
    accepted: &Module,
    inst: &Inst,
    into: &mut Row,
) -> Result<(), NoMemory>
    requires { KeepsUndef (known accepted.now) inst.now }
    ensures value { OnOk result (into.new ≡ blank_of accepted.now.types 0 inst.now.ty) }
    ensures shape { OnOk result (IsResult accepted.now inst.now into.new) }
{
    make_room(accepted, inst, into)?;
    let blank = Variable::blank(alloc, accepted.types(), inst.ty, 0)?;
    let whole = Path::new(alloc);
    match blank.load(accepted.types(), inst.ty, &whole) {
        Some(part) => spv_effects::copy(&part, into),
        None => unreachable!(),
    }
    Ok(())
}
