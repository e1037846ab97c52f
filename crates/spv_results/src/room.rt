//! Room for results.
ghost use Rattle.std.specs.Prelude.{◌≡◌, OnOk, length, unwrap_or};
ghost use Rattle.spv_types.specs.Cells.{cells_of};
ghost use Rattle.spv_types.specs.Rows.{leaves};
ghost use Rattle.spv_valid.specs.Validity.{IsValid};

use spv_base::{Inst, NoMemory};
use spv_effects::resize;
use spv_valid::Module;
use spv_values::Row;

/// Gives a row as many cells as a value of the type of an instruction's result has. It takes memory only where the row never had
/// room for as many.
pub(crate) fn make_room(accepted: &Module, inst: &Inst, into: &mut Row) -> Result<(), NoMemory>
    ensures room { OnOk result (length (leaves into.new) ≡ unwrap_or (cells_of accepted.now.types inst.now.ty) 0) }
    // What the module gives to a run, by which a value of the type has as many leaves.
    ensures valid { ∥ IsValid accepted.now ∥₁ }
{
    let _insts = accepted.insts();
    let cells = accepted.types().cells(inst.ty).unwrap_or(0);
    resize(into, cells as usize)
}
