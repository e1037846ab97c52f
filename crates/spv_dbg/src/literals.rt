//! The numbers and strings that operands of debug instructions name.
ghost use Rattle.std.specs.Prelude.{◌≡◌, ◌<◌, option_copied};
ghost use Rattle.spv_dbg.specs.Literals as spec;

use spv_base::{Cell, Inst};
use spv_consts::table::{Row, only};
use spv_index::{Index, text_operand};
use spv_ops::op;
use spv_types::TypeTable;
use spv_types::queries::is_integer;
use spv_valid::Module;

/// The number of a scalar of 32 bits.
fn word_in(cell: Cell) -> Option<u32>
    ensures { result ≡ spec.word_in cell }
{
    if cell.width != 32 {
        return None;
    }
    Some(cell.bits as u32)
}

/// The number of a constant, where its type is an integer of 32 bits.
pub(crate) fn number_of_row(types: &TypeTable, row: Row<'_>) -> Option<u32>
    ensures { result ≡ spec.number_of_row types.now (record { ty = row.entry.ty; cells = row.entry.cells.now }) }
{
    if !is_integer(types.form(row.ty)) {
        return None;
    }
    word_in(only(row.cells)?)
}

/// The number of the constant with an id.
#[tactic(auto, unfolding(crate::specs::Literals::literal_of))]
pub(crate) fn literal_of(module: &Module, id: u32) -> Option<u32>
    ensures { result ≡ spec.literal_of module.now id }
{
    number_of_row(module.types(), module.consts().value(id)?)
}

/// The bytes of an OpString.
pub(crate) fn text_in(inst: &Inst) -> Option<&[u8]>
    ensures { option_copied result ≡ spec.text_in inst.now }
{
    if inst.op != op::STRING {
        return None;
    }
    text_operand(inst, 0)
}

/// The bytes of the OpString with an id.
#[tactic(auto, unfolding(crate::specs::Literals::string_of))]
pub(crate) fn string_of(index: &Index, id: u32) -> Option<&[u8]>
    ensures { option_copied result ≡ spec.string_of index.now.insts id }
{
    text_in(index.defining(id)?)
}
