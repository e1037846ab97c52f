//! Labels of a function, and the widths of selectors.
ghost use Rattle.std.specs.Prelude.{◌≡◌, option_copied};
ghost use Rattle.std.specs.Option.{option_and_then};
ghost use Rattle.spv_index.specs.Definitions.{defining, result_type};
ghost use Rattle.spv_cfg.specs.Branches as spec;

use spv_base::Inst;
use spv_index::positions::Standing;
use spv_index::{Index, id_operand, literal_operand};
use spv_ops::op;

/// Whether a label of this function stands so.
fn is_block_of(function: u32, standing: Standing) -> bool
    ensures { result ≡ spec.is_block_of function standing }
{
    standing.class.is_label()
        && standing.position.stage.in_function()
        && standing.position.function == function
}

/// Whether a label is one of this function.
pub fn is_within(index: &Index, function: u32, label: u32) -> bool
    ensures { result ≡ spec.is_within index.now.insts function label }
{
    match index.standing(label) {
        Some(standing) => is_block_of(function, standing),
        None => false,
    }
}

/// Whether a label is one of this function, but not its first.
pub fn is_target(index: &Index, function: u32, label: u32) -> bool
    ensures { result ≡ spec.is_target index.now.insts function label }
{
    match index.standing(label) {
        Some(standing) => is_block_of(function, standing) && !standing.position.stage.is_head(),
        None => false,
    }
}

/// The width of an integer type; another type counts as one of 32 bits.
fn width_in(inst: Option<&Inst>) -> u32
    ensures { result ≡ spec.width_in (option_copied inst.entry) }
{
    match inst {
        Some(inst) => if inst.op == op::TYPE_INT {
            literal_operand(inst, 0).unwrap_or(32)
        } else {
            32
        },
        None => 32,
    }
}

/// The type of an id, where there is one and it has a type.
fn type_of(index: &Index, id: Option<u32>) -> Option<u32>
    ensures { result ≡ option_and_then (result_type index.now.insts) id }
{
    index.result_type(id?)
}

/// The instruction that defines an id, where there is one.
fn definer(index: &Index, id: Option<u32>) -> Option<&Inst>
    ensures { option_copied result ≡ option_and_then (defining index.now.insts) id }
{
    index.defining(id?)
}

/// The width of the type of a switch's selector, which is the first operand.
pub fn selector_width(index: &Index, inst: &Inst) -> u32
    ensures { result ≡ spec.selector_width index.now.insts inst.now }
{
    width_in(definer(index, type_of(index, id_operand(inst, 0))))
}
