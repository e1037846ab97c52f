//! The values of constants, lent.
ghost use Rattle.std.specs.Prelude.{◌≡◌, option_map};
ghost use Rattle.spv_base.specs.Entries.{reads};
ghost use Rattle.spv_consts.specs.Trees.{tree_of};

use crate::trees::of_constant;
use spv_valid::Module;
use spv_values::Part;

/// The value of the constant with an id. It takes no memory.
pub fn constant(accepted: &Module, id: u32) -> Option<Part<'_>>
    ensures { result ≡ option_map (tree_of accepted.now.types) (reads id accepted.now.constants) }
{
    let _insts = accepted.insts();
    let row = accepted.constant(id)?;
    let tree = of_constant(accepted.types(), &row);
    Some(Part::with_tree(row.cells, tree))
}
