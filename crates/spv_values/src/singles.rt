//! Values of one cell, which take no memory of their own.
ghost use Rattle.std.specs.Prelude.{◌≡◌, ◌∷◌, [], length};
ghost use Rattle.spv_types.specs.Rows.{leaves};

use crate::parts::Part;
use spv_base::{Cell, Ghost, Value};
use std::marker::Model;

/// A value of one cell: a scalar, or a composite of one. Contracts see the value as a tree.
#[derive(Drop)]
pub struct Single {
    pub(crate) cell: Cell,
    pub(crate) tree: Ghost<Value>,
}

impl Model for Single {
    ghost use Rattle.std.specs.Prelude.{◌≡◌, ◌∷◌, []};
    ghost use Rattle.spv_base.specs.declared.values.Value.{Value as Whole};
    ghost use Rattle.spv_base.specs.contracts.values.Value.{the_row};
    ghost use Rattle.spv_types.specs.Rows.{leaves};

    ghost Value = { Whole };

    ghost coded = { the_row.coded };

    ghost view = { λ s. s.tree.value };

    ghost invariant = { λ s. leaves s.tree.value ≡ s.cell ∷ [] };
}

impl Single {
    /// A value of one cell that lies elsewhere, copied.
    #[tactic(auto, using(crate::proofs::SingleLemmas::one_cell))]
    pub fn of_part(part: &Part) -> Single
        requires { length (leaves part.now) ≡ 1 }
        ensures { result ≡ part.now }
    {
        let cells = part.cells();
        Single {
            cell: cells[0],
            tree: part.tree(),
        }
    }

    /// The cell.
    pub fn cell(&self) -> Cell
        ensures { leaves self.now ≡ result ∷ [] }
    {
        self.cell
    }
}
