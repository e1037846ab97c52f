//! The types of a module and of its variables, with how long their values are: a bit far into a large value is found by them, without a
//! walk over the leaves before it.
ghost use Rattle.std.specs.Prelude.{◌≡◌, ◌≤◌, ℕ, IfOk, Some};
ghost use Rattle.spv_base.specs.Entries.{reads};
ghost use Rattle.spv_index.specs.Firsts.{slot};
ghost use Rattle.spv_expr.specs.Sizes.{IsFront};
ghost use Rattle.spv_expr.specs.Typing.{IsTypedRow};

use crate::fronts::type_front;
use crate::sizes::{NOTHING, Stretch, sizes_of};
use spv_base::{Cell, NoMemory};
use spv_index::Firsts;
use spv_types::TypeTable;
use std::alloc::Global;
use std::marker::Model;

/// How many leaves and bits the values of each type of a module have, and the types of its variables.
#[derive(Drop)]
pub struct Sizes {
    types: TypeTable,
    /// The id of each variable with the type of its value.
    targets: Vec<(u32, u32)>,
    /// Those types by the ids.
    by_ids: Firsts<u32>,
    /// By the numbers of types.
    sizes: Vec<Option<Stretch>>,
}

impl Model for Sizes {
    ghost use Rattle.std.specs.Prelude.{◌≡◌, ℕ};
    ghost use Rattle.spv_base.specs.Entries.{reads};
    ghost use Rattle.spv_index.specs.Firsts.{slot};
    ghost use Rattle.spv_expr.specs.Sizes.{AreSizes};
    ghost use Rattle.spv_expr.specs.Typing.{Typing};

    ghost Value = { Typing };

    ghost view = { λ s. record { types = s.types; targets = s.targets.items } };

    ghost invariant = { λ s. record {
      by_ids : (id : ℕ) → slot s.by_ids id ≡ reads id s.targets.items;
      sizes : AreSizes s.types s.sizes.items;
    } };
}

/// By ids, the type that a list has for each.
fn types_by_ids(alloc: Global, targets: &[(u32, u32)]) -> Result<Firsts<u32>, NoMemory>
    ensures { IfOk result (λ types. (id : ℕ) → slot types id ≡ reads id targets.now) }
{
    let mut types = Firsts::new(alloc);
    for target in targets {
        types.put(target.0, target.1)?;
    }
    Ok(types)
}

impl Sizes {
    /// Those of types, and of variables whose ids are listed with the types of their values.
    pub fn of(alloc: Global, types: &TypeTable, targets: &[(u32, u32)]) -> Result<Sizes, NoMemory>
        ensures { IfOk result (λ sizes. sizes ≡ record { types = types.now; targets = targets.now }) }
    {
        Ok(Sizes {
            types: types.copy(alloc)?,
            targets: Vec::from_slice(alloc, targets)?,
            by_ids: types_by_ids(alloc, targets)?,
            sizes: sizes_of(alloc, types)?,
        })
    }

    /// Leaves of the row of a variable, from its first on, that have at most so many bits, with how many they have.
    pub(crate) fn front(&self, variable: u32, cells: &[Cell], bit: u64) -> Stretch
        requires { ∥ IsTypedRow self.now variable cells.now ∥₁ }
        ensures bits { result.bits ≤ bit }
        ensures front { IsFront cells.now result }
    {
        let Some(ty) = self.by_ids.get(variable) else {
            return NOTHING;
        };
        let room = Stretch {
            leaves: cells.len() as u64,
            bits: bit,
        };
        type_front(
            &self.types,
            self.sizes.as_slice(),
            self.types.len(),
            ty,
            room,
        )
    }
}
