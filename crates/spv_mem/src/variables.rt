//! Variables: a row of cells, and the number of elements of the runtime array at its end.
ghost use Rattle.std.specs.Prelude.{◌≡◌, IfOk, ◌-◌, true, false, Option, Some, None};
ghost use Rattle.std.specs.Option.{MatchOption, option_map_or};
ghost use Rattle.spv_base.specs.Parts.{part_at};
ghost use Rattle.spv_mem.specs.Targets.{Exchanges, Fits, MayBePut, elements_in, is_past};
ghost use Rattle.spv_types.specs.Cells.{cells_of};
ghost use Rattle.spv_base.specs.Saturation.{saturated};
ghost use Rattle.spv_types.specs.Rows.{leaves};
ghost use Rattle.spv_values.specs.Places.{IsRowAt};
ghost use Rattle.spv_mem.specs.Blanks.{blank_of};
ghost use Rattle.spv_types.specs.declared.forms.Member.{Member as Part};
ghost use Rattle.spv_mem.specs.Singles.{IsLeafFor};

use crate::blanks::Blank;
use crate::places::{Place, element_index, reached_type};
use spv_base::{Cell, Ghost, NoMemory, Path, Value};
use spv_types::TypeTable;
use spv_values::{Part, Row, Single};
use std::alloc::Global;
use std::marker::Model;

/// The value of a variable. Contracts see its tree.
///
/// Where a block ends in a runtime array, the variable keeps the number of its elements: the row alone does not tell it where an
/// element has no cells, as a struct without members.
#[derive(Drop)]
pub struct Variable {
    pub(crate) row: Row,
    pub(crate) elements: u32,
}

impl Model for Variable {
    ghost use Rattle.std.specs.Prelude.{◌≡◌};
    ghost use Rattle.spv_base.specs.declared.values.Value.{Value as Whole};
    ghost use Rattle.spv_base.specs.contracts.values.Value.{the_row};
    ghost use Rattle.spv_mem.specs.Targets.{elements_in};

    ghost Value = { Whole };

    ghost coded = { the_row.coded };

    ghost view = { λ v. v.row };

    ghost invariant = { λ v. v.elements ≡ elements_in v.row };
}

impl Variable {
    /// The variable with a row, whose last part has so many elements.
    pub fn new(row: Row, elements: u32) -> Variable
        requires { elements ≡ elements_in row }
        ensures { result ≡ row }
    {
        Variable { row, elements }
    }

    /// An equal variable.
    pub fn copy(&self, alloc: Global) -> Result<Variable, NoMemory>
        ensures { IfOk result (λ variable. variable ≡ self.now) }
    {
        Ok(Variable {
            row: Row::of_part(alloc, &self.row.as_part())?,
            elements: self.elements,
        })
    }

    /// The cells.
    pub fn cells(&self) -> &[Cell]
        ensures { result.now ≡ leaves self.now }
    {
        self.row.cells()
    }

    /// How many elements the last part has.
    pub fn elements(&self) -> u32
        ensures { result ≡ elements_in self.now }
    {
        self.elements
    }

    /// The whole value, lent.
    pub fn whole(&self) -> Part<'_>
        ensures { result ≡ self.now }
    {
        self.row.as_part()
    }

    /// Whether a path leads past the end of the runtime array.
    fn is_past(&self, types: &TypeTable, ty: u32, indexes: &[u64]) -> bool
        ensures { result ≡ is_past types.now (elements_in self.now) ty indexes.now }
    {
        types.cells(ty).is_none()
            && match element_index(types, ty, indexes) {
                Some(index) => u64::from(self.elements) <= index,
                None => false,
            }
    }

    /// Where the part that a path names lies, in a variable of a type; none where there is no such part. Most paths lead to the whole.
    #[tactic(auto, using(crate::proofs::PlaceLemmas::whole_row))]
    pub(crate) fn place(&self, types: &TypeTable, ty: u32, path: &Path) -> Option<Place>
        requires { ∥ Fits types.now ty self.now ∥₁ }
        ensures { MatchOption result (part_at self.now path.now ≡ None) (λ p. IsRowAt self.now path.now p.start p.len) }
    {
        if path.as_slice().is_empty() {
            let len = self.row.len();
            Some(Place { start: 0, len })
        } else {
            self.part_place(types, ty, path)
        }
    }

    /// The same by the types, for any path.
    fn part_place(&self, types: &TypeTable, ty: u32, path: &Path) -> Option<Place>
        requires { ∥ Fits types.now ty self.now ∥₁ }
        ensures { MatchOption result (part_at self.now path.now ≡ None) (λ p. IsRowAt self.now path.now p.start p.len) }
    {
        let indexes = path.as_slice();
        let cells = self.row.len();
        if self.is_past(types, ty, indexes) {
            return None;
        }
        let start = types.leaf(ty, indexes)? as usize;
        let part = reached_type(types, ty, indexes)?;
        let len = part_len(types, part, cells - start);
        Some(Place { start, len })
    }

    /// The part that a path names, in a variable of a type. It takes no memory.
    pub fn load(&self, types: &TypeTable, ty: u32, path: &Path) -> Option<Part<'_>>
        requires { ∥ Fits types.now ty self.now ∥₁ }
        ensures { result ≡ part_at self.now path.now }
    {
        let place = self.place(types, ty, path)?;
        Some(self.row.part(path, place.start, place.len))
    }

    /// Exchanges the part that a path names with a value of its type, and says whether there is such a part. It takes no memory,
    /// and the same call undoes it.
    pub fn exchange(&mut self, types: &TypeTable, ty: u32, path: &Path, other: &mut Row) -> bool
        requires fits { ∥ Fits types.now ty self.old ∥₁ }
        requires may { ∥ MayBePut types.now ty self.old path.now other.old ∥₁ }
        ensures { Exchanges self.old path.now other.old self.new other.new result }
    {
        let Some(place) = self.place(types, ty, path) else {
            return false;
        };
        self.row.exchange(path, place.start, other);
        true
    }

    /// The undefined value of a type of data, where a runtime array has so many elements.
    pub fn blank(
        alloc: Global,
        types: &TypeTable,
        ty: u32,
        elements: u32,
    ) -> Result<Variable, NoMemory>
        ensures { IfOk result (λ variable. variable ≡ blank_of types.now elements ty) }
    {
        let blank = Blank { types, elements };
        let count = blank.last_count(ty)?;
        let row = blank.row(alloc, ty)?;
        Ok(Variable::new(row, count))
    }

    /// Exchanges a leaf with a value of one cell.
    pub(crate) fn exchange_single(&mut self, leaf: usize, path: &Ghost<Path>, other: &mut Single)
        requires { ∥ IsLeafFor leaf path.now.value other.old self.old ∥₁ }
        ensures { Exchanges self.old path.now.value other.old self.new other.new true }
    {
        self.row.exchange_single(path, leaf, other);
    }
}

/// How many cells a part of a type has, where so many are left if the type does not tell it.
fn part_len(types: &TypeTable, part: u32, left: usize) -> usize
    ensures { result ≡ option_map_or saturated (cells_of types.now part) left }
{
    match types.cells(part) {
        Some(cells) => cells as usize,
        None => left,
    }
}
