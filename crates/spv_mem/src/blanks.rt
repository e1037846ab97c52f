//! Variables that begin undefined.
ghost use Rattle.std.specs.Prelude.{◌≡◌, ◌++◌, IfOk, OnOk, min, replicate};
ghost use Rattle.std.specs.List.{flat_map};
ghost use Rattle.spv_base.specs.Cell.{undefined_cell};
ghost use Rattle.spv_mem.specs.Blanks.{blank_among, blank_of, blank_step};
ghost use Rattle.spv_mem.specs.Targets.{elements_in};
ghost use Rattle.spv_types.specs.declared.forms.Member.{Member as Part};
ghost use Rattle.spv_types.specs.Rows.{leaves};

use crate::parts::{last_part, part_count};
use spv_base::{Cell, Ghost, NoMemory, Value};
use spv_types::{Form, Member, TypeTable};
use spv_values::Row;
use std::alloc::Global;

/// The undefined scalar of a width in bits, or of the widest where there is none so wide.
fn undefined(width: u32) -> Cell
    ensures { result ≡ undefined_cell (min width 64) }
{
    Cell {
        bits: 0,
        width: width.min(64) as u8,
        defined: false,
    }
}

/// Types, and how many elements a runtime array has.
#[derive(Clone, Copy)]
pub(crate) struct Blank<'a> {
    pub(crate) types: &'a TypeTable,
    pub(crate) elements: u32,
}

impl<'a> Blank<'a> {
    /// Appends the row of the type with an id, where it is among the first `limit` types.
    #[tactic(auto, using(crate::proofs::BlankLemmas::blank_among_is))]
    #[cycle(blanks)]
    fn among(&self, cells: &mut Vec<Cell>, limit: usize, ty: u32) -> Result<(), NoMemory>
        ensures { OnOk result (cells.new.items ≡ cells.old.items ++ leaves (blank_among self.now.types.now self.now.elements limit ty)) }
    {
        match self.types.found(limit, ty) {
            Some((n, form)) => self.of_form(cells, n, form),
            None => Ok(()),
        }
    }

    /// Appends the row of a form whose parts are among the first types.
    #[cycle(blanks)]
    fn of_form(&self, cells: &mut Vec<Cell>, limit: usize, form: &Form) -> Result<(), NoMemory>
        ensures { OnOk result (cells.new.items ≡ cells.old.items ++ leaves (blank_step self.now.elements (blank_among self.now.types.now self.now.elements limit) form.now)) }
    {
        match form {
            Form::Bool => Ok(cells.push(undefined(1))?),
            Form::Int { width, .. } => Ok(cells.push(undefined(*width))?),
            Form::Vector { component, count } => self.repeated_cells(
                cells, limit, *component, *count,
            ),
            Form::Array {
                element,
                length,
                ..
            } => self.repeated_cells(cells, limit, *element, length.unwrap_or(0)),
            Form::Runtime { element, .. } => self.repeated_cells(
                cells,
                limit,
                *element,
                self.elements,
            ),
            Form::Struct { members, .. } => self.of_members(cells, limit, members.as_slice()),
            Form::Void => Ok(()),
            Form::Pointer { .. } => Ok(()),
            Form::Function { .. } => Ok(()),
        }
    }

    /// Appends the row of a type among the first so many times.
    #[cycle(blanks)]
    fn repeated_cells(
        &self,
        cells: &mut Vec<Cell>,
        limit: usize,
        ty: u32,
        count: u32,
    ) -> Result<(), NoMemory>
        ensures { OnOk result (cells.new.items ≡ cells.old.items ++ flat_map leaves (replicate count (blank_among self.now.types.now self.now.elements limit ty))) }
    {
        for _number in 0..count {
            self.among(cells, limit, ty)?;
        }
        Ok(())
    }

    /// Appends the rows of members whose types are among the first.
    #[cycle(blanks)]
    fn of_members(
        &self,
        cells: &mut Vec<Cell>,
        limit: usize,
        members: &[Member],
    ) -> Result<(), NoMemory>
        ensures { OnOk result (cells.new.items ≡ cells.old.items ++ flat_map (λ (m : Part). leaves (blank_among self.now.types.now self.now.elements limit m.ty)) members.now) }
    {
        for member in members {
            self.among(cells, limit, member.ty)?;
        }
        Ok(())
    }

    /// How many parts the last part of the value of a type has.
    #[tactic(auto, using(crate::proofs::BlankLemmas::elements_are))]
    pub(crate) fn last_count(&self, ty: u32) -> Result<u32, NoMemory>
        ensures { IfOk result (λ n. n ≡ elements_in (blank_of self.now.types.now self.now.elements ty)) }
    {
        let Some((limit, form)) = self.types.found(self.types.len(), ty) else {
            return Ok(0);
        };
        let Some(part) = last_part(form, self.elements) else {
            return Ok(0);
        };
        match self.types.found(limit, part) {
            Some((_, form)) => part_count(form, self.elements),
            None => Ok(0),
        }
    }

    /// The cells of the value of a type.
    #[tactic(auto, unfolding(crate::specs::Blanks::blank_of))]
    fn cells(&self, alloc: Global, ty: u32) -> Result<Vec<Cell>, NoMemory>
        ensures { IfOk result (λ cells. cells.items ≡ leaves (blank_of self.now.types.now self.now.elements ty)) }
    {
        let mut cells = Vec::new(alloc);
        self.among(&mut cells, self.types.len(), ty)?;
        Ok(cells)
    }

    /// The tree of the value of a type, for proofs.
    fn tree(&self, ty: u32) -> Ghost<Value>
        ensures { result.value ≡ blank_of self.now.types.now self.now.elements ty }
    {
        let tree = Ghost::of();
        self.tree_by(&tree, &ty)
    }

    fn tree_by(&self, tree: &Ghost<Value>, ty: &u32) -> Ghost<Value>
        ensures { result.value ≡ blank_of self.now.types.now self.now.elements ty.now }
    {
        tree.by(self, ty)
    }

    /// The value of a type.
    pub(crate) fn row(&self, alloc: Global, ty: u32) -> Result<Row, NoMemory>
        ensures { IfOk result (λ row. row ≡ blank_of self.now.types.now self.now.elements ty) }
    {
        let cells = self.cells(alloc, ty)?;
        Ok(Row::with_tree(cells, self.tree(ty)))
    }
}
