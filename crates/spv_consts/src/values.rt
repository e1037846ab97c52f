//! The null value and the undefined value of a type.
ghost use Rattle.std.specs.Prelude.{◌≡◌, ◌++◌, ◌+◌, ◌*◌, ◌≤◌, ◌-◌, OnOk, length, map, take, drop};
ghost use Rattle.std.specs.List.{flat_map};
ghost use Rattle.spv_types.specs.declared.forms.Member.{Member as Part};
ghost use Rattle.spv_consts.specs.Copies.{copies};
ghost use Rattle.spv_consts.specs.Values.{blank_cell, blank_of, widths_among, widths_step};

use spv_base::{Cell, NoMemory};
use spv_types::{Form, Member, TypeTable};

/// A lane of zeros, defined or not.
fn blank_cell(defined: bool, width: u32) -> Cell
    ensures { result ≡ blank_cell defined width }
{
    Cell {
        bits: 0,
        width: width.min(64) as u8,
        defined,
    }
}

/// Appends a row of so many cells so many times, of those that stand behind the first `start`.
fn append_rows(cells: &mut Vec<Cell>, start: usize, row: usize, count: u32) -> Result<(), NoMemory>
    requires { start + count * row ≤ length cells.old.items }
    ensures { OnOk result (cells.new.items ≡ cells.old.items ++ take (count * row) (drop start cells.old.items)) }
{
    cells.extend_from_within(start..start + count as usize * row)?;
    Ok(())
}

/// Appends the cells behind the first `start` so many times more. Each pass appends as many rows as stand there already, so
/// that there are few passes.
fn repeat(cells: &mut Vec<Cell>, start: usize, times: u32) -> Result<(), NoMemory>
    requires { start ≤ length cells.old.items }
    ensures { OnOk result (cells.new.items ≡ cells.old.items ++ copies times (drop start cells.old.items)) }
{
    let row = cells.len() - start;
    let mut done = 0;
    while done < times {
        let count = (done + 1).min(times - done);
        append_rows(cells, start, row, count)?;
        done += count;
    }
    Ok(())
}

/// The rows of types among the first, whose leaves are all 0, defined or not.
#[derive(Clone, Copy)]
struct Blanks<'a> {
    types: &'a TypeTable,
    defined: bool,
}

impl<'a> Blanks<'a> {
    /// Appends the row of the type with an id, where it is among the first `limit` types.
    #[tactic(auto, using(crate::proofs::ValueLemmas::widths_among_is))]
    #[cycle(blanks)]
    fn among(&self, cells: &mut Vec<Cell>, limit: usize, ty: u32) -> Result<(), NoMemory>
        ensures { OnOk result (cells.new.items ≡ cells.old.items ++ map (blank_cell self.now.defined) (widths_among self.now.types.now limit ty)) }
    {
        match self.types.found(limit, ty) {
            Some((n, form)) => self.of_form(cells, n, form),
            None => Ok(()),
        }
    }

    /// Appends the row of a form whose parts are among the first types.
    #[cycle(blanks)]
    fn of_form(&self, cells: &mut Vec<Cell>, limit: usize, form: &Form) -> Result<(), NoMemory>
        ensures { OnOk result (cells.new.items ≡ cells.old.items ++ map (blank_cell self.now.defined) (widths_step (widths_among self.now.types.now limit) form.now)) }
    {
        match form {
            Form::Bool => Ok(cells.push(blank_cell(self.defined, 1))?),
            Form::Int { width, .. } => Ok(cells.push(blank_cell(self.defined, *width))?),
            Form::Vector { component, count } => self.repeated_cells(
                cells, limit, *component, *count,
            ),
            Form::Array {
                element,
                length,
                ..
            } => self.repeated_cells(cells, limit, *element, length.unwrap_or(0)),
            Form::Struct { members, .. } => self.of_members(cells, limit, members.as_slice()),
            Form::Void | Form::Runtime { .. } | Form::Pointer { .. } | Form::Function { .. } => {
                Ok(())
            }
        }
    }

    /// Appends the row of a type among the first so many times.
    #[cycle(blanks)]
    fn repeated_cells(
        &self,
        cells: &mut Vec<Cell>,
        limit: usize,
        ty: u32,
        count: u32,
    ) -> Result<(), NoMemory>
        ensures { OnOk result (cells.new.items ≡ cells.old.items ++ copies count (map (blank_cell self.now.defined) (widths_among self.now.types.now limit ty))) }
    {
        if count == 0 {
            return Ok(());
        }
        let start = cells.len();
        self.among(cells, limit, ty)?;
        repeat(cells, start, count - 1)
    }

    /// Appends the rows of members whose types are among the first.
    #[cycle(blanks)]
    fn of_members(
        &self,
        cells: &mut Vec<Cell>,
        limit: usize,
        members: &[Member],
    ) -> Result<(), NoMemory>
        ensures { OnOk result (cells.new.items ≡ cells.old.items ++ flat_map (λ (m : Part). map (blank_cell self.now.defined) (widths_among self.now.types.now limit m.ty)) members.now) }
    {
        for member in members {
            self.among(cells, limit, member.ty)?;
        }
        Ok(())
    }
}

/// Appends the row of a type whose leaves are all 0, defined or not.
#[tactic(auto, unfolding(crate::specs::Values::leaf_widths))]
pub(crate) fn append_blank(
    cells: &mut Vec<Cell>,
    types: &TypeTable,
    defined: bool,
    ty: u32,
) -> Result<(), NoMemory>
    ensures { OnOk result (cells.new.items ≡ cells.old.items ++ blank_of defined types.now ty) }
{
    Blanks { types, defined }.among(cells, types.len(), ty)
}
