//! The text of a value at its type.
ghost use Rattle.std.specs.Prelude.{◌≡◌, ◌++◌, IsSome, OnErr, OnOk, replicate};
ghost use Rattle.spv_base.specs.declared.values.Value.{Value};
ghost use Rattle.spv_types.specs.Cells.{cells_of};
ghost use Rattle.spv_types.specs.Rows.{leaves, no_roots};
ghost use Rattle.spv_types.specs.Shapes.{HasShape};
ghost use Rattle.spv_show.specs.Elements.{sized, with_elements};
ghost use Rattle.spv_show.specs.Rows.{IsRowOf};
ghost use Rattle.spv_show.specs.Sheets.{put_among, put_array, put_elements, put_members, put_row, put_step, put_struct};
ghost use Rattle.spv_show.specs.Texts.{value_text};

use crate::scalars::{Reading, reading_of};
use crate::sheets::Sheet;
use spv_base::{Cell, NoMemory};
use spv_types::{Form, Member, TypeTable};
use spv_values::Part;
use std::alloc::Global;

/// Appends the text of the value of a type that some cells are the row of: integers by their type's sign, `true` and `false`, vectors and
/// arrays `[1, 2]`, structs `{0 = 1, 1 = 2}`, and `<undefined>` for an undefined scalar. At most 256 leaves and empty lists are
/// written: `...` stands once in each list or struct in place of its elements that would begin after them. The time is that of what
/// is written, however large the value is. Of cells that are no such row nothing is said of the text. After want of memory
/// nothing was appended.
pub fn row_text(
    alloc: Global,
    types: &TypeTable,
    ty: u32,
    cells: &[Cell],
    out: &mut Vec<u8>,
) -> Result<(), NoMemory>
    ensures ok { OnOk result ((v : Value) → IsRowOf types.now ty cells.now v → out.new.items ≡ out.old.items ++ value_text types.now ty v) }
    ensures err { OnErr result (out.new.items ≡ out.old.items) }
{
    open_row_text(alloc, types, ty, 0, cells, out)
}

/// Appends the text of a value of a type, in which there is no pointer and no runtime array, as `row_text` does.
pub fn value_text(
    alloc: Global,
    types: &TypeTable,
    ty: u32,
    part: &Part,
    out: &mut Vec<u8>,
) -> Result<(), NoMemory>
    requires shape { HasShape types.now no_roots ty part.now }
    requires counted { IsSome (cells_of types.now ty) }
    ensures ok { OnOk result (out.new.items ≡ out.old.items ++ value_text types.now ty part.now) }
    ensures err { OnErr result (out.new.items ≡ out.old.items) }
{
    row_text(alloc, types, ty, part.cells(), out)
}

/// Appends the text of a value of a type, in which there is no pointer, and whose runtime arrays have so many elements, as `row_text`
/// does: that of a block that ends in one, or of one by itself.
pub fn open_text(
    alloc: Global,
    types: &TypeTable,
    ty: u32,
    elements: u32,
    part: &Part,
    out: &mut Vec<u8>,
) -> Result<(), NoMemory>
    requires { HasShape (with_elements elements types.now) no_roots ty part.now }
    ensures ok { OnOk result (out.new.items ≡ out.old.items ++ value_text types.now ty part.now) }
    ensures err { OnErr result (out.new.items ≡ out.old.items) }
{
    open_row_text(alloc, types, ty, elements, part.cells(), out)
}

/// The same, of the cells that are the row of such a value.
fn open_row_text(
    alloc: Global,
    types: &TypeTable,
    ty: u32,
    elements: u32,
    cells: &[Cell],
    out: &mut Vec<u8>,
) -> Result<(), NoMemory>
    ensures ok { OnOk result ((v : Value) → HasShape (with_elements elements types.now) no_roots ty v → leaves v ≡ cells.now
        → out.new.items ≡ out.old.items ++ value_text types.now ty v) }
    ensures err { OnErr result (out.new.items ≡ out.old.items) }
{
    let writer = Writer {
        types,
        cells,
        elements,
    };
    let mut sheet = Sheet::new(alloc);
    writer.among(&mut sheet, types.len(), ty)?;
    out.extend_from_slice(sheet.text())?;
    Ok(())
}

/// Types, the row of a value, and how many elements its runtime arrays have.
#[derive(Clone, Copy)]
struct Writer<'a> {
    types: &'a TypeTable,
    cells: &'a [Cell],
    elements: u32,
}

impl<'a> Writer<'a> {
    /// Writes the value of the type with an id that lies next, where the type is among the first `limit` types.
    #[tactic(auto, using(crate::proofs::SheetLemmas::put_among_is))]
    #[cycle(writes)]
    fn among(&self, sheet: &mut Sheet, limit: usize, ty: u32) -> Result<(), NoMemory>
        ensures { OnOk result (sheet.new ≡ put_among (with_elements self.now.elements self.now.types.now) self.now.cells.now limit ty sheet.old) }
    {
        match self.types.found(limit, ty) {
            Some((n, form)) => self.of_form(sheet, n, form),
            None => sheet.put_unavailable(),
        }
    }

    /// Writes the value of a form that lies next, where its parts' types are among the first types.
    #[cycle(writes)]
    fn of_form(&self, sheet: &mut Sheet, limit: usize, form: &Form) -> Result<(), NoMemory>
        ensures { OnOk result (sheet.new ≡ put_step self.now.cells.now (put_among (with_elements self.now.elements self.now.types.now) self.now.cells.now limit) (sized self.now.elements form.now) sheet.old) }
    {
        match form {
            Form::Bool => sheet.put_cell(self.cells, Reading::Boolean),
            Form::Int { sign, .. } => sheet.put_cell(self.cells, reading_of(*sign)),
            Form::Vector { component, count } => self.row(sheet, limit, *component, *count),
            Form::Array {
                element,
                length,
                ..
            } => self.array(sheet, limit, *element, *length),
            Form::Struct { members, .. } => self.of_struct(sheet, limit, members.as_slice()),
            Form::Void => sheet.put_unavailable(),
            Form::Runtime { element, .. } => self.row(sheet, limit, *element, self.elements),
            Form::Pointer { .. } => sheet.put_unavailable(),
            Form::Function { .. } => sheet.put_unavailable(),
        }
    }

    /// Writes an array of a type among the first types.
    #[cycle(writes)]
    fn array(
        &self,
        sheet: &mut Sheet,
        limit: usize,
        element: u32,
        length: Option<u32>,
    ) -> Result<(), NoMemory>
        ensures { OnOk result (sheet.new ≡ put_array (put_among (with_elements self.now.elements self.now.types.now) self.now.cells.now limit element) length sheet.old) }
    {
        match length {
            Some(length) => self.row(sheet, limit, element, length),
            None => sheet.put_unavailable(),
        }
    }

    /// Writes so many values of a type among the first types, as a list.
    #[tactic(auto, using(crate::proofs::SheetLemmas::row_is))]
    #[cycle(writes)]
    fn row(&self, sheet: &mut Sheet, limit: usize, ty: u32, count: u32) -> Result<(), NoMemory>
        ensures { OnOk result (sheet.new ≡ put_row (replicate count (put_among (with_elements self.now.elements self.now.types.now) self.now.cells.now limit ty)) sheet.old) }
    {
        if count == 0 {
            return sheet.put_leaf(b"[]");
        }
        sheet.put(b"[")?;
        self.elements(sheet, limit, ty, count as usize)?;
        sheet.put(b"]")
    }

    /// Writes so many values of a type among the first types, one behind another.
    #[cycle(writes)]
    fn elements(
        &self,
        sheet: &mut Sheet,
        limit: usize,
        ty: u32,
        count: usize,
    ) -> Result<(), NoMemory>
        ensures { OnOk result (sheet.new ≡ put_elements 0 (replicate count (put_among (with_elements self.now.elements self.now.types.now) self.now.cells.now limit ty)) sheet.old) }
    {
        for number in 0..count {
            if sheet.is_full() {
                return sheet.put_rest(number);
            }
            sheet.put_separator(number)?;
            self.among(sheet, limit, ty)?;
        }
        Ok(())
    }

    /// Writes the values of members whose types are among the first types, as a struct.
    #[tactic(auto, using(crate::proofs::SheetLemmas::struct_is))]
    #[cycle(writes)]
    fn of_struct(&self, sheet: &mut Sheet, limit: usize, members: &[Member]) -> Result<(), NoMemory>
        ensures { OnOk result (sheet.new ≡ put_struct (put_members (put_among (with_elements self.now.elements self.now.types.now) self.now.cells.now limit) 0 members.now) sheet.old) }
    {
        if members.is_empty() {
            return sheet.put_leaf(b"{}");
        }
        sheet.put(b"{")?;
        self.of_members(sheet, limit, members)?;
        sheet.put(b"}")
    }

    /// Writes the values of members whose types are among the first types, each under its number.
    #[cycle(writes)]
    fn of_members(
        &self,
        sheet: &mut Sheet,
        limit: usize,
        members: &[Member],
    ) -> Result<(), NoMemory>
        ensures { OnOk result (sheet.new ≡ put_elements 0 (put_members (put_among (with_elements self.now.elements self.now.types.now) self.now.cells.now limit) 0 members.now) sheet.old) }
    {
        for (number, member) in members.iter().enumerate() {
            if sheet.is_full() {
                return sheet.put_rest(number);
            }
            sheet.put_separator(number)?;
            sheet.put_name(number)?;
            self.among(sheet, limit, member.ty)?;
        }
        Ok(())
    }
}
