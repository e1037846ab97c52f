//! The table of the constants of a module.
ghost use Rattle.std.specs.Prelude.{◌≡◌, ◌≤◌, [], ◌∷◌, ◌++◌, length, take, drop, IfOk, option_map};
ghost use Rattle.spv_base.specs.Answers.{Answers};
ghost use Rattle.spv_base.specs.Entries.{reads};
ghost use Rattle.spv_index.specs.Firsts.{place_of};
ghost use Rattle.spv_consts.specs.Build.{constants_of};
ghost use Rattle.spv_consts.specs.Table.{AreRows, only, place_from, row_at, rows_of, scalar_of};
ghost use Rattle.spv_consts.specs.Values.{null_of};

use crate::build::{context_of, known_after, unless_earlier};
use crate::spec_ids::lowest_wrong;
use crate::values::append_blank;
use crate::walk::Walk;
use spv_base::{Cell, Fail, NoMemory, Overrides, Refusal};
use spv_index::{Firsts, Index};
use spv_types::TypeTable;
use std::alloc::Global;
use std::marker::Model;

/// A constant: its id, its type, and where its cells lie.
#[derive(Clone, Copy)]
pub(crate) struct Entry {
    pub(crate) id: u32,
    pub(crate) ty: u32,
    pub(crate) start: usize,
    pub(crate) len: usize,
}

/// The place of a constant's row: the type, and where the cells begin among those of all constants and how many they are.
#[derive(Clone, Copy)]
pub struct RowPlace {
    pub ty: u32,
    pub start: usize,
    pub len: usize,
}

/// The type of a constant, and the leaves of its value in order.
#[derive(Clone, Copy)]
pub struct Row<'a> {
    pub ty: u32,
    pub cells: &'a [Cell],
}

/// The constants of a module, in its order. Contracts see a list of ids, each with its row.
#[derive(Drop)]
pub struct ConstTable {
    /// The cells of all constants, one after another.
    cells: Vec<Cell>,
    entries: Vec<Entry>,
    /// By id, the place of its first entry.
    places: Firsts<usize>,
}

impl Model for ConstTable {
    ghost use Rattle.std.specs.Coded.{codes};
    ghost use Rattle.spv_consts.specs.Table.{AreRows, Constants, rows_of};

    ghost Value = { Constants };

    ghost view = { λ t. rows_of t.cells.items t.entries.items };

    ghost coded = { Prim.hlevel (codes) };

    ghost invariant = { λ t. AreRows t.cells.items t.entries.items t.places };
}

/// So many cells behind the first `start`, as far as there are any.
fn part(cells: &[Cell], start: usize, len: usize) -> &[Cell]
    ensures { result.now ≡ take len (drop start cells.now) }
{
    if start >= cells.len() {
        return &[];
    }
    let rest = &cells[start..];
    &rest[..len.min(rest.len())]
}

/// The one cell of a row that has one.
pub fn only(cells: &[Cell]) -> Option<Cell>
    ensures { result ≡ only cells.now }
{
    match cells {
        [cell] => Some(*cell),
        _ => None,
    }
}

/// The table of these entries, and of one more whose cells are those behind the first `start`.
fn with_entry(
    cells: Vec<Cell>,
    mut entries: Vec<Entry>,
    mut places: Firsts<usize>,
    start: usize,
    id: u32,
    ty: u32,
) -> Result<ConstTable, NoMemory>
    requires inside { start ≤ length cells.items }
    requires rows { AreRows (take start cells.items) entries.items places }
    ensures { IfOk result (λ table. table ≡ rows_of (take start cells.items) entries.items ++ (id, record { ty = ty; cells = drop start cells.items }) ∷ []) }
{
    let number = entries.len();
    let len = cells.len() - start;
    entries.push(Entry { id, ty, start, len })?;
    places.put(id, number)?;
    Ok(ConstTable {
        cells,
        entries,
        places,
    })
}

impl ConstTable {
    /// The constants of a module by the instructions before its functions, with overrides by SpecId, and the types of
    /// the module with the lengths of their arrays set.
    ///
    /// An override that does not fit each constant of its SpecId is left out of account. Refuses the lowest breach: M14
    /// where an instruction breaks a rule of constants or array lengths, or takes no SpecId that it has, and M18 at a type
    /// that is nested over 32 deep or has more than 4,194,304 cells, and at the constant with which all have more.
    pub fn build(
        alloc: Global,
        types: TypeTable,
        index: &Index,
        over: &Overrides,
    ) -> Result<(TypeTable, ConstTable), Fail<Refusal>>
        ensures { Answers (constants_of types index.now.insts over.now) result }
    {
        let insts = index.insts();
        let context = context_of(alloc, &types, index, over)?;
        let word = lowest_wrong(&context, insts);
        let front = &insts[..index.functions_start()];
        let outcome = known_after(alloc, Walk::new(alloc, types), &context, front);
        unless_earlier(word, outcome)
    }

    /// No constants.
    pub(crate) fn new(alloc: Global) -> ConstTable
        ensures { result ≡ [] }
    {
        ConstTable {
            cells: Vec::new(alloc),
            entries: Vec::new(alloc),
            places: Firsts::new(alloc),
        }
    }

    /// The table with one more constant at the end, of these leaves. Where its id has a value already, that one stays the
    /// id's.
    pub(crate) fn with_row(self, id: u32, ty: u32, row: &[Cell]) -> Result<ConstTable, NoMemory>
        ensures { IfOk result (λ table. table ≡ self ++ (id, record { ty = ty; cells = row.now }) ∷ []) }
    {
        let ConstTable {
            mut cells,
            entries,
            places,
        } = self;
        let start = cells.len();
        cells.extend_from_slice(row)?;
        with_entry(cells, entries, places, start, id, ty)
    }

    /// The table with one more constant at the end, whose leaves are all 0: they are written where they stay. Room is made
    /// for so many leaves at once.
    pub(crate) fn with_null(
        self,
        types: &TypeTable,
        id: u32,
        ty: u32,
        room: u64,
    ) -> Result<ConstTable, NoMemory>
        ensures { IfOk result (λ table. table ≡ self ++ (id, record { ty = ty; cells = null_of types.now ty }) ∷ []) }
    {
        let ConstTable {
            mut cells,
            entries,
            places,
        } = self;
        let start = cells.len();
        cells.reserve(room as usize)?;
        append_blank(&mut cells, types, true, ty)?;
        with_entry(cells, entries, places, start, id, ty)
    }

    /// The place of the first entry under an id.
    fn place(&self, id: u32) -> Option<usize>
        ensures { result ≡ place_of self.now id }
    {
        self.places.get(id)
    }

    /// The place of the row of the constant with an id.
    pub fn row_place(&self, id: u32) -> Option<RowPlace>
        ensures place { result ≡ place_from 0 self.now id }
        ensures row { option_map (row_at self.now) result ≡ reads id self.now }
    {
        let number = self.place(id)?;
        let entry = self.entries[number];
        Some(RowPlace {
            ty: entry.ty,
            start: entry.start,
            len: entry.len,
        })
    }

    /// The row at a place.
    pub fn row_at(&self, place: RowPlace) -> Row<'_>
        ensures { record { ty = result.ty; cells = result.cells.now } ≡ row_at self.now place }
    {
        Row {
            ty: place.ty,
            cells: part(self.cells.as_slice(), place.start, place.len),
        }
    }

    /// The row of the constant with an id.
    pub fn value(&self, id: u32) -> Option<Row<'_>>
        ensures { option_map (λ r. record { ty = r.ty; cells = r.cells.now }) result ≡ reads id self.now }
    {
        Some(self.row_at(self.row_place(id)?))
    }

    /// The cell of the constant with an id, where it is a scalar.
    pub fn scalar(&self, id: u32) -> Option<Cell>
        ensures { result ≡ scalar_of self.now id }
    {
        only(self.value(id)?.cells)
    }
}
