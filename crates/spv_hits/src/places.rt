//! Where the bits of a watch lie: while the memory has there what was kept, they are the same, whatever else was stored.
ghost use Rattle.std.specs.Prelude.{◌≡◌, IfOk, IfSome, List, Some, option_map, true};
ghost use Rattle.spv_dbg.specs.Tables.{Tables as AnyTables};
ghost use Rattle.spv_expr.specs.Sources.{LeadsToSame};
ghost use Rattle.spv_expr.specs.Typing.{typing_of};
ghost use Rattle.spv_frame.specs.Frames.{Held as AnyFrame};
ghost use Rattle.spv_hits.specs.Kept.{Holds, Lies, LiesAt, bits_of_cell, typing_in};
ghost use Rattle.spv_hits.specs.Watches as spec;
ghost use Rattle.spv_mem.specs.Memory.{Held as AnyMemory, load_of};
ghost use Rattle.spv_stops.specs.Watches.{WatchKey as AnyKey};
ghost use Rattle.spv_types.specs.Rows.{leaves};

use crate::bits::{frame_of, is_there, stack_of};
use spv_base::{Cell, NoMemory, Pointer};
use spv_dbg::DebugTables;
use spv_expr::{InCell, Sizes, Source, source_of};
use spv_frame::Stack;
use spv_group::Group;
use spv_mem::Memory;
use spv_stops::WatchKey;
use std::alloc::Global;

/// Where the bits of a watch lie, with what lay there.
#[derive(Drop)]
pub(crate) enum Place {
    /// That isn't known.
    Anywhere,
    /// One cell of a global has them all.
    InOne(InCell),
    /// Not in the memory.
    Nowhere,
    /// Where a pointer leads, to these leaves.
    At(Pointer, Vec<Cell>),
}

/// Where the bits of a watch on a global lie, if one cell has them all.
#[inline(always)]
fn cell_of(tables: &DebugTables, sizes: &Sizes, key: &WatchKey, memory: &Memory) -> Option<InCell>
    requires { sizes.now ≡ typing_of memory.now }
    ensures { IfSome result (λ x. (frames : List AnyFrame) → spec.watched_in tables.now key.now memory.now frames ≡ Some (bits_of_cell x key.now.count)) }
{
    if key.local {
        return None;
    }
    sizes.global_cell(tables, memory, key.inv, key.variable, key.first, key.count)
}

/// Whether two cells are the same, and bits begin at the same one there.
#[inline(always)]
fn same_cell(a: &InCell, b: &InCell) -> bool
    ensures { result ≡ true → a.now ≡ b.now }
{
    a.bit == b.bit
        && a.cell.bits == b.cell.bits
        && a.cell.width == b.cell.width
        && a.cell.defined == b.cell.defined
}

/// Whether the bits of a watch lie in this cell of a global.
#[inline(always)]
fn has_cell(
    tables: &DebugTables,
    sizes: &Sizes,
    key: &WatchKey,
    memory: &Memory,
    cell: &InCell,
) -> bool
    requires { sizes.now ≡ typing_of memory.now }
    ensures { result ≡ true → (frames : List AnyFrame) → spec.watched_in tables.now key.now memory.now frames ≡ Some (bits_of_cell cell.now key.now.count) }
{
    match cell_of(tables, sizes, key, memory) {
        Some(found) => same_cell(&found, cell),
        None => false,
    }
}

/// Whether two cells are the same.
#[inline(always)]
fn same_leaf(a: Cell, b: Cell) -> bool
    ensures { result ≡ true → a ≡ b }
{
    a.bits == b.bits && a.width == b.width && a.defined == b.defined
}

/// Whether the cells of two lists are the same.
fn same_leaves(mut a: &[Cell], mut b: &[Cell]) -> bool
    ensures { result ≡ true → a.entry.now ≡ b.entry.now }
{
    'leaves: while let ([x, xs @ ..], [y, ys @ ..]) = (a, b) {
        if !same_leaf(*x, *y) {
            return false;
        }
        a = xs;
        b = ys;
    }
    a.is_empty() && b.is_empty()
}

/// Whether a pointer of an invocation leads to these leaves.
fn leads_to(memory: &Memory, inv: u32, pointer: &Pointer, cells: &[Cell]) -> bool
    ensures { result ≡ true → option_map leaves (load_of memory.now inv pointer.now) ≡ Some cells.now }
{
    match memory.load(inv, pointer) {
        Ok(part) => same_leaves(part.cells(), cells),
        Err(_) => false,
    }
}

/// Where a pointer of an invocation leads.
fn place_at(alloc: Global, memory: &Memory, inv: u32, pointer: &Pointer) -> Result<Place, NoMemory>
    ensures { IfOk result (λ place. (t : AnyTables) (k : AnyKey) (n : AnyMemory) → k.inv ≡ inv → Holds t k place n → LeadsToSame pointer.now inv memory.now n) }
{
    match memory.load(inv, pointer) {
        Ok(part) => {
            let copy = pointer.copy(alloc)?;
            let cells = Vec::from_slice(alloc, part.cells())?;
            Ok(Place::At(copy, cells))
        }
        Err(_) => Ok(Place::Anywhere),
    }
}

/// Where the bits of a watch on a local lie.
fn local_place(
    alloc: Global,
    tables: &DebugTables,
    key: &WatchKey,
    memory: &Memory,
    stack: &Stack,
) -> Result<Place, NoMemory>
    ensures { IfOk result (λ place. Lies tables.now key.now place memory.now stack.now.frames) }
{
    if !is_there(key, stack) {
        return Ok(Place::Nowhere);
    }
    let frame = frame_of(alloc, key);
    match source_of(
        tables,
        stack,
        frame.as_ref(),
        key.variable,
        key.first,
        key.count,
    ) {
        Some(Source::At(pointer)) => place_at(alloc, memory, key.inv, pointer),
        Some(Source::Nowhere) => Ok(Place::Nowhere),
        None => Ok(Place::Anywhere),
    }
}

/// Where the bits of a watch on a global lie.
fn global_place(tables: &DebugTables, sizes: &Sizes, key: &WatchKey, memory: &Memory) -> Place
    requires { sizes.now ≡ typing_of memory.now }
    ensures { (frames : List AnyFrame) → Lies tables.now key.now result memory.now frames }
{
    match cell_of(tables, sizes, key, memory) {
        Some(cell) => Place::InOne(cell),
        None => Place::Anywhere,
    }
}

impl Place {
    /// Where the bits of a watch lie at a position.
    pub(crate) fn of(
        alloc: Global,
        tables: &DebugTables,
        sizes: &Sizes,
        key: &WatchKey,
        group: &Group,
    ) -> Result<Place, NoMemory>
        requires { sizes.now ≡ typing_in group.now.group.program }
        ensures { IfOk result (λ place. LiesAt tables.now key.now place group.now.group) }
    {
        let memory = group.world().whole().memory();
        if !key.local {
            return Ok(global_place(tables, sizes, key, memory));
        }
        match stack_of(group, key.inv) {
            Some(stack) => local_place(alloc, tables, key, memory, stack),
            None => local_place(alloc, tables, key, memory, &Stack::new(alloc, 0)?),
        }
    }

    /// Whether a memory has there what was kept.
    pub(crate) fn is_held(
        &self,
        tables: &DebugTables,
        sizes: &Sizes,
        key: &WatchKey,
        memory: &Memory,
    ) -> bool
        requires { sizes.now ≡ typing_of memory.now }
        ensures { result ≡ true → Holds tables.now key.now self.now memory.now }
    {
        match self {
            Place::Anywhere => false,
            Place::InOne(cell) => has_cell(tables, sizes, key, memory, cell),
            Place::Nowhere => true,
            Place::At(pointer, cells) => leads_to(memory, key.inv, pointer, cells.as_slice()),
        }
    }
}
