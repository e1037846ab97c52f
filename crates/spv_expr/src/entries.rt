//! Entries of the stack on which an expression is evaluated: lent where they lie, and never copied.
ghost use Rattle.std.specs.Prelude.{◌≡◌, ◌++◌, ◌∷◌, [], IfOk, length, option_map};
ghost use Rattle.std.specs.Option.{is_some, option_and_then};
ghost use Rattle.spv_base.specs.Parts.{part_at};
ghost use Rattle.spv_expr.specs.Expressions as spec;
ghost use Rattle.spv_expr.specs.Kept.{kept_entry};
ghost use Rattle.spv_mem.specs.Memory.{load_of};
ghost use Rattle.spv_types.specs.Rows.{leaves};

use spv_base::{Cell, NoMemory, Pointer};
use spv_dbg::DebugTables;
use spv_frame::{Captured, DebugEvent};
use spv_mem::Memory;
use spv_values::Part;
use std::alloc::Global;

/// An entry: a scalar, a value of parts, or a pointer.
#[derive(Drop)]
pub(crate) enum Entry<'a> {
    Number(Cell),
    Whole(Part<'a>),
    Address(&'a Pointer),
}

/// The entry of a value that is no pointer, which is a scalar or not.
fn typed<'a>(scalar: bool, part: Part<'a>) -> Entry<'a>
    ensures { kept_entry result ≡ spec.typed scalar part.entry }
{
    let cells = part.cells();
    if scalar && cells.len() == 1 {
        return Entry::Number(cells[0]);
    }
    Entry::Whole(part)
}

/// The entry of what an event has captured, if it has captured something.
pub(crate) fn captured<'a>(
    tables: &DebugTables,
    word: u32,
    event: &'a DebugEvent,
) -> Option<Entry<'a>>
    ensures { option_map kept_entry result ≡ option_map (spec.captured tables.now word) event.now.value }
{
    match event.captured() {
        Captured::Nothing => None,
        Captured::Data(row) => Some(typed(tables.names_scalar(word), row.as_part())),
        Captured::Pointer(pointer) => Some(Entry::Address(pointer)),
    }
}

/// A pointer to the first part of what a pointer leads to.
fn first_part(alloc: Global, pointer: &Pointer) -> Result<Pointer, NoMemory>
    ensures { IfOk result (λ p. p ≡ record { root = pointer.now.root; path = pointer.now.path ++ 0 ∷ [] }) }
{
    let mut first = pointer.copy(alloc)?;
    first.path.push(0)?;
    Ok(first)
}

/// Whether what a pointer leads to has a part. The memory is asked for it, since a row doesn't tell a scalar from a composite of one
/// scalar.
fn has_part(alloc: Global, memory: &Memory, inv: u32, pointer: &Pointer) -> Result<bool, NoMemory>
    ensures { IfOk result (λ has. has ≡ is_some (option_and_then (λ v. part_at v (0 ∷ [])) (load_of memory.now inv pointer.now))) }
{
    let first = first_part(alloc, pointer)?;
    Ok(memory.load(inv, &first).is_ok())
}

/// The entry of what a pointer leads to now, if it leads to a part of the memory.
pub(crate) fn loaded<'a>(
    alloc: Global,
    memory: &'a Memory,
    inv: u32,
    pointer: &Pointer,
) -> Result<Option<Entry<'a>>, NoMemory>
    ensures { IfOk result (λ e. option_map kept_entry e ≡ option_map spec.loaded (load_of memory.now inv pointer.now)) }
{
    let Ok(part) = memory.load(inv, pointer) else {
        return Ok(None);
    };
    let scalar = !has_part(alloc, memory, inv, pointer)?;
    Ok(Some(typed(scalar, part)))
}
