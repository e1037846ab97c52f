//! Expressions of debug events, evaluated in the memory as it is now.
ghost use Rattle.std.specs.Prelude.{◌≡◌, IfOk, option_copied, option_map, slice_index};
ghost use Rattle.std.specs.List.{list_all};
ghost use Rattle.std.specs.Option.{option_and_then};
ghost use Rattle.spv_base.specs.Cell.{defined_cell};
ghost use Rattle.spv_dbg.specs.Tables.{with_id};
ghost use Rattle.spv_expr.specs.Expressions as spec;
ghost use Rattle.spv_expr.specs.Kept.{kept_entry, kept_stack, number_in};
ghost use Rattle.spv_expr.specs.Looks.{is_plain};

use crate::entries::{Entry, captured, loaded};
use crate::views::View;
use spv_alu::arithmetic::{difference, sum};
use spv_alu::integers::is_width;
use spv_alu::results::defined_if;
use spv_base::{Cell, NoMemory};
use spv_dbg::{DebugInst, DebugTables};
use spv_frame::DebugEvent;
use spv_ops::debug_info::DECLARE;
use spv_parts::{literal, operand};
use std::alloc::Global;

/// The OpCodes of Operations.
const DEREF: u32 = 0;

const PLUS: u32 = 1;

const MINUS: u32 = 2;

const PLUS_UCONST: u32 = 3;

const SWAP: u32 = 5;

const STACK_VALUE: u32 = 7;

const CONSTU: u32 = 8;

const FRAGMENT: u32 = 9;

/// The scalar of a literal.
fn constant(number: u32) -> Cell
    ensures { result ≡ defined_cell 32 number }
{
    Cell {
        bits: u64::from(number),
        width: 32,
        defined: true,
    }
}

/// What numbers of no bits give.
fn of_no_bits() -> Cell
    ensures { result ≡ defined_cell 0 0 }
{
    Cell {
        bits: 0,
        width: 0,
        defined: true,
    }
}

/// The sum of two scalars at the width of the first, as it is defined or not.
fn added(a: Cell, b: Cell) -> Cell
    ensures { result ≡ spec.combined spec.sum a b }
{
    let total = if is_width(a.width) {
        sum(a.bits, b.bits, a.width)
    } else {
        of_no_bits()
    };
    defined_if(a.defined && b.defined, total)
}

/// Their difference.
fn subtracted(a: Cell, b: Cell) -> Cell
    ensures { result ≡ spec.combined spec.difference a b }
{
    let rest = if is_width(a.width) {
        difference(a.bits, b.bits, a.width)
    } else {
        of_no_bits()
    };
    defined_if(a.defined && b.defined, rest)
}

/// A pointer on top is replaced by what it leads to.
fn dereferenced<'a>(
    alloc: Global,
    view: &View<'a>,
    mut stack: Vec<Entry<'a>>,
) -> Result<Option<Vec<Entry<'a>>>, NoMemory>
    ensures { IfOk result (λ s. option_map kept_stack s ≡ spec.dereferenced view.now.memory.now view.now.inv (kept_stack stack.entry)) }
{
    let Some(Entry::Address(pointer)) = stack.pop() else {
        return Ok(None);
    };
    let Some(entry) = loaded(alloc, view.memory, view.inv, pointer)? else {
        return Ok(None);
    };
    stack.push(entry)?;
    Ok(Some(stack))
}

/// The scalar that an entry is, if it is one.
fn number_of(entry: &Entry<'_>) -> Option<Cell>
    ensures { result ≡ number_in (kept_entry entry.now) }
{
    match entry {
        Entry::Number(cell) => Some(*cell),
        Entry::Whole(_) | Entry::Address(_) => None,
    }
}

/// Two scalars on top are replaced by their sum.
fn plus<'a>(mut stack: Vec<Entry<'a>>) -> Result<Option<Vec<Entry<'a>>>, NoMemory>
    ensures { IfOk result (λ s. option_map kept_stack s ≡ spec.arithmetic spec.sum (kept_stack stack.entry)) }
{
    let Some(upper) = stack.pop() else {
        return Ok(None);
    };
    let Some(deeper) = stack.pop() else {
        return Ok(None);
    };
    let (Some(a), Some(b)) = (number_of(&deeper), number_of(&upper)) else {
        return Ok(None);
    };
    stack.push(Entry::Number(added(a, b)))?;
    Ok(Some(stack))
}

/// Two scalars on top are replaced by their difference.
fn minus<'a>(mut stack: Vec<Entry<'a>>) -> Result<Option<Vec<Entry<'a>>>, NoMemory>
    ensures { IfOk result (λ s. option_map kept_stack s ≡ spec.arithmetic spec.difference (kept_stack stack.entry)) }
{
    let Some(upper) = stack.pop() else {
        return Ok(None);
    };
    let Some(deeper) = stack.pop() else {
        return Ok(None);
    };
    let (Some(a), Some(b)) = (number_of(&deeper), number_of(&upper)) else {
        return Ok(None);
    };
    stack.push(Entry::Number(subtracted(a, b)))?;
    Ok(Some(stack))
}

/// The two entries on top change places.
fn swapped<'a>(mut stack: Vec<Entry<'a>>) -> Result<Option<Vec<Entry<'a>>>, NoMemory>
    ensures { IfOk result (λ s. option_map kept_stack s ≡ spec.swapped (kept_stack stack.entry)) }
{
    let Some(upper) = stack.pop() else {
        return Ok(None);
    };
    let Some(deeper) = stack.pop() else {
        return Ok(None);
    };
    stack.push(upper)?;
    stack.push(deeper)?;
    Ok(Some(stack))
}

/// A literal is put on top.
fn pushed<'a>(mut stack: Vec<Entry<'a>>, number: u32) -> Result<Vec<Entry<'a>>, NoMemory>
    ensures { IfOk result (λ s. kept_stack s ≡ spec.pushed (defined_cell 32 number) (kept_stack stack.entry)) }
{
    stack.push(Entry::Number(constant(number)))?;
    Ok(stack)
}

/// What an operation makes of a stack, where it can.
fn operated<'a>(
    alloc: Global,
    view: &View<'a>,
    opcode: u32,
    number: u32,
    stack: Vec<Entry<'a>>,
) -> Result<Option<Vec<Entry<'a>>>, NoMemory>
    ensures { IfOk result (λ s. option_map kept_stack s ≡ spec.operated view.now.memory.now view.now.inv opcode number (kept_stack stack.entry)) }
{
    match opcode {
        DEREF => dereferenced(alloc, view, stack),
        PLUS => plus(stack),
        MINUS => minus(stack),
        PLUS_UCONST => plus(pushed(stack, number)?),
        SWAP => swapped(stack),
        CONSTU => Ok(Some(pushed(stack, number)?)),
        STACK_VALUE | FRAGMENT => Ok(Some(stack)),
        _ => Ok(None),
    }
}

/// What the Operation with an id makes of a stack.
fn operation<'a>(
    alloc: Global,
    view: &View<'a>,
    id: u32,
    stack: Vec<Entry<'a>>,
) -> Result<Option<Vec<Entry<'a>>>, NoMemory>
    ensures { IfOk result (λ s. option_map kept_stack s ≡ option_and_then (spec.operation view.now.memory.now view.now.inv view.now.tables.now (kept_stack stack.entry)) (with_id view.now.tables.now id)) }
{
    let tables = view.tables;
    let Some(debug) = tables.get(id) else {
        return Ok(None);
    };
    let opcode = literal(tables, operand(debug, 0));
    let number = literal(tables, operand(debug, 1));
    operated(alloc, view, opcode, number, stack)
}

/// What Operations make of a stack, one after the other.
fn evaluated<'a>(
    alloc: Global,
    view: &View<'a>,
    ids: &[u32],
    mut stack: Vec<Entry<'a>>,
) -> Result<Option<Vec<Entry<'a>>>, NoMemory>
    ensures { IfOk result (λ s. option_map kept_stack s ≡ spec.evaluated view.now.memory.now view.now.inv view.now.tables.now ids.now (kept_stack stack.entry)) }
{
    for id in ids {
        stack = match operation(alloc, view, *id, stack)? {
            Some(next) => next,
            None => return Ok(None),
        };
    }
    Ok(Some(stack))
}

/// What stands on top of a stack at the end, where it can be read by an event of a kind.
fn result_of<'a>(
    alloc: Global,
    view: &View<'a>,
    kind: u32,
    mut stack: Vec<Entry<'a>>,
) -> Result<Option<Entry<'a>>, NoMemory>
    ensures { IfOk result (λ e. option_map kept_entry e ≡ spec.result view.now.memory.now view.now.inv kind (kept_stack stack.entry)) }
{
    match stack.pop() {
        Some(Entry::Address(pointer)) => {
            if kind == DECLARE {
                loaded(alloc, view.memory, view.inv, pointer)
            } else {
                Ok(None)
            }
        }
        top => Ok(top),
    }
}

/// Whether the Operation with an id makes of a pointer at most what depends on the leaves alone that it leads to.
fn is_plain(tables: &DebugTables, id: u32) -> bool
    ensures { result ≡ is_plain tables.now id }
{
    match tables.get(id) {
        Some(debug) => matches!(
            literal(tables, operand(debug, 0)),
            DEREF | STACK_VALUE | FRAGMENT
        ),
        None => false,
    }
}

/// Whether all of these do.
pub(crate) fn are_plain(tables: &DebugTables, ids: &[u32]) -> bool
    ensures { result ≡ list_all (is_plain tables.now) ids.now }
{
    ids.iter().all(|id| is_plain(tables, *id))
}

/// The ids of the Operations of the Expression of an event, where there is one.
pub(crate) fn operations_of<'a>(tables: &'a DebugTables, debug: &DebugInst) -> Option<&'a [u32]>
    ensures { option_copied result ≡ option_map (λ x. x.operands) (with_id tables.now (slice_index debug.now.operands 2)) }
{
    Some(tables.get(operand(debug, 2))?.operands.as_slice())
}

/// What the Expression of an event gives of what it has captured: nothing where it can't be read.
pub(crate) fn piece<'a>(
    alloc: Global,
    view: &View<'a>,
    debug: &DebugInst,
    event: &'a DebugEvent,
) -> Result<Option<Entry<'a>>, NoMemory>
    ensures { IfOk result (λ e. option_map kept_entry e ≡ spec.piece view.now.memory.now view.now.inv view.now.tables.now debug.now event.now) }
{
    let Some(entry) = captured(view.tables, debug.word, event) else {
        return Ok(None);
    };
    let Some(ids) = operations_of(view.tables, debug) else {
        return Ok(None);
    };
    let stack = vec![in alloc; entry]?;
    match evaluated(alloc, view, ids, stack)? {
        Some(stack) => result_of(alloc, view, debug.number, stack),
        None => Ok(None),
    }
}
