//! The bits of a variable as they are shown.
ghost use Rattle.std.specs.Prelude.{◌≡◌, ◌+◌, ◌<◌, ◌^◌, ℕ, [], IfOk, IfSome, None, Option, Some, option_copied, option_map};
ghost use Rattle.std.specs.Option.{MatchOption, option_and_then, option_map_or};
ghost use Rattle.spv_base.specs.Entries.{reads};
ghost use Rattle.spv_dbg.specs.declared.constants.Constant.{Constant};
ghost use Rattle.spv_dbg.specs.Tables.{with_id};
ghost use Rattle.spv_base.specs.Bits.{cell_bits};
ghost use Rattle.spv_dbg.specs.declared.frames.ShownFrame.{ShownFrame as AnyFrame};
ghost use Rattle.spv_expr.specs.Bits as spec;
ghost use Rattle.spv_expr.specs.Rests.{IsRest, IsSomeRest};
ghost use Rattle.spv_expr.specs.Typing.{typing_of};
ghost use Rattle.spv_frame.specs.Stacks.{Stacked};
ghost use Rattle.spv_mem.specs.Memory.{root_value};
ghost use Rattle.spv_types.specs.Rows.{leaves};

use crate::cells::{InCell, Rest, UNBOUND, count_bits, in_cell, put_bits};
use crate::events::meant;
use crate::lists::EventList;
use crate::locals::{event_bits, local_bits};
use crate::typed::Sizes;
use crate::views::View;
use spv_base::{Cell, NoMemory, Root};
use spv_dbg::{Bit, DebugInst, DebugTables, ShownFrame};
use spv_frame::{DebugEvent, Stack};
use spv_mem::Memory;
use spv_ops::debug_info::GLOBAL_VARIABLE;
use spv_parts::operand;
use std::alloc::Global;

/// What is left of the row of a variable of the module, from a bit on, where all before it is known to be so long.
fn typed_rest<'a>(
    view: &View<'a>,
    sizes: &Sizes,
    root: Root,
    cells: &'a [Cell],
    bit: u64,
) -> Rest<'a>
    requires typed { sizes.now ≡ typing_of view.now.memory.now }
    requires cells { option_map leaves (root_value view.now.memory.now view.now.inv root) ≡ Some cells.now }
    ensures { IsRest cells.now bit result.cells.now result.bit }
{
    view.memory.keeps_types();
    let front = sizes.front(root.id(), cells, bit);
    Rest {
        cells: &cells[front.leaves as usize..],
        bit: bit - front.bits,
    }
}

/// The row of the module's variable with a root, from a leaf not behind a bit on, and that bit counted from there.
fn root_rest<'a>(view: &View<'a>, sizes: Option<&Sizes>, root: Root, bit: u64) -> Option<Rest<'a>>
    requires { IfSome (option_copied sizes) (λ s. s ≡ typing_of view.now.memory.now) }
    ensures { MatchOption result (option_map leaves (root_value view.now.memory.now view.now.inv root) ≡ None)
        (λ rest. IsSomeRest (option_map leaves (root_value view.now.memory.now view.now.inv root)) bit rest.cells.now rest.bit) }
{
    let cells = view.memory.root_cells(view.inv, &root)?;
    match sizes {
        Some(sizes) => Some(typed_rest(view, sizes, root, cells, bit)),
        None => Some(Rest { cells, bit }),
    }
}

/// The row of the constant with an id, and a bit of it.
fn constant_rest<'a>(view: &View<'a>, id: u32, bit: u64) -> Rest<'a>
    ensures cells { result.cells.now ≡ option_map_or (λ (c : Constant). c.cells) (reads id view.now.tables.now.constants) [] }
    ensures bit { result.bit ≡ bit }
{
    match view.tables.constant(id) {
        Some(row) => Rest {
            cells: row.cells,
            bit,
        },
        None => Rest { cells: &[], bit },
    }
}

/// The leaves of the module's variable with an id as they are now, or of the constant with it, from one not behind a bit on, and that bit
/// counted from there.
fn global_rest<'a>(view: &View<'a>, sizes: Option<&Sizes>, id: u32, bit: u64) -> Rest<'a>
    requires { IfSome (option_copied sizes) (λ s. s ≡ typing_of view.now.memory.now) }
    ensures { IsRest (spec.global_cells view.now.memory.now view.now.inv view.now.tables.now id) bit result.cells.now result.bit }
{
    if let Some(rest) = root_rest(view, sizes, Root::Shared(id), bit) {
        return rest;
    }
    if let Some(rest) = root_rest(view, sizes, Root::Private(id), bit) {
        return rest;
    }
    constant_rest(view, id, bit)
}

/// So many bits of a GlobalVariable from one on.
pub(crate) fn global_bits(
    alloc: Global,
    view: &View<'_>,
    sizes: Option<&Sizes>,
    debug: &DebugInst,
    first: u64,
    count: u64,
) -> Result<Vec<Bit>, NoMemory>
    requires typed { IfSome (option_copied sizes) (λ s. s ≡ typing_of view.now.memory.now) }
    requires fits { first + count < 2 ^ 64 }
    ensures { IfOk result (λ bits. spec.AreBits (spec.global_bit view.now.memory.now view.now.inv view.now.tables.now debug.now) first count bits.items) }
{
    let mut bits = vec![in alloc; UNBOUND; count as usize]?;
    let rest = global_rest(view, sizes, operand(debug, 7), first);
    put_bits(rest.cells, rest.bit, bits.as_mut_slice(), 0, count as usize);
    Ok(bits)
}

/// How many bits a GlobalVariable has, where a `u64` counts them. There is no memory for more.
fn global_count(view: &View<'_>, sizes: Option<&Sizes>, debug: &DebugInst) -> Result<u64, NoMemory>
    requires { IfSome (option_copied sizes) (λ s. s ≡ typing_of view.now.memory.now) }
    ensures { IfOk result (λ count. count ≡ spec.global_count view.now.memory.now view.now.inv view.now.tables.now debug.now) }
{
    let rest = global_rest(view, sizes, operand(debug, 7), u64::MAX);
    let before = u64::MAX - rest.bit;
    match before.checked_add(count_bits(rest.cells)?) {
        Some(count) => Ok(count),
        None => Err(NoMemory),
    }
}

/// The events that the real frame of a shown frame has passed.
pub(crate) fn events_in<'a>(stack: &'a Stack, frame: Option<&ShownFrame>) -> &'a [DebugEvent]
    ensures { result.now ≡ spec.events_in stack.now (option_copied frame.entry) }
{
    let Some(frame) = frame else {
        return &[];
    };
    match stack.frame(frame.depth) {
        Some(real) => real.events(),
        None => &[],
    }
}

/// The InlinedAt of a shown frame.
pub(crate) fn inlined_in(frame: Option<&ShownFrame>) -> u32
    ensures { result ≡ spec.inlined_in (option_copied frame.entry) }
{
    match frame {
        Some(frame) => frame.inlined,
        None => 0,
    }
}

/// The GlobalVariable with an id.
pub(crate) fn global(tables: &DebugTables, id: u32) -> Option<&DebugInst>
    ensures { option_copied result ≡ option_and_then spec.if_global (with_id tables.now id) }
{
    let debug = tables.get(id)?;
    match debug.number {
        GLOBAL_VARIABLE => Some(debug),
        _ => None,
    }
}

/// How many bits the global with an id has.
fn size_with(view: &View<'_>, sizes: Option<&Sizes>, variable: u32) -> Result<u64, NoMemory>
    requires { IfSome (option_copied sizes) (λ s. s ≡ typing_of view.now.memory.now) }
    ensures { IfOk result (λ size. size ≡ spec.global_size view.now.memory.now view.now.inv view.now.tables.now variable) }
{
    match global(view.tables, variable) {
        Some(debug) => global_count(view, sizes, debug),
        None => Ok(0),
    }
}

/// How many bits the global with an id has, of its variable in the module as it is now, or of its constant; 0 where it is no global.
pub fn global_size(
    tables: &DebugTables,
    memory: &Memory,
    inv: u32,
    variable: u32,
) -> Result<u64, NoMemory>
    ensures { IfOk result (λ size. size ≡ spec.global_size memory.now inv tables.now variable) }
{
    let view = View {
        tables,
        memory,
        inv,
    };
    size_with(&view, None, variable)
}

/// So many bits from one on of a variable in a shown frame, or of a global.
fn bits_with(
    alloc: Global,
    view: &View<'_>,
    sizes: Option<&Sizes>,
    stack: &Stack,
    frame: Option<&ShownFrame>,
    variable: u32,
    first: u64,
    count: u64,
) -> Result<Vec<Bit>, NoMemory>
    requires typed { IfSome (option_copied sizes) (λ s. s ≡ typing_of view.now.memory.now) }
    requires fits { first + count < 2 ^ 64 }
    ensures { IfOk result (λ bits. spec.AreBits (spec.variable_bit view.now.memory.now view.now.inv view.now.tables.now stack.now (option_copied frame.entry) variable) first count bits.items) }
{
    if let Some(debug) = global(view.tables, variable) {
        return global_bits(alloc, view, sizes, debug, first, count);
    }
    let instance = meant(view.tables, inlined_in(frame), variable);
    let events = EventList::all(events_in(stack, frame));
    local_bits(alloc, view, instance, &events, first, count)
}

/// So many bits from one on of a variable in a shown frame, or of a global. A bit that the variable doesn't have is unbound.
pub fn variable_bits(
    alloc: Global,
    tables: &DebugTables,
    memory: &Memory,
    stack: &Stack,
    inv: u32,
    frame: Option<&ShownFrame>,
    variable: u32,
    first: u64,
    count: u64,
) -> Result<Vec<Bit>, NoMemory>
    requires { first + count < 2 ^ 64 }
    ensures { IfOk result (λ bits. spec.AreBits (spec.variable_bit memory.now inv tables.now stack.now (option_copied frame.entry) variable) first count bits.items) }
{
    let view = View {
        tables,
        memory,
        inv,
    };
    bits_with(alloc, &view, None, stack, frame, variable, first, count)
}

impl Sizes {
    /// How many bits the global with an id has, as the function `global_size` gives it, without a walk over its leaves.
    pub fn global_size(
        &self,
        tables: &DebugTables,
        memory: &Memory,
        inv: u32,
        variable: u32,
    ) -> Result<u64, NoMemory>
        requires { self.now ≡ typing_of memory.now }
        ensures { IfOk result (λ size. size ≡ spec.global_size memory.now inv tables.now variable) }
    {
        let view = View {
            tables,
            memory,
            inv,
        };
        size_with(&view, Some(self), variable)
    }

    /// So many bits from one on of a variable, as the function `variable_bits` gives them, without a walk over the leaves of a global
    /// that are before them.
    pub fn variable_bits(
        &self,
        alloc: Global,
        tables: &DebugTables,
        memory: &Memory,
        stack: &Stack,
        inv: u32,
        frame: Option<&ShownFrame>,
        variable: u32,
        first: u64,
        count: u64,
    ) -> Result<Vec<Bit>, NoMemory>
        requires typed { self.now ≡ typing_of memory.now }
        requires fits { first + count < 2 ^ 64 }
        ensures { IfOk result (λ bits. spec.AreBits (spec.variable_bit memory.now inv tables.now stack.now (option_copied frame.entry) variable) first count bits.items) }
    {
        let view = View {
            tables,
            memory,
            inv,
        };
        bits_with(
            alloc,
            &view,
            Some(self),
            stack,
            frame,
            variable,
            first,
            count,
        )
    }

    /// Where so many bits of a global from one on lie now, if one cell has them all.
    pub fn global_cell(
        &self,
        tables: &DebugTables,
        memory: &Memory,
        inv: u32,
        variable: u32,
        first: u64,
        count: u64,
    ) -> Option<InCell>
        requires typed { self.now ≡ typing_of memory.now }
        ensures cell { IfSome result (λ found. (s : Stacked) (f : Option AnyFrame) (j : ℕ) → j < count
            → spec.variable_bit memory.now inv tables.now s f variable (first + j) ≡ spec.shown (cell_bits found.cell) (found.bit + j)) }
    {
        let view = View {
            tables,
            memory,
            inv,
        };
        let debug = global(tables, variable)?;
        let rest = global_rest(&view, Some(self), operand(debug, 7), first);
        in_cell(rest, count)
    }
}

/// The bits of the piece that an event in the list of a shown frame's real frame gives, where it is of a variable. None exactly where
/// the piece can't be read.
pub fn eval(
    alloc: Global,
    tables: &DebugTables,
    memory: &Memory,
    stack: &Stack,
    inv: u32,
    frame: &ShownFrame,
    variable: u32,
    event: u32,
) -> Result<Option<Vec<Bit>>, NoMemory>
    ensures { IfOk result (λ bits. option_map (λ v. v.items) bits ≡ spec.evaluated memory.now inv tables.now stack.now frame.now variable event) }
{
    let Some(event) = events_in(stack, Some(frame)).get(event as usize) else {
        return Ok(None);
    };
    let view = View {
        tables,
        memory,
        inv,
    };
    let instance = meant(tables, frame.inlined, variable);
    event_bits(alloc, &view, instance, event)
}
