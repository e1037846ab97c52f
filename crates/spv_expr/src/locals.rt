//! The bits of a local variable, by the events that were passed, from the last one back: each event is looked at for those bits alone
//! of which no later one told.
ghost use Rattle.std.specs.Prelude.{◌≡◌, ◌+◌, ◌-◌, ◌<◌, ◌≤◌, ◌^◌, ◌&&◌, ◌∷◌, [], ℕ, IfOk, OnOk, if◌then◌else◌, length, map, not, option_map, true};
ghost use Rattle.spv_expr.specs.Bits as spec;
ghost use Rattle.spv_expr.specs.Kept.{is_in_any, kept_entry};
ghost use Rattle.spv_expr.specs.Rests.{AreOpen, ArePut, ArePutIn, AreWithin, bit_in};
ghost use Rattle.spv_expr.specs.Variables.{tells};

use crate::cells::{UNBOUND, all_bits, put_bits};
use crate::entries::Entry;
use crate::events::{Instance, event_of, told_at};
use crate::expressions::piece;
use crate::lists::EventList;
use crate::ranges::Range;
use crate::spans::{common, is_empty, meets, without};
use crate::views::View;
use spv_base::NoMemory;
use spv_dbg::Bit;
use spv_frame::DebugEvent;
use std::alloc::Global;

/// Puts the bits of an entry from one on into a slice, from a place to before another one.
fn put_entry(entry: &Entry<'_>, from: u64, bits: &mut [Bit], at: usize, end: usize)
    requires places { at ≤ end }
    requires within { end ≤ length bits.old }
    requires fits { from + (end - at) < 2 ^ 64 }
    ensures { ArePut (spec.entry_cells (kept_entry entry.now)) from bits.old at end bits.new }
{
    match entry {
        Entry::Number(cell) => put_bits(&[*cell], from, bits, at, end),
        Entry::Whole(part) => put_bits(part.cells(), from, bits, at, end),
        Entry::Address(_) => put_bits(&[], from, bits, at, end),
    }
}

/// Puts the bits of an entry, which begin with those of a range, where they are among some other bits of the variable. The slice has
/// the bits from one on.
fn put_common(entry: &Entry<'_>, range: Range, span: Range, first: u64, bits: &mut [Bit])
    requires { AreWithin first bits.old (span ∷ []) }
    ensures { ArePutIn (spec.entry_cells (kept_entry entry.now)) range (span ∷ []) first bits.old bits.new }
{
    let both = common(span, range);
    if is_empty(both) {
        return;
    }
    let at = (both.start - first) as usize;
    let end = (both.end - first) as usize;
    put_entry(entry, both.start - range.start, bits, at, end);
}

/// Puts them where they are in gaps.
fn put_open(entry: &Entry<'_>, range: Range, gaps: &[Range], first: u64, bits: &mut [Bit])
    requires { AreWithin first bits.old gaps.now }
    ensures { ArePutIn (spec.entry_cells (kept_entry entry.now)) range gaps.now first bits.old bits.new }
{
    for span in gaps {
        put_common(entry, range, *span, first, bits);
    }
}

/// Looks at an event for the bits of which no later one told.
fn take_event(
    alloc: Global,
    view: &View<'_>,
    instance: Instance,
    event: &DebugEvent,
    first: u64,
    bits: &mut [Bit],
    gaps: &mut Vec<Range>,
) -> Result<(), NoMemory>
    requires fits { first + length bits.old < 2 ^ 64 }
    requires within { AreWithin first bits.old gaps.old.items }
    requires unbound { AreOpen first bits.old gaps.old.items }
    ensures gaps_left { OnOk result ((j : ℕ) → j < 2 ^ 64 - 1 → is_in_any j gaps.new.items ≡ is_in_any j gaps.old.items && not (tells view.now.tables.now instance j event.now)) }
    ensures fewer { OnOk result ((j : ℕ) → is_in_any j gaps.new.items ≡ true → is_in_any j gaps.old.items ≡ true) }
    ensures bits { OnOk result ((k : ℕ) → k < length bits.old → bit_in bits.new k ≡ (if is_in_any (first + k) gaps.old.items && tells view.now.tables.now instance (first + k) event.now
        then spec.told view.now.memory.now view.now.inv view.now.tables.now instance (first + k) event.now else bit_in bits.old k)) }
{
    let Some(telling) = told_at(view.tables, instance, event.word()) else {
        return Ok(());
    };
    if !meets(gaps.as_slice(), telling.range) {
        return Ok(());
    }
    if let Some(entry) = piece(alloc, view, telling.debug, event)? {
        put_open(&entry, telling.range, gaps.as_slice(), first, bits);
    }
    *gaps = without(alloc, gaps.as_slice(), telling.range)?;
    Ok(())
}

/// Puts the bits of a variable from one on into a slice of unbound ones, where these events were passed.
fn put_local(
    alloc: Global,
    view: &View<'_>,
    instance: Instance,
    events: &EventList<'_>,
    first: u64,
    bits: &mut [Bit],
) -> Result<(), NoMemory>
    requires fits { first + length bits.old < 2 ^ 64 }
    requires unbound { (k : ℕ) → bit_in bits.old k ≡ spec.unbound }
    ensures { OnOk result ((k : ℕ) → k < length bits.old → bit_in bits.new k ≡ spec.local_bit view.now.memory.now view.now.inv view.now.tables.now events.now instance (first + k)) }
{
    let whole = Range {
        start: first,
        end: first + bits.len() as u64,
    };
    let mut gaps = vec![in alloc; whole]?;
    let mut k = events.len();
    'back: while k > 0 && !gaps.is_empty() {
        k -= 1;
        take_event(alloc, view, instance, events.at(k), first, bits, &mut gaps)?;
    }
    Ok(())
}

/// So many bits of a variable from one on, where these events were passed.
pub(crate) fn local_bits(
    alloc: Global,
    view: &View<'_>,
    instance: Instance,
    events: &EventList<'_>,
    first: u64,
    count: u64,
) -> Result<Vec<Bit>, NoMemory>
    requires { first + count < 2 ^ 64 }
    ensures { IfOk result (λ bits. spec.AreBits (spec.local_bit view.now.memory.now view.now.inv view.now.tables.now events.now instance) first count bits.items) }
{
    let mut bits = vec![in alloc; UNBOUND; count as usize]?;
    put_local(alloc, view, instance, events, first, bits.as_mut_slice())?;
    Ok(bits)
}

/// All bits of an entry.
fn entry_bits(alloc: Global, entry: &Entry<'_>) -> Result<Vec<Bit>, NoMemory>
    ensures { IfOk result (λ bits. bits.items ≡ map spec.bound (spec.bits_of (spec.entry_cells (kept_entry entry.now)))) }
{
    match entry {
        Entry::Number(cell) => all_bits(alloc, &[*cell]),
        Entry::Whole(part) => all_bits(alloc, part.cells()),
        Entry::Address(_) => all_bits(alloc, &[]),
    }
}

/// All bits of the piece of an event, where it is of a variable and can be read.
pub(crate) fn event_bits(
    alloc: Global,
    view: &View<'_>,
    instance: Instance,
    event: &DebugEvent,
) -> Result<Option<Vec<Bit>>, NoMemory>
    ensures { IfOk result (λ bits. option_map (λ v. v.items) bits ≡ spec.event_bits view.now.memory.now view.now.inv view.now.tables.now instance event.now) }
{
    let Some(debug) = event_of(view.tables, instance, event.word()) else {
        return Ok(None);
    };
    match piece(alloc, view, debug, event)? {
        Some(entry) => Ok(Some(entry_bits(alloc, &entry)?)),
        None => Ok(None),
    }
}
