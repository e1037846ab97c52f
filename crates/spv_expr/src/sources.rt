//! Where the memory is read for a local variable.
ghost use Rattle.std.specs.Prelude.{◌≡◌, ◌+◌, ◌<◌, ◌^◌, IfSome, Some, option_copied, option_map};
ghost use Rattle.spv_base.specs.declared.values.PassedEvent.{PassedEvent};
ghost use Rattle.spv_base.specs.declared.values.Value.{Ptr};
ghost use Rattle.spv_expr.specs.Kept.{kept_telling, saturated_telling};
ghost use Rattle.spv_expr.specs.Looks.{IsLocalSource, IsLook, IsPieceSource};
ghost use Rattle.spv_expr.specs.Sources.{IsSource};
ghost use Rattle.spv_expr.specs.Variables as spec;

use crate::events::{Instance, Telling, meant, told_at};
use crate::expressions::{are_plain, operations_of};
use crate::ranges::Range;
use crate::spans::{has_all, meets};
use crate::variables::{events_in, global, inlined_in};
use spv_base::Pointer;
use spv_dbg::{DebugInst, DebugTables, ShownFrame};
use spv_frame::{Captured, DebugEvent, Stack};

/// Where the memory is read: nowhere, or where a pointer leads.
#[derive(Clone, Copy)]
pub enum Source<'a> {
    Nowhere,
    At(&'a Pointer),
}

/// What is known of an event that was passed, for some bits of a variable.
#[derive(Clone, Copy)]
pub(crate) enum Look<'a> {
    /// What it tells of them doesn't depend on the memory.
    Past,
    /// It tells of all of them, and reads the memory there.
    Found(Source<'a>),
    /// It may tell of some, or read the memory in another way.
    Unknown,
}

/// Where the memory is read for the piece of an event that captured a pointer, if that is known.
fn pointer_source<'a>(
    tables: &DebugTables,
    debug: &DebugInst,
    pointer: &'a Pointer,
) -> Option<Source<'a>>
    ensures { IfSome result (λ source. (e : PassedEvent) → e.value ≡ Some (Ptr pointer.now) → IsPieceSource tables.now debug.now e source) }
{
    let Some(ids) = operations_of(tables, debug) else {
        return Some(Source::Nowhere);
    };
    if are_plain(tables, ids) {
        return Some(Source::At(pointer));
    }
    None
}

/// Where the memory is read for the piece of an event, if that is known.
fn piece_source<'a>(
    tables: &DebugTables,
    debug: &DebugInst,
    event: &'a DebugEvent,
) -> Option<Source<'a>>
    ensures { IfSome result (λ source. IsPieceSource tables.now debug.now event.now source) }
{
    match event.captured() {
        Captured::Nothing => Some(Source::Nowhere),
        Captured::Data(_) => Some(Source::Nowhere),
        Captured::Pointer(pointer) => pointer_source(tables, debug, pointer),
    }
}

/// What is known of an event that is of the variable, and covers some of the bits.
fn look_into<'a>(
    tables: &DebugTables,
    instance: Instance,
    telling: Telling<'_>,
    event: &'a DebugEvent,
    span: Range,
) -> Look<'a>
    requires small { span.end < 2 ^ 64 }
    requires told { Some (kept_telling telling) ≡ option_map saturated_telling (spec.telling tables.now instance event.now.word) }
    ensures { IsLook tables.now instance span event.now result }
{
    let Some(source) = piece_source(tables, telling.debug, event) else {
        return Look::Unknown;
    };
    if has_all(telling.range, span) {
        return Look::Found(source);
    }
    match source {
        Source::Nowhere => Look::Past,
        Source::At(_) => Look::Unknown,
    }
}

/// What is known of an event.
fn look_at<'a>(
    tables: &DebugTables,
    instance: Instance,
    event: &'a DebugEvent,
    span: Range,
) -> Look<'a>
    requires { span.end < 2 ^ 64 }
    ensures { IsLook tables.now instance span event.now result }
{
    let Some(telling) = told_at(tables, instance, event.word()) else {
        return Look::Past;
    };
    if !meets(&[span], telling.range) {
        return Look::Past;
    }
    look_into(tables, instance, telling, event, span)
}

/// Where the memory is read for the bits of a range, where these events were passed.
fn local_source<'a>(
    tables: &DebugTables,
    instance: Instance,
    events: &'a [DebugEvent],
    span: Range,
) -> Option<Source<'a>>
    requires { span.end < 2 ^ 64 }
    ensures { IfSome result (λ source. IsLocalSource tables.now instance span events.now source) }
{
    let mut k = events.len();
    'back: while k > 0 {
        k -= 1;
        match look_at(tables, instance, &events[k], span) {
            Look::Past => {}
            Look::Found(source) => return Some(source),
            Look::Unknown => return None,
        }
    }
    Some(Source::Nowhere)
}

/// Where the memory is read for so many bits from one on of a local variable in a shown frame, if that is one place: nothing else of it
/// matters to them, until the frame passes an event of the variable. None for a global, and where it isn't known.
pub fn source_of<'a>(
    tables: &DebugTables,
    stack: &'a Stack,
    frame: Option<&ShownFrame>,
    variable: u32,
    first: u64,
    count: u64,
) -> Option<Source<'a>>
    requires { first + count < 2 ^ 64 }
    ensures { IfSome result (λ source. IsSource tables.now stack.now (option_copied frame.entry) variable first count source) }
{
    if global(tables, variable).is_some() {
        return None;
    }
    let span = Range {
        start: first,
        end: first + count,
    };
    let instance = meant(tables, inlined_in(frame), variable);
    local_source(tables, instance, events_in(stack, frame), span)
}
