//! What is the same before and behind an event, of that which watches look at.
ghost use Rattle.std.specs.Prelude.{◌≡◌, ◌≢◌, ◌-◌, ◌<◌, IfOk, IfSome, Some, false, length, slice_get, true};
ghost use Rattle.std.specs.List.{All};
ghost use Rattle.spv_expr.specs.Groups.{is_event_of};
ghost use Rattle.spv_group.specs.Group.{entries_in, group_at, state_in};
ghost use Rattle.spv_group.specs.Touches.{IsTouch};
ghost use Rattle.spv_hits.specs.Kept.{AreAlike, AreSame, Did, IsAlike, IsSame, last_of};
ghost use Rattle.spv_state.specs.State.{State as AnyState, frames_of};

use crate::bits::stack_of;
use spv_base::NoMemory;
use spv_dbg::DebugTables;
use spv_expr::{is_of_variable, other_events_tell_nothing};
use spv_frame::{DebugEvent, Stack};
use spv_group::{FrameChange, Group, Touch};
use spv_stops::WatchKey;
use std::alloc::Global;

/// What an event of an invocation did.
#[derive(Clone, Copy)]
pub(crate) struct EventTouch {
    touch: Touch,
    inv: u32,
}

/// What the event before a position did, where that is known. It is one of this invocation.
#[inline(always)]
fn touch_before(group: &Group, inv: Option<u32>) -> Option<EventTouch>
    requires some { 0 < group.now.group.position }
    requires entry { IfSome inv (λ i. slice_get (entries_in group.now.group) (group.now.group.position - 1) ≡ Some i) }
    ensures { Did result (state_in (group_at (group.now.group.position - 1) group.now.group)) (state_in group.now.group) }
{
    let inv = inv?;
    let touch = group.touch()?;
    Some(EventTouch { touch, inv })
}

/// Whether no frame came or went.
#[inline(always)]
fn is_same(change: FrameChange) -> bool
    ensures { result ≡ true → change ≡ FrameChange.Same }
{
    matches!(change, FrameChange::Same)
}

/// Whether a frame came.
#[inline(always)]
fn is_pushed(change: FrameChange) -> bool
    ensures { result ≡ false → change ≢ FrameChange.Pushed }
{
    matches!(change, FrameChange::Pushed)
}

/// Whether a frame went.
#[inline(always)]
fn is_popped(change: FrameChange) -> bool
    ensures { result ≡ false → change ≢ FrameChange.Popped }
{
    matches!(change, FrameChange::Popped)
}

/// Whether an event left the memory as it was.
#[inline(always)]
fn left_memory(touch: Touch) -> bool
    ensures { result ≡ true → (touch.stores ≡ false) × (touch.frames ≡ FrameChange.Same) }
{
    !touch.stores && is_same(touch.frames)
}

/// Whether it left all as it was that any watch looks at.
#[inline(always)]
fn left_all(touch: Touch) -> bool
    ensures { result ≡ true → (touch.stores ≡ false) × (touch.frames ≡ FrameChange.Same) × (touch.events ≡ 0) }
{
    touch.events == 0 && left_memory(touch)
}

/// Whether it is known that an event left all as it was that any watch looks at.
#[inline(always)]
fn has_left_all(tables: &DebugTables, touched: Option<EventTouch>) -> bool
    ensures { result ≡ true → (s u : AnyState) → Did touched s u → AreSame tables.now s u }
{
    match touched {
        Some(touched) => left_all(touched.touch),
        None => false,
    }
}

/// Whether it is known that it left the memory as it was.
#[inline(always)]
fn has_left_memory(touched: Option<EventTouch>) -> bool
    ensures { result ≡ true → (s u : AnyState) → Did touched s u → s.memory ≡ u.memory }
{
    match touched {
        Some(touched) => left_memory(touched.touch),
        None => false,
    }
}

/// The last of some events, so many.
fn last(events: &[DebugEvent], many: u32) -> &[DebugEvent]
    ensures { result.now ≡ last_of many events.now }
{
    let before = events.len().saturating_sub(many as usize);
    &events[before..]
}

/// Whether none of some events is of a variable.
fn none_is_of(tables: &DebugTables, events: &[DebugEvent], variable: u32) -> bool
    ensures { result ≡ true → All (λ e. is_event_of tables.now variable e.word ≡ false) events.now }
{
    for event in events {
        if is_of_variable(tables, event.word(), variable) {
            return false;
        }
    }
    true
}

/// Whether the calls of the event's own invocation tell the same of a watch on a local as before.
fn own_is_alike(tables: &DebugTables, key: &WatchKey, touch: Touch, stack: &Stack) -> bool
    requires { key.now.local ≡ true }
    ensures { result ≡ true → (s u : AnyState) → IsTouch touch key.now.inv s u → stack.now.frames ≡ frames_of u key.now.inv → IsAlike tables.now key.now s u }
{
    other_events_tell_nothing();
    let Some(frame) = stack.frame(key.depth) else {
        return !is_popped(touch.frames);
    };
    if (key.depth as usize) + 1 < stack.depth() {
        return true;
    }
    if is_pushed(touch.frames) {
        return false;
    }
    none_is_of(tables, last(frame.events(), touch.events), key.variable)
}

/// Whether the calls of a watch's invocation tell the same of it as before an event.
#[inline(always)]
fn is_alike(
    tables: &DebugTables,
    key: &WatchKey,
    touched: Option<EventTouch>,
    group: &Group,
) -> bool
    ensures { result ≡ true → (s : AnyState) → Did touched s (state_in group.now.group) → IsAlike tables.now key.now s (state_in group.now.group) }
{
    if !key.local {
        return true;
    }
    let Some(touched) = touched else {
        return false;
    };
    if key.inv != touched.inv {
        return true;
    }
    match stack_of(group, key.inv) {
        Some(stack) => own_is_alike(tables, key, touched.touch, stack),
        None => false,
    }
}

/// Marks the watches of which the calls of their invocations tell the same as before an event. Apart, since most events leave all as it was.
#[inline(never)]
fn mark_alike(
    tables: &DebugTables,
    watches: &[(u32, WatchKey)],
    touched: Option<EventTouch>,
    group: &Group,
    marks: &mut [bool],
)
    requires { length marks.old ≡ length watches.now }
    ensures { (s : AnyState) → Did touched s (state_in group.now.group) → AreAlike tables.now watches.now marks.new s (state_in group.now.group) }
{
    for n in 0..watches.len() {
        marks[n] = is_alike(tables, &watches[n].1, touched, group);
    }
}

/// What is known to be the same.
#[derive(Drop)]
pub(crate) struct Same {
    /// All that any watch looks at.
    pub(crate) all: bool,
    /// The memory.
    pub(crate) memory: bool,
    /// For each watch, unless all is the same, what the calls of its invocation tell of it.
    pub(crate) calls: Vec<bool>,
}

impl Same {
    /// Nothing is known, of so many watches.
    pub(crate) fn nothing(alloc: Global, watches: usize) -> Result<Same, NoMemory>
        ensures { IfOk result (λ same. length same.calls.items ≡ watches) }
    {
        Ok(Same {
            all: false,
            memory: false,
            calls: vec![in alloc; false; watches]?,
        })
    }

    /// Looks at the event before a position, which is one of this invocation.
    #[inline(always)]
    pub(crate) fn look(
        &mut self,
        tables: &DebugTables,
        watches: &[(u32, WatchKey)],
        group: &Group,
        inv: Option<u32>,
    )
        requires watches { length self.old.calls.items ≡ length watches.now }
        requires some { 0 < group.now.group.position }
        requires entry { IfSome inv (λ i. slice_get (entries_in group.now.group) (group.now.group.position - 1) ≡ Some i) }
        ensures watches { length self.new.calls.items ≡ length watches.now }
        ensures same { IsSame tables.now watches.now self.new (state_in (group_at (group.now.group.position - 1) group.now.group)) (state_in group.now.group) }
    {
        let touched = touch_before(group, inv);
        self.all = has_left_all(tables, touched);
        self.memory = has_left_memory(touched);
        if !self.all {
            mark_alike(tables, watches, touched, group, self.calls.as_mut_slice());
        }
    }
}
