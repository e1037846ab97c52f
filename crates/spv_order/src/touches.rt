//! What events touch, as ranges of addresses: the leaves of all roots in one row, a root's behind those of the roots of lower ids.
ghost use Rattle.std.specs.Prelude.{◌≡◌, ◌≤◌, ◌<◌, ◌++◌, length, map, IfOk, OnOk, All};
ghost use Rattle.std.specs.List.Sorted.{IsNonDecreasingBy};
ghost use Rattle.spv_order.specs.Touches.{AreTouches, address, touch_of};

use crate::events::{Event, Leaves};
use spv_base::NoMemory;
use std::alloc::Global;

/// The addresses from `start` on, before `stop`, that an event reads or writes.
#[derive(Clone, Copy)]
pub(crate) struct Touch {
    pub(crate) start: u64,
    pub(crate) stop: u64,
    pub(crate) event: usize,
    pub(crate) invocation: u32,
    pub(crate) writes: bool,
}

/// The address of a leaf. A root has fewer than 2^32 leaves.
fn address(root: u32, leaf: u32) -> u64
    ensures value { result ≡ address root leaf }
    ensures fits { leaf < 4294967296 }
{
    u64::from(root) * 4294967296 + u64::from(leaf)
}

/// Appends what an event touches by one of its lists.
fn add(
    touches: &mut Vec<Touch>,
    event: usize,
    invocation: u32,
    writes: bool,
    ranges: &[Leaves],
) -> Result<(), NoMemory>
    ensures more { OnOk result (touches.new.items ≡ touches.old.items ++ map (touch_of event invocation writes) ranges.now) }
    ensures fits { OnOk result (All (λ (r : Leaves). r.end < 4294967296) ranges.now) }
{
    for range in ranges {
        touches.push(Touch {
            start: address(range.root, range.first),
            stop: address(range.root, range.end),
            event,
            invocation,
            writes,
        })?;
    }
    Ok(())
}

/// What the first so many events touch.
fn touches(alloc: Global, events: &[Event], count: usize) -> Result<Vec<Touch>, NoMemory>
    requires { count ≤ length events.now }
    ensures { IfOk result (λ touches. AreTouches events.now count touches.items) }
{
    let mut touches = Vec::new(alloc);
    for k in 0..count {
        let event = &events[k];
        add(&mut touches, k, event.invocation, false, &event.reads)?;
        add(&mut touches, k, event.invocation, true, &event.writes)?;
    }
    Ok(touches)
}

/// What they touch, by the starts.
pub(crate) fn sorted_touches(
    alloc: Global,
    events: &[Event],
    count: usize,
) -> Result<Vec<Touch>, NoMemory>
    requires { count ≤ length events.now }
    ensures touches { IfOk result (λ touches. AreTouches events.now count touches.items) }
    ensures sorted { IfOk result (λ touches. IsNonDecreasingBy (λ (t : Touch). t.start) touches.items) }
{
    let mut sorted = touches(alloc, events, count)?;
    sorted.sort_unstable_by_key(|touch| touch.start);
    Ok(sorted)
}
