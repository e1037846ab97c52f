//! Whether some events may change places.
ghost use Rattle.std.specs.Prelude.{◌≡◌, ◌<◌, ◌/◌, ◌%◌, IfOk};
ghost use Rattle.spv_order.specs.Order.{IsFreeBefore, IsOrder};
ghost use Rattle.spv_order.specs.Arrivals.{IsFirstArrival};

use crate::events::Event;
use crate::search::first_pair;
use crate::touches::sorted_touches;
use spv_base::NoMemory;
use std::alloc::Global;

/// What the order of some events is worth.
#[derive(Clone, Copy)]
pub enum Answer {
    /// They may change places: none arrives at a barrier, and no two conflict.
    Free,
    /// The first event that arrives at a barrier or conflicts with an earlier one arrives at a barrier: this one.
    Barrier(usize),
    /// It conflicts with an earlier one: the two events, and the first leaf by root and number at which they do.
    Conflict {
        first: usize,
        second: usize,
        root: u32,
        leaf: u32,
    },
}

/// The first event that arrives at a barrier, or how many there are.
fn arrival(events: &[Event]) -> usize
    ensures { IsFirstArrival events.now result }
{
    for (k, event) in events.iter().enumerate() {
        if event.arrives {
            return k;
        }
    }
    events.len()
}

/// The answer where no event before the first arrival conflicts with an earlier one.
fn unconflicted(events: &[Event], count: usize) -> Answer
    requires arrival { IsFirstArrival events.now count }
    requires free { IsFreeBefore events.now count }
    ensures { IsOrder events.now result }
{
    if count < events.len() {
        Answer::Barrier(count)
    } else {
        Answer::Free
    }
}

/// The root of the leaf at an address.
fn root_of(address: u64) -> u32
    ensures { result ≡ address / 4294967296 }
{
    (address / 4294967296) as u32
}

/// The number of the leaf at an address.
fn leaf_of(address: u64) -> u32
    ensures number { result ≡ address % 4294967296 }
    ensures fits { result < 4294967296 }
{
    (address % 4294967296) as u32
}

/// What the order of these events is worth. Events are told by their places in the list; two of them conflict where they are of different
/// invocations and touch one leaf, one of them writing it. The answer is of the first event that arrives at a barrier or conflicts with
/// an earlier one, and of the least event and the first leaf with which it does; which events come behind it doesn't matter.
///
/// The list stands for a stretch of a run: its place k is the event at the stretch's position k, with what `reads` and `writes` name in the
/// state there. It takes time in proportion to n log n, where n is the number of events and of their ranges, however many leaves a range
/// has, and memory for each range.
pub fn order(alloc: Global, events: &[Event]) -> Result<Answer, NoMemory>
    ensures { IfOk result (λ answer. IsOrder events.now answer) }
{
    let count = arrival(events);
    let touches = sorted_touches(alloc, events, count)?;
    match first_pair(&touches, count) {
        None => Ok(unconflicted(events, count)),
        Some(pair) => Ok(Answer::Conflict {
            first: pair.first,
            second: pair.second,
            root: root_of(pair.address),
            leaf: leaf_of(pair.address),
        }),
    }
}
