//! The first address at which some events conflict.
ghost use Rattle.std.specs.Prelude.{◌≡◌, ◌<◌, ◌≤◌, ◌↔◌, ℕ, true, false, max, IsTrue, MatchOption};
ghost use Rattle.std.specs.List.Sorted.{IsNonDecreasingBy};
ghost use Rattle.spv_order.specs.Reaches.{others_of, part_of};
ghost use Rattle.spv_order.specs.Sweep.{Clashes, IsChosen, IsFree};

use crate::reaches::{Reach, others, with};
use crate::touches::Touch;

/// Nothing was touched.
const NOTHING: Reach = Reach {
    most: 0,
    invocation: 0,
    next: 0,
};

/// Whether a touch is of an event before `below` or of the event `also`.
fn is_chosen(touch: &Touch, below: usize, also: usize) -> bool
    ensures { IsTrue result ↔ IsChosen below also touch.now }
{
    touch.event < below || touch.event == also
}

/// How far the touches reach that this one may clash with: all of other invocations where it writes, else those that write.
fn reach_for(touch: &Touch, all: &Reach, written: &Reach) -> u64
    ensures writes { touch.now.writes ≡ true → result ≡ others_of all.now touch.now.invocation }
    ensures reads { touch.now.writes ≡ false → result ≡ others_of written.now touch.now.invocation }
{
    if touch.writes {
        others(all, touch.invocation)
    } else {
        others(written, touch.invocation)
    }
}

/// Whether a touch that isn't empty begins before a reach ends.
fn is_reached(touch: &Touch, reach: u64) -> bool
    ensures { IsTrue result ↔ ((touch.now.start < touch.now.stop) × (touch.now.start < reach)) }
{
    touch.start < touch.stop && touch.start < reach
}

/// The reach of those that write, with a touch more.
fn written_with(touch: &Touch, written: &Reach) -> Reach
    requires { written.now.next ≤ written.now.most }
    ensures writes { touch.now.writes ≡ true → (i : ℕ) → others_of result i ≡ max (others_of written.now i) (part_of touch.now.invocation touch.now.stop i) }
    ensures reads { touch.now.writes ≡ false → (i : ℕ) → others_of result i ≡ others_of written.now i }
    ensures ordered { result.next ≤ result.most }
{
    if touch.writes {
        with(written, touch.invocation, touch.stop)
    } else {
        *written
    }
}

/// The first address at which two touches clash of the events before `below` and of the event `also`. It goes once over the touches,
/// which stand by their starts: a touch clashes with an earlier one exactly where one of those reaches past its start.
pub(crate) fn first_clash(touches: &[Touch], below: usize, also: usize) -> Option<u64>
    requires { IsNonDecreasingBy (λ (t : Touch). t.start) touches.now }
    ensures { MatchOption result ((a : ℕ) → IsFree touches.now below also a)
        (λ a. Clashes touches.now below also a × ((b : ℕ) → b < a → IsFree touches.now below also b)) }
{
    let mut all = NOTHING;
    let mut written = NOTHING;
    for touch in touches {
        let chosen = is_chosen(touch, below, also);
        if chosen {
            let reach = reach_for(touch, &all, &written);
            let reached = is_reached(touch, reach);
            if reached {
                return Some(touch.start);
            }
            all = with(&all, touch.invocation, touch.stop);
            written = written_with(touch, &written);
        }
    }
    None
}
