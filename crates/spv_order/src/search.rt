//! The first event that conflicts with an earlier one, as touches tell it.
ghost use Rattle.std.specs.Prelude.{◌≡◌, ◌<◌, ◌≤◌, ◌-◌, ℕ, All, MatchBool, MatchOption};
ghost use Rattle.std.specs.List.Sorted.{IsNonDecreasingBy};
ghost use Rattle.spv_order.specs.Sweep.{Clashes, IsFirstPair, IsFree};

use crate::sweep::first_clash;
use crate::touches::Touch;

/// Two events that conflict, and the first address at which they do.
#[derive(Clone, Copy)]
pub(crate) struct Pair {
    pub(crate) first: usize,
    pub(crate) second: usize,
    pub(crate) address: u64,
}

/// Whether two touches clash of the events before `below` and of the event `also`.
fn clashes(touches: &[Touch], below: usize, also: usize) -> bool
    requires { IsNonDecreasingBy (λ (t : Touch). t.start) touches.now }
    ensures { MatchBool result ((a : ℕ) × Clashes touches.now below also a) ((a : ℕ) → IsFree touches.now below also a) }
{
    match first_clash(touches, below, also) {
        Some(_) => true,
        None => false,
    }
}

/// How many events it takes until two touches clash of these first ones and of the event `also`; `high` are enough. It halves what may
/// be the number, so it goes over the touches as often as the number has binary digits.
fn turning(touches: &[Touch], high: usize, also: usize) -> usize
    requires sorted { IsNonDecreasingBy (λ (t : Touch). t.start) touches.now }
    requires free { (a : ℕ) → IsFree touches.now 0 also a }
    requires clash { (a : ℕ) × Clashes touches.now high also a }
    ensures some { 0 < result }
    ensures most { result ≤ high }
    ensures clash { (a : ℕ) × Clashes touches.now result also a }
    ensures free { (a : ℕ) → IsFree touches.now (result - 1) also a }
{
    let mut low = 0;
    let mut high = high;
    while low + 1 < high {
        let middle = low + (high - low) / 2;
        let found = clashes(touches, middle, also);
        if found {
            high = middle;
        } else {
            low = middle;
        }
    }
    high
}

/// The first event of `count` that conflicts with an earlier one, with the least of those, and the first address at which they do. None
/// where no two conflict. It takes one more sweep than twice the binary digits of `count`.
pub(crate) fn first_pair(touches: &[Touch], count: usize) -> Option<Pair>
    requires sorted { IsNonDecreasingBy (λ (t : Touch). t.start) touches.now }
    requires events { All (λ (t : Touch). t.event < count) touches.now }
    requires alone { (also a : ℕ) → IsFree touches.now 0 also a }
    ensures { MatchOption result ((a : ℕ) → IsFree touches.now count count a) (λ p. IsFirstPair touches.now count p.first p.second p.address) }
{
    let found = clashes(touches, count, count);
    if found {
        let second = turning(touches, count, count) - 1;
        let first = turning(touches, second, second) - 1;
        let address = first_clash(touches, first + 1, second)?;
        return Some(Pair {
            first,
            second,
            address,
        });
    }
    None
}
