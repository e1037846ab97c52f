//! Calls that were inlined, each with the one around it.
ghost use Rattle.std.specs.Prelude.{◌≡◌, ◌<◌, ℕ, Some, IfOk, length, reverse, slice_index};
ghost use Rattle.spv_scopes.specs.Calls as spec;

use crate::frames::call_with;
use crate::places::Place;
use spv_base::NoMemory;
use std::alloc::Global;

/// A place, and the number of the call that was inlined around it, if there is one.
#[derive(Clone, Copy)]
pub struct Linked {
    pub place: Place,
    pub call: Option<usize>,
}

/// What stands under a call's number, and 0 where nothing does.
pub(crate) fn count_in(counts: &[u32], call: Option<usize>) -> u32
    ensures { result ≡ spec.count_in counts.now call }
{
    match call {
        Some(n) => counts.get(n).copied().unwrap_or(0),
        None => 0,
    }
}

/// How many calls there are from the one with a number outward, where that is known of those before it.
fn count_from(calls: &[Linked], counts: &[u32], n: usize) -> Result<u32, NoMemory>
    requires { (k : ℕ) → k < n → slice_index counts.now k ≡ length (spec.calls_from (reverse calls.now) (Some k)) }
    ensures { IfOk result (λ count. count ≡ length (spec.calls_from (reverse calls.now) (Some n))) }
{
    let Some(linked) = call_with(calls, Some(n)) else {
        return Ok(0);
    };
    match count_in(counts, linked.call).checked_add(1) {
        Some(count) => Ok(count),
        None => Err(NoMemory),
    }
}

/// For each call how many there are from it outward. There is no memory for so many that a `u32` doesn't count them.
pub(crate) fn counts_of(alloc: Global, calls: &[Linked]) -> Result<Vec<u32>, NoMemory>
    ensures { IfOk result (λ counts. spec.AreCounted calls.now counts.items) }
{
    let mut counts = Vec::new(alloc);
    for n in 0..calls.len() {
        counts.push(count_from(calls, counts.as_slice(), n)?)?;
    }
    Ok(counts)
}
