//! Chains of calls: the weight of the heaviest one from each function, and the length of the longest.
ghost use Rattle.std.specs.Prelude.{◌≡◌, ◌<◌, ◌≤◌, ◌+◌, ◌++◌, ◌∷◌, [], List, ℕ, suc, IfOk, length, slice_index};
ghost use Rattle.std.specs.List.{All};
ghost use Rattle.spv_base.specs.Saturation.{saturated};
ghost use Rattle.spv_cfg.specs.Chains as spec;

use spv_base::NoMemory;
use std::alloc::Global;

/// By the number of a function, the most that a function has which it calls.
pub(crate) fn most_called(
    alloc: Global,
    calls: &[(usize, usize)],
    heaviest: &[u64],
) -> Result<Vec<u64>, NoMemory>
    requires { All (λ call. (call.0 < length heaviest.now) × (call.1 < length heaviest.now)) calls.now }
    ensures len { IfOk result (λ called. length called.items ≡ length heaviest.now) }
    ensures called { IfOk result (λ called. (f : ℕ) → f < length heaviest.now → slice_index called.items f ≡ spec.most (λ g. slice_index heaviest.now g) f calls.now) }
{
    let mut called: Vec<u64> = vec![in alloc; 0; heaviest.len()]?;
    let mut i = calls.len();
    'back: while i > 0 {
        i -= 1;
        let caller = calls[i].0;
        let most = called[caller].max(heaviest[calls[i].1]);
        called[caller] = most;
    }
    Ok(called)
}

/// Sums, which stop at the greatest u64.
pub(crate) fn sums(alloc: Global, xs: &[u64], ys: &[u64]) -> Result<Vec<u64>, NoMemory>
    requires { length xs.now ≡ length ys.now }
    ensures len { IfOk result (λ sums. length sums.items ≡ length xs.now) }
    ensures sums { IfOk result (λ sums. (f : ℕ) → f < length xs.now → slice_index sums.items f ≡ saturated (slice_index xs.now f + slice_index ys.now f)) }
{
    let mut sums = Vec::new(alloc);
    for k in 0..xs.len() {
        sums.push(xs[k].saturating_add(ys[k]))?;
    }
    Ok(sums)
}

/// A law, with nothing to run: the depth of a function is the number of functions in the longest chain of calls from it,
/// and a function is refused exactly where a chain of more than 64 functions starts at it; that is so where a chain from
/// it comes to a function of a cycle.
pub fn depths_are_longest_chains()
    ensures longest { (calls : List (ℕ × ℕ)) (f : ℕ) → spec.longest spec.limit calls f ≤ 64 → spec.IsLongest calls f (spec.longest spec.limit calls f) }
    ensures long { (calls : List (ℕ × ℕ)) (f : ℕ) → 64 < spec.longest spec.limit calls f → (chain : List ℕ) × spec.IsChain calls f chain × (suc (length chain) ≡ 65) }
    ensures refused { (calls : List (ℕ × ℕ)) (f : ℕ) (chain : List ℕ) → spec.IsChain calls f chain → 64 < suc (length chain) → 64 < spec.longest spec.limit calls f }
    ensures cycle { (calls : List (ℕ × ℕ)) (f g : ℕ) (front round : List ℕ) → spec.IsChain calls f (front ++ g ∷ []) → spec.IsChain calls g (round ++ g ∷ [])
        → 64 < spec.longest spec.limit calls f }
{}

/// A law, with nothing to run: where no chain of calls from a function has more than 64 functions, the weight that is
/// counted for it is that of a chain, and no chain from it has more.
pub fn counted_chains_are_heaviest()
    ensures { (weigh : ℕ → ℕ) (calls : List (ℕ × ℕ)) (f : ℕ) → spec.longest spec.limit calls f ≤ 64 → spec.IsHeaviest weigh calls f (spec.heaviest spec.limit weigh calls f) }
{}
