//! A law of halts.
ghost use Rattle.std.specs.Prelude.{◌≡◌, ◌≢◌, ℕ, Some, None};
ghost use Rattle.spv_base.specs.Entries.{reads};
ghost use Rattle.spv_stops.specs.Halts.{Halts as AnyHalts, with_halt, without_halt};

/// A law, with nothing to run: a halt that is set has its number, whatever number it had before, and none is there where it was taken
/// away; the halts of other probes are as before.
#[tactic(auto, using(crate::proofs::HaltLemmas::reads_with, crate::proofs::HaltLemmas::reads_with_other, crate::proofs::HaltLemmas::reads_without, crate::proofs::HaltLemmas::reads_without_other))]
pub fn halts_are_of_one_probe()
    ensures set { (k n : ℕ) (halts : AnyHalts) → reads k (with_halt k n halts) ≡ Some n }
    ensures set_others { (j k n : ℕ) (halts : AnyHalts) → j ≢ k → reads j (with_halt k n halts) ≡ reads j halts }
    ensures unset { (k : ℕ) (halts : AnyHalts) → reads k (without_halt k halts) ≡ None }
    ensures unset_others { (j k : ℕ) (halts : AnyHalts) → j ≢ k → reads j (without_halt k halts) ≡ reads j halts }
{}
