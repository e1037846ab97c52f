//! Positions that pass a test.
ghost use Rattle.std.specs.Prelude.{ℕ, Bool, ◌≤◌};
ghost use Rattle.spv_group.specs.Positions.{least_of, IsLeast, greatest_of, IsGreatest};

/// A law, with nothing to run: the least and the greatest position that pass a test are so.
pub fn positions_are_found()
    ensures least { (test : ℕ → Bool) (low high : ℕ) → low ≤ high → IsLeast test low high (least_of test low high) }
    ensures greatest { (test : ℕ → Bool) (low high : ℕ) → IsGreatest test low high (greatest_of test low high) }
{}
