//! How far back a journal reaches.
ghost use Rattle.std.specs.Prelude.{ℕ, List, ◌≤◌, nat_le};
ghost use Rattle.spv_state.specs.Program.{Program};
ghost use Rattle.spv_group.specs.History.{weight_between, window};
ghost use Rattle.spv_group.specs.Positions.{IsLeast};

/// A law, with nothing to run: a window is the least position from which on all events fit, and that of a later position isn't lower.
pub fn windows_are_least()
    ensures least { (limit : ℕ) (p : Program) (entries : List ℕ) (n : ℕ)
        → IsLeast (λ k. nat_le (weight_between p entries k n) limit) 0 n (window limit p entries n) }
    ensures rise { (limit : ℕ) (p : Program) (entries : List ℕ) (m n : ℕ) → m ≤ n → window limit p entries m ≤ window limit p entries n }
{}
