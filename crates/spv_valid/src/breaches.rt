//! The refusal of a module is the least of its breaches.
ghost use Rattle.std.specs.Prelude.{◌≡◌, ◌↔◌, ℕ, ℤ, List, [], Option, Err, IsOk};
ghost use Rattle.spv_base.specs.declared.causes.Refusal.{Refusal};
ghost use Rattle.spv_ops.specs.Module.{Decoded, IsDecoded};
ghost use Rattle.spv_valid.specs.Acceptance.{acceptance};
ghost use Rattle.spv_valid.specs.Breaches.{IsLeast, breaches};

/// A law, with nothing to run: a decoded module is refused with the least of its breaches, by pass, then by word, then by code, and it is accepted where it has none.
pub fn refusals_are_least_breaches()
    ensures refused { (m : Decoded) (name : Option (List ℕ)) (over : List (ℕ × ℤ)) (r : Refusal) → IsDecoded m
        → (acceptance m name over ≡ Err r) ↔ IsLeast (breaches m name over) r }
    ensures accepted { (m : Decoded) (name : Option (List ℕ)) (over : List (ℕ × ℤ)) → IsDecoded m
        → IsOk (acceptance m name over) ↔ (breaches m name over ≡ []) }
{}
