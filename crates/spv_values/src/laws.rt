//! Laws of rows.
ghost use Rattle.std.specs.Prelude.{ℕ, List};
ghost use Rattle.spv_base.specs.declared.values.Value.{Value};
ghost use Rattle.spv_types.specs.Rows.{HasRow};
ghost use Rattle.spv_values.specs.Places.{IsRowAt};

/// A part whose leaves lie among those of a value has its row there.
pub fn rows_lie_where_leaves_lie()
    ensures { (v : Value) (path : List ℕ) (n k : ℕ) → ∥ HasRow v path n k ∥₁ → IsRowAt v path n k }
{}
