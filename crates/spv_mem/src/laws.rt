//! Laws of variables.
ghost use Rattle.std.specs.Prelude.{◌≡◌, ℕ, List, [], ◌∷◌, ◌++◌, Some};
ghost use Rattle.spv_base.specs.Cell.{Cell};
ghost use Rattle.spv_base.specs.Entries.{reads};
ghost use Rattle.spv_base.specs.Variables.{Roots, root_id};
ghost use Rattle.spv_base.specs.declared.values.Pointer.{Pointer};
ghost use Rattle.spv_base.specs.declared.values.Value.{Value};
ghost use Rattle.spv_mem.specs.Chains.{ptr_moved};
ghost use Rattle.spv_mem.specs.Memory.{AreVariables, IsVariable};
ghost use Rattle.spv_types.specs.Shapes.{reached_type};
ghost use Rattle.spv_types.specs.Types.{Types};

/// The locals of a frame are built one after another: none are variables, and one more is where it has a value of its type.
pub fn locals_are_built()
    ensures none { (ts : Types) (targets : List (ℕ × ℕ)) → ∥ AreVariables ts targets [] ∥₁ }
    ensures more { (ts : Types) (targets : List (ℕ × ℕ)) (es : Roots) (id : ℕ) (v : Value) → ∥ AreVariables ts targets es ∥₁
        → ∥ IsVariable ts targets id v ∥₁ → ∥ AreVariables ts targets (es ++ (id, v) ∷ []) ∥₁ }
{}

/// The path of a pointer from another element on leads to the same type, by the type of the variable, whether there is such an element or not.
pub fn elements_are_alike()
    ensures { (ts : Types) (targets : List (ℕ × ℕ)) (p : Pointer) (element : Cell) (path : List ℕ) (type : ℕ) → ptr_moved ts targets p element ≡ Some path
        → reads (root_id p.root) targets ≡ Some type → reached_type ts type path ≡ reached_type ts type p.path }
{}
