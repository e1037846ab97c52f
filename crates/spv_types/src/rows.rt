//! Laws of rows.
ghost use Rattle.std.specs.Prelude.{◌≡◌, ℕ, ◌<◌, ◌≤◌, ◌+◌, List, [], ◌∷◌, ◌++◌, slice_get, Option, Some, length, option_map, take, drop, true};
ghost use Rattle.std.specs.List.{flat_map};
ghost use Rattle.spv_base.specs.Parts.{part_at, with_part};
ghost use Rattle.spv_base.specs.declared.values.Root.{Root};
ghost use Rattle.spv_base.specs.declared.values.Value.{Value, List as Many};
ghost use Rattle.spv_types.specs.Leaves.{leaf_of};
ghost use Rattle.spv_types.specs.Limits.{limit_of};
ghost use Rattle.spv_types.specs.Offsets.{IsOneOf, IsPart};
ghost use Rattle.spv_types.specs.Places.{place_of};
ghost use Rattle.spv_types.specs.Rules.{is_scalar};
ghost use Rattle.spv_types.specs.Types.{Types, form_of};
ghost use Rattle.spv_types.specs.Cells.{cells_of};
ghost use Rattle.spv_types.specs.Laws.{AreSound};
ghost use Rattle.spv_types.specs.Shapes.{HasShape, reached_type};
ghost use Rattle.spv_types.specs.Rows.{HasRow, IsPlace, leaves, no_roots};

/// A value has as many leaves as its type has cells.
pub fn rows_fill_types()
    ensures { (ts : Types) (roots : Root → Option ℕ) (id : ℕ) (v : Value) (n : ℕ) → HasShape ts roots id v
        → cells_of ts id ≡ Some n → length (leaves v) ≡ n }
{}

/// The row of a part lies at its leaf, and a write to the part changes its row and nothing else.
pub fn parts_are_sub_rows()
    ensures lies { (ts : Types) (roots : Root → Option ℕ) (id n : ℕ) (path : List ℕ) (v w : Value) → AreSound ts
        → IsPlace ts roots id v path n w → take (length (leaves w)) (drop n (leaves v)) ≡ leaves w }
    ensures written { (ts : Types) (roots : Root → Option ℕ) (id n : ℕ) (path : List ℕ) (v w u : Value) → AreSound ts
        → IsPlace ts roots id v path n w
        → leaves (with_part v path u) ≡ take n (leaves v) ++ (leaves u ++ drop (n + length (leaves w)) (leaves v)) }
    ensures rows { (ts : Types) (roots : Root → Option ℕ) (id n : ℕ) (path : List ℕ) (v w : Value) → AreSound ts
        → IsPlace ts roots id v path n w → HasRow v path n (length (leaves w)) }
{}

/// A part that is put is there where its row was, and the old part put back gives the old value.
pub fn exchanging_twice_is_nothing()
    ensures there { (path : List ℕ) (v u : Value) (n k : ℕ) → HasRow v path n k
        → HasRow (with_part v path u) path n (length (leaves u)) }
    ensures nothing { (path : List ℕ) (v w u : Value) → part_at v path ≡ Some w
        → (part_at (with_part v path u) path ≡ Some u) × (with_part (with_part v path u) path w ≡ v) }
{}

/// A part has the shape of the type that its path reaches, and a value keeps its shape where a part of that shape is put.
pub fn parts_keep_shapes()
    ensures { (ts : Types) (roots : Root → Option ℕ) → AreSound ts → (path : List ℕ) (id target : ℕ) (v w u : Value)
        → HasShape ts roots id v → reached_type ts id path ≡ Some target → part_at v path ≡ Some w
        → HasShape ts roots target w × (HasShape ts roots target u → HasShape ts roots id (with_part v path u)) }
{}

/// A value of a list, as a register among those of a frame, lies behind the rows of those before it.
pub fn slots_have_rows()
    ensures { (vs : List Value) (k : ℕ) (u : Value) → slice_get vs k ≡ Some u
        → HasRow (Many vs) (k ∷ []) (length (flat_map leaves (take k vs))) (length (leaves u)) }
{}

/// A value with no pointer, of a type with a number of cells, is told by its row.
pub fn rows_tell_values()
    ensures { (ts : Types) (id : ℕ) (v u : Value) (n : ℕ) → HasShape ts no_roots id v → HasShape ts no_roots id u
        → cells_of ts id ≡ Some n → leaves v ≡ leaves u → v ≡ u }
{}

/// The place of a leaf of a part of a block is the sum of the Offsets, the strides times the indices and the bytes of vector
/// components that the part's path steps over, and of its place in the part.
pub fn places_are_offsets()
    ensures parts { (ts : Types) (id leaf offset part k : ℕ) (path : List ℕ) → AreSound ts → IsPart ts id path leaf offset part
        → IsOneOf (cells_of ts part) k → place_of ts id (leaf + k) ≡ option_map (λ b. offset + b) (place_of ts part k) }
    ensures scalars { (ts : Types) (id leaf offset part : ℕ) (path : List ℕ) → AreSound ts → IsPart ts id path leaf offset part
        → is_scalar (form_of ts part) ≡ true → place_of ts id leaf ≡ Some offset }
{}

/// A type has at most as many leaves as its limit counts cells, so within the limits of acceptance no number of leaves is
/// saturated; and a leaf of a part is a leaf of the whole.
pub fn limits_leave_leaves_whole()
    ensures cells { (ts : Types) (id n : ℕ) → cells_of ts id ≡ Some n → (limit_of ts id).cells < 18446744073709551615
        → n ≤ (limit_of ts id).cells }
    ensures within { (ts : Types) (id leaf part k : ℕ) (path : List ℕ) → AreSound ts → leaf_of ts id path ≡ Some leaf
        → reached_type ts id path ≡ Some part → IsOneOf (cells_of ts part) k → IsOneOf (cells_of ts id) (leaf + k) }
{}
