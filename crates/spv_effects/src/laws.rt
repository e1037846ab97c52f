//! Laws of lanes and rows.
ghost use Rattle.std.specs.Prelude.{◌≡◌, ◌<◌, ℕ, List, [], ◌∷◌, Option, length, map};
ghost use Rattle.std.specs.List.{All, range_with_len};
ghost use Rattle.std.specs.Simd.Lanes.{zip2};
ghost use Rattle.spv_alu.specs.Binary.{binary_lane, binary_row, binary_width};
ghost use Rattle.spv_alu.specs.Fields.{field_lane};
ghost use Rattle.spv_alu.specs.Glsl.{glsl_lane};
ghost use Rattle.spv_alu.specs.Results.{defined_if};
ghost use Rattle.spv_alu.specs.Unary.{unary_lane};
ghost use Rattle.spv_alu.specs.Vectors.{bitcast_of, vector_lane};
ghost use Rattle.spv_alu.specs.declared.binary_op.BinaryOp.{BinaryOp};
ghost use Rattle.spv_alu.specs.declared.extended_op.ExtendedOp.{ExtendedOp};
ghost use Rattle.spv_alu.specs.declared.field_op.FieldOp.{FieldOp};
ghost use Rattle.spv_alu.specs.declared.glsl_op.GlslOp.{GlslOp};
ghost use Rattle.spv_alu.specs.declared.unary_op.UnaryOp.{UnaryOp};
ghost use Rattle.spv_alu.specs.declared.vector_op.VectorOp.{VectorOp};
ghost use Rattle.spv_base.specs.Cell.{IsCell, Cell};
ghost use Rattle.spv_base.specs.declared.values.Root.{Root};
ghost use Rattle.spv_base.specs.declared.values.Value.{Value};
ghost use Rattle.spv_alu.specs.Lanes.{zip3};
ghost use Rattle.spv_alu.specs.Select.{selected};
ghost use Rattle.spv_effects.specs.BinaryOps.{MayMeet};
ghost use Rattle.spv_effects.specs.Bitcasts.{MayCast};
ghost use Rattle.spv_effects.specs.ExtendedOps.{MayExtend, high_lanes, low_lanes};
ghost use Rattle.spv_effects.specs.Fields.{HaveFields};
ghost use Rattle.spv_effects.specs.Forms.{with_leaves};
ghost use Rattle.spv_effects.specs.GlslOps.{MayJoin};
ghost use Rattle.spv_effects.specs.LaneTypes.{HasLaneType};
ghost use Rattle.spv_effects.specs.Lanes.{AreLanes, AreScalars, of_lanes};
ghost use Rattle.spv_effects.specs.Selects.{MaySelect};
ghost use Rattle.spv_effects.specs.UnaryOps.{MayTurn};
ghost use Rattle.spv_effects.specs.Vectors.{component, shuffled, with_component};
ghost use Rattle.spv_types.specs.Laws.{AreSound};
ghost use Rattle.spv_types.specs.Rows.{leaves, no_roots};
ghost use Rattle.spv_types.specs.Shapes.{HasShape};
ghost use Rattle.spv_types.specs.Types.{Types};

/// A value that is made of lanes has these as its leaves, and so has one of another's form that is made of as many leaves.
pub fn leaves_are_those_given()
    ensures lanes { (cs : List Cell) → leaves (of_lanes cs) ≡ cs }
    ensures form { (v : Value) (cs : List Cell) → length cs ≡ length (leaves v) → leaves (with_leaves v cs) ≡ cs }
{}

/// A value of a scalar or vector type has the lanes of its type, and is made of them.
pub fn values_are_their_lanes()
    ensures scalars { (ts : Types) (roots : Root → Option ℕ) (id w n : ℕ) (v : Value) → AreSound ts → HasShape ts roots id v
        → HasLaneType ts id w n → AreScalars w n (leaves v) }
    ensures lanes { (w n : ℕ) (cs : List Cell) → AreScalars w n cs → AreLanes w n cs }
    ensures value { (ts : Types) (roots : Root → Option ℕ) (id w n : ℕ) (v : Value) → AreSound ts → HasShape ts roots id v
        → HasLaneType ts id w n → of_lanes (leaves v) ≡ v }
{}

/// Lanes of a scalar or vector type make a value of its shape.
pub fn lanes_have_shapes()
    ensures { (ts : Types) (roots : Root → Option ℕ) (id w n : ℕ) (cs : List Cell) → AreSound ts → HasLaneType ts id w n
        → AreScalars w n cs → HasShape ts roots id (of_lanes cs) }
{}

/// A value with other leaves of the same widths, each with a number that fits it, keeps its shape.
pub fn forms_keep_shapes()
    ensures { (ts : Types) (id : ℕ) (v : Value) (cs : List Cell) → HasShape ts no_roots id v
        → map (λ (c : Cell). c.width) cs ≡ map (λ (c : Cell). c.width) (leaves v) → All IsCell cs
        → HasShape ts no_roots id (with_leaves v cs) }
{}

/// The results of operations on lanes are lanes of the result's width, each with a number that fits it. So they have the shape of
/// the result's type.
pub fn results_are_scalars()
    ensures unary { (op : UnaryOp) (width n : ℕ) (cs : List Cell) → MayTurn op width cs n
        → AreScalars width n (map (λ c. unary_lane op c width) cs) }
    ensures binary { (op : BinaryOp) (n : ℕ) (cs ds : List Cell) (m : MayMeet op cs ds n)
        → AreScalars (binary_width (binary_row op) m.v) n (zip2 (binary_lane op) cs ds) }
    ensures field { (op : FieldOp) (offset count : Cell) (n : ℕ) (cs ds : List Cell) (m : HaveFields cs ds n)
        → AreScalars m.width n (zip2 (λ c d. field_lane op c d offset count) cs ds) }
    ensures low { (op : ExtendedOp) (n : ℕ) (cs ds : List Cell) (m : MayExtend cs ds n)
        → AreScalars m.width m.half (low_lanes op cs ds) }
    ensures high { (op : ExtendedOp) (n : ℕ) (cs ds : List Cell) (m : MayExtend cs ds n)
        → AreScalars m.width m.half (high_lanes op cs ds) }
    ensures glsl { (op : GlslOp) (n : ℕ) (cs ds es : List Cell) (m : MayJoin cs ds es n)
        → AreScalars m.width n (zip3 (glsl_lane op) cs ds es) }
    ensures bitcast { (count width : ℕ) (cs : List Cell) → MayCast count width cs
        → AreScalars width count (map (bitcast_of cs width) (range_with_len 0 count)) }
    ensures truth { (op : VectorOp) (cs : List Cell) → AreScalars 1 1 (vector_lane op cs ∷ []) }
{}

/// What is selected, extracted, inserted and shuffled are lanes of the width of the operands', each with a number that fits it.
pub fn selections_are_scalars()
    ensures selected { (w n : ℕ) (cs xs ys : List Cell) → MaySelect cs xs ys n → AreScalars w n xs → AreScalars w n ys
        → AreScalars w n (selected cs xs ys) }
    ensures widths { (cs xs ys : List Cell) (n : ℕ) → MaySelect cs xs ys n → All IsCell xs → All IsCell ys
        → (map (λ (c : Cell). c.width) (selected cs xs ys) ≡ map (λ (c : Cell). c.width) xs) × All IsCell (selected cs xs ys) }
    ensures extracted { (w n : ℕ) (cs : List Cell) (index : Cell) → 0 < length cs → AreScalars w n cs
        → AreScalars w 1 (defined_if index.defined (component cs index.bits) ∷ []) }
    ensures inserted { (w n : ℕ) (cs : List Cell) (c index : Cell) → (c.width ≡ w) × IsCell c → AreScalars w n cs
        → AreScalars w n (with_component cs c index) }
    ensures shuffled { (w n m : ℕ) (cs ds : List Cell) (numbers : List ℕ) → 0 < length cs → AreScalars w n cs → AreScalars w m ds
        → AreScalars w (length numbers) (map (shuffled cs ds) numbers) }
{}
