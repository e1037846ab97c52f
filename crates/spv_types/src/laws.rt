//! Laws of types: what an accepted module's types give, and what the length of an array leaves as it was.
ghost use Rattle.std.specs.Prelude.{◌≡◌, ◌≢◌, ℕ, List, Ok, Option, Some};
ghost use Rattle.spv_base.specs.declared.instructions.Inst.{Inst};
ghost use Rattle.spv_base.specs.declared.values.Root.{Root};
ghost use Rattle.spv_base.specs.declared.values.Value.{Value};
ghost use Rattle.spv_types.specs.declared.forms.Form.{Form};
ghost use Rattle.spv_types.specs.Types.{Types, form_of, lengthened, number_of, with_length};
ghost use Rattle.spv_types.specs.Build.{types_of};
ghost use Rattle.spv_types.specs.Shapes.{HasShape};
ghost use Rattle.spv_types.specs.Laws.{AreByForms, AreSound, IsAmong};

/// Where types are sound, the shape of each is made of its form and of the shapes of its parts.
pub fn shapes_are_by_forms()
    ensures { (ts : Types) (roots : Root → Option ℕ) → AreSound ts → AreByForms ts roots }
{}

/// A length given to an array leaves types sound, each under its number, and every other form as it was.
pub fn lengths_leave_types_sound()
    ensures sound { (ts : Types) (id n : ℕ) → AreSound ts → AreSound (with_length ts id n) }
    ensures numbers { (ts : Types) (id n q : ℕ) → number_of (with_length ts id n) q ≡ number_of ts q }
    ensures others { (ts : Types) (id n q : ℕ) → id ≢ q → form_of (with_length ts id n) q ≡ form_of ts q }
    ensures here { (ts : Types) (id n : ℕ) (f : Form) → form_of ts id ≡ Some f
        → form_of (with_length ts id n) id ≡ Some (lengthened n f) }
{}

/// A value of a type before an array keeps its shape, whatever length the array is given.
pub fn lengths_leave_earlier_shapes()
    ensures { (ts : Types) (roots : Root → Option ℕ) (array k n id : ℕ) (v : Value) → number_of ts array ≡ Some k
        → IsAmong ts k id → HasShape ts roots id v → HasShape (with_length ts array n) roots id v }
{}

/// The types of a module that keeps the rules of types are sound.
pub fn accepted_types_are_sound()
    ensures { (insts : List Inst) (ts : Types) → types_of insts ≡ Ok ts → AreSound ts }
{}
