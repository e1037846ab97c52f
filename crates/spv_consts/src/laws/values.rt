//! The cells of a constant fill its type, and cells that fill a type are those of one value of its shape.
ghost use Rattle.std.specs.Prelude.{◌≡◌, ℕ, Bool, List, Option, true};
ghost use Rattle.spv_base.specs.Cell.{Cell};
ghost use Rattle.spv_base.specs.declared.instructions.Inst.{Inst};
ghost use Rattle.spv_base.specs.declared.values.Root.{Root};
ghost use Rattle.spv_types.specs.Types.{Types, form_of};
ghost use Rattle.spv_types.specs.Constants.{is_constant};
ghost use Rattle.spv_types.specs.Rules.{is_data};
ghost use Rattle.spv_types.specs.Laws.{AreComplete, AreSound, IsAmong};
ghost use Rattle.spv_consts.specs.Context.{Context};
ghost use Rattle.spv_consts.specs.State.{State};
ghost use Rattle.spv_consts.specs.Values.{blank_of};
ghost use Rattle.spv_consts.specs.Rules.{keeps_rules};
ghost use Rattle.spv_consts.specs.Evaluation.{cells_of};
ghost use Rattle.spv_consts.specs.Laws.{FillType, IsRowAt, OperandsFillTypes};

use spv_types::laws::shapes_are_by_forms;

/// The null value and the undefined value of a type fill it.
pub fn blanks_fill_types()
    ensures { (ts : Types) (defined : Bool) (id : ℕ) → AreSound ts → FillType ts id (blank_of defined ts id) }
{}

/// The cells of a constant that keeps its rules fill its type, where those of its operands fill theirs.
pub fn constants_fill_types()
    ensures { (m : Context) (s : State) (i : Inst) → AreSound s.types → OperandsFillTypes m s i.word → is_constant i.op ≡ true
        → keeps_rules m s i ≡ true → FillType s.types i.ty (cells_of m s i) }
{}

/// Cells that fill a type of data, among the types whose arrays have their lengths, are the leaves of the value that they are at
/// that type, which has its shape.
pub fn filled_types_have_values()
    ensures { (ts : Types) (roots : Root → Option ℕ) (n id : ℕ) (cells : List Cell) → AreSound ts → AreComplete ts n → IsAmong ts n id
        → is_data (form_of ts id) ≡ true → FillType ts id cells → IsRowAt ts roots id cells }
{
    shapes_are_by_forms();
}
