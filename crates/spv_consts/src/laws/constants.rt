//! The constants of a module have values of the shapes of their types.
ghost use Rattle.std.specs.Prelude.{◌≡◌, ℕ, List, Option, Ok, length};
ghost use Rattle.spv_base.specs.Order.{Ascend};
ghost use Rattle.spv_base.specs.declared.instructions.Inst.{Inst};
ghost use Rattle.spv_base.specs.declared.values.Root.{Root};
ghost use Rattle.spv_types.specs.Build.{types_of};
ghost use Rattle.spv_types.specs.Laws.{AreComplete, AreNamed, AreSound};
ghost use Rattle.spv_types.specs.Types.{Types};
ghost use Rattle.spv_consts.specs.Build.{constants_of, context_of};
ghost use Rattle.spv_consts.specs.Constants.{AreConstants};
ghost use Rattle.spv_consts.specs.Laws.{HaveShapes, HaveValues};
ghost use Rattle.spv_consts.specs.Overrides.{Numbers};
ghost use Rattle.spv_consts.specs.Table.{Constants};

use spv_types::laws::{accepted_types_are_sound, lengths_leave_types_sound, shapes_are_by_forms};

/// The types with the lengths that constants give are sound, and each of their arrays has its length; each constant before the
/// functions has a value, and each is the row of a value of the shape of its id's type, whatever the types are that pointers
/// lead into.
pub fn constants_have_the_shapes_of_their_types()
    ensures types { (insts : List Inst) (ts : Types) (over : Numbers) (known : Types × Constants) → Ascend 0 insts → AreNamed insts
        → types_of insts ≡ Ok ts → constants_of ts insts over ≡ Ok known → AreSound known.0 × AreComplete known.0 (length known.0) }
    ensures shapes { (insts : List Inst) (ts : Types) (over : Numbers) (known : Types × Constants) → Ascend 0 insts → AreNamed insts
        → types_of insts ≡ Ok ts → constants_of ts insts over ≡ Ok known → (roots : Root → Option ℕ) → HaveShapes known.0 insts roots known.1 }
    ensures values { (insts : List Inst) (ts : Types) (over : Numbers) (known : Types × Constants) → Ascend 0 insts → AreNamed insts
        → types_of insts ≡ Ok ts → constants_of ts insts over ≡ Ok known → HaveValues insts known.1 }
{
    accepted_types_are_sound();
    lengths_leave_types_sound();
    shapes_are_by_forms();
}

/// Each constant of a module without a breach has the row that its instruction gives of the rows of its operands.
pub fn constants_have_their_rows()
    ensures { (insts : List Inst) (ts : Types) (over : Numbers) (known : Types × Constants) → Ascend 0 insts → AreNamed insts
        → types_of insts ≡ Ok ts → constants_of ts insts over ≡ Ok known → AreConstants (context_of ts insts over) known }
{
    accepted_types_are_sound();
    lengths_leave_types_sound();
    shapes_are_by_forms();
}
