//! The limits that types and constants keep.
ghost use Rattle.std.specs.Prelude.{◌≡◌, List, Ok};
ghost use Rattle.spv_base.specs.Order.{Ascend};
ghost use Rattle.spv_base.specs.declared.instructions.Inst.{Inst};
ghost use Rattle.spv_types.specs.Build.{types_of};
ghost use Rattle.spv_types.specs.Laws.{AreNamed};
ghost use Rattle.spv_types.specs.Types.{Types};
ghost use Rattle.spv_consts.specs.Build.{constants_of};
ghost use Rattle.spv_consts.specs.Limits.{KeepLimits};
ghost use Rattle.spv_consts.specs.Overrides.{Numbers};
ghost use Rattle.spv_consts.specs.Table.{Constants};

use spv_types::laws::lengths_leave_types_sound;
use spv_types::rows::limits_leave_leaves_whole;

/// Where no rule or limit of constants is broken, each type is nested at most 32 deep and has at most 4,194,304 cells, as all
/// constants together.
pub fn types_and_constants_keep_limits()
    ensures { (insts : List Inst) (ts : Types) (over : Numbers) (known : Types × Constants) → Ascend 0 insts → AreNamed insts
        → types_of insts ≡ Ok ts → constants_of ts insts over ≡ Ok known → KeepLimits known.0 known.1 }
{
    lengths_leave_types_sound();
    limits_leave_leaves_whole();
}
