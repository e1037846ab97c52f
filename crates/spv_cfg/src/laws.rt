//! What holds of the flow of every accepted module.
ghost use Rattle.std.specs.Prelude.{◌≡◌, List, Ok};
ghost use Rattle.spv_base.specs.declared.instructions.Inst.{Inst};
ghost use Rattle.spv_base.specs.Order.{Ascend};
ghost use Rattle.spv_cfg.specs.Flow.{Flow, flow_of};
ghost use Rattle.spv_cfg.specs.Laws.{BlocksAreEntered, FunctionsAreEntered, FunctionsHaveDepths, RunsGoOn, TargetsAreEntered};

/// Each block of a function has a first executable.
pub fn each_block_is_entered()
    ensures { (insts : List Inst) (f : Flow) → flow_of insts ≡ Ok f → BlocksAreEntered insts f }
{}

/// Each executable of a block that is no terminator has a next one in the same block, where words ascend.
pub fn runs_go_on()
    ensures { (insts : List Inst) (f : Flow) → Ascend 0 insts → flow_of insts ≡ Ok f → RunsGoOn insts f }
{}

/// Each label that a terminator may go to is one of its function, but not the first one, and its block has a first executable.
pub fn targets_are_entered()
    ensures { (insts : List Inst) (f : Flow) → flow_of insts ≡ Ok f → TargetsAreEntered insts f }
{}

/// Each function has a depth from 1 to 64, and a first block that has a first executable.
pub fn functions_are_entered()
    ensures depth { (insts : List Inst) (f : Flow) → flow_of insts ≡ Ok f → FunctionsHaveDepths insts f }
    ensures first_block { (insts : List Inst) (f : Flow) → flow_of insts ≡ Ok f → FunctionsAreEntered insts f }
{}
