//! The breaches of the rules and limits of constants, an instruction at a time.
ghost use Rattle.std.specs.Prelude.{◌≡◌, List};
ghost use Rattle.spv_base.specs.declared.instructions.Inst.{Inst};
ghost use Rattle.spv_consts.specs.Breaches.{breaches_of_each};
ghost use Rattle.spv_consts.specs.Context.{Context};
ghost use Rattle.spv_consts.specs.State.{State};
ghost use Rattle.spv_consts.specs.Steps.{breaches_from};

/// The breaches of some instructions are those of each, in their order, by what the ones before it give.
pub fn breaches_are_of_each_instruction()
    ensures { (m : Context) (s : State) (insts : List Inst) → breaches_from m s insts ≡ breaches_of_each m s insts }
{}
