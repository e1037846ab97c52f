//! The plans of the functions of a module.
ghost use Rattle.std.specs.Prelude.{◌≡◌, IfOk, Some, map, option_map, slice_get};
ghost use Rattle.std.specs.List.{AllByRecursion};
ghost use Rattle.spv_valid.specs.Below.spv_cfg.specs.Calls.{functions_of};
ghost use Rattle.spv_plans.specs.Plans.{IsPlan, plans_in};

use crate::laws::{functions_have_their_plans, registers_are_counted};
use crate::walks::{draft_of, first_stop};
use spv_base::NoMemory;
use spv_frame::{Plan, Plans};
use spv_ops::op;
use spv_valid::Module;
use std::alloc::Global;
use std::rc::Rc;

/// The plan of the function whose OpFunction is the instruction with a number.
fn plan_at(alloc: Global, accepted: &Module, n: usize) -> Result<Plan, NoMemory>
    requires { option_map (λ i. i.op) (slice_get accepted.now.insts n) ≡ Some 54 }
    ensures function { IfOk result (λ plan. option_map (λ i. i.id) (slice_get accepted.now.insts n) ≡ Some plan.function) }
    ensures plan { IfOk result (IsPlan accepted.now) }
{
    registers_are_counted();
    let function = accepted.insts()[n].id;
    let stands = accepted.index().stands();
    let first = first_stop(&stands, n + 1);
    let draft = draft_of(alloc, accepted.types(), &stands, n + 1, function, first)?;
    draft.finish(alloc)
}

/// The plans of the functions of an accepted module, one for each OpFunction, in their order. Each plan has the word number of its
/// function's first executable, and a register for each parameter and each result of an instruction in the function, in the order
/// of the module: results of type void have none, and OpVariables and OpLabels, which stand for variables and blocks. It takes a time
/// that grows with the module's length alone: each instruction is looked at three times at most. It fails where memory runs out.
pub fn plans_of(alloc: Global, accepted: &Module) -> Result<Plans, NoMemory>
    ensures functions { IfOk result (λ plans. map (λ p. p.function) plans ≡ map (λ f. f.0) (functions_of accepted.now.insts)) }
    ensures plans { IfOk result (λ plans. AllByRecursion (IsPlan accepted.now) plans) }
    // They are the plans that are read off the module.
    ensures are { IfOk result (λ plans. plans ≡ plans_in accepted.now) }
{
    functions_have_their_plans();
    let insts = accepted.insts();
    let mut list = Vec::new(alloc);
    for (n, inst) in insts.iter().enumerate() {
        if inst.op == op::FUNCTION {
            let plan = plan_at(alloc, accepted, n)?;
            list.push(Rc::new(alloc, plan)?)?;
        }
    }
    Plans::new(alloc, list)
}
