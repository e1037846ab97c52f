//! The plan of a function, among those of its module.
ghost use Rattle.std.specs.Prelude.{◌≡◌};
ghost use Rattle.std.specs.List.{Contains};
ghost use Rattle.spv_plans.specs.Plans.{functions_in, plan_of, plans_in};

use spv_frame::{Plan, Plans};
use spv_plans::laws::{functions_are_apart, plans_are_of_functions};
use spv_valid::Module;
use std::rc::Rc;

/// The plan of a function of the module. In constant time (measured, and said by no clause).
pub fn plan_in<'a>(accepted: &Module, plans: &'a Plans, function: u32) -> &'a Rc<Plan>
    requires plans { plans.now ≡ plans_in accepted.now }
    requires function { ∥ Contains (functions_in accepted.now) function ∥₁ }
    ensures { result.now.value ≡ plan_of accepted.now function }
{
    plans_are_of_functions();
    functions_are_apart();
    let _insts = accepted.insts();
    match plans.number(function) {
        Some(number) => &plans.list()[number],
        None => unreachable!(),
    }
}
