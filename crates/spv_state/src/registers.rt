//! The registers of the top frame of an invocation by their ids, exchanged in place. It takes no memory and can't fail.
ghost use Rattle.std.specs.Prelude.{◌≡◌, ◌<◌, ℕ, IfNone, None, Some, option_copied};
ghost use Rattle.std.specs.Option.{IsSomeAnd, MatchOption};
ghost use Rattle.spv_frame.specs.Numbers.{with_value};
ghost use Rattle.spv_frame.specs.Registers.{ids, marked, number_of};
ghost use Rattle.spv_frame.specs.Stacks.{top};
ghost use Rattle.spv_index.specs.Definitions.{result_type};
ghost use Rattle.spv_state.specs.Slots.{HasPointerSlot, HasSlot, IsExchanged};
ghost use Rattle.spv_state.specs.Sound.{IsSoundFrame};
ghost use Rattle.spv_state.specs.State as state;
ghost use Rattle.spv_plans.specs.Plans.{id_at, plan_of, plans_in};
ghost use Rattle.spv_plans.specs.Registered.{HasApart, HasNumber};
ghost use Rattle.spv_types.specs.Rows.{no_roots};
ghost use Rattle.spv_types.specs.Shapes.{HasShape};

use spv_frame::{Place, Plan, Plans, PointerSlot, Slot, Stack};
use spv_plans::laws::{
    plans_are_of_functions, registers_are_apart, registers_have_types, registers_stand_once,
};
use spv_types::rows::rows_fill_types;
use spv_valid::Module;
use spv_values::Row;

/// Where a register lies, if it is one of a value.
fn value_slot(plan: &Plan, place: Place, id: u32) -> Option<&Slot>
    requires stands { id_at plan.now.values plan.now.pointers place ≡ Some id }
    requires apart { HasApart plan.now }
    ensures { HasSlot plan.now.values id (option_copied result) }
{
    match place {
        Place::Value(number) => Some(plan.slot(number)),
        Place::Pointer(_) => None,
    }
}

/// Where a register lies, if it is one of a pointer.
fn pointer_slot(plan: &Plan, place: Place, id: u32) -> Option<PointerSlot>
    requires stands { id_at plan.now.values plan.now.pointers place ≡ Some id }
    requires apart { HasApart plan.now }
    ensures { HasPointerSlot plan.now.pointers id result }
{
    match place {
        Place::Value(_) => None,
        Place::Pointer(number) => Some(plan.pointer_slot(number)),
    }
}

/// Where the register of a value with an id lies in the frames of a function, if they have it. In constant time (measured, and said by no clause).
pub(crate) fn value_slot_of<'a>(
    accepted: &Module,
    plans: &'a Plans,
    function: u32,
    id: u32,
) -> Option<&'a Slot>
    requires plans { plans.now ≡ plans_in accepted.now }
    requires function { HasNumber accepted.now function }
    ensures { HasSlot (plan_of accepted.now function).values id (option_copied result) }
{
    plans_are_of_functions();
    registers_are_apart();
    registers_stand_once();
    let _insts = accepted.insts();
    let register = plans.register(id)?;
    let plan = plans.at(register.plan);
    if plan.function() == function {
        value_slot(plan, register.place, id)
    } else {
        None
    }
}

/// Where the register of a pointer with an id lies in the frames of a function, if they have it. In constant time (measured, and said by no clause).
pub(crate) fn pointer_slot_of(
    accepted: &Module,
    plans: &Plans,
    function: u32,
    id: u32,
) -> Option<PointerSlot>
    requires plans { plans.now ≡ plans_in accepted.now }
    requires function { HasNumber accepted.now function }
    ensures { HasPointerSlot (plan_of accepted.now function).pointers id result }
{
    plans_are_of_functions();
    registers_are_apart();
    registers_stand_once();
    let _insts = accepted.insts();
    let register = plans.register(id)?;
    let plan = plans.at(register.plan);
    if plan.function() == function {
        pointer_slot(plan, register.place, id)
    } else {
        None
    }
}

/// Exchanges the value of the register with an id of the top frame, which is one of a function, and its mark, if the frame has this
/// register, and gives its number in the plan.
pub(crate) fn exchange_in(
    accepted: &Module,
    plans: &Plans,
    stack: &mut Stack,
    function: u32,
    id: u32,
    row: &mut Row,
    has: &mut bool,
) -> Option<usize>
    requires plans { plans.now ≡ plans_in accepted.now }
    requires function { IsSomeAnd (top stack.old.frames) (λ f. f.plan.function ≡ function) }
    requires frame { IsSomeAnd (top stack.old.frames) (IsSoundFrame accepted.now) }
    requires value { (ty : ℕ) → result_type accepted.now.insts id ≡ Some ty → HasShape accepted.now.types no_roots ty row.old }
    ensures after { MatchOption result (stack.new ≡ stack.old) (λ n. stack.new ≡ state.on_frames (with_value n (marked row.old has.old)) stack.old) }
    ensures kept { IfNone result ((row.new ≡ row.old) × (has.new ≡ has.old)) }
    ensures register { IsSomeAnd (top stack.old.frames) (λ f. MatchOption result (number_of id (ids f.plan.values) ≡ None) (λ n. IsExchanged id n row.old row.new has.new f)) }
{
    plans_are_of_functions();
    registers_have_types();
    rows_fill_types();
    let _insts = accepted.insts();
    match value_slot_of(accepted, plans, function, id) {
        Some(slot) => {
            stack.exchange(slot, row, has);
            Some(slot.number)
        }
        None => None,
    }
}
