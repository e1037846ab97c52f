//! What an accepted module gives to the plans of its functions.
ghost use Rattle.std.specs.Prelude.{◌≡◌, ◌+◌, ℕ, None, Some, drop, option_map, slice_get, true};
ghost use Rattle.std.specs.List.{Contains};
ghost use Rattle.spv_base.specs.Entries.{reads};
ghost use Rattle.spv_frame.specs.declared.functions.Register.{Register};
ghost use Rattle.spv_frame.specs.declared.slots.Place.TheVariants.{Pointer, Value};
ghost use Rattle.spv_frame.specs.Functions.{numbered};
ghost use Rattle.spv_frame.specs.Plans.{AreApart};
ghost use Rattle.spv_frame.specs.Registers.{Planned, ids, number_of};
ghost use Rattle.spv_index.specs.Positions.{Stand, stands_of};
ghost use Rattle.spv_plans.specs.Members.{members};
ghost use Rattle.spv_plans.specs.Plans.{IsPlan, functions_in, plan_of, plans_in};
ghost use Rattle.spv_plans.specs.Registered.{HasApart, HasNumber, HasPointerType, HasValueType, IsAbsent, IsAt, IsFound, IsOfFunction, MeansRegister, register};
ghost use Rattle.spv_plans.specs.Registers.{AreCounted, has_cells, has_pointer, is_register};
ghost use Rattle.spv_valid.specs.Acceptance.{Accepted, IsAccepted};

use spv_types::laws::{accepted_types_are_sound, lengths_leave_types_sound, shapes_are_by_forms};
use spv_valid::accepted_modules_are_valid;

/// A law, with nothing to run: behind an OpFunction of an accepted module the type of each register has a number of cells, of at
/// most 4,194,304.
pub fn registers_are_counted()
    ensures { (a : Accepted) (n : ℕ) → IsAccepted a → option_map (λ i. i.op) (slice_get a.insts n) ≡ Some 54
        → AreCounted a.types (drop (n + 1) (stands_of a.insts)) }
{
    accepted_types_are_sound();
    lengths_leave_types_sound();
    shapes_are_by_forms();
    accepted_modules_are_valid();
}

/// A law, with nothing to run: the plans of a module are those of its functions, found by their numbers.
pub fn plans_are_of_functions()
    ensures function { (a : Accepted) (function : ℕ) → (plan_of a function).function ≡ function }
    ensures plans { (a : Accepted) (k : ℕ) (p : Planned) → slice_get (plans_in a) k ≡ Some p → IsOfFunction a p }
    ensures numbers { (a : Accepted) (function : ℕ) → Contains (functions_in a) function → HasNumber a function }
    ensures found { (a : Accepted) (function k : ℕ) → reads function (numbered 0 (plans_in a)) ≡ Some k → slice_get (plans_in a) k ≡ Some (plan_of a function) }
{}

/// A law, with nothing to run: no two functions of an accepted module have one id, so the number of a plan is that of its function.
pub fn functions_are_apart()
    ensures functions { (a : Accepted) → ∥ IsAccepted a ∥₁ → AreApart (functions_in a) }
    ensures numbers { (a : Accepted) (k : ℕ) (p : Planned) → ∥ IsAccepted a ∥₁ → slice_get (plans_in a) k ≡ Some p
        → reads p.function (numbered 0 (plans_in a)) ≡ Some k }
{
    accepted_modules_are_valid();
}

/// A law, with nothing to run: each function of an accepted module has the plan that is read off the module, and no other one.
pub fn functions_have_their_plans()
    ensures has { (a : Accepted) (function : ℕ) → ∥ IsAccepted a ∥₁ → Contains (functions_in a) function → IsPlan a (plan_of a function) }
    ensures only { (a : Accepted) (p : Planned) → ∥ IsAccepted a ∥₁ → IsPlan a p → p ≡ plan_of a p.function }
{
    registers_are_counted();
    accepted_modules_are_valid();
}

/// A law, with nothing to run: no two registers of a plan have one id.
pub fn registers_are_apart()
    ensures { (a : Accepted) (function : ℕ) → ∥ IsAccepted a ∥₁ → HasApart (plan_of a function) }
{
    accepted_modules_are_valid();
}

/// A law, with nothing to run: each register of a function of an accepted module is found where it stands.
pub fn registers_are_found()
    ensures values { (a : Accepted) (function n id : ℕ) → ∥ IsAccepted a ∥₁ → Contains (functions_in a) function
        → slice_get (ids (plan_of a function).values) n ≡ Some id → IsFound a function id (Value n) }
    ensures pointers { (a : Accepted) (function n id : ℕ) → ∥ IsAccepted a ∥₁ → Contains (functions_in a) function
        → slice_get (plan_of a function).pointers n ≡ Some id → IsFound a function id (Pointer n) }
{
    accepted_modules_are_valid();
}

/// A law, with nothing to run: what is found for an id is the register with this id, which stands in one plan alone; where nothing is
/// found, no plan has one.
pub fn registers_stand_once()
    ensures found { (a : Accepted) (id : ℕ) (r : Register) → ∥ IsAccepted a ∥₁ → register a id ≡ Some r → IsAt a id r }
    ensures absent { (a : Accepted) (id k : ℕ) (p : Planned) → register a id ≡ None → slice_get (plans_in a) k ≡ Some p → IsAbsent id p }
{
    accepted_modules_are_valid();
}

/// A law, with nothing to run: each register of a function of an accepted module has the type of its id, and a value as many cells as
/// the type.
pub fn registers_have_types()
    ensures values { (a : Accepted) (function id n : ℕ) → ∥ IsAccepted a ∥₁ → Contains (functions_in a) function
        → number_of id (ids (plan_of a function).values) ≡ Some n → HasValueType a (plan_of a function) id n }
    ensures pointers { (a : Accepted) (function id n : ℕ) → ∥ IsAccepted a ∥₁ → Contains (functions_in a) function
        → number_of id (plan_of a function).pointers ≡ Some n → HasPointerType a id }
{
    registers_are_counted();
    accepted_modules_are_valid();
}

/// A law, with nothing to run: each instruction of a function that has a register has it in the plan of the function, by its type
/// among those of values or of pointers.
pub fn results_have_registers()
    ensures values { (a : Accepted) (function : ℕ) (s : Stand) → Contains (members a.insts function) s → is_register a.types s.inst ≡ true
        → has_cells a.types s.inst ≡ true → (n : ℕ) × (number_of s.inst.id (ids (plan_of a function).values) ≡ Some n) }
    ensures pointers { (a : Accepted) (function : ℕ) (s : Stand) → Contains (members a.insts function) s → is_register a.types s.inst ≡ true
        → has_pointer a.types s.inst ≡ true → (n : ℕ) × (number_of s.inst.id (plan_of a function).pointers ≡ Some n) }
{}

/// A law, with nothing to run: an id for which a register is found stands for a register of the function in whose plan it is.
pub fn registers_are_meant()
    ensures { (a : Accepted) (id : ℕ) (r : Register) (p : Planned) → ∥ IsAccepted a ∥₁ → register a id ≡ Some r
        → slice_get (plans_in a) r.plan ≡ Some p → MeansRegister a id p.function }
{
    accepted_modules_are_valid();
}
