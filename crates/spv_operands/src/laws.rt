//! What an accepted module gives to the operands of its instructions.
ghost use Rattle.std.specs.Prelude.{◌≡◌, ℕ, List, None, Some, false, true};
ghost use Rattle.std.specs.List.{Contains};
ghost use Rattle.spv_base.specs.Entries.{reads, writes};
ghost use Rattle.spv_base.specs.declared.instructions.Inst.{Inst};
ghost use Rattle.spv_base.specs.declared.values.PassedEvent.{PassedEvent};
ghost use Rattle.spv_base.specs.declared.values.Pointer.{Pointer};
ghost use Rattle.spv_base.specs.declared.values.Value.{Value, Ptr};
ghost use Rattle.spv_consts.specs.Table.{Row};
ghost use Rattle.spv_frame.specs.declared.contents.Argument.{Argument};
ghost use Rattle.spv_frame.specs.Calls.{entered};
ghost use Rattle.spv_frame.specs.Frames.{Held, fresh};
ghost use Rattle.spv_frame.specs.Registers.{Planned};
ghost use Rattle.spv_index.specs.Definitions.{result_type};
ghost use Rattle.spv_operands.specs.Variables.{IsDeclared};
ghost use Rattle.spv_operands.specs.Shapes.{AreShaped, AreShapedArguments, target_in};
ghost use Rattle.spv_operands.specs.Values.{value_of};
ghost use Rattle.spv_types.specs.Queries.{is_pointer};
ghost use Rattle.spv_types.specs.Rows.{no_roots};
ghost use Rattle.spv_types.specs.Shapes.{HasShape};
ghost use Rattle.spv_types.specs.Types.{form_of};
ghost use Rattle.spv_valid.specs.Acceptance.{Accepted, IsAccepted};
ghost use Rattle.spv_valid.specs.Meanings.{meaning_of};
ghost use Rattle.spv_valid.specs.declared.meanings.Meaning.TheVariants.{Constant};

use spv_valid::accepted_modules_are_valid;

/// A law, with nothing to run: each id under which a constant stands stands for a constant.
pub fn constants_are_meant()
    ensures { (a : Accepted) (id : ℕ) (r : Row) → ∥ IsAccepted a ∥₁ → reads id a.constants ≡ Some r → meaning_of a.insts id ≡ Some Constant }
{
    accepted_modules_are_valid();
}

/// A law, with nothing to run: no OpVariable of an accepted module is left out of its variables.
pub fn variables_are_declared()
    ensures { (a : Accepted) (i : Inst) → IsAccepted a → Contains a.insts i → i.op ≡ 59 → IsDeclared a i }
{
    accepted_modules_are_valid();
}

/// A law, with nothing to run: what an operand stands for has the shape of its id's type, where registers hold values of theirs. Data
/// has no pointer in it, and a pointer leads to what its type points to.
pub fn operands_have_shapes()
    ensures values { (a : Accepted) (f : Held) (depth id ty : ℕ) (v : Value) → IsAccepted a → AreShaped a f → value_of a f depth id ≡ Some v
        → result_type a.insts id ≡ Some ty → is_pointer (form_of a.types ty) ≡ false → HasShape a.types no_roots ty v }
    ensures pointers { (a : Accepted) (f : Held) (depth id ty : ℕ) (v : Value) → IsAccepted a → AreShaped a f → value_of a f depth id ≡ Some v
        → result_type a.insts id ≡ Some ty → is_pointer (form_of a.types ty) ≡ true → HasShape a.types (target_in a ty) ty v }
{
    accepted_modules_are_valid();
}

/// A law, with nothing to run: the registers of a frame hold values of their types as it begins, and as a call with arguments of the
/// parameters' types begins it, and go on to do so where one takes a value or a pointer of its type or has none again, and where the
/// frame goes to another instruction or passes debug events.
pub fn frames_stay_shaped()
    ensures fresh { (a : Accepted) (p : Planned) → AreShaped a (fresh p) }
    ensures entered { (a : Accepted) (p : Planned) (xs : List Argument) → AreShapedArguments a p xs → AreShaped a (entered p xs) }
    ensures value { (a : Accepted) (f : Held) (id ty : ℕ) (v : Value) → AreShaped a f → result_type a.insts id ≡ Some ty
        → HasShape a.types no_roots ty v → AreShaped a (record f { values = writes id (Some v) f.values }) }
    ensures no_value { (a : Accepted) (f : Held) (id : ℕ) → AreShaped a f → AreShaped a (record f { values = writes id None f.values }) }
    ensures pointer { (a : Accepted) (f : Held) (id ty : ℕ) (p : Pointer) → AreShaped a f → result_type a.insts id ≡ Some ty
        → HasShape a.types (target_in a ty) ty (Ptr p) → AreShaped a (record f { pointers = writes id (Some p) f.pointers }) }
    ensures no_pointer { (a : Accepted) (f : Held) (id : ℕ) → AreShaped a f → AreShaped a (record f { pointers = writes id None f.pointers }) }
    ensures pc { (a : Accepted) (f : Held) (pc : ℕ) → AreShaped a f → AreShaped a (record f { pc = pc }) }
    ensures events { (a : Accepted) (f : Held) (events : List PassedEvent) → AreShaped a f → AreShaped a (record f { events = events }) }
{}
