//! Laws of steps.
ghost use Rattle.std.specs.Prelude.{◌≡◌, ◌≢◌, ℕ, Some, IsSome, false, slice_get};
ghost use Rattle.spv_base.specs.Entries.{reads};
ghost use Rattle.spv_base.specs.declared.instructions.Inst.{Inst};
ghost use Rattle.spv_frame.specs.Frames.{Held as Frame};
ghost use Rattle.spv_index.specs.Classes.{class_of, is_terminator, sets_of};
ghost use Rattle.spv_index.specs.Definitions.{at};
ghost use Rattle.spv_machine.specs.Step.{next_of};
ghost use Rattle.spv_state.specs.Program.{Program};
ghost use Rattle.spv_state.specs.Sound.{IsCallOf, IsSound};
ghost use Rattle.spv_state.specs.State.{State, pop_frame, top_of};
ghost use Rattle.spv_statuses.specs.declared.invocations.Status.{Status};
ghost use Rattle.spv_statuses.specs.declared.invocations.Status.TheVariants.{Finished, Ready};
ghost use Rattle.spv_valid.specs.Acceptance.{IsAccepted};

use spv_valid::accepted_modules_are_valid;

/// A law, with nothing to run: from a sound state of an accepted module no default in the definition of a step is taken. An invocation that
/// isn't finished has a top frame, which stands at an instruction of the module; behind an instruction that ends no block an executable
/// stands; and where a frame is left, the one below stands at an OpFunctionCall.
pub fn steps_find_what_they_need()
    ensures frame { (p : Program) (s : State) (i : ℕ) (t : Status) → IsSound p s → slice_get s.statuses.list i ≡ Some t → t ≢ Finished → IsSome (top_of s i) }
    ensures inst { (p : Program) (s : State) (i : ℕ) (f : Frame) → IsAccepted p.accepted → IsSound p s → top_of s i ≡ Some f → IsSome (at p.accepted.insts f.pc) }
    ensures next { (p : Program) (s : State) (i : ℕ) (f : Frame) (d : Inst) → IsAccepted p.accepted → IsSound p s → top_of s i ≡ Some f → at p.accepted.insts f.pc ≡ Some d
        → is_terminator (class_of (sets_of p.accepted.insts) d) ≡ false → reads f.pc p.accepted.flow.nexts ≡ Some (Some (next_of p.accepted f.pc)) }
    ensures caller { (p : Program) (s : State) (i : ℕ) (f : Frame) → IsSound p s → slice_get s.statuses.list i ≡ Some Ready → top_of (pop_frame i s) i ≡ Some f
        → (function : ℕ) × IsCallOf p.accepted f.pc function }
{
    accepted_modules_are_valid();
}
