//! Laws of runs.
ghost use Rattle.std.specs.Prelude.{◌≡◌, ◌<◌, ℕ, Some, length, slice_get};
ghost use Rattle.std.specs.List.{Contains};
ghost use Rattle.spv_base.specs.Entries.{reads};
ghost use Rattle.spv_base.specs.Variables.{root_id};
ghost use Rattle.spv_base.specs.declared.values.PassedEvent.{PassedEvent};
ghost use Rattle.spv_base.specs.declared.values.Pointer.{Pointer};
ghost use Rattle.spv_base.specs.declared.values.Root.{Root};
ghost use Rattle.spv_base.specs.declared.values.Value.{Value};
ghost use Rattle.spv_frame.specs.Frames.{Held as Frame};
ghost use Rattle.spv_index.specs.Definitions.{result_type};
ghost use Rattle.spv_initial.specs.Start.{variables};
ghost use Rattle.spv_initial.specs.Variables.{targets_of};
ghost use Rattle.spv_mem.specs.Memory.{IsVariable, root_value};
ghost use Rattle.spv_operands.specs.Operands.{pointer_of};
ghost use Rattle.spv_operands.specs.Values.{value_of};
ghost use Rattle.spv_valid.specs.Acceptance.{Accepted, IsAccepted, invocations};
ghost use Rattle.spv_valid.specs.Validity.{IsValid};
ghost use Rattle.spv_state.specs.Events.{IsShapedEvent, passed};
ghost use Rattle.spv_state.specs.Program.{Program};
ghost use Rattle.spv_state.specs.Roots.{FindsVariable, captured_pointer};
ghost use Rattle.spv_state.specs.Sound.{IsSound, IsSoundFrame};
ghost use Rattle.spv_state.specs.State.{State, depth_of, frames_of, top_of};
ghost use Rattle.spv_state.specs.Start.{start_of};
ghost use Rattle.spv_plans.specs.Registered.{IsOfFunction};

use spv_valid::accepted_modules_are_valid;

/// A law, with nothing to run: a run starts with all invocations of its module, of which there is one at least.
pub fn runs_start_with_all()
    ensures all { (p : Program) → length (start_of p).statuses.list ≡ invocations p.accepted }
    ensures some { (a : Accepted) → IsValid a → 0 < invocations a }
{}

/// A law, with nothing to run: in a sound state the top frame of an invocation is sound, and of a function of the module.
pub fn top_frames_are_sound()
    ensures frame { (p : Program) (s : State) (i : ℕ) (f : Frame) → IsSound p s → top_of s i ≡ Some f → IsSoundFrame p.accepted f }
    ensures function { (a : Accepted) (f : Frame) → IsSoundFrame a f → IsOfFunction a f.plan }
{}

/// A law, with nothing to run: in a sound state a pointer finds its variable, where a register of a frame holds it, a debug event that a
/// frame passed has captured it, or an operand of the top frame stands for it. So where it names no part of memory, its path leads outside
/// the variable's value.
pub fn pointers_find_their_variables()
    ensures registers { (p : Program) (s : State) (i depth id : ℕ) (f : Frame) (q : Pointer) → IsSound p s → slice_get (frames_of s i) depth ≡ Some f
        → reads id f.pointers ≡ Some (Some q) → FindsVariable s.memory i q }
    ensures events { (p : Program) (s : State) (i depth : ℕ) (f : Frame) (e : PassedEvent) (q : Pointer) → IsSound p s → slice_get (frames_of s i) depth ≡ Some f
        → Contains f.events e → captured_pointer e ≡ Some q → FindsVariable s.memory i q }
    ensures operands { (p : Program) (s : State) (i id ty : ℕ) (f : Frame) (v : Value) (q : Pointer) → IsAccepted p.accepted → IsSound p s → top_of s i ≡ Some f
        → value_of p.accepted f (depth_of s i) id ≡ Some v → result_type p.accepted.insts id ≡ Some ty → pointer_of v ≡ Some q → FindsVariable s.memory i q }
{
    accepted_modules_are_valid();
}

/// A law, with nothing to run: a sound state has values of their types. Each variable has one, and so has each debug event that a frame has
/// passed, a pointer's path included; a frame of an accepted module that passes debug events goes on being sound.
pub fn values_have_their_shapes()
    ensures variables { (p : Program) (s : State) (i : ℕ) (r : Root) (v : Value) → IsSound p s → root_value s.memory i r ≡ Some v
        → ∥ IsVariable p.accepted.types (targets_of (variables p.accepted)) (root_id r) v ∥₁ }
    ensures events { (p : Program) (s : State) (i depth : ℕ) (f : Frame) (e : PassedEvent) → IsSound p s → slice_get (frames_of s i) depth ≡ Some f
        → Contains f.events e → IsShapedEvent p.accepted e }
    ensures passed { (a : Accepted) (depth : ℕ) (f : Frame) → IsAccepted a → IsSoundFrame a f → IsSoundFrame a (passed a depth f) }
{
    accepted_modules_are_valid();
}
