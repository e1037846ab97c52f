//! Laws of what events touch.
ghost use Rattle.std.specs.Prelude.{◌≡◌, ◌≢◌, ℕ, List, Option, false};
ghost use Rattle.spv_base.specs.declared.happenings.Fault.{Fault};
ghost use Rattle.spv_base.specs.declared.happenings.Happening.{Happening};
ghost use Rattle.spv_base.specs.declared.values.Pointer.{Pointer};
ghost use Rattle.spv_base.specs.declared.values.Value.{Value};
ghost use Rattle.spv_machine.specs.Step.{Faults, Idles, Moves, step_of};
ghost use Rattle.spv_mem.specs.Memory.{IsMemory};
ghost use Rattle.spv_order.specs.declared.events.Leaves.{Leaves};
ghost use Rattle.spv_sites.specs.Fits as spec;
ghost use Rattle.spv_state.specs.Program.{Program};
ghost use Rattle.spv_state.specs.Sound.{IsSound};
ghost use Rattle.spv_state.specs.State.{State};
ghost use Rattle.spv_touch.specs.Touching.{arrives_of, due_of, touched_of};
ghost use Rattle.spv_touch.specs.Views.{AreApart, KeepsOutline, LookAlike, StoreFits};
ghost use Rattle.spv_valid.specs.Acceptance.{IsAccepted};

use spv_bodies::instructions_keep_their_rules;
use spv_operands::laws::operands_have_shapes;
use spv_valid::accepted_modules_are_valid;

/// A law, with nothing to run: an event sees no shared leaf but those that it reads. Where two states look the same to an invocation but in
/// leaves that its next event doesn't read, its next event is the same in both and touches the same leaves, or it idles or faults in both.
pub fn events_see_what_they_read()
    ensures effect { (p : Program) (s t : State) (i : ℕ) (some : List Leaves) → LookAlike i some s t → AreApart some (touched_of p s i).reads → due_of p s i ≡ due_of p t i }
    ensures touched { (p : Program) (s t : State) (i : ℕ) (some : List Leaves) → LookAlike i some s t → AreApart some (touched_of p s i).reads → touched_of p s i ≡ touched_of p t i }
    ensures arrives { (p : Program) (s t : State) (i : ℕ) (some : List Leaves) → LookAlike i some s t → AreApart some (touched_of p s i).reads → arrives_of p s i ≡ arrives_of p t i }
    ensures idle { (p : Program) (s t : State) (i : ℕ) (some : List Leaves) → LookAlike i some s t → AreApart some (touched_of p s i).reads → step_of p s i ≡ Idles → step_of p t i ≡ Idles }
    ensures fault { (p : Program) (s t : State) (i : ℕ) (some : List Leaves) (f : Fault) → LookAlike i some s t → AreApart some (touched_of p s i).reads → step_of p s i ≡ Faults f
        → step_of p t i ≡ Faults f }
{}

/// A law, with nothing to run: an event that doesn't arrive at a barrier changes no shared leaf but those that it writes, and nothing of the
/// other invocations; and from states that look the same to its invocation but in leaves that it doesn't read it leads to such states.
pub fn events_change_what_they_write()
    ensures others { (p : Program) (s next : State) (i j : ℕ) (h : Happening) → StoreFits p s i → arrives_of p s i ≡ false → step_of p s i ≡ Moves h next → i ≢ j
        → LookAlike j (touched_of p s i).writes s next }
    ensures alike { (p : Program) (s t next : State) (i : ℕ) (some : List Leaves) (h : Happening) → StoreFits p s i → arrives_of p s i ≡ false → step_of p s i ≡ Moves h next
        → LookAlike i some s t → AreApart some (touched_of p s i).reads → (u : State) × (step_of p t i ≡ Moves h u) × LookAlike i some next u }
{}

/// A law, with nothing to run: a value that fits a part of memory has the part's outline, so that a store there moves no leaf.
pub fn fitting_values_keep_outlines()
    ensures { (s : State) (i : ℕ) (o : Option (Pointer × Value)) → ∥ IsMemory s.memory ∥₁ → spec.StoreFits s i o → KeepsOutline s i o }
{}

/// A law, with nothing to run: in a sound state of an accepted module what the next event of an invocation stores has the outline of what is
/// there, so that no leaf moves.
pub fn stored_values_keep_outlines()
    ensures { (p : Program) (s : State) (i : ℕ) → IsAccepted p.accepted → IsSound p s → StoreFits p s i }
{
    instructions_keep_their_rules();
    operands_have_shapes();
    accepted_modules_are_valid();
}
