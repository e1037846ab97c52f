//! A law of reorderings.
ghost use Rattle.std.specs.Prelude.{◌≡◌, ◌≤◌, ◌<◌, ℕ, List, length};
ghost use Rattle.spv_order.specs.declared.events.Event.{Event};
ghost use Rattle.spv_order.specs.declared.orders.Answer.TheVariants.{Free};
ghost use Rattle.spv_order.specs.Exchanges.{exchanged};
ghost use Rattle.spv_order.specs.Order.{IsOrder};
ghost use Rattle.spv_exchanges.specs.Stretches.{AreBetween, AreEvents};
ghost use Rattle.spv_group.specs.Run.{run};
ghost use Rattle.spv_touch.specs.Below.spv_state.specs.Program.{Program};
ghost use Rattle.spv_touch.specs.Below.spv_state.specs.Sound.{IsSound};
ghost use Rattle.spv_touch.specs.Below.spv_valid.specs.Acceptance.{IsAccepted};

use spv_order::laws::free_events_stay_free;
use spv_touch::laws::stored_values_keep_outlines;

/// A law, with nothing to run: where the events from a position of a run on to another are free, as `order` says, each run whose schedule is
/// that one after exchanges of neighbours among them reaches the same state. So the order in which the invocations came is worth nothing there.
/// An exchange of two entries of one invocation changes nothing, and so each invocation keeps its own order.
pub fn free_events_change_places()
    ensures { (p : Program) (entries : List ℕ) (from to : ℕ) (events : List Event) (places : List ℕ) → ∥ IsAccepted p.accepted ∥₁ → from ≤ to → to ≤ length entries
        → ((n : ℕ) → from ≤ n → n < to → IsSound p (run p entries n)) → AreEvents p entries from to events → IsOrder events Free
        → AreBetween from to places → run p (exchanged places entries) to ≡ run p entries to }
{
    free_events_stay_free();
    stored_values_keep_outlines();
}
