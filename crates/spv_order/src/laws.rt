//! A law of orders.
ghost use Rattle.std.specs.Prelude.{◌≡◌, ◌≢◌, ℕ, false, List, slice_get, Some};
ghost use Rattle.spv_order.specs.declared.events.Event.{Event as AnyEvent};
ghost use Rattle.spv_order.specs.Exchanges.{exchanged};
ghost use Rattle.spv_order.specs.Order.{ConflictOn, IsOrder};
ghost use Rattle.spv_order.specs.declared.orders.Answer.TheVariants.{Free};

/// A law, with nothing to run: of events that may change places none arrives at a barrier, and no two conflict, in whatever order they
/// stand; and they may still change places after exchanges of neighbours.
pub fn free_events_stay_free()
    ensures no_barrier { (events : List AnyEvent) (k : ℕ) (e : AnyEvent) → IsOrder events Free → slice_get events k ≡ Some e → e.arrives ≡ false }
    ensures apart { (events : List AnyEvent) (j k root leaf : ℕ) (e f : AnyEvent) → IsOrder events Free → j ≢ k
        → slice_get events j ≡ Some e → slice_get events k ≡ Some f → ConflictOn e f root leaf → ⊥ }
    ensures exchanged { (events : List AnyEvent) (places : List ℕ) → IsOrder events Free → IsOrder (exchanged places events) Free }
{}
