//! Laws of statuses that are put back.
ghost use Rattle.std.specs.Prelude.{◌≡◌, ℕ, Bool, List, Some, slice_get, true};
ghost use Rattle.std.specs.List.{list_all};
ghost use Rattle.spv_statuses.specs.declared.invocations.Status.{Status};
ghost use Rattle.spv_statuses.specs.Group.{closed, opened, opens_at, with_status};
ghost use Rattle.spv_statuses.specs.Invocations.{passed_or_finished, waits_or_finished};

/// A law, with nothing to run: an exchange that is undone by another one leaves the statuses as they were.
#[tactic(auto, using(spv_base::proofs::Exports::set_back))]
pub fn exchange_twice()
    ensures { (statuses : List Status) (inv : ℕ) (old status : Status) → slice_get statuses inv ≡ Some old
        → with_status inv old (with_status inv status statuses) ≡ statuses }
{}

/// A law, with nothing to run: where a barrier has opened at which all that aren't finished waited, all these have passed it, and the
/// statuses are as they were once it is closed again.
#[tactic(auto, using(crate::proofs::BarrierLemmas::passed_opened, crate::proofs::BarrierLemmas::closed_opened))]
pub fn close_opened()
    ensures passed { (word : ℕ) (statuses : List Status) → list_all (waits_or_finished word) statuses ≡ true → list_all passed_or_finished (opened statuses) ≡ true }
    ensures back { (word : ℕ) (statuses : List Status) → list_all (waits_or_finished word) statuses ≡ true → closed word (opened statuses) ≡ statuses }
{}

/// A law, with nothing to run: where a barrier opens, by either rule, all that aren't finished wait there.
#[tactic(auto, using(crate::proofs::BarrierLemmas::opens_waiting))]
pub fn opens_where_all_wait()
    ensures { (counts : Bool) (word : ℕ) (statuses : List Status) → opens_at counts word statuses ≡ true → list_all (waits_or_finished word) statuses ≡ true }
{}
