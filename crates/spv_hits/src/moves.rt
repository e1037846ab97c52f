//! What events do to their own invocations.
ghost use Rattle.std.specs.Prelude.{◌≡◌};
ghost use Rattle.spv_group.specs.Run.{is_idle as idle};
ghost use Rattle.spv_search.specs.Moves as spec;

use spv_base::{Happening, Kind};

/// Whether an event is idle: nothing changes at it.
pub(crate) fn is_idle(happening: &Happening) -> bool
    ensures { result ≡ idle happening.now.kind }
{
    matches!(&happening.kind, Kind::Idle)
}

/// Whether an event lands its own invocation: moves it, and is no arrival at a barrier.
pub(crate) fn lands(happening: &Happening) -> bool
    ensures { result ≡ spec.lands happening.now.inv happening.now }
{
    !matches!(&happening.kind, Kind::Idle | Kind::Arrive | Kind::Opened)
}
