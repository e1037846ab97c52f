//! What events do to an invocation.
ghost use Rattle.std.specs.Prelude.{◌≡◌, ◌≤◌, ◌+◌, if◌then◌else◌};
ghost use Rattle.spv_search.specs.Moves as spec;

use spv_base::{Happening, Kind};

/// Whether an event moves an invocation.
pub(crate) fn moves(inv: u32, happening: &Happening) -> bool
    ensures { result ≡ spec.moves inv happening.now }
{
    happening.inv == inv && !matches!(&happening.kind, Kind::Idle)
}

/// Whether an event lands an invocation: moves it, and is no arrival at a barrier.
pub(crate) fn lands(inv: u32, happening: &Happening) -> bool
    ensures { result ≡ spec.lands inv happening.now }
{
    moves(inv, happening) && !matches!(&happening.kind, Kind::Arrive | Kind::Opened)
}

/// A count of events with one more, where that is to be counted.
pub(crate) fn counted(count: u64, moved: bool) -> u64
    requires { count ≤ 4194304 }
    ensures { result ≡ count + (if moved then 1 else 0) }
{
    if moved { count + 1 } else { count }
}
