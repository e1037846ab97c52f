//! Why a run ends at a state.
ghost use Rattle.std.specs.Prelude.{ℕ, true, List, ◌≡◌, ◌<◌, IfOk, length};
ghost use Rattle.std.specs.Option.{ForSome};
ghost use Rattle.spv_state.specs.Program.{Program};
ghost use Rattle.spv_state.specs.Sound.{IsSound};
ghost use Rattle.spv_group.specs.Positions.{IsLeast};
ghost use Rattle.spv_group.specs.Run.{all_finished, is_stuck, cause_in, has_cause, end_of};

use spv_base::{EndCause, NoMemory};
use spv_machine::{Runnable, World, fault_of};
use std::alloc::Global;

/// Whether all invocations are finished. In constant time (measured, and said by no clause).
pub fn all_finished(world: &World) -> bool
    ensures { result ≡ all_finished world.now.state }
{
    world.whole().statuses().all_finished()
}

/// Whether no invocation can go on, though one waits at a barrier. In constant time (measured, and said by no clause).
pub fn is_stuck(world: &World) -> bool
    ensures { result ≡ is_stuck world.now.state }
{
    world.whole().statuses().is_stuck()
}

/// Why a run ends here, where it does: `next` is the next entry of the schedule. It takes no step.
pub fn cause_here(
    alloc: Global,
    m: &Runnable,
    world: &World,
    next: Option<u32>,
) -> Result<Option<EndCause>, NoMemory>
    requires sound { IsSound m.now world.now.state }
    requires next { ForSome next (λ i. i < length world.now.state.statuses.list) }
    ensures { IfOk result (λ cause. cause ≡ cause_in m.now world.now.state next) }
{
    if all_finished(world) {
        return Ok(Some(EndCause::Finished));
    }
    if is_stuck(world) {
        return Ok(Some(EndCause::Stuck));
    }
    match next {
        None => Ok(Some(EndCause::Schedule)),
        Some(inv) => Ok(fault_of(alloc, m, world, inv)?.map(EndCause::Fault)),
    }
}

/// The end of a run is the least position that has a cause to end there, and it has one.
pub fn end_is_least()
    ensures least { (p : Program) (entries : List ℕ) → IsLeast (has_cause p entries) 0 (length entries) (end_of p entries) }
    ensures cause { (p : Program) (entries : List ℕ) → has_cause p entries (end_of p entries) ≡ true }
{}
