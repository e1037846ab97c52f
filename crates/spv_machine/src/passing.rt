//! The debug events that the top frame of an invocation passes, each recorded.
ghost use Rattle.std.specs.Prelude.{◌≡◌, ◌<◌, ◌+◌, ◌++◌, IsSome, OnOk, length};
ghost use Rattle.std.specs.Option.{IsSomeAnd};
ghost use Rattle.spv_journal.specs.Held.{IsMaking, Records};
ghost use Rattle.spv_machine.specs.Weights.{events_before};
ghost use Rattle.spv_actions.specs.Below.spv_plans.specs.Plans.{plans_in};
ghost use Rattle.spv_state.specs.Events.{pass};
ghost use Rattle.spv_state.specs.Sound.{IsSoundFrame};
ghost use Rattle.spv_state.specs.State as state;

use spv_base::NoMemory;
use spv_frame::DebugEvent;
use spv_journal::Recorded;
use spv_state::{Runnable, captured_at};
use std::alloc::Global;

/// Appends debug events to those that the top frame of an invocation passed.
fn append_all(recorded: &mut Recorded, inv: u32, events: Vec<DebugEvent>) -> Result<(), NoMemory>
    requires making { IsMaking recorded.old.gathered inv }
    requires inside { inv < length recorded.old.state.stacks }
    requires frames { IsSome (state.top_of recorded.old.state inv) }
    ensures ok { OnOk result (recorded.new.state ≡ state.on_frame inv (λ f. record f { events = f.events ++ events.items }) recorded.old.state) }
    ensures recorded { Records (length events.items) recorded.old recorded.new }
{
    for event in events {
        recorded.append(inv, event)?;
    }
    Ok(())
}

/// The top frame of an invocation comes to an instruction, past the debug instructions before it. Where there are none its pc is all that
/// changes.
#[inline(always)]
pub(crate) fn come_to(
    alloc: Global,
    m: &Runnable,
    recorded: &mut Recorded,
    inv: u32,
    pc: u32,
) -> Result<(), NoMemory>
    requires making { IsMaking recorded.old.gathered inv }
    requires inside { inv < length recorded.old.state.stacks }
    requires plans { recorded.old.state.plans ≡ plans_in m.now.accepted }
    requires frame { IsSomeAnd (state.top_of recorded.old.state inv) (IsSoundFrame m.now.accepted) }
    ensures ok { OnOk result (recorded.new.state ≡ pass m.now.accepted inv (state.on_frame inv (state.with_pc pc) recorded.old.state)) }
    ensures recorded { Records (events_before m.now.accepted (pass m.now.accepted inv (state.on_frame inv (state.with_pc pc) recorded.old.state)) inv + 1) recorded.old recorded.new }
{
    recorded.set_pc(inv, pc)?;
    if m.captures(pc).is_empty() {
        return Ok(());
    }
    let events = captured_at(alloc, m, recorded.whole(), inv)?;
    append_all(recorded, inv, events)
}
