//! Barriers (SPIR-V 1.6 section 3.42.20).
ghost use Rattle.std.specs.Prelude.{◌≡◌, IfOk};
ghost use Rattle.spv_state.specs.Actions.{action_of};
ghost use Rattle.spv_sites.specs.Planned.{IsDue, IsTaken, PlannedFits};
ghost use Rattle.spv_sites.specs.Sites as spec;

use crate::kept_control::{barrier_is_kept, fence_is_kept};
use spv_base::Fail;
use spv_sites::{Cause, Control, Effect, Gain, Site};
use spv_state::Action;
use spv_values::Row;

/// OpControlBarrier: the invocation waits. The row is left as it is.
pub fn control_barrier(site: &Site, row: &Row) -> Result<Effect, Fail<Cause>>
    requires { action_of site.now.inst ≡ Action.ControlBarrier }
    ensures due { IsDue (spec.due site.now) row.now result }
    ensures fits { PlannedFits site.now.program site.now.state site.now.inv site.now.inst row.now result }
    ensures taken { IfOk result (λ e. IsTaken site.now.state site.now.inv e row.now) }
{
    barrier_is_kept(site);
    site.ask(0)?;
    site.ask(1)?;
    site.ask(2)?;
    Ok(Effect {
        store: None,
        gain: Gain::Nothing,
        control: Control::Wait,
    })
}

/// OpMemoryBarrier: nothing is done. The row is left as it is.
pub fn memory_barrier(site: &Site, row: &Row) -> Result<Effect, Fail<Cause>>
    requires { action_of site.now.inst ≡ Action.MemoryBarrier }
    ensures due { IsDue (spec.due site.now) row.now result }
    ensures fits { PlannedFits site.now.program site.now.state site.now.inv site.now.inst row.now result }
    ensures taken { IfOk result (λ e. IsTaken site.now.state site.now.inv e row.now) }
{
    fence_is_kept(site);
    site.ask(0)?;
    site.ask(1)?;
    Ok(Effect {
        store: None,
        gain: Gain::Nothing,
        control: Control::Next,
    })
}
