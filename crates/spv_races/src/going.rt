//! Ways to a position and back.
ghost use Rattle.std.specs.Prelude.{◌≡◌, ◌≤◌, ◌+◌, ◌-◌, IfOk, OnOk, min, max};
ghost use Rattle.spv_group.specs.Group.{Held, end_in, group_at, window_in};
ghost use Rattle.spv_races.specs.Costs.{way_cost};
ghost use Rattle.spv_races.specs.Ways.{IsAdvanced, IsForward};
ghost use Rattle.spv_search.specs.Told.{has_probe};
ghost use Rattle.spv_state.specs.Program.{Program};

use spv_base::{NoMemory, Steps};
use spv_group::Group;
use spv_search::{Hits, go_on, return_to};
use std::alloc::Global;
use std::sync::ledger::Ledger;

/// Makes the next event, and tells the probes of it; whether there was one. There is none at the end.
pub(crate) fn advance<H: Hits, L: Ledger>(
    group: &mut Group,
    hits: &mut H,
    steps: &mut Steps<L>,
) -> Result<bool, NoMemory>
    requires suits { H.suits hits.old group.old.group.program }
    requires follows { H.follows hits.old group.old.group }
    ensures gone { IfOk result (λ more. IsAdvanced more group.old.group group.new.group) }
    ensures on { IsForward group.old group.new }
    ensures hits { (g : Held) → H.hits hits.new g ≡ H.hits hits.old g }
    ensures told { (g : Held) → H.told hits.new g ≡ H.told hits.old g }
    ensures suits { (p : Program) → H.suits hits.old p → H.suits hits.new p }
    ensures tests { H.tests hits.new ≡ H.tests hits.old }
    ensures follows { H.follows hits.new group.new.group }
    ensures counted { steps.old ≤ steps.new }
    ensures cost { steps.new ≤ steps.old + 1 }
{
    let _position = group.position();
    match go_on(group, hits, steps)? {
        Some(_) => Ok(true),
        None => Ok(false),
    }
}

/// Goes on to a position, or to the end where that comes first.
fn forth_to<H: Hits, L: Ledger>(
    group: &mut Group,
    target: u64,
    hits: &mut H,
    steps: &mut Steps<L>,
) -> Result<(), NoMemory>
    requires before { group.old.group.position ≤ target }
    requires suits { H.suits hits.old group.old.group.program }
    requires follows { H.follows hits.old group.old.group }
    ensures position { OnOk result (group.new.group.position ≡ min target (end_in group.old.group)) }
    ensures same { group.new.group ≡ group_at group.new.group.position group.old.group }
    ensures limit { group.new.limit ≡ group.old.limit }
    ensures within { group.new.group.position ≤ end_in group.old.group }
    ensures kept { group.new.kept ≤ max group.old.kept (window_in group.new) }
    ensures hits { (g : Held) → H.hits hits.new g ≡ H.hits hits.old g }
    ensures told { (g : Held) → H.told hits.new g ≡ H.told hits.old g }
    ensures suits { (p : Program) → H.suits hits.old p → H.suits hits.new p }
    ensures tests { H.tests hits.new ≡ H.tests hits.old }
    ensures follows { H.follows hits.new group.new.group }
    ensures counted { steps.old ≤ steps.new }
    ensures cost { steps.new ≤ steps.old + (target - group.old.group.position) }
{
    let _position = group.position();
    'up: while group.position() < target {
        let more = advance(group, hits, steps)?;
        if !more {
            return Ok(());
        }
    }
    Ok(())
}

/// Goes to a position, forth or back, or to the end where that comes first. After want of memory the group is at some position of its run.
/// The probes follow it.
pub(crate) fn go_to<H: Hits, L: Ledger>(
    alloc: Global,
    group: &mut Group,
    target: u64,
    hits: &mut H,
    steps: &mut Steps<L>,
) -> Result<(), NoMemory>
    requires suits { H.suits hits.old group.old.group.program }
    requires follows { H.follows hits.old group.old.group }
    ensures position { OnOk result (group.new.group.position ≡ min target (end_in group.old.group)) }
    ensures same { group.new.group ≡ group_at group.new.group.position group.old.group }
    ensures limit { group.new.limit ≡ group.old.limit }
    ensures within { group.new.group.position ≤ end_in group.old.group }
    ensures kept { group.new.kept ≤ max group.old.kept (window_in group.new) }
    ensures hits { (g : Held) → H.hits hits.new g ≡ H.hits hits.old g }
    ensures told { (g : Held) → H.told hits.new g ≡ H.told hits.old g }
    ensures suits { (p : Program) → H.suits hits.old p → H.suits hits.new p }
    ensures tests { H.tests hits.new ≡ H.tests hits.old }
    ensures follows { H.follows hits.new group.new.group }
    ensures counted { steps.old ≤ steps.new }
    ensures cost { steps.new ≤ steps.old + way_cost (has_probe (H.tests hits.old)) group.old.kept group.old.group.position target }
{
    let position = group.position();
    if target < position {
        return return_to(alloc, group, target, hits, steps);
    }
    forth_to(group, target, hits, steps)
}
