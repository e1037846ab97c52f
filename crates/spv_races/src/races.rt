//! Events of a stretch of a run, and what their order is worth.
ghost use Rattle.std.specs.Prelude.{◌≡◌, ◌<◌, ◌≤◌, ◌+◌, ◌-◌, ℕ, List, Some, IfOk, OnOk, MatchOption, max, min};
ghost use Rattle.spv_exchanges.specs.Stretches.{AreBetween};
ghost use Rattle.spv_group.specs.Group.{Held, end_in, entries_in, group_at, window_in};
ghost use Rattle.spv_group.specs.Run.{run};
ghost use Rattle.spv_order.specs.Exchanges.{exchanged};
ghost use Rattle.spv_order.specs.declared.orders.Answer.TheVariants.{Free};
ghost use Rattle.spv_races.specs.Answers.{AreFound, IsOrderOf};
ghost use Rattle.spv_races.specs.Costs.{order_cost, top_of, window_at};
ghost use Rattle.spv_races.specs.Ways.{IsAdded, IsForward};
ghost use Rattle.spv_search.specs.Costs.{return_cost};
ghost use Rattle.spv_search.specs.Told.{has_probe};
ghost use Rattle.spv_state.specs.Program.{Program};

use crate::going::{advance, go_to};
use spv_base::{NoMemory, Steps};
use spv_exchanges::laws::free_events_change_places;
use spv_group::{Group, end_is_least};
use spv_order::{Answer, Event, order};
use spv_search::Hits;
use spv_touch::touch;
use std::alloc::Global;
use std::sync::ledger::Ledger;

/// Adds the next event, and makes it; whether there was one. There is none at the end.
fn add_next<H: Hits, L: Ledger>(
    alloc: Global,
    group: &mut Group,
    events: &mut Vec<Event>,
    hits: &mut H,
    steps: &mut Steps<L>,
) -> Result<bool, NoMemory>
    requires suits { H.suits hits.old group.old.group.program }
    requires follows { H.follows hits.old group.old.group }
    ensures added { IfOk result (λ more. IsAdded more group.old.group group.new.group events.old.items events.new.items) }
    ensures on { IsForward group.old group.new }
    ensures hits { (g : Held) → H.hits hits.new g ≡ H.hits hits.old g }
    ensures told { (g : Held) → H.told hits.new g ≡ H.told hits.old g }
    ensures suits { (p : Program) → H.suits hits.old p → H.suits hits.new p }
    ensures tests { H.tests hits.new ≡ H.tests hits.old }
    ensures follows { H.follows hits.new group.new.group }
    ensures counted { steps.old ≤ steps.new }
    ensures cost { steps.new ≤ steps.old + 1 }
{
    end_is_least();
    let _position = group.position();
    let Some(inv) = group.next() else {
        return Ok(false);
    };
    let event = touch(alloc, group.module(), group.world(), inv)?;
    let more = advance(group, hits, steps)?;
    if !more {
        return Ok(false);
    }
    events.push(event)?;
    Ok(true)
}

/// Makes the events from the first position on, where the group is, up to the second; none where the run ends before that.
fn events_to<H: Hits, L: Ledger>(
    alloc: Global,
    group: &mut Group,
    target: u64,
    hits: &mut H,
    steps: &mut Steps<L>,
) -> Result<Option<Vec<Event>>, NoMemory>
    requires before { group.old.group.position ≤ target }
    requires suits { H.suits hits.old group.old.group.program }
    requires follows { H.follows hits.old group.old.group }
    ensures events { IfOk result (λ found. MatchOption found (end_in group.old.group < target)
        (λ events. AreFound group.old.group group.old.group.position target events.items)) }
    ensures position { OnOk result (group.new.group.position ≡ min target (end_in group.old.group)) }
    ensures same { group.new.group ≡ group_at group.new.group.position group.old.group }
    ensures limit { group.new.limit ≡ group.old.limit }
    ensures within { group.new.group.position ≤ end_in group.old.group }
    ensures kept { group.new.kept ≤ max group.old.kept (window_in group.new) }
    ensures hits { (g : Held) → H.hits hits.new g ≡ H.hits hits.old g }
    ensures told { (g : Held) → H.told hits.new g ≡ H.told hits.old g }
    ensures suits { (p : Program) → H.suits hits.old p → H.suits hits.new p }
    ensures tests { H.tests hits.new ≡ H.tests hits.old }
    ensures follows { H.follows hits.new group.new.group }
    ensures counted { steps.old ≤ steps.new }
    ensures cost { steps.new ≤ steps.old + (target - group.old.group.position) }
{
    let _start = group.position();
    let mut events = Vec::new(alloc);
    'up: while group.position() < target {
        let more = add_next(alloc, group, &mut events, hits, steps)?;
        if !more {
            return Ok(None);
        }
    }
    Ok(Some(events))
}

/// Goes to a position, and makes the events from there on up to another; none where the run ends before that.
fn events_between<H: Hits, L: Ledger>(
    alloc: Global,
    group: &mut Group,
    from: u64,
    to: u64,
    hits: &mut H,
    steps: &mut Steps<L>,
) -> Result<Option<Vec<Event>>, NoMemory>
    requires order { from < to }
    requires suits { H.suits hits.old group.old.group.program }
    requires follows { H.follows hits.old group.old.group }
    ensures events { IfOk result (λ found. MatchOption found (end_in group.old.group < to) (λ events. AreFound group.old.group from to events.items)) }
    ensures position { OnOk result (group.new.group.position ≡ min to (end_in group.old.group)) }
    ensures top { OnOk result (group.new.kept ≤ max group.old.kept (window_at group.old (top_of group.old to))) }
    ensures kept { group.new.kept ≤ max (max group.old.kept (window_at group.old (top_of group.old to))) (window_in group.new) }
    ensures same { group.new.group ≡ group_at group.new.group.position group.old.group }
    ensures limit { group.new.limit ≡ group.old.limit }
    ensures within { group.new.group.position ≤ end_in group.old.group }
    ensures hits { (g : Held) → H.hits hits.new g ≡ H.hits hits.old g }
    ensures told { (g : Held) → H.told hits.new g ≡ H.told hits.old g }
    ensures suits { (p : Program) → H.suits hits.old p → H.suits hits.new p }
    ensures tests { H.tests hits.new ≡ H.tests hits.old }
    ensures follows { H.follows hits.new group.new.group }
    ensures counted { steps.old ≤ steps.new }
    ensures cost { steps.new ≤ steps.old + return_cost (has_probe (H.tests hits.old)) group.old.kept group.old.group.position from
        + (to - min from group.old.group.position) }
{
    go_to(alloc, group, from, hits, steps)?;
    if group.position() < from {
        return Ok(None);
    }
    events_to(alloc, group, to, hits, steps)
}

/// What the order of the events from a position on to another is worth; none exactly where the run ends before. An event is told by how many
/// of them stand before it.
///
/// Where they may change places, each run by a schedule that is the group's after exchanges of neighbours among them reaches the same state.
///
/// The group goes there and back, and the probes follow it. It takes a step for each event from the least of the three positions to the
/// greatest, where the events on the way back are kept. After want of memory the group is at some position of its run.
pub fn order_of<H: Hits, L: Ledger>(
    alloc: Global,
    group: &mut Group,
    hits: &mut H,
    from: u64,
    to: u64,
    steps: &mut Steps<L>,
) -> Result<Option<Answer>, NoMemory>
    requires order { from < to }
    requires suits { H.suits hits.old group.old.group.program }
    requires follows { H.follows hits.old group.old.group }
    ensures answer { IfOk result (λ answer. IsOrderOf group.old.group from to answer) }
    ensures free { IfOk result (λ answer. answer ≡ Some Free → (places : List ℕ) → AreBetween from to places
        → run group.old.group.program (exchanged places (entries_in group.old.group)) to ≡ run group.old.group.program (entries_in group.old.group) to) }
    ensures position { OnOk result (group.new.group.position ≡ group.old.group.position) }
    ensures same { group.new.group ≡ group_at group.new.group.position group.old.group }
    ensures limit { group.new.limit ≡ group.old.limit }
    ensures within { group.new.group.position ≤ end_in group.old.group }
    ensures top { OnOk result (group.new.kept ≤ max group.old.kept (window_at group.old (top_of group.old to))) }
    ensures kept { group.new.kept ≤ max (max group.old.kept (window_at group.old (top_of group.old to))) (window_in group.new) }
    ensures hits { (g : Held) → H.hits hits.new g ≡ H.hits hits.old g }
    ensures told { (g : Held) → H.told hits.new g ≡ H.told hits.old g }
    ensures suits { (p : Program) → H.suits hits.old p → H.suits hits.new p }
    ensures tests { H.tests hits.new ≡ H.tests hits.old }
    ensures follows { H.follows hits.new group.new.group }
    ensures counted { steps.old ≤ steps.new }
    ensures cost { steps.new ≤ steps.old + order_cost (has_probe (H.tests hits.old)) group.old.kept (window_at group.old (top_of group.old to)) group.old.group.position from to }
{
    free_events_change_places();
    end_is_least();
    let _insts = group.module().accepted().insts();
    let position = group.position();
    let events = events_between(alloc, group, from, to, hits, steps)?;
    go_to(alloc, group, position, hits, steps)?;
    match events {
        None => Ok(None),
        Some(events) => Ok(Some(order(alloc, events.as_slice())?)),
    }
}
