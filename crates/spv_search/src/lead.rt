//! Goes back to a position that a search found, by the event before it.
ghost use Rattle.std.specs.Prelude.{◌≡◌, ◌≤◌, ◌+◌, length, OnOk, IfOk, max};
ghost use Rattle.spv_group.specs.Group.{Held, end_in, group_at, window_in};
ghost use Rattle.spv_search.specs.Costs.{lead_cost, return_cost};
ghost use Rattle.spv_search.specs.Stops.{IsLed};
ghost use Rattle.spv_search.specs.Told.{IsPast, has_probe};
ghost use Rattle.spv_state.specs.Program.{Program};

use crate::backward::{make, undo};
use crate::hits::Hits;
use crate::past::Past;
use spv_base::{Happening, NoMemory, Steps};
use spv_group::Group;
use spv_valid::Module;
use std::alloc::Global;
use std::sync::ledger::Ledger;

/// Goes back to a position by undoing.
fn undo_to<H: Hits, L: Ledger>(
    group: &mut Group,
    target: u64,
    hits: &mut H,
    steps: &mut Steps<L>,
) -> Result<(), NoMemory>
    requires target { target ≤ group.old.group.position }
    requires kept { group.old.kept ≤ target }
    requires suits { H.suits hits.old group.old.group.program }
    requires follows { H.follows hits.old group.old.group }
    ensures target { OnOk result (group.new.group.position ≡ target) }
    ensures same { group.new.group ≡ group_at group.new.group.position group.old.group }
    ensures limit { group.new.limit ≡ group.old.limit }
    ensures within { group.new.group.position ≤ group.old.group.position }
    ensures kept { group.new.kept ≡ group.old.kept }
    ensures hits { (g : Held) → H.hits hits.new g ≡ H.hits hits.old g }
    ensures told { (g : Held) → H.told hits.new g ≡ H.told hits.old g }
    ensures suits { (p : Program) → H.suits hits.old p → H.suits hits.new p }
    ensures tests { H.tests hits.new ≡ H.tests hits.old }
    ensures follows { H.follows hits.new group.new.group }
    ensures cost { steps.new ≡ steps.old }
{
    'down: while target < group.position() {
        undo(group, hits, steps)?;
    }
    Ok(())
}

/// Goes back to a position by a run from the start on, where no probe is told of it.
fn make_to<H: Hits, L: Ledger>(
    group: &mut Group,
    target: u64,
    hits: &mut H,
    steps: &mut Steps<L>,
) -> Result<(), NoMemory>
    requires target { target ≤ group.old.group.position }
    requires suits { H.suits hits.old group.old.group.program }
    requires follows { (g : Held) → H.follows hits.old g }
    ensures target { OnOk result (group.new.group.position ≡ target) }
    ensures same { group.new.group ≡ group_at group.new.group.position group.old.group }
    ensures limit { group.new.limit ≡ group.old.limit }
    ensures within { group.new.group.position ≤ group.old.group.position }
    ensures kept { group.new.kept ≤ max group.old.kept (window_in group.new) }
    ensures hits { (g : Held) → H.hits hits.new g ≡ H.hits hits.old g }
    ensures told { (g : Held) → H.told hits.new g ≡ H.told hits.old g }
    ensures suits { (p : Program) → H.suits hits.old p → H.suits hits.new p }
    ensures tests { H.tests hits.new ≡ H.tests hits.old }
    ensures follows { H.follows hits.new group.new.group }
    ensures counted { steps.old ≤ steps.new }
    ensures cost { steps.new ≤ steps.old + target }
{
    let _position = group.position();
    group.restart()?;
    'up: while group.position() < target {
        make(group, hits, steps)?;
    }
    Ok(())
}

/// Tells the probes of events up to a position that were taken back, the last first.
fn tell_back<H: Hits>(module: &Module, mut past: Past, hits: &mut H)
    requires { (g : Held) × IsPast module.now past.events.items g × H.suits hits.old g.program × H.follows hits.old (group_at (g.position + length past.events.items) g) }
    ensures hits { (g : Held) → H.hits hits.new g ≡ H.hits hits.old g }
    ensures told { (g : Held) → H.told hits.new g ≡ H.told hits.old g }
    ensures suits { (p : Program) → H.suits hits.old p → H.suits hits.new p }
    ensures tests { H.tests hits.new ≡ H.tests hits.old }
    ensures follows { (g : Held) → IsPast module.now past.events.items g → H.suits hits.old g.program → H.follows hits.old (group_at (g.position + length past.events.items) g) → H.follows hits.new g }
{
    'down: while let Some(happening) = past.events.pop() {
        hits.back(module, &happening);
    }
}

/// Goes back to a position by a run from the start on, and by one from there on that finds the events which probes are told of then. After
/// want of memory all is as before.
fn tell_to<H: Hits, L: Ledger>(
    alloc: Global,
    group: &mut Group,
    target: u64,
    hits: &mut H,
    steps: &mut Steps<L>,
) -> Result<(), NoMemory>
    requires target { target ≤ group.old.group.position }
    requires suits { H.suits hits.old group.old.group.program }
    requires follows { H.follows hits.old group.old.group }
    ensures target { OnOk result (group.new.group.position ≡ target) }
    ensures same { group.new.group ≡ group_at group.new.group.position group.old.group }
    ensures limit { group.new.limit ≡ group.old.limit }
    ensures within { group.new.group.position ≤ group.old.group.position }
    ensures kept { group.new.kept ≤ max group.old.kept (window_in group.new) }
    ensures hits { (g : Held) → H.hits hits.new g ≡ H.hits hits.old g }
    ensures told { (g : Held) → H.told hits.new g ≡ H.told hits.old g }
    ensures suits { (p : Program) → H.suits hits.old p → H.suits hits.new p }
    ensures tests { H.tests hits.new ≡ H.tests hits.old }
    ensures follows { H.follows hits.new group.new.group }
    ensures counted { steps.old ≤ steps.new }
    ensures cost { steps.new ≤ steps.old + group.old.group.position }
{
    let count = group.position() - target;
    let mut past = Past::with_room(alloc, count as usize)?;
    group.back_to(target, &mut past, steps)?;
    tell_back(group.module().accepted(), past, hits);
    Ok(())
}

/// Goes back to a position: by undoing, with no step, or by a run from the start on where the events from there on aren't kept. After want of
/// memory the group is at some position of its run. The probes follow it.
pub fn return_to<H: Hits, L: Ledger>(
    alloc: Global,
    group: &mut Group,
    target: u64,
    hits: &mut H,
    steps: &mut Steps<L>,
) -> Result<(), NoMemory>
    requires target { target ≤ group.old.group.position }
    requires suits { H.suits hits.old group.old.group.program }
    requires follows { H.follows hits.old group.old.group }
    ensures target { OnOk result (group.new.group.position ≡ target) }
    ensures same { group.new.group ≡ group_at group.new.group.position group.old.group }
    ensures limit { group.new.limit ≡ group.old.limit }
    ensures within { group.new.group.position ≤ end_in group.old.group }
    ensures kept { group.new.kept ≤ max group.old.kept (window_in group.new) }
    ensures reached { group.old.kept ≤ group.old.group.position }
    ensures hits { (g : Held) → H.hits hits.new g ≡ H.hits hits.old g }
    ensures told { (g : Held) → H.told hits.new g ≡ H.told hits.old g }
    ensures suits { (p : Program) → H.suits hits.old p → H.suits hits.new p }
    ensures tests { H.tests hits.new ≡ H.tests hits.old }
    ensures follows { H.follows hits.new group.new.group }
    ensures counted { steps.old ≤ steps.new }
    ensures cost { steps.new ≤ steps.old + return_cost (has_probe (H.tests hits.old)) group.old.kept group.old.group.position target }
{
    let _position = group.position();
    if group.first_kept() <= target {
        return undo_to(group, target, hits, steps);
    }
    if hits.listens() {
        return tell_to(alloc, group, target, hits, steps);
    }
    make_to(group, target, hits, steps)
}

/// Goes back to a position by the event before it, where there is one, and tells that event; the position before it is noted then.
pub(crate) fn lead_to<H: Hits, L: Ledger>(
    alloc: Global,
    group: &mut Group,
    target: u64,
    hits: &mut H,
    steps: &mut Steps<L>,
) -> Result<Option<Happening>, NoMemory>
    requires within { target ≤ group.old.group.position }
    requires suits { H.suits hits.old group.old.group.program }
    requires follows { H.follows hits.old group.old.group }
    ensures target { OnOk result (group.new.group.position ≡ target) }
    ensures led { IfOk result (λ event. IsLed (H.noted hits.new) group.new.group event) }
    ensures same { group.new.group ≡ group_at group.new.group.position group.old.group }
    ensures limit { group.new.limit ≡ group.old.limit }
    ensures within { group.new.group.position ≤ end_in group.old.group }
    ensures kept { group.new.kept ≤ max group.old.kept (window_in group.new) }
    ensures reached { group.old.kept ≤ group.old.group.position }
    ensures hits { (g : Held) → H.hits hits.new g ≡ H.hits hits.old g }
    ensures told { (g : Held) → H.told hits.new g ≡ H.told hits.old g }
    ensures suits { (p : Program) → H.suits hits.old p → H.suits hits.new p }
    ensures tests { H.tests hits.new ≡ H.tests hits.old }
    ensures follows { H.follows hits.new group.new.group }
    ensures counted { steps.old ≤ steps.new }
    ensures cost { steps.new ≤ steps.old + lead_cost (has_probe (H.tests hits.old)) group.old.group.position target }
{
    let _position = group.position();
    if target == 0 {
        return_to(alloc, group, 0, hits, steps)?;
        return Ok(None);
    }
    return_to(alloc, group, target - 1, hits, steps)?;
    hits.note(group)?;
    Ok(Some(make(group, hits, steps)?))
}
