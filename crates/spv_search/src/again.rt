//! Searches back among events that aren't kept, by a run from the start on.
ghost use Rattle.std.specs.Prelude.{◌≡◌, ◌⊎◌, ◌≤◌, ◌<◌, ◌+◌, ◌-◌, ◌&&◌, ◌||◌, nat_lt, Bool, Some, IfOk, OnOk, max, false};
ghost use Rattle.spv_group.specs.Group.{Held, Undoing, end_in, entries_in, group_at, window_in};
ghost use Rattle.spv_group.specs.Run.{happening_before};
ghost use Rattle.spv_search.specs.Again as spec;
ghost use Rattle.spv_search.specs.Again.{IsAdded, IsFoundAgain, IsFoundOf, IsLookedBefore, IsTarget};
ghost use Rattle.spv_search.specs.Costs.{again_cost};
ghost use Rattle.spv_search.specs.Keys.{IsFocus, depth_in};
ghost use Rattle.spv_search.specs.Sights.{IsLeft, IsSeen};
ghost use Rattle.spv_search.specs.Own.{own_next};
ghost use Rattle.spv_search.specs.Targets.{passes_backward};
ghost use Rattle.spv_search.specs.Told.{has_probe};
ghost use Rattle.spv_state.specs.Program.{Program};

use crate::backward::{Search, Way, make};
use crate::commands::Backward;
use crate::focus::Key;
use crate::hits::{Hits, Looked, passes_here};
use crate::lead::return_to;
use crate::moves::moves;
use crate::own::{holds_here, holds_next, seen};
use spv_base::{Happening, NoMemory, Steps};
use spv_group::Group;
use std::alloc::Global;
use std::sync::ledger::Ledger;

/// What was found on a run from the start on: the last position that passes, but for what the command asks for of the event at it, whether
/// what the command asks for of the event before it holds there, and, where the command asks for the event at a position, the positions of
/// all events that move the invocation.
#[derive(Drop)]
pub struct Found {
    pub last: u64,
    pub done: bool,
    pub movers: Vec<u64>,
}

/// The position that is searched for, and whether what the command asks for holds there.
#[derive(Clone, Copy)]
pub struct Target {
    pub position: u64,
    pub done: bool,
}

/// Whether a command asks for the event at a position.
fn asks_for_next(command: Backward) -> bool
    ensures { result ≡ spec.asks_for_next command }
{
    matches!(command, Backward::Rstepi(_))
}

/// How many events that move the invocation a command asks for before a way, if there are to be some.
fn wanted(command: Backward, way: Way) -> u64
    ensures { result ≡ spec.wanted command way }
{
    match command {
        Backward::Rstepi(number) => u64::from(number).saturating_sub(way.count),
        _ => 0,
    }
}

/// The mover with a number, counted back from the last; none where there are fewer.
fn mover_of(movers: &[u64], number: u64) -> Option<u64>
    ensures { result ≡ spec.mover_of movers.now number }
{
    let count = movers.len() as u64;
    if 0 < number && number <= count {
        return Some(movers[(count - number) as usize]);
    }
    None
}

/// The last position that passes, with the mover that a command asks for.
fn target_of(found: &Found, mover: Option<u64>) -> Target
    ensures position { result.position ≡ spec.later_of found.now.last mover }
    ensures done { result.done ≡ (spec.is_mover found.now.last mover || found.now.done) }
{
    match mover {
        Some(position) if found.last <= position => Target {
            position,
            done: true,
        },
        _ => Target {
            position: found.last,
            done: found.done,
        },
    }
}

/// Adds an event: what is known of the position behind it, and whether it is a mover that is asked for.
fn add(found: &mut Found, event: u64, looked: Looked, moved: bool) -> Result<(), NoMemory>
    requires { event < 4194304 }
    ensures { OnOk result (IsAdded event looked moved found.old found.new) }
{
    if looked.passes {
        found.last = event + 1;
        found.done = looked.done;
    }
    if moved {
        found.movers.push(event)?;
    }
    Ok(())
}

/// Whether this position, behind an event, is before the one searched from, and passes, but for what the command asks for of the event at it.
/// What was seen before it is told, and the position before it was noted. This position is noted then.
fn look_here<H: Hits>(
    group: &Group,
    search: &Search<'_>,
    before: Option<Key>,
    hits: &mut H,
    happening: &Happening,
) -> Result<Looked, NoMemory>
    requires focus { IsFocus group.now.group search.now.focus.inv search.now.focus.tables.now search.now.focus.lines.now }
    requires suits { H.suits hits.old group.now.group.program }
    requires follows { H.follows hits.old group.now.group }
    requires event { happening_before group.now.group.program (entries_in group.now.group) group.now.group.position ≡ Some happening.now }
    requires seen { IsSeen search.now.focus.tables.now search.now.command search.now.focus.inv (group_at (group.now.group.position - 1) group.now.group) before }
    requires noted { H.noted hits.old (group_at (group.now.group.position - 1) group.now.group) }
    ensures looked { IfOk result (λ looked. (p : Held) → search.now.depth ≡ depth_in p search.now.focus.inv
        → IsLookedBefore (H.hits hits.old) search.now.command search.now.focus.inv p search.now.position group.now.group looked) }
    ensures noted { OnOk result (H.noted hits.new group.now.group) }
    ensures hits { (g : Held) → H.hits hits.new g ≡ H.hits hits.old g }
    ensures told { (g : Held) → H.told hits.new g ≡ H.told hits.old g }
    ensures suits { (p : Program) → H.suits hits.old p → H.suits hits.new p }
    ensures tests { H.tests hits.new ≡ H.tests hits.old }
    ensures follows { H.follows hits.new group.now.group }
{
    if group.position() >= search.position {
        hits.note(group)?;
        return Ok(Looked {
            passes: false,
            done: false,
        });
    }
    let done = holds_here(
        search.command,
        &search.focus,
        group,
        search.depth,
        before,
        happening,
    )?;
    let passes = passes_here(hits, group, done, happening)?;
    Ok(Looked { passes, done })
}

/// Makes the next event, and adds it to what was found. The position before it was noted, and that behind it is then.
fn go_past<H: Hits, L: Ledger>(
    group: &mut Group,
    search: &Search<'_>,
    found: &mut Found,
    hits: &mut H,
    steps: &mut Steps<L>,
) -> Result<(), NoMemory>
    requires focus { IsFocus group.old.group search.now.focus.inv search.now.focus.tables.now search.now.focus.lines.now }
    requires suits { H.suits hits.old group.old.group.program }
    requires follows { H.follows hits.old group.old.group }
    requires noted { H.noted hits.old group.old.group }
    requires before { group.old.group.position < end_in group.old.group }
    ensures same { group.new.group ≡ group_at group.new.group.position group.old.group }
    ensures limit { group.new.limit ≡ group.old.limit }
    ensures later { (group.new.group.position ≡ group.old.group.position) ⊎ (group.new.group.position ≡ group.old.group.position + 1) }
    ensures position { OnOk result (group.new.group.position ≡ group.old.group.position + 1) }
    ensures kept { group.new.kept ≤ max group.old.kept (window_in group.new) }
    ensures found { OnOk result ((p first : Held) (hit : Held → Bool) → ((x : Held) → H.hits hits.old x ≡ hit x) → search.now.depth ≡ depth_in p search.now.focus.inv
        → group.old.group ≡ group_at group.old.group.position first
        → IsFoundOf hit search.now.command search.now.focus.inv p search.now.position first group.old.group.position found.old
        → IsFoundOf hit search.now.command search.now.focus.inv p search.now.position first group.new.group.position found.new) }
    ensures noted { OnOk result (H.noted hits.new group.new.group) }
    ensures hits { (g : Held) → H.hits hits.new g ≡ H.hits hits.old g }
    ensures told { (g : Held) → H.told hits.new g ≡ H.told hits.old g }
    ensures suits { (p : Program) → H.suits hits.old p → H.suits hits.new p }
    ensures tests { H.tests hits.new ≡ H.tests hits.old }
    ensures follows { H.follows hits.new group.new.group }
    ensures counted { steps.old ≤ steps.new }
    ensures cost { steps.new ≤ steps.old + 1 }
    ensures exact { OnOk result (steps.new ≡ steps.old + 1) }
{
    let event = group.position();
    let before = seen(search.command, &search.focus, group)?;
    let happening = make(group, hits, steps)?;
    let looked = look_here(group, search, before, hits, &happening)?;
    let moved = asks_for_next(search.command) && moves(search.focus.inv, &happening);
    let _behind = group.position();
    add(found, event, looked, moved)
}

/// Runs from the start on to this position, and finds the last one on the way that passes, with the mover that a command asks for.
fn find_again<H: Hits, L: Ledger>(
    alloc: Global,
    group: &mut Group,
    search: &Search<'_>,
    way: Way,
    hits: &mut H,
    steps: &mut Steps<L>,
) -> Result<Target, NoMemory>
    requires focus { IsFocus group.old.group search.now.focus.inv search.now.focus.tables.now search.now.focus.lines.now }
    requires suits { H.suits hits.old group.old.group.program }
    requires follows { H.follows hits.old group.old.group }
    ensures target { IfOk result (λ target. (from : Undoing) → search.now.position ≡ from.group.position → search.now.depth ≡ depth_in from.group search.now.focus.inv
        → IsLeft (passes_backward (H.hits hits.old) search.now.command search.now.focus.inv from.group) search.now.focus.inv from group.old way
        → (group.old.group.position < from.group.position → own_next search.now.command search.now.focus.inv from.group group.old.group ≡ false)
        → IsTarget (H.hits hits.old) search.now.command search.now.focus.inv from.group target) }
    ensures position { OnOk result (group.new.group.position ≡ group.old.group.position) }
    ensures same { group.new.group ≡ group_at group.new.group.position group.old.group }
    ensures limit { group.new.limit ≡ group.old.limit }
    ensures within { group.new.group.position ≤ end_in group.old.group }
    ensures kept { group.new.kept ≤ max group.old.kept (window_in group.new) }
    ensures hits { (g : Held) → H.hits hits.new g ≡ H.hits hits.old g }
    ensures told { (g : Held) → H.told hits.new g ≡ H.told hits.old g }
    ensures suits { (p : Program) → H.suits hits.old p → H.suits hits.new p }
    ensures tests { H.tests hits.new ≡ H.tests hits.old }
    ensures follows { H.follows hits.new group.new.group }
    ensures counted { steps.old ≤ steps.new }
    ensures cost { steps.new ≤ steps.old + again_cost (has_probe (H.tests hits.old)) group.old.group.position }
{
    let end = group.position();
    return_to(alloc, group, 0, hits, steps)?;
    hits.note(group)?;
    let mut found = Found {
        last: 0,
        done: false,
        movers: Vec::new(alloc),
    };
    'up: while group.position() < end {
        go_past(group, search, &mut found, hits, steps)?;
    }
    let mover = mover_of(found.movers.as_slice(), wanted(search.command, way));
    Ok(target_of(&found, mover))
}

/// The position that is searched for, where all events from here on were looked at: here, if the event here is what the command asks for,
/// else before.
pub(crate) fn target_before<H: Hits, L: Ledger>(
    alloc: Global,
    group: &mut Group,
    search: &Search<'_>,
    way: Way,
    hits: &mut H,
    steps: &mut Steps<L>,
) -> Result<Target, NoMemory>
    requires focus { IsFocus group.old.group search.now.focus.inv search.now.focus.tables.now search.now.focus.lines.now }
    requires suits { H.suits hits.old group.old.group.program }
    requires follows { H.follows hits.old group.old.group }
    ensures target { IfOk result (λ target. (from : Undoing) → search.now.position ≡ from.group.position → search.now.depth ≡ depth_in from.group search.now.focus.inv
        → IsLeft (passes_backward (H.hits hits.old) search.now.command search.now.focus.inv from.group) search.now.focus.inv from group.old way
        → IsTarget (H.hits hits.old) search.now.command search.now.focus.inv from.group target) }
    ensures position { OnOk result (group.new.group.position ≡ group.old.group.position) }
    ensures same { group.new.group ≡ group_at group.new.group.position group.old.group }
    ensures limit { group.new.limit ≡ group.old.limit }
    ensures within { group.new.group.position ≤ end_in group.old.group }
    ensures kept { group.new.kept ≤ max group.old.kept (window_in group.new) }
    ensures hits { (g : Held) → H.hits hits.new g ≡ H.hits hits.old g }
    ensures told { (g : Held) → H.told hits.new g ≡ H.told hits.old g }
    ensures suits { (p : Program) → H.suits hits.old p → H.suits hits.new p }
    ensures tests { H.tests hits.new ≡ H.tests hits.old }
    ensures follows { H.follows hits.new group.new.group }
    ensures counted { steps.old ≤ steps.new }
    ensures cost { steps.new ≤ steps.old + again_cost (has_probe (H.tests hits.old)) group.old.group.position }
{
    let position = group.position();
    if position < search.position && holds_next(search.command, &way) {
        return Ok(Target {
            position,
            done: true,
        });
    }
    find_again(alloc, group, search, way, hits, steps)
}
