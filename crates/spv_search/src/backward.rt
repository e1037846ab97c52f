//! Searches back, where the events are kept.
ghost use Rattle.std.specs.Prelude.{◌≡◌, ◌<◌, ◌≤◌, ◌+◌, ◌-◌, ℕ, Some, OnOk, IfOk, IfErr, MatchOption, IsNone, max, ◌⊎◌};
ghost use Rattle.spv_group.specs.Group.{Held, end_in, entries_in, group_at, window_in};
ghost use Rattle.spv_group.specs.Run.{happening_at};
ghost use Rattle.spv_search.specs.Costs.{backward_cost};
ghost use Rattle.spv_search.specs.Keys.{IsFocus, depth_in};
ghost use Rattle.spv_search.specs.Motion.{HasGone, HasReturned};
ghost use Rattle.spv_search.specs.Sights.{IsLeft, IsNoted, IsWay};
ghost use Rattle.spv_search.specs.Own.{own_backward};
ghost use Rattle.spv_search.specs.Stops.{IsLooked, IsStop, IsTold, done_backward};
ghost use Rattle.spv_search.specs.Targets.{backward_target, passes_backward};
ghost use Rattle.spv_search.specs.Told.{has_probe};
ghost use Rattle.spv_state.specs.Program.{Program};

use crate::again::target_before;
use crate::commands::{Backward, Stopped};
use crate::focus::{Focus, Key};
use crate::hits::{Hits, Looked, passes_behind};
use crate::lead::lead_to;
use crate::moves::{counted, moves};
use crate::own::{holds_behind, holds_next, noted};
use spv_base::{Happening, NoMemory, Steps};
use spv_group::{Back, Forth, Group};
use std::alloc::Global;
use std::sync::ledger::Ledger;

/// The events between a position and the one searched from: how many move the invocation, and whether the first does.
#[derive(Clone, Copy)]
pub struct Way {
    pub count: u64,
    pub next: bool,
}

/// Makes the next event, which no end keeps from happening, with one step, and tells the probes of it.
pub(crate) fn make<H: Hits, L: Ledger>(
    group: &mut Group,
    hits: &mut H,
    steps: &mut Steps<L>,
) -> Result<Happening, NoMemory>
    requires before { group.old.group.position < end_in group.old.group }
    requires suits { H.suits hits.old group.old.group.program }
    requires follows { H.follows hits.old group.old.group }
    ensures gone { IfOk result (λ h. HasGone h group.old group.new) }
    ensures err { IfErr result (λ e. group.new ≡ group.old) }
    ensures hits { (g : Held) → H.hits hits.new g ≡ H.hits hits.old g }
    ensures told { (g : Held) → H.told hits.new g ≡ H.told hits.old g }
    ensures suits { (p : Program) → H.suits hits.old p → H.suits hits.new p }
    ensures tests { H.tests hits.new ≡ H.tests hits.old }
    ensures noted { (g : Held) → H.noted hits.old g → H.noted hits.new g }
    ensures follows { H.follows hits.new group.new.group }
    ensures cost { steps.new ≡ steps.old + 1 }
{
    let _position = group.position();
    match group.forth(steps)? {
        Forth::Went(happening) => {
            hits.forth(group.module().accepted(), &happening);
            Ok(happening)
        }
        Forth::AtEnd(_) => unreachable!(),
    }
}

/// Takes back the last event, which is kept, with no step, and tells the probes of it.
pub(crate) fn undo<H: Hits, L: Ledger>(
    group: &mut Group,
    hits: &mut H,
    steps: &mut Steps<L>,
) -> Result<Happening, NoMemory>
    requires kept { group.old.kept < group.old.group.position }
    requires suits { H.suits hits.old group.old.group.program }
    requires follows { H.follows hits.old group.old.group }
    ensures returned { IfOk result (λ h. HasReturned h group.old group.new) }
    ensures err { IfErr result (λ e. group.new ≡ group.old) }
    ensures hits { (g : Held) → H.hits hits.new g ≡ H.hits hits.old g }
    ensures told { (g : Held) → H.told hits.new g ≡ H.told hits.old g }
    ensures suits { (p : Program) → H.suits hits.old p → H.suits hits.new p }
    ensures tests { H.tests hits.new ≡ H.tests hits.old }
    ensures left { (g : Held) → H.left hits.old g → H.left hits.new g }
    ensures follows { H.follows hits.new group.new.group }
    ensures cost { steps.new ≡ steps.old }
{
    let _position = group.position();
    match group.back(steps)? {
        Back::Went(happening) => {
            hits.back(group.module().accepted(), &happening);
            Ok(happening)
        }
        Back::AtStart => unreachable!(),
    }
}

/// What a search back looks for, and where it began.
#[derive(Clone, Copy)]
pub struct Search<'a> {
    pub command: Backward,
    pub focus: Focus<'a>,
    /// The position where the search began.
    pub position: u64,
    /// How many frames are shown of the invocation where the search began.
    pub depth: u64,
}

/// Whether the position behind this event passes, where what was noted there is told, and it was left. This position is noted then.
fn look_behind<H: Hits>(
    group: &Group,
    search: &Search<'_>,
    way: &Way,
    noted: Option<Key>,
    hits: &mut H,
    happening: &Happening,
) -> Result<Looked, NoMemory>
    requires focus { IsFocus group.now.group search.now.focus.inv search.now.focus.tables.now search.now.focus.lines.now }
    requires suits { H.suits hits.old group.now.group.program }
    requires follows { H.follows hits.old group.now.group }
    requires event { happening_at group.now.group.program (entries_in group.now.group) group.now.group.position ≡ Some happening.now }
    requires left { H.left hits.old (group_at (group.now.group.position + 1) group.now.group) }
    ensures looked { IfOk result (λ looked. (p : ℕ)
        → IsNoted search.now.focus.tables.now search.now.command search.now.focus.inv (group_at p group.now.group) (group_at (group.now.group.position + 1) group.now.group) noted
        → IsWay search.now.focus.inv p (group_at (group.now.group.position + 1) group.now.group) way.now → group.now.group.position + 1 < p
        → IsLooked (H.hits hits.old (group_at (group.now.group.position + 1) group.now.group)) (own_backward search.now.command search.now.focus.inv (group_at p group.now.group) (group_at (group.now.group.position + 1) group.now.group)) looked) }
    ensures noted { OnOk result (H.noted hits.new group.now.group) }
    ensures hits { (g : Held) → H.hits hits.new g ≡ H.hits hits.old g }
    ensures told { (g : Held) → H.told hits.new g ≡ H.told hits.old g }
    ensures suits { (p : Program) → H.suits hits.old p → H.suits hits.new p }
    ensures tests { H.tests hits.new ≡ H.tests hits.old }
    ensures follows { H.follows hits.new group.now.group }
{
    let done = holds_next(search.command, way)
        || holds_behind(search.command, &search.focus, group, noted, happening)?;
    let passes = passes_behind(hits, group, done, happening)?;
    Ok(Looked { passes, done })
}

/// Takes back the last event, which is kept. Whether the position that is left passes, which was noted. The one before it is noted then.
fn take_back<H: Hits, L: Ledger>(
    group: &mut Group,
    search: &Search<'_>,
    way: &mut Way,
    hits: &mut H,
    steps: &mut Steps<L>,
) -> Result<Looked, NoMemory>
    requires focus { IsFocus group.old.group search.now.focus.inv search.now.focus.tables.now search.now.focus.lines.now }
    requires suits { H.suits hits.old group.old.group.program }
    requires follows { H.follows hits.old group.old.group }
    requires noted { H.noted hits.old group.old.group }
    requires kept { group.old.kept < group.old.group.position }
    requires few { way.old.count + group.old.group.position ≤ 4194304 }
    ensures same { group.new.group ≡ group_at group.new.group.position group.old.group }
    ensures limit { group.new.limit ≡ group.old.limit }
    ensures kept { group.new.kept ≡ group.old.kept }
    ensures earlier { (group.new.group.position ≡ group.old.group.position) ⊎ (group.old.group.position ≡ group.new.group.position + 1) }
    ensures position { OnOk result (group.old.group.position ≡ group.new.group.position + 1) }
    ensures looked { IfOk result (λ looked. (p : ℕ) → search.now.depth ≡ depth_in (group_at p group.old.group) search.now.focus.inv
        → IsWay search.now.focus.inv p group.old.group way.old → group.old.group.position < p
        → IsLooked (H.hits hits.old group.old.group) (own_backward search.now.command search.now.focus.inv (group_at p group.old.group) group.old.group) looked) }
    ensures way { OnOk result ((p : ℕ) → IsWay search.now.focus.inv p group.old.group way.old → group.old.group.position ≤ p → IsWay search.now.focus.inv p group.new.group way.new) }
    ensures few { OnOk result (way.new.count + group.new.group.position ≤ 4194304) }
    ensures noted { OnOk result (H.noted hits.new group.new.group) }
    ensures hits { (g : Held) → H.hits hits.new g ≡ H.hits hits.old g }
    ensures told { (g : Held) → H.told hits.new g ≡ H.told hits.old g }
    ensures suits { (p : Program) → H.suits hits.old p → H.suits hits.new p }
    ensures tests { H.tests hits.new ≡ H.tests hits.old }
    ensures follows { H.follows hits.new group.new.group }
    ensures cost { steps.new ≡ steps.old }
{
    let here = noted(search.command, &search.focus, group, search.depth)?;
    hits.leave(group)?;
    let happening = undo(group, hits, steps)?;
    let looked = look_behind(group, search, way, here, hits, &happening)?;
    let moved = moves(search.focus.inv, &happening);
    *way = Way {
        count: counted(way.count, moved),
        next: moved,
    };
    Ok(looked)
}

/// Takes events back while they are kept, up to the position that is searched for; none where it wasn't reached, and none that was left
/// passes.
fn search_kept<H: Hits, L: Ledger>(
    group: &mut Group,
    search: &Search<'_>,
    way: &mut Way,
    hits: &mut H,
    steps: &mut Steps<L>,
) -> Result<Option<Stopped>, NoMemory>
    requires focus { IsFocus group.old.group search.now.focus.inv search.now.focus.tables.now search.now.focus.lines.now }
    requires suits { H.suits hits.old group.old.group.program }
    requires follows { H.follows hits.old group.old.group }
    requires depth { search.now.depth ≡ depth_in group.old.group search.now.focus.inv }
    requires begun { way.old.count ≡ 0 }
    ensures stops { IfOk result (λ found. MatchOption found
        (IsLeft (passes_backward (H.hits hits.old) search.now.command search.now.focus.inv group.old.group) search.now.focus.inv group.old group.new way.new)
        (λ stopped. IsStop (H.noted hits.new) (H.hits hits.old) search.now.command search.now.focus.inv group.old.group group.new.group stopped)) }
    ensures same { group.new.group ≡ group_at group.new.group.position group.old.group }
    ensures limit { group.new.limit ≡ group.old.limit }
    ensures within { group.new.group.position ≤ end_in group.old.group }
    ensures kept { group.new.kept ≤ max group.old.kept (window_in group.new) }
    ensures hits { (g : Held) → H.hits hits.new g ≡ H.hits hits.old g }
    ensures told { (g : Held) → H.told hits.new g ≡ H.told hits.old g }
    ensures suits { (p : Program) → H.suits hits.old p → H.suits hits.new p }
    ensures tests { H.tests hits.new ≡ H.tests hits.old }
    ensures follows { H.follows hits.new group.new.group }
    ensures counted { steps.old ≤ steps.new }
    ensures cost { steps.new ≤ steps.old + 1 }
    ensures none { IfOk result (λ found. IsNone found → steps.new ≡ steps.old) }
{
    let from = group.position();
    hits.note(group)?;
    'down: while group.first_kept() < group.position() {
        let left = group.position();
        let looked = take_back(group, search, way, hits, steps)?;
        if looked.passes && left < from {
            let event = Some(make(group, hits, steps)?);
            let done = looked.done;
            return Ok(Some(Stopped { done, event }));
        }
    }
    if group.position() > 0 {
        return Ok(None);
    }
    let done = 0 < from && holds_next(search.command, way);
    Ok(Some(Stopped { done, event: None }))
}

/// Goes back to the last position before this one where something hits or what the command asks for holds, or to the start where there is
/// none. Where all events that are looked at are kept, it takes a step at most. Else it takes two for each event before the least position
/// that is kept, at most: they are made from the start on, once to find the position, and once to go there; and once more where a probe is
/// told of them. After want of memory the group is at some position of its run. The probes follow it.
pub fn search_backward<H: Hits, L: Ledger>(
    alloc: Global,
    group: &mut Group,
    focus: &Focus<'_>,
    command: Backward,
    hits: &mut H,
    steps: &mut Steps<L>,
) -> Result<Stopped, NoMemory>
    requires focus { IsFocus group.old.group focus.now.inv focus.now.tables.now focus.now.lines.now }
    requires suits { H.suits hits.old group.old.group.program }
    requires follows { H.follows hits.old group.old.group }
    ensures target { OnOk result (group.new.group.position ≡ backward_target (H.hits hits.old) command focus.now.inv group.old.group) }
    ensures done { IfOk result (λ stopped. stopped.done ≡ done_backward command focus.now.inv group.old.group group.new.group) }
    ensures event { IfOk result (λ stopped. IsTold (H.noted hits.new) (H.hits hits.old) group.old.group group.new.group stopped.event) }
    ensures same { group.new.group ≡ group_at group.new.group.position group.old.group }
    ensures limit { group.new.limit ≡ group.old.limit }
    ensures within { group.new.group.position ≤ end_in group.old.group }
    ensures kept { group.new.kept ≤ max group.old.kept (window_in group.new) }
    ensures counted { steps.old ≤ steps.new }
    ensures cost { steps.new ≤ steps.old + backward_cost (has_probe (H.tests hits.old)) group.old.kept (backward_target (H.hits hits.old) command focus.now.inv group.old.group) }
    ensures hits { (g : Held) → H.hits hits.new g ≡ H.hits hits.old g }
    ensures told { (g : Held) → H.told hits.new g ≡ H.told hits.old g }
    ensures suits { (p : Program) → H.suits hits.old p → H.suits hits.new p }
    ensures tests { H.tests hits.new ≡ H.tests hits.old }
    ensures follows { H.follows hits.new group.new.group }
{
    let search = Search {
        command,
        focus: *focus,
        position: group.position(),
        depth: focus.depth(group)?,
    };
    let mut way = Way {
        count: 0,
        next: false,
    };
    if let Some(stopped) = search_kept(group, &search, &mut way, hits, steps)? {
        return Ok(stopped);
    }
    let target = target_before(alloc, group, &search, way, hits, steps)?;
    let event = lead_to(alloc, group, target.position, hits, steps)?;
    let done = target.done;
    Ok(Stopped { done, event })
}
