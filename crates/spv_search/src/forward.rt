//! Searches forward.
ghost use Rattle.std.specs.Prelude.{◌≡◌, ◌≤◌, ◌+◌, ◌-◌, ◌||◌, ℕ, Some, IfOk, OnOk, if◌then◌else◌, max};
ghost use Rattle.spv_group.specs.Group.{Held, end_in, entries_in, group_at, window_in};
ghost use Rattle.spv_group.specs.Run.{happening_before};
ghost use Rattle.spv_search.specs.Costs.{forward_cost};
ghost use Rattle.spv_search.specs.Keys.{IsFocus, key_in, named_key};
ghost use Rattle.spv_search.specs.Motion.{IsForth};
ghost use Rattle.spv_search.specs.Moves.{moves_between};
ghost use Rattle.spv_search.specs.Own.{own_forward};
ghost use Rattle.spv_search.specs.Stops.{IsLooked, IsTold, done_forward};
ghost use Rattle.spv_search.specs.Targets.{forward_target};
ghost use Rattle.spv_state.specs.Program.{Program};

use crate::commands::{Forward, Stopped};
use crate::focus::{Focus, Key};
use crate::hits::{Hits, Looked};
use crate::moves::{counted, moves};
use crate::own::holds_forward;
use spv_base::{Happening, NoMemory, Steps};
use spv_group::{Forth, Group};
use std::sync::ledger::Ledger;

/// Makes the next event, and tells the probes of it; there is none at the end.
pub fn go_on<H: Hits, L: Ledger>(
    group: &mut Group,
    hits: &mut H,
    steps: &mut Steps<L>,
) -> Result<Option<Happening>, NoMemory>
    requires suits { H.suits hits.old group.old.group.program }
    requires follows { H.follows hits.old group.old.group }
    ensures goes { IsForth result group.old group.new }
    ensures most { group.old.group.position ≤ 4194304 }
    ensures hits { (g : Held) → H.hits hits.new g ≡ H.hits hits.old g }
    ensures told { (g : Held) → H.told hits.new g ≡ H.told hits.old g }
    ensures suits { (p : Program) → H.suits hits.old p → H.suits hits.new p }
    ensures tests { H.tests hits.new ≡ H.tests hits.old }
    ensures noted { (g : Held) → H.noted hits.old g → H.noted hits.new g }
    ensures follows { H.follows hits.new group.new.group }
    ensures counted { steps.old + (group.new.group.position - group.old.group.position) ≤ steps.new }
    ensures cost { steps.new ≤ steps.old + 1 }
{
    let _position = group.position();
    match group.forth(steps)? {
        Forth::Went(happening) => {
            hits.forth(group.module().accepted(), &happening);
            Ok(Some(happening))
        }
        Forth::AtEnd(_) => Ok(None),
    }
}

/// Whether the position behind this event, the group's, passes, where so many events moved the invocation since the position searched from
/// and the position before the event was noted. Where it doesn't pass, it is noted then.
fn look_here<H: Hits>(
    group: &Group,
    focus: &Focus<'_>,
    command: Forward,
    from: &Key,
    count: u64,
    hits: &mut H,
    happening: &Happening,
) -> Result<Looked, NoMemory>
    requires focus { IsFocus group.now.group focus.now.inv focus.now.tables.now focus.now.lines.now }
    requires suits { H.suits hits.old group.now.group.program }
    requires follows { H.follows hits.old group.now.group }
    requires event { happening_before group.now.group.program (entries_in group.now.group) group.now.group.position ≡ Some happening.now }
    requires noted { H.noted hits.old (group_at (group.now.group.position - 1) group.now.group) }
    ensures looked { IfOk result (λ looked. (g : Held) → named_key focus.now.tables.now from.now ≡ key_in g focus.now.inv
        → count ≡ moves_between g focus.now.inv g.position group.now.group.position
        → IsLooked (H.hits hits.old group.now.group) (own_forward command focus.now.inv g group.now.group) looked) }
    ensures noted { IfOk result (λ looked. H.noted hits.new (if looked.passes then group_at (group.now.group.position - 1) group.now.group else group.now.group)) }
    ensures hits { (g : Held) → H.hits hits.new g ≡ H.hits hits.old g }
    ensures told { (g : Held) → H.told hits.new g ≡ H.told hits.old g }
    ensures suits { (p : Program) → H.suits hits.old p → H.suits hits.new p }
    ensures tests { H.tests hits.new ≡ H.tests hits.old }
    ensures follows { H.follows hits.new group.now.group }
{
    let done = holds_forward(command, focus, group, from, count, happening)?;
    let passes = done || hits.hits_here(group, happening)?;
    Ok(Looked { passes, done })
}

/// Goes to the next position where something hits or what the command asks for holds, or to the end where there is none. It takes a step
/// for each event, and one more at most. After want of memory the group is at some position on the way.
pub fn search_forward<H: Hits, L: Ledger>(
    group: &mut Group,
    focus: &Focus<'_>,
    command: Forward,
    hits: &mut H,
    steps: &mut Steps<L>,
) -> Result<Stopped, NoMemory>
    requires focus { IsFocus group.old.group focus.now.inv focus.now.tables.now focus.now.lines.now }
    requires suits { H.suits hits.old group.old.group.program }
    requires follows { H.follows hits.old group.old.group }
    ensures target { OnOk result (group.new.group.position ≡ forward_target (H.hits hits.old) command focus.now.inv group.old.group) }
    ensures done { IfOk result (λ stopped. stopped.done ≡ done_forward command focus.now.inv group.old.group group.new.group) }
    ensures event { IfOk result (λ stopped. IsTold (H.noted hits.new) (H.hits hits.old) group.old.group group.new.group stopped.event) }
    ensures same { group.new.group ≡ group_at group.new.group.position group.old.group }
    ensures limit { group.new.limit ≡ group.old.limit }
    ensures within { group.new.group.position ≤ end_in group.old.group }
    ensures kept { group.new.kept ≤ max group.old.kept (window_in group.new) }
    ensures counted { steps.old ≤ steps.new }
    ensures cost { steps.new ≤ steps.old + forward_cost group.old.group.position (forward_target (H.hits hits.old) command focus.now.inv group.old.group) }
    ensures hits { (g : Held) → H.hits hits.new g ≡ H.hits hits.old g }
    ensures told { (g : Held) → H.told hits.new g ≡ H.told hits.old g }
    ensures suits { (p : Program) → H.suits hits.old p → H.suits hits.new p }
    ensures tests { H.tests hits.new ≡ H.tests hits.old }
    ensures follows { H.follows hits.new group.new.group }
{
    let _position = group.position();
    let from = focus.key(group)?;
    hits.note(group)?;
    let mut count = 0u64;
    'up: while let Some(happening) = go_on(group, hits, steps)? {
        count = counted(count, moves(focus.inv, &happening));
        let looked = look_here(group, focus, command, &from, count, hits, &happening)?;
        if looked.passes {
            let event = Some(happening);
            let done = looked.done;
            return Ok(Stopped { done, event });
        }
    }
    Ok(Stopped {
        done: false,
        event: None,
    })
}
