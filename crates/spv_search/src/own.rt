//! What commands ask for, at a position that an event leads to or from.
ghost use Rattle.std.specs.Prelude.{◌≡◌, ◌<◌, ◌-◌, ◌+◌, ℕ, Some, IfOk};
ghost use Rattle.spv_group.specs.Group.{Held, entries_in, group_at};
ghost use Rattle.spv_group.specs.Run.{happening_at, happening_before};
ghost use Rattle.spv_search.specs.Keys.{IsFocus, depth_in, key_in, named_key};
ghost use Rattle.spv_search.specs.Moves.{moves_between};
ghost use Rattle.spv_search.specs.Own as spec;
ghost use Rattle.spv_search.specs.Sights as sights;
ghost use Rattle.spv_search.specs.Sights.{IsNoted, IsPlace, IsSeen, IsStep, IsWay};

use crate::backward::Way;
use crate::commands::{Backward, Forward};
use crate::focus::{Focus, Key, is_entry, same_key};
use crate::moves::{lands, moves};
use spv_base::{Happening, NoMemory};
use spv_group::Group;

/// Where the invocation stands, if an event landed it at a line that isn't the one searched from, or finished it.
fn step_to(
    focus: &Focus<'_>,
    group: &Group,
    from: &Key,
    happening: &Happening,
) -> Result<Option<Key>, NoMemory>
    requires focus { IsFocus group.now.group focus.now.inv focus.now.tables.now focus.now.lines.now }
    requires event { happening_before group.now.group.program (entries_in group.now.group) group.now.group.position ≡ Some happening.now }
    ensures { IfOk result (λ place. (g : Held) → named_key focus.now.tables.now from.now ≡ key_in g focus.now.inv → IsStep focus.now.tables.now focus.now.inv g group.now.group place) }
{
    if !lands(focus.inv, happening) {
        return Ok(None);
    }
    let finished = focus.has_finished(group);
    if !finished && !focus.at_head(group) {
        return Ok(None);
    }
    let at = focus.key(group)?;
    if finished || !same_key(focus.tables, &at, from) {
        return Ok(Some(at));
    }
    Ok(None)
}

/// Whether what a command asks for holds here, behind this event, where so many moved the invocation since the position searched from.
pub(crate) fn holds_forward(
    command: Forward,
    focus: &Focus<'_>,
    group: &Group,
    from: &Key,
    count: u64,
    happening: &Happening,
) -> Result<bool, NoMemory>
    requires focus { IsFocus group.now.group focus.now.inv focus.now.tables.now focus.now.lines.now }
    requires event { happening_before group.now.group.program (entries_in group.now.group) group.now.group.position ≡ Some happening.now }
    ensures { IfOk result (λ holds. (g : Held) → named_key focus.now.tables.now from.now ≡ key_in g focus.now.inv
        → count ≡ moves_between g focus.now.inv g.position group.now.group.position → holds ≡ spec.own_forward command focus.now.inv g group.now.group) }
{
    match command {
        Forward::Stepi(number) => Ok(moves(focus.inv, happening) && count == u64::from(number)),
        Forward::Step => match step_to(focus, group, from, happening)? {
            Some(_) => Ok(true),
            None => Ok(false),
        },
        Forward::Next => match step_to(focus, group, from, happening)? {
            Some(at) => Ok(at.depth <= from.depth),
            None => Ok(false),
        },
        Forward::Finish => Ok(moves(focus.inv, happening) && focus.depth(group)? < from.depth),
        Forward::Continue => Ok(false),
    }
}

/// Whether a command compares where the invocation stands with where it stood before the event.
fn compares(command: Backward) -> bool
    ensures { result ≡ sights.compares command }
{
    matches!(command, Backward::Rstep | Backward::Rnext)
}

/// Whether an event does to the invocation what a command asks for of the event before a position.
fn is_such(command: Backward, inv: u32, happening: &Happening) -> bool
    ensures { result ≡ sights.is_such command inv happening.now }
{
    match command {
        Backward::Rstepi(_) | Backward::Rcontinue => false,
        Backward::Rstep | Backward::Rnext => lands(inv, happening),
        Backward::Rfinish => moves(inv, happening),
    }
}

/// Whether so many frames are shown of it as a command asks for.
fn fits(command: Backward, from: u64, depth: u64) -> bool
    ensures { result ≡ sights.fits command from depth }
{
    match command {
        Backward::Rstepi(_) | Backward::Rcontinue => false,
        Backward::Rstep => true,
        Backward::Rnext => depth <= from,
        Backward::Rfinish => depth < from,
    }
}

/// Where the invocation stands, if it stands as a command asks for behind the event before a position.
fn place_for(
    command: Backward,
    focus: &Focus<'_>,
    group: &Group,
    from: u64,
) -> Result<Option<Key>, NoMemory>
    requires { IsFocus group.now.group focus.now.inv focus.now.tables.now focus.now.lines.now }
    ensures { IfOk result (λ place. (p : Held) → from ≡ depth_in p focus.now.inv → IsPlace focus.now.tables.now command focus.now.inv p group.now.group place) }
{
    if compares(command) && !focus.at_head(group) {
        return Ok(None);
    }
    let key = focus.key(group)?;
    if fits(command, from, key.depth) {
        return Ok(Some(key));
    }
    Ok(None)
}

/// Whether a command asks for something of the event before a position.
fn asks_before(command: Backward) -> bool
    ensures { result ≡ sights.asks_before command }
{
    !matches!(command, Backward::Rstepi(_) | Backward::Rcontinue)
}

/// What is noted of a position before the event before it is taken back. Nothing is read of the invocation where that event is one of
/// another by the schedule, or the command asks for nothing of it.
pub(crate) fn noted(
    command: Backward,
    focus: &Focus<'_>,
    group: &Group,
    from: u64,
) -> Result<Option<Key>, NoMemory>
    requires focus { IsFocus group.now.group focus.now.inv focus.now.tables.now focus.now.lines.now }
    requires some { 0 < group.now.group.position }
    ensures { IfOk result (λ key. (p : Held) → from ≡ depth_in p focus.now.inv → IsNoted focus.now.tables.now command focus.now.inv p group.now.group key) }
{
    if !asks_before(command) || !is_entry(group, focus.inv, group.position() - 1) {
        return Ok(None);
    }
    place_for(command, focus, group, from)
}

/// Whether what a command asks for of the event before a position holds at the position behind this one, where what was noted there is told.
pub(crate) fn holds_behind(
    command: Backward,
    focus: &Focus<'_>,
    group: &Group,
    noted: Option<Key>,
    happening: &Happening,
) -> Result<bool, NoMemory>
    requires focus { IsFocus group.now.group focus.now.inv focus.now.tables.now focus.now.lines.now }
    requires event { happening_at group.now.group.program (entries_in group.now.group) group.now.group.position ≡ Some happening.now }
    ensures { IfOk result (λ holds. (p : Held) → IsNoted focus.now.tables.now command focus.now.inv p (group_at (group.now.group.position + 1) group.now.group) noted
        → holds ≡ spec.own_before command focus.now.inv p (group_at (group.now.group.position + 1) group.now.group)) }
{
    let Some(at) = noted else {
        return Ok(false);
    };
    if !is_such(command, focus.inv, happening) {
        return Ok(false);
    }
    if !compares(command) {
        return Ok(true);
    }
    Ok(!same_key(focus.tables, &at, &focus.key(group)?))
}

/// What is seen of a position before the event at it is made, if a command compares with that and the event is one of the invocation.
pub(crate) fn seen(
    command: Backward,
    focus: &Focus<'_>,
    group: &Group,
) -> Result<Option<Key>, NoMemory>
    requires { IsFocus group.now.group focus.now.inv focus.now.tables.now focus.now.lines.now }
    ensures { IfOk result (λ key. IsSeen focus.now.tables.now command focus.now.inv group.now.group key) }
{
    if !compares(command) || !is_entry(group, focus.inv, group.position()) {
        return Ok(None);
    }
    Ok(Some(focus.key(group)?))
}

/// Whether what a command asks for of the event before a position holds here, behind this event, where what was seen before it is told.
pub(crate) fn holds_here(
    command: Backward,
    focus: &Focus<'_>,
    group: &Group,
    from: u64,
    seen: Option<Key>,
    happening: &Happening,
) -> Result<bool, NoMemory>
    requires focus { IsFocus group.now.group focus.now.inv focus.now.tables.now focus.now.lines.now }
    requires event { happening_before group.now.group.program (entries_in group.now.group) group.now.group.position ≡ Some happening.now }
    requires seen { IsSeen focus.now.tables.now command focus.now.inv (group_at (group.now.group.position - 1) group.now.group) seen }
    ensures { IfOk result (λ holds. (p : Held) → from ≡ depth_in p focus.now.inv → holds ≡ spec.own_before command focus.now.inv p group.now.group) }
{
    if !is_such(command, focus.inv, happening) {
        return Ok(false);
    }
    let Some(at) = place_for(command, focus, group, from)? else {
        return Ok(false);
    };
    if !compares(command) {
        return Ok(true);
    }
    match seen {
        Some(before) => Ok(!same_key(focus.tables, &at, &before)),
        None => Ok(false),
    }
}

/// Whether what a command asks for of the next event holds, where so many move the invocation from here on.
pub(crate) fn holds_next(command: Backward, way: &Way) -> bool
    ensures { (i p : ℕ) (g : Held) → IsWay i p g way.now → g.position < p → result ≡ spec.own_next command i (group_at p g) g }
{
    match command {
        Backward::Rstepi(number) => way.next && way.count == u64::from(number),
        _ => false,
    }
}
