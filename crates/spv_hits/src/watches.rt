//! The watches whose bits differ between two positions.
ghost use Rattle.std.specs.Prelude.{◌≡◌, ℕ, IfOk, OnOk, Some, false, filter, length, map, not, slice_get, true};
ghost use Rattle.std.specs.List.{list_any};
ghost use Rattle.spv_group.specs.Group.{Held, state_in};
ghost use Rattle.spv_hits.specs.Kept.{AllLie, AreAlike, IsAlike, IsPlaced, LiesAt, differs, typing_in, watched_by};
ghost use Rattle.spv_hits.specs.Watches as spec;
ghost use Rattle.spv_stops.specs.Stops.{number_of};

use crate::bits::Kept;
use crate::places::Place;
use spv_base::{NoMemory, Places};
use spv_dbg::DebugTables;
use spv_expr::Sizes;
use spv_group::Group;
use spv_stops::WatchKey;
use std::alloc::Global;

/// No bits, so many times.
pub(crate) fn nothing(alloc: Global, count: usize) -> Result<Vec<Kept>, NoMemory>
    ensures { IfOk result (λ kept. length kept.items ≡ count) }
{
    let mut kept = Vec::with_capacity(alloc, count)?;
    for _number in 0..count {
        kept.push(Kept::none())?;
    }
    Ok(kept)
}

/// No places, so many times.
pub(crate) fn nowhere(alloc: Global, count: usize) -> Result<Vec<Place>, NoMemory>
    ensures { IfOk result (λ places. length places.items ≡ count) }
{
    let mut places = Vec::with_capacity(alloc, count)?;
    for _number in 0..count {
        places.push(Place::Anywhere)?;
    }
    Ok(places)
}

/// Keeps the bits of each watch at a position.
pub(crate) fn keep(
    alloc: Global,
    tables: &DebugTables,
    watches: &[(u32, WatchKey)],
    group: &Group,
    kept: &mut [Kept],
) -> Result<(), NoMemory>
    requires { length kept.old ≡ length watches.now }
    ensures { OnOk result (kept.new ≡ watched_by tables.now watches.now group.now.group) }
{
    for n in 0..watches.len() {
        kept[n] = Kept::of(alloc, tables, &watches[n].1, group)?;
    }
    Ok(())
}

/// Keeps where the bits of each watch lie.
pub(crate) fn keep_places(
    alloc: Global,
    tables: &DebugTables,
    sizes: &Sizes,
    watches: &[(u32, WatchKey)],
    group: &Group,
    places: &mut [Place],
) -> Result<(), NoMemory>
    requires sizes { sizes.now ≡ typing_in group.now.group.program }
    requires places { length places.old ≡ length watches.now }
    ensures { OnOk result (AllLie tables.now watches.now places.new group.now.group) }
{
    for n in 0..watches.len() {
        places[n] = Place::of(alloc, tables, sizes, &watches[n].1, group)?;
    }
    Ok(())
}

/// Keeps anew where the bits of those watches lie that aren't marked.
pub(crate) fn keep_others(
    alloc: Global,
    tables: &DebugTables,
    sizes: &Sizes,
    watches: &[(u32, WatchKey)],
    group: &Group,
    marks: &[bool],
    places: &mut [Place],
) -> Result<(), NoMemory>
    requires sizes { sizes.now ≡ typing_in group.now.group.program }
    requires places { length places.old ≡ length watches.now }
    requires marks { length marks.now ≡ length watches.now }
    ensures { OnOk result ((n : ℕ) (w : ℕ × WatchKey) (place : Place) → slice_get watches.now n ≡ Some w → slice_get places.new n ≡ Some place
        → IsPlaced tables.now w.1 place group.now.group (slice_get marks.now n) (slice_get places.old n)) }
{
    for n in 0..watches.len() {
        if !marks[n] {
            places[n] = Place::of(alloc, tables, sizes, &watches[n].1, group)?;
        }
    }
    Ok(())
}

/// Whether it is seen at once that the bits of a watch are the same as at a position next to this one: its calls tell the same of it,
/// and the memory is the same, or has the same where the bits lay.
#[inline(always)]
fn is_still(
    tables: &DebugTables,
    sizes: &Sizes,
    key: &WatchKey,
    place: &Place,
    group: &Group,
    memory: bool,
    calls: bool,
) -> bool
    requires { sizes.now ≡ typing_in group.now.group.program }
    ensures marked { result ≡ true → calls ≡ true }
    ensures same { result ≡ true → (o : Held) → LiesAt tables.now key.now place.now o → (memory ≡ true → (state_in o).memory ≡ (state_in group.now.group).memory)
        → (calls ≡ true → IsAlike tables.now key.now (state_in o) (state_in group.now.group)) → spec.watched tables.now key.now o ≡ spec.watched tables.now key.now group.now.group }
{
    calls && (memory || place.is_held(tables, sizes, key, group.world().whole().memory()))
}

/// Whether the bits of a watch differ from those that were kept, unless it is known that they don't.
#[inline(always)]
fn has_changed(
    alloc: Global,
    tables: &DebugTables,
    key: &WatchKey,
    kept: &Kept,
    group: &Group,
    still: bool,
) -> Result<bool, NoMemory>
    ensures { IfOk result (λ changed. (still ≡ true → kept.now ≡ spec.watched tables.now key.now group.now.group)
        → changed ≡ not (spec.same_bits kept.now (spec.watched tables.now key.now group.now.group))) }
{
    if still {
        return Ok(false);
    }
    kept.differ(alloc, tables, key, group)
}

/// Whether the bits of a watch differ from those that were kept of a position next to this one. Of the watches that are marked, since
/// their calls tell the same of them, those stay marked whose bits weren't read, unless one differs.
pub(crate) fn any_changed(
    alloc: Global,
    tables: &DebugTables,
    sizes: &Sizes,
    watches: &[(u32, WatchKey)],
    kept: &[Kept],
    places: &[Place],
    group: &Group,
    memory: bool,
    marks: &mut [bool],
) -> Result<bool, NoMemory>
    requires sizes { sizes.now ≡ typing_in group.now.group.program }
    requires kept { length kept.now ≡ length watches.now }
    requires places { length places.now ≡ length watches.now }
    requires marks { length marks.old ≡ length watches.now }
    ensures marks { (n : ℕ) → slice_get marks.new n ≡ Some true → slice_get marks.old n ≡ Some true }
    ensures changed { IfOk result (λ changed. (o : Held) → kept.now ≡ watched_by tables.now watches.now o → AllLie tables.now watches.now places.now o
        → (memory ≡ true → (state_in o).memory ≡ (state_in group.now.group).memory) → AreAlike tables.now watches.now marks.old (state_in o) (state_in group.now.group)
        → changed ≡ list_any (differs tables.now o group.now.group) watches.now) }
{
    for n in 0..watches.len() {
        let key = &watches[n].1;
        let still = is_still(tables, sizes, key, &places[n], group, memory, marks[n]);
        marks[n] = still;
        if has_changed(alloc, tables, key, &kept[n], group, still)? {
            return Ok(true);
        }
    }
    Ok(false)
}

/// The numbers of the watches whose bits differ from those of another position.
pub(crate) fn changed(
    alloc: Global,
    tables: &DebugTables,
    watches: &[(u32, WatchKey)],
    kept: &[Kept],
    group: &Group,
) -> Result<Places, NoMemory>
    requires { length kept.now ≡ length watches.now }
    ensures { IfOk result (λ numbers. (g : Held) → kept.now ≡ watched_by tables.now watches.now g
        → numbers ≡ map number_of (filter (λ w. not (spec.same_bits (spec.watched tables.now w.1 g) (spec.watched tables.now w.1 group.now.group))) watches.now)) }
{
    let mut numbers = Places::new(alloc);
    for n in 0..watches.len() {
        let watch = &watches[n];
        if kept[n].differ(alloc, tables, &watch.1, group)? {
            numbers.push(watch.0)?;
        }
    }
    Ok(numbers)
}
