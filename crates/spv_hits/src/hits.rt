//! Breaks and watches as searches ask for them.
ghost use Rattle.std.specs.Prelude.{◌≡◌, ◌≢◌, ◌+◌, ◌-◌, ◌<◌, ℕ, [], Some, IfOk, IfSome, IsSome, OnOk, false, if◌then◌else◌, option_map, slice_get, true};
ghost use Rattle.std.specs.List.{list_any};
ghost use Rattle.spv_group.specs.Group.{Held, entries_in, group_at, invocations_in, state_in};
ghost use Rattle.spv_group.specs.Run.{happening_at, happening_before};
ghost use Rattle.spv_hits.specs.Breaks as breaks;
ghost use Rattle.spv_hits.specs.Hits.{hits, has_some};
ghost use Rattle.spv_hits.specs.Kept.{AreAlike, AreStopsOf, IsLeft, IsNoted, IsSame, at_break, differs, typing_in};
ghost use Rattle.spv_hits.specs.Watches.{watch_numbers};
ghost use Rattle.spv_state.specs.State.{top_of};

use crate::bits::Kept;
use crate::heads::{heads_of, is_marked};
use crate::moves::{is_idle, lands};
use crate::places::Place;
use crate::same::Same;
use crate::watches::{any_changed, changed, keep, keep_others, keep_places, nothing, nowhere};
use spv_base::{Happening, NoMemory, Places};
use spv_dbg::DebugTables;
use spv_expr::Sizes;
use spv_group::Group;
use spv_search::Hits;
use spv_stops::{Breaks, Watches};
use spv_valid::Module;
use std::alloc::Global;
use std::marker::Model;

/// The stops of a session in one motion: its breaks and watches, and what was noted of a position.
pub struct StopHits<'a> {
    alloc: Global,
    breaks: &'a Breaks,
    watches: &'a Watches,
    tables: &'a DebugTables,
    sizes: &'a Sizes,
    /// For each word up to the last head, whether it is one of a break.
    heads: Vec<bool>,
    /// Whether the invocation of the event before, by the schedule, stands at a head, where a position was left.
    landed: bool,
    /// The bits of each watch.
    kept: Vec<Kept>,
    /// Where they lie.
    places: Vec<Place>,
    /// What the event did that was looked at last.
    same: Same,
}

impl<'a> Model for StopHits<'a> {
    ghost use Rattle.std.specs.Prelude.{◌≡◌, length};
    ghost use Rattle.spv_hits.specs.Kept.{AreHeads, Stopping};

    ghost Value = { Stopping };

    ghost view = { λ s. record {
      tables = s.tables.now;
      breaks = s.breaks.now;
      watches = s.watches.now;
      sizes = s.sizes.now;
      landed = s.landed;
      bits = s.kept.items;
      places = s.places.items;
      same = s.same;
    } };

    ghost invariant = { λ s. record {
      heads : AreHeads s.breaks.now.0 s.heads.items;
      bits : length s.kept.items ≡ length s.watches.now.0;
      places : length s.places.items ≡ length s.watches.now.0;
      calls : length s.same.calls.items ≡ length s.watches.now.0;
    } };
}

// Written out, so that it is proved once.
impl<'a> Drop for StopHits<'a> {
    fn drop(self) {
        let StopHits {
            alloc: _,
            breaks: _,
            watches: _,
            tables: _,
            sizes: _,
            heads,
            landed: _,
            kept,
            places,
            same,
        } = self;
        drop(heads);
        drop(kept);
        drop(places);
        drop(same);
    }
}

/// The word at which the top frame of an invocation stands.
fn pc_of(group: &Group, inv: u32) -> Option<u32>
    ensures word { result ≡ option_map (λ f. f.pc) (top_of (state_in group.now.group) inv) }
    ensures exists { IsSome result → inv < invocations_in group.now.group }
{
    let whole = group.world().whole();
    if inv < whole.invocations() {
        return whole.stack(inv).pc();
    }
    None
}

impl<'a> StopHits<'a> {
    /// These breaks and watches; nothing is noted.
    pub fn of(
        alloc: Global,
        breaks: &'a Breaks,
        watches: &'a Watches,
        tables: &'a DebugTables,
        sizes: &'a Sizes,
    ) -> Result<StopHits<'a>, NoMemory>
        ensures breaks { IfOk result (λ s. s.breaks ≡ breaks.now) }
        ensures watches { IfOk result (λ s. s.watches ≡ watches.now) }
        ensures tables { IfOk result (λ s. s.tables ≡ tables.now) }
        ensures suits { IfOk result (λ s. s.sizes ≡ sizes.now) }
    {
        let count = watches.list().len();
        Ok(StopHits {
            alloc,
            breaks,
            watches,
            tables,
            sizes,
            heads: heads_of(alloc, breaks.list())?,
            landed: false,
            kept: nothing(alloc, count)?,
            places: nowhere(alloc, count)?,
            same: Same::nothing(alloc, count)?,
        })
    }

    /// Whether nothing is watched.
    #[inline(always)]
    fn watches_nothing(&self) -> bool
        ensures none { result ≡ true → self.now.watches.0 ≡ [] }
        ensures some { result ≡ false → self.now.watches.0 ≢ [] }
    {
        self.watches.list().is_empty()
    }

    /// Whether no break has a head.
    #[inline(always)]
    fn has_no_head(&self) -> bool
        ensures { result ≡ true → (g : Held) (i : ℕ) → has_some (breaks.breaks_under self.now.breaks g i) ≡ false }
    {
        self.heads.as_slice().is_empty()
    }

    /// Whether an invocation stands at a head of a break.
    #[inline(always)]
    fn is_at_head(&self, group: &Group, inv: u32) -> bool
        ensures { result ≡ has_some (breaks.breaks_under self.now.breaks group.now.group inv) }
    {
        if self.has_no_head() {
            return false;
        }
        match pc_of(group, inv) {
            Some(pc) => is_marked(self.heads.as_slice(), pc),
            None => false,
        }
    }

    /// Whether the invocation of the event before, by the schedule, does.
    #[inline(always)]
    fn has_landed(&self, group: &Group, inv: Option<u32>) -> bool
        requires { inv ≡ slice_get (entries_in group.now.group) (group.now.group.position - 1) }
        ensures { result ≡ at_break self.now.breaks group.now.group }
    {
        match inv {
            Some(inv) => self.is_at_head(group, inv),
            None => false,
        }
    }

    /// The numbers of the breaks that hit at a position, ascending, by the event before it.
    pub fn break_numbers(&self, group: &Group, happening: &Happening) -> Result<Places, NoMemory>
        requires { happening_before group.now.group.program (entries_in group.now.group) group.now.group.position ≡ Some happening.now }
        ensures numbers { IfOk result (λ numbers. numbers ≡ breaks.break_numbers self.now.breaks group.now.group) }
        ensures exists { IfOk result (λ numbers. has_some numbers ≡ true → happening.now.inv < invocations_in group.now.group) }
        ensures entry { slice_get (entries_in group.now.group) (group.now.group.position - 1) ≡ Some happening.now.inv }
    {
        if !lands(happening) {
            return Ok(Places::new(self.alloc));
        }
        match pc_of(group, happening.inv) {
            Some(pc) => self.breaks.hit(self.alloc, pc),
            None => Ok(Places::new(self.alloc)),
        }
    }

    /// Whether a break hits at a position, by the event before it.
    #[inline(always)]
    fn breaks_here(&self, group: &Group, happening: &Happening) -> bool
        requires { happening_before group.now.group.program (entries_in group.now.group) group.now.group.position ≡ Some happening.now }
        ensures { result ≡ has_some (breaks.break_numbers self.now.breaks group.now.group) }
    {
        lands(happening) && self.is_at_head(group, happening.inv)
    }

    /// Whether one hits behind an event, where the position there was left.
    #[inline(always)]
    fn breaks_behind(&self, group: &Group, happening: &Happening) -> bool
        requires event { happening_at group.now.group.program (entries_in group.now.group) group.now.group.position ≡ Some happening.now }
        requires landed { self.now.landed ≡ at_break self.now.breaks (group_at (group.now.group.position + 1) group.now.group) }
        ensures { result ≡ has_some (breaks.break_numbers self.now.breaks (group_at (group.now.group.position + 1) group.now.group)) }
    {
        lands(happening) && self.landed
    }

    /// The numbers of the watches that hit at a position, ascending, where that before the event was noted.
    pub fn watch_numbers(&self, group: &Group, happening: &Happening) -> Result<Places, NoMemory>
        requires event { happening_before group.now.group.program (entries_in group.now.group) group.now.group.position ≡ Some happening.now }
        requires noted { IsNoted self.now (group_at (group.now.group.position - 1) group.now.group) }
        ensures { IfOk result (λ numbers. numbers ≡ watch_numbers self.now.tables self.now.watches group.now.group) }
    {
        if is_idle(happening) {
            return Ok(Places::new(self.alloc));
        }
        changed(
            self.alloc,
            self.tables,
            self.watches.list(),
            self.kept.as_slice(),
            group,
        )
    }

    /// Looks at the event before the position, which is one of this invocation.
    #[inline(always)]
    fn look(&mut self, group: &Group, inv: Option<u32>)
        requires some { 0 < group.now.group.position }
        requires entry { IfSome inv (λ i. slice_get (entries_in group.now.group) (group.now.group.position - 1) ≡ Some i) }
        ensures rest { self.new ≡ record self.old { same = self.new.same } }
        ensures same { IsSame self.old.tables self.old.watches.0 self.new.same (state_in (group_at (group.now.group.position - 1) group.now.group)) (state_in group.now.group) }
    {
        self.same.look(self.tables, self.watches.list(), group, inv);
    }

    /// Notes the position.
    fn note_all(&mut self, group: &Group) -> Result<(), NoMemory>
        requires { self.old.sizes ≡ typing_in group.now.group.program }
        ensures stops { AreStopsOf self.old self.new }
        ensures noted { OnOk result (IsNoted self.new group.now.group) }
    {
        let watches = self.watches.list();
        let kept = self.kept.as_mut_slice();
        keep(self.alloc, self.tables, watches, group, kept)?;
        let places = self.places.as_mut_slice();
        keep_places(self.alloc, self.tables, self.sizes, watches, group, places)
    }

    /// Whether a watch's bits differ from those of the position that was noted, where it is known what is the same there.
    fn any_changed(&mut self, group: &Group) -> Result<bool, NoMemory>
        requires { self.old.sizes ≡ typing_in group.now.group.program }
        ensures rest { self.new ≡ record self.old { same = self.new.same } }
        ensures marks { (n : ℕ) → slice_get self.new.same.calls.items n ≡ Some true → slice_get self.old.same.calls.items n ≡ Some true }
        ensures changed { IfOk result (λ changed. (o : Held) → IsNoted self.old o → (self.old.same.memory ≡ true → (state_in o).memory ≡ (state_in group.now.group).memory)
            → AreAlike self.old.tables self.old.watches.0 self.old.same.calls.items (state_in o) (state_in group.now.group) → changed ≡ list_any (differs self.old.tables o group.now.group) self.old.watches.0) }
    {
        any_changed(
            self.alloc,
            self.tables,
            self.sizes,
            self.watches.list(),
            self.kept.as_slice(),
            self.places.as_slice(),
            group,
            self.same.memory,
            self.same.calls.as_mut_slice(),
        )
    }

    /// Notes where the bits of watches lie that were read again; none of them differ.
    fn note_places(&mut self, group: &Group) -> Result<(), NoMemory>
        requires { self.old.sizes ≡ typing_in group.now.group.program }
        ensures stops { AreStopsOf self.old self.new }
        ensures noted { OnOk result ((o : Held) → IsNoted self.old o → AreAlike self.old.tables self.old.watches.0 self.old.same.calls.items (state_in o) (state_in group.now.group)
            → list_any (differs self.old.tables o group.now.group) self.old.watches.0 ≡ false → IsNoted self.new group.now.group) }
    {
        keep_others(
            self.alloc,
            self.tables,
            self.sizes,
            self.watches.list(),
            group,
            self.same.calls.as_slice(),
            self.places.as_mut_slice(),
        )
    }

    /// Whether a watch's bits differ from those of the position that was noted, which is next to this one, where it isn't known that all is
    /// the same there. If none does, this one is noted then. Apart, since most events leave all as it was.
    #[inline(never)]
    fn reading_hits(&mut self, group: &Group) -> Result<bool, NoMemory>
        requires sizes { self.old.sizes ≡ typing_in group.now.group.program }
        requires some { self.old.same.all ≡ false }
        ensures stops { AreStopsOf self.old self.new }
        ensures hit { IfOk result (λ hit. (o : Held) → IsNoted self.old o → IsSame self.old.tables self.old.watches.0 self.old.same (state_in o) (state_in group.now.group)
            → hit ≡ list_any (differs self.old.tables o group.now.group) self.old.watches.0) }
        ensures noted { IfOk result (λ hit. (o : Held) → IsNoted self.old o → IsSame self.old.tables self.old.watches.0 self.old.same (state_in o) (state_in group.now.group)
            → IsNoted self.new (if hit then o else group.now.group)) }
    {
        if self.any_changed(group)? {
            return Ok(true);
        }
        self.note_places(group)?;
        Ok(false)
    }

    /// The same, where it is known what is the same there.
    #[inline(always)]
    fn watch_hits(&mut self, group: &Group) -> Result<bool, NoMemory>
        requires { self.old.sizes ≡ typing_in group.now.group.program }
        ensures stops { AreStopsOf self.old self.new }
        ensures hit { IfOk result (λ hit. (o : Held) → IsNoted self.old o → IsSame self.old.tables self.old.watches.0 self.old.same (state_in o) (state_in group.now.group)
            → hit ≡ list_any (differs self.old.tables o group.now.group) self.old.watches.0) }
        ensures noted { IfOk result (λ hit. (o : Held) → IsNoted self.old o → IsSame self.old.tables self.old.watches.0 self.old.same (state_in o) (state_in group.now.group)
            → IsNoted self.new (if hit then o else group.now.group)) }
    {
        if self.same.all {
            return Ok(false);
        }
        self.reading_hits(group)
    }
}

impl<'a> Hits for StopHits<'a> {
    ghost hits = { λ s g. hits s.tables s.breaks s.watches g };

    ghost told = { λ s g. (breaks.break_numbers s.breaks g, watch_numbers s.tables s.watches g, []) };

    ghost suits = { λ s p. s.sizes ≡ typing_in p };

    ghost noted = { λ s g. IsNoted s g };

    ghost left = { λ s g. IsLeft s g };

    ghost tests = { λ s. [] };

    ghost follows = { λ s g. Unit {0} };

    fn listens(&self) -> bool {
        false
    }

    fn forth(&mut self, _module: &Module, _happening: &Happening) {}

    fn back(&mut self, _module: &Module, _happening: &Happening) {}

    fn note(&mut self, group: &Group) -> Result<(), NoMemory> {
        self.note_all(group)
    }

    fn hits_here(&mut self, group: &Group, happening: &Happening) -> Result<bool, NoMemory> {
        if self.breaks_here(group, happening) {
            return Ok(true);
        }
        if self.watches_nothing() {
            return Ok(false);
        }
        if is_idle(happening) {
            return Ok(false);
        }
        self.look(group, Some(happening.inv));
        self.watch_hits(group)
    }

    fn leave(&mut self, group: &Group) -> Result<(), NoMemory> {
        let nothing = self.watches_nothing();
        if nothing && self.has_no_head() {
            self.landed = false;
            return Ok(());
        }
        let inv = group.schedule().at(group.position().saturating_sub(1));
        self.landed = self.has_landed(group, inv);
        if !nothing {
            self.look(group, inv);
        }
        Ok(())
    }

    fn hits_behind(&mut self, group: &Group, happening: &Happening) -> Result<bool, NoMemory> {
        if self.breaks_behind(group, happening) {
            return Ok(true);
        }
        if self.watches_nothing() {
            return Ok(false);
        }
        if is_idle(happening) {
            return Ok(false);
        }
        self.watch_hits(group)
    }
}
