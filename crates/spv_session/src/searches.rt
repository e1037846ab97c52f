//! Motions that search: to the first position, on or back, where something hits or a command has what it asks for.
ghost use Rattle.std.specs.Prelude.{◌≡◌, ◌==◌, ◌<◌, ◌≤◌, ◌+◌, ◌-◌, ◌++◌, ℕ, IfOk, OnOk, OnErr, Some, if◌then◌else◌, max, not};
ghost use Rattle.spv_base.specs.declared.happenings.Happening.{Happening as AnyHappening};
ghost use Rattle.spv_group.specs.Group.{end_in, entries_in, group_at, invocations_in, window_in};
ghost use Rattle.spv_group.specs.Run.{happening_before};
ghost use Rattle.spv_hits.specs.Halts.{told_before};
ghost use Rattle.spv_hits.specs.Hits.{has_some};
ghost use Rattle.spv_hits.specs.Kept.{IsNoted};
ghost use Rattle.spv_probe.specs.Kits.{Follows, tests_of};
ghost use Rattle.spv_scopes.specs.Lines.{lines_of};
ghost use Rattle.spv_search.specs.Costs.{backward_cost, forward_cost};
ghost use Rattle.spv_search.specs.Keys.{IsFocus, tables_in};
ghost use Rattle.spv_search.specs.Stops.{done_backward, done_forward};
ghost use Rattle.spv_search.specs.Targets.{backward_target, forward_target};
ghost use Rattle.spv_search.specs.Told.{has_probe};
ghost use Rattle.spv_session.specs.Costs.{act_cost, motion_cost};
ghost use Rattle.spv_session.specs.Motions.{focus_by, hit_of, hit_told, hits_in, no_hit, search_back, search_on};
ghost use Rattle.spv_session.specs.Reply.{is_over, motion_reply, refusal_by, reply_by, walks};
ghost use Rattle.spv_session.specs.Typing.{typing_in};
ghost use Rattle.spv_session.specs.View.{undoing_in, view_at};

use crate::causes::Hit;
use crate::debug_info::DebugInfo;
use crate::following::WithProbes;
use crate::frames::FOCUS_FINISHED;
use crate::session::Core;
use crate::texts::refusal_line;
use spv_base::{Happening, NoMemory, Places, Probe, Status4, Steps};
use spv_group::Group;
use spv_hits::{StopHits, halt_numbers};
use spv_probe::Kit;
use spv_search::{Backward, Focus, Forward, Stopped, search_backward, search_forward};
use spv_stops::{Breaks, Halts, Watches};
use std::alloc::Global;
use std::marker::PhantomData;
use std::mem;
use std::sync::ledger::Ledger;

/// What a search goes by: the focus, the debug information of the module, and what motions stop at.
#[derive(Clone, Copy)]
struct Seeking<'a> {
    inv: u32,
    info: &'a DebugInfo,
    breaks: &'a Breaks,
    watches: &'a Watches,
    halts: &'a Halts,
}

impl<'a> Seeking<'a> {
    /// The invocation that is the focus.
    fn focus(&self) -> Focus<'a>
        ensures inv { result.inv ≡ self.now.inv }
        ensures tables { result.tables.now ≡ self.now.info.now.tables }
        ensures lines { result.lines.now ≡ self.now.info.now.lines }
    {
        Focus {
            inv: self.inv,
            tables: &self.info.tables,
            lines: &self.info.lines,
        }
    }

    /// The breaks and the watches.
    fn hits(&self, alloc: Global) -> Result<StopHits<'a>, NoMemory>
        ensures breaks { IfOk result (λ hits. hits.breaks ≡ self.now.breaks.now) }
        ensures watches { IfOk result (λ hits. hits.watches ≡ self.now.watches.now) }
        ensures tables { IfOk result (λ hits. hits.tables ≡ self.now.info.now.tables) }
        ensures sizes { IfOk result (λ hits. hits.sizes ≡ self.now.info.now.sizes) }
    {
        let info = self.info;
        StopHits::of(alloc, self.breaks, self.watches, &info.tables, &info.sizes)
    }
}

/// Where a search stopped: what hits there, whether what was asked for is done, and the invocation that becomes the focus.
#[derive(Drop)]
struct Found {
    hit: Hit,
    done: bool,
    focus: u32,
}

/// The invocation that becomes the focus behind an event: its own, where it hits breaks.
fn focus_behind(breaks: &Places, event: &Happening, focus: u32) -> u32
    ensures { result ≡ (if has_some breaks.now then event.now.inv else focus) }
{
    if breaks.len() > 0 { event.inv } else { focus }
}

/// What hits behind an event, and the invocation that becomes the focus there.
fn found_behind(
    alloc: Global,
    group: &Group,
    kit: &Kit,
    seeking: &Seeking<'_>,
    hits: &StopHits<'_>,
    event: &Happening,
    done: bool,
) -> Result<Found, NoMemory>
    requires event { happening_before group.now.group.program (entries_in group.now.group) group.now.group.position ≡ Some event.now }
    requires noted { IsNoted hits.now (group_at (group.now.group.position - 1) group.now.group) }
    requires focus { seeking.now.inv < invocations_in group.now.group }
    requires lines { seeking.now.info.now.lines ≡ lines_of group.now.group.program.accepted (tables_in group.now.group) }
    requires follows { Follows (λ p. (⟦<dyn Probe as Probe>⟧ p.vtable).tally p.value) (λ p. (⟦<dyn Probe as Probe>⟧ p.vtable).test p.value) (tests_of (λ p. (⟦<dyn Probe as Probe>⟧ p.vtable).test p.value) kit.now.boxes.items) (told_before group.now.group) kit.now.boxes.items }
    ensures hit { IfOk result (λ found. found.hit ≡ hit_of hits.now.tables hits.now.breaks hits.now.watches seeking.now.halts.now (tests_of (λ p. (⟦<dyn Probe as Probe>⟧ p.vtable).test p.value) kit.now.boxes.items) group.now.group) }
    ensures done { IfOk result (λ found. found.done ≡ done) }
    ensures focus { IfOk result (λ found. found.focus ≡ focus_by found.hit group.now.group seeking.now.inv) }
    ensures exists { IfOk result (λ found. found.focus < invocations_in group.now.group) }
{
    let breaks = hits.break_numbers(group, event)?;
    let watches = hits.watch_numbers(group, event)?;
    let lines = &seeking.info.lines;
    let halts = halt_numbers(alloc, kit, seeking.halts, lines, group, event)?;
    let focus = focus_behind(&breaks, event, seeking.inv);
    let hit = Hit {
        breaks,
        watches,
        halts,
    };
    Ok(Found { hit, done, focus })
}

/// What hits where a search from a position stopped, behind the event that it tells, if it tells one.
fn found_at(
    alloc: Global,
    group: &Group,
    kit: &Kit,
    seeking: &Seeking<'_>,
    hits: &StopHits<'_>,
    from: u64,
    stopped: Stopped,
) -> Result<Found, NoMemory>
    requires event { (h : AnyHappening) → stopped.event ≡ Some h
        → (happening_before group.now.group.program (entries_in group.now.group) group.now.group.position ≡ Some h) × IsNoted hits.now (group_at (group.now.group.position - 1) group.now.group) }
    requires focus { seeking.now.inv < invocations_in group.now.group }
    requires lines { seeking.now.info.now.lines ≡ lines_of group.now.group.program.accepted (tables_in group.now.group) }
    requires follows { Follows (λ p. (⟦<dyn Probe as Probe>⟧ p.vtable).tally p.value) (λ p. (⟦<dyn Probe as Probe>⟧ p.vtable).test p.value) (tests_of (λ p. (⟦<dyn Probe as Probe>⟧ p.vtable).test p.value) kit.now.boxes.items) (told_before group.now.group) kit.now.boxes.items }
    ensures hit { IfOk result (λ found. found.hit ≡ hit_told from stopped.event (hit_of hits.now.tables hits.now.breaks hits.now.watches seeking.now.halts.now (tests_of (λ p. (⟦<dyn Probe as Probe>⟧ p.vtable).test p.value) kit.now.boxes.items)) group.now.group) }
    ensures done { IfOk result (λ found. found.done ≡ stopped.done) }
    ensures focus { IfOk result (λ found. found.focus ≡ focus_by found.hit group.now.group seeking.now.inv) }
    ensures exists { IfOk result (λ found. found.focus < invocations_in group.now.group) }
{
    match stopped.event {
        Some(event) if group.position() != from => {
            found_behind(alloc, group, kit, seeking, hits, &event, stopped.done)
        }
        _ => Ok(Found {
            hit: Hit::none(alloc),
            done: stopped.done,
            focus: seeking.inv,
        }),
    }
}

/// Goes to the next position where something hits or what a command asks for holds, else to the end.
fn seek_on<L: Ledger>(
    alloc: Global,
    group: &mut Group,
    kit: &mut Kit,
    seeking: &Seeking<'_>,
    command: Forward,
    steps: &mut Steps<L>,
) -> Result<Found, NoMemory>
    requires focus { IsFocus group.old.group seeking.now.inv seeking.now.info.now.tables seeking.now.info.now.lines }
    requires typed { seeking.now.info.now.sizes ≡ typing_in group.old.group.program.accepted }
    requires follows { Follows (λ p. (⟦<dyn Probe as Probe>⟧ p.vtable).tally p.value) (λ p. (⟦<dyn Probe as Probe>⟧ p.vtable).test p.value) (tests_of (λ p. (⟦<dyn Probe as Probe>⟧ p.vtable).test p.value) kit.old.boxes.items) (told_before group.old.group) kit.old.boxes.items }
    ensures target { OnOk result (group.new.group.position ≡ forward_target (hits_in seeking.now.breaks.now seeking.now.watches.now seeking.now.halts.now (tests_of (λ p. (⟦<dyn Probe as Probe>⟧ p.vtable).test p.value) kit.old.boxes.items)) command seeking.now.inv group.old.group) }
    ensures done { IfOk result (λ found. found.done ≡ done_forward command seeking.now.inv group.old.group group.new.group) }
    ensures hit { IfOk result (λ found. found.hit ≡ (if not (group.new.group.position == group.old.group.position)
        then hit_of (tables_in group.old.group) seeking.now.breaks.now seeking.now.watches.now seeking.now.halts.now (tests_of (λ p. (⟦<dyn Probe as Probe>⟧ p.vtable).test p.value) kit.old.boxes.items) group.new.group else no_hit)) }
    ensures focus { IfOk result (λ found. found.focus ≡ focus_by found.hit group.new.group seeking.now.inv) }
    ensures exists { IfOk result (λ found. found.focus < invocations_in group.new.group) }
    ensures same { group.new.group ≡ group_at group.new.group.position group.old.group }
    ensures limit { group.new.limit ≡ group.old.limit }
    ensures within { group.new.group.position ≤ end_in group.old.group }
    ensures kept { group.new.kept ≤ max group.old.kept (window_in group.new) }
    ensures tests { tests_of (λ p. (⟦<dyn Probe as Probe>⟧ p.vtable).test p.value) kit.new.boxes.items ≡ tests_of (λ p. (⟦<dyn Probe as Probe>⟧ p.vtable).test p.value) kit.old.boxes.items }
    ensures follows { Follows (λ p. (⟦<dyn Probe as Probe>⟧ p.vtable).tally p.value) (λ p. (⟦<dyn Probe as Probe>⟧ p.vtable).test p.value) (tests_of (λ p. (⟦<dyn Probe as Probe>⟧ p.vtable).test p.value) kit.new.boxes.items) (told_before group.new.group) kit.new.boxes.items }
    ensures counted { steps.old ≤ steps.new }
    ensures cost { steps.new ≤ steps.old + forward_cost group.old.group.position (forward_target (hits_in seeking.now.breaks.now seeking.now.watches.now seeking.now.halts.now (tests_of (λ p. (⟦<dyn Probe as Probe>⟧ p.vtable).test p.value) kit.old.boxes.items)) command seeking.now.inv group.old.group) }
{
    let from = group.position();
    let focus = seeking.focus();
    let mut hits = WithProbes {
        hits: seeking.hits(alloc)?,
        kit: mem::replace(kit, Kit::empty(alloc)),
        halts: seeking.halts,
        lines: &seeking.info.lines,
        of: PhantomData,
    };
    let stopped = search_forward(group, &focus, command, &mut hits, steps);
    let WithProbes {
        hits: stops,
        kit: followed,
        halts: _,
        lines: _,
        of: _,
    } = hits;
    *kit = followed;
    found_at(alloc, group, kit, seeking, &stops, from, stopped?)
}

/// Goes to the last position before this one where something hits or what a command asks for holds, else to the start.
fn seek_back<L: Ledger>(
    alloc: Global,
    group: &mut Group,
    kit: &mut Kit,
    seeking: &Seeking<'_>,
    command: Backward,
    steps: &mut Steps<L>,
) -> Result<Found, NoMemory>
    requires focus { IsFocus group.old.group seeking.now.inv seeking.now.info.now.tables seeking.now.info.now.lines }
    requires typed { seeking.now.info.now.sizes ≡ typing_in group.old.group.program.accepted }
    requires follows { Follows (λ p. (⟦<dyn Probe as Probe>⟧ p.vtable).tally p.value) (λ p. (⟦<dyn Probe as Probe>⟧ p.vtable).test p.value) (tests_of (λ p. (⟦<dyn Probe as Probe>⟧ p.vtable).test p.value) kit.old.boxes.items) (told_before group.old.group) kit.old.boxes.items }
    ensures target { OnOk result (group.new.group.position ≡ backward_target (hits_in seeking.now.breaks.now seeking.now.watches.now seeking.now.halts.now (tests_of (λ p. (⟦<dyn Probe as Probe>⟧ p.vtable).test p.value) kit.old.boxes.items)) command seeking.now.inv group.old.group) }
    ensures done { IfOk result (λ found. found.done ≡ done_backward command seeking.now.inv group.old.group group.new.group) }
    ensures hit { IfOk result (λ found. found.hit ≡ (if not (group.new.group.position == group.old.group.position)
        then hit_of (tables_in group.old.group) seeking.now.breaks.now seeking.now.watches.now seeking.now.halts.now (tests_of (λ p. (⟦<dyn Probe as Probe>⟧ p.vtable).test p.value) kit.old.boxes.items) group.new.group else no_hit)) }
    ensures focus { IfOk result (λ found. found.focus ≡ focus_by found.hit group.new.group seeking.now.inv) }
    ensures exists { IfOk result (λ found. found.focus < invocations_in group.new.group) }
    ensures same { group.new.group ≡ group_at group.new.group.position group.old.group }
    ensures limit { group.new.limit ≡ group.old.limit }
    ensures within { group.new.group.position ≤ end_in group.old.group }
    ensures kept { group.new.kept ≤ max group.old.kept (window_in group.new) }
    ensures tests { tests_of (λ p. (⟦<dyn Probe as Probe>⟧ p.vtable).test p.value) kit.new.boxes.items ≡ tests_of (λ p. (⟦<dyn Probe as Probe>⟧ p.vtable).test p.value) kit.old.boxes.items }
    ensures follows { Follows (λ p. (⟦<dyn Probe as Probe>⟧ p.vtable).tally p.value) (λ p. (⟦<dyn Probe as Probe>⟧ p.vtable).test p.value) (tests_of (λ p. (⟦<dyn Probe as Probe>⟧ p.vtable).test p.value) kit.new.boxes.items) (told_before group.new.group) kit.new.boxes.items }
    ensures counted { steps.old ≤ steps.new }
    ensures cost { steps.new ≤ steps.old + backward_cost (has_probe (tests_of (λ p. (⟦<dyn Probe as Probe>⟧ p.vtable).test p.value) kit.old.boxes.items)) group.old.kept (backward_target (hits_in seeking.now.breaks.now seeking.now.watches.now seeking.now.halts.now (tests_of (λ p. (⟦<dyn Probe as Probe>⟧ p.vtable).test p.value) kit.old.boxes.items)) command seeking.now.inv group.old.group) }
{
    let from = group.position();
    let focus = seeking.focus();
    let mut hits = WithProbes {
        hits: seeking.hits(alloc)?,
        kit: mem::replace(kit, Kit::empty(alloc)),
        halts: seeking.halts,
        lines: &seeking.info.lines,
        of: PhantomData,
    };
    let stopped = search_backward(alloc, group, &focus, command, &mut hits, steps);
    let WithProbes {
        hits: stops,
        kit: followed,
        halts: _,
        lines: _,
        of: _,
    } = hits;
    *kit = followed;
    found_at(alloc, group, kit, seeking, &stops, from, stopped?)
}

impl Core {
    /// Whether the focus is finished.
    fn is_over(&self) -> bool
        ensures { result ≡ is_over self.now.view }
    {
        matches!(self.group.status(self.focus), Status4::Finished)
    }

    /// Goes to the next position where something hits or what a command asks for holds, else to the end, and appends why it stopped.
    pub(crate) fn search_on<L: Ledger>(
        &mut self,
        kit: &mut Kit,
        command: Forward,
        text: &mut Vec<u8>,
        steps: &mut Steps<L>,
    ) -> Result<(), NoMemory>
        requires { Follows (λ p. (⟦<dyn Probe as Probe>⟧ p.vtable).tally p.value) (λ p. (⟦<dyn Probe as Probe>⟧ p.vtable).test p.value) (tests_of (λ p. (⟦<dyn Probe as Probe>⟧ p.vtable).test p.value) kit.old.boxes.items) (told_before self.old.view.group) kit.old.boxes.items }
        ensures text { OnOk result (text.new.items ≡ text.old.items ++ (motion_reply (tests_of (λ p. (⟦<dyn Probe as Probe>⟧ p.vtable).test p.value) kit.old.boxes.items) self.old.view (search_on command self.old.view)).0) }
        ensures view { OnOk result (self.new.view ≡ (motion_reply (tests_of (λ p. (⟦<dyn Probe as Probe>⟧ p.vtable).test p.value) kit.old.boxes.items) self.old.view (search_on command self.old.view)).1) }
        ensures group { self.new.view.group ≡ group_at self.new.view.group.position self.old.view.group }
        ensures same { OnErr result (self.new.view ≡ view_at self.new.view.group.position self.old.view) }
        ensures dropped { self.new.view.dropped ≡ self.old.view.dropped }
        ensures limit { self.new.limit ≡ self.old.limit }
        ensures kept { self.new.kept ≤ max self.old.kept (window_in (undoing_in self.new)) }
        ensures within { self.new.view.group.position ≤ end_in self.old.view.group }
        ensures tests { tests_of (λ p. (⟦<dyn Probe as Probe>⟧ p.vtable).test p.value) kit.new.boxes.items ≡ tests_of (λ p. (⟦<dyn Probe as Probe>⟧ p.vtable).test p.value) kit.old.boxes.items }
        ensures follows { Follows (λ p. (⟦<dyn Probe as Probe>⟧ p.vtable).tally p.value) (λ p. (⟦<dyn Probe as Probe>⟧ p.vtable).test p.value) (tests_of (λ p. (⟦<dyn Probe as Probe>⟧ p.vtable).test p.value) kit.new.boxes.items) (told_before self.new.view.group) kit.new.boxes.items }
        ensures counted { steps.old ≤ steps.new }
        ensures cost { steps.new ≤ steps.old + motion_cost (tests_of (λ p. (⟦<dyn Probe as Probe>⟧ p.vtable).test p.value) kit.old.boxes.items) self.old.kept self.old.view (search_on command self.old.view) }
    {
        let alloc = self.alloc;
        let seeking = Seeking {
            inv: self.focus,
            info: &self.info,
            breaks: &self.breaks,
            watches: &self.watches,
            halts: &self.halts,
        };
        let found = seek_on(alloc, &mut self.group, kit, &seeking, command, steps)?;
        self.stop(text, &found.hit, found.focus, found.done)
    }

    /// Goes to the last position before this one where something hits or what a command asks for holds, else to the start, and appends why
    /// it stopped.
    pub(crate) fn search_back<L: Ledger>(
        &mut self,
        kit: &mut Kit,
        command: Backward,
        text: &mut Vec<u8>,
        steps: &mut Steps<L>,
    ) -> Result<(), NoMemory>
        requires { Follows (λ p. (⟦<dyn Probe as Probe>⟧ p.vtable).tally p.value) (λ p. (⟦<dyn Probe as Probe>⟧ p.vtable).test p.value) (tests_of (λ p. (⟦<dyn Probe as Probe>⟧ p.vtable).test p.value) kit.old.boxes.items) (told_before self.old.view.group) kit.old.boxes.items }
        ensures text { OnOk result (text.new.items ≡ text.old.items ++ (motion_reply (tests_of (λ p. (⟦<dyn Probe as Probe>⟧ p.vtable).test p.value) kit.old.boxes.items) self.old.view (search_back command self.old.view)).0) }
        ensures view { OnOk result (self.new.view ≡ (motion_reply (tests_of (λ p. (⟦<dyn Probe as Probe>⟧ p.vtable).test p.value) kit.old.boxes.items) self.old.view (search_back command self.old.view)).1) }
        ensures group { self.new.view.group ≡ group_at self.new.view.group.position self.old.view.group }
        ensures same { OnErr result (self.new.view ≡ view_at self.new.view.group.position self.old.view) }
        ensures dropped { self.new.view.dropped ≡ self.old.view.dropped }
        ensures limit { self.new.limit ≡ self.old.limit }
        ensures kept { self.new.kept ≤ max self.old.kept (window_in (undoing_in self.new)) }
        ensures within { self.new.view.group.position ≤ end_in self.old.view.group }
        ensures tests { tests_of (λ p. (⟦<dyn Probe as Probe>⟧ p.vtable).test p.value) kit.new.boxes.items ≡ tests_of (λ p. (⟦<dyn Probe as Probe>⟧ p.vtable).test p.value) kit.old.boxes.items }
        ensures follows { Follows (λ p. (⟦<dyn Probe as Probe>⟧ p.vtable).tally p.value) (λ p. (⟦<dyn Probe as Probe>⟧ p.vtable).test p.value) (tests_of (λ p. (⟦<dyn Probe as Probe>⟧ p.vtable).test p.value) kit.new.boxes.items) (told_before self.new.view.group) kit.new.boxes.items }
        ensures counted { steps.old ≤ steps.new }
        ensures cost { steps.new ≤ steps.old + motion_cost (tests_of (λ p. (⟦<dyn Probe as Probe>⟧ p.vtable).test p.value) kit.old.boxes.items) self.old.kept self.old.view (search_back command self.old.view) }
    {
        let alloc = self.alloc;
        let seeking = Seeking {
            inv: self.focus,
            info: &self.info,
            breaks: &self.breaks,
            watches: &self.watches,
            halts: &self.halts,
        };
        let found = seek_back(alloc, &mut self.group, kit, &seeking, command, steps)?;
        self.stop(text, &found.hit, found.focus, found.done)
    }

    /// The same forward, of a focus that isn't finished; else a refusal.
    pub(crate) fn walk_on<L: Ledger>(
        &mut self,
        kit: &mut Kit,
        command: Forward,
        text: &mut Vec<u8>,
        steps: &mut Steps<L>,
    ) -> Result<(), NoMemory>
        requires { Follows (λ p. (⟦<dyn Probe as Probe>⟧ p.vtable).tally p.value) (λ p. (⟦<dyn Probe as Probe>⟧ p.vtable).test p.value) (tests_of (λ p. (⟦<dyn Probe as Probe>⟧ p.vtable).test p.value) kit.old.boxes.items) (told_before self.old.view.group) kit.old.boxes.items }
        ensures text { OnOk result (text.new.items ≡ text.old.items ++ (reply_by (tests_of (λ p. (⟦<dyn Probe as Probe>⟧ p.vtable).test p.value) kit.old.boxes.items) self.old.view (walks (search_on command))).0) }
        ensures view { OnOk result (self.new.view ≡ (reply_by (tests_of (λ p. (⟦<dyn Probe as Probe>⟧ p.vtable).test p.value) kit.old.boxes.items) self.old.view (walks (search_on command))).1) }
        ensures group { self.new.view.group ≡ group_at self.new.view.group.position self.old.view.group }
        ensures same { OnErr result (self.new.view ≡ view_at self.new.view.group.position self.old.view) }
        ensures dropped { self.new.view.dropped ≡ self.old.view.dropped }
        ensures limit { self.new.limit ≡ self.old.limit }
        ensures kept { self.new.kept ≤ max self.old.kept (window_in (undoing_in self.new)) }
        ensures within { self.new.view.group.position ≤ end_in self.old.view.group }
        ensures tests { tests_of (λ p. (⟦<dyn Probe as Probe>⟧ p.vtable).test p.value) kit.new.boxes.items ≡ tests_of (λ p. (⟦<dyn Probe as Probe>⟧ p.vtable).test p.value) kit.old.boxes.items }
        ensures follows { Follows (λ p. (⟦<dyn Probe as Probe>⟧ p.vtable).tally p.value) (λ p. (⟦<dyn Probe as Probe>⟧ p.vtable).test p.value) (tests_of (λ p. (⟦<dyn Probe as Probe>⟧ p.vtable).test p.value) kit.new.boxes.items) (told_before self.new.view.group) kit.new.boxes.items }
        ensures refused { (code : ℕ) → refusal_by (tests_of (λ p. (⟦<dyn Probe as Probe>⟧ p.vtable).test p.value) kit.old.boxes.items) self.old.view (walks (search_on command)) ≡ Some code → (self.new ≡ self.old) × (kit.new.boxes.items ≡ kit.old.boxes.items) }
        ensures counted { steps.old ≤ steps.new }
        ensures cost { steps.new ≤ steps.old + act_cost (tests_of (λ p. (⟦<dyn Probe as Probe>⟧ p.vtable).test p.value) kit.old.boxes.items) self.old.kept self.old.view (walks (search_on command)) }
    {
        let _position = self.group.position();
        if self.is_over() {
            text.extend_from_slice(refusal_line(FOCUS_FINISHED))?;
            return Ok(());
        }
        self.search_on(kit, command, text, steps)
    }

    /// The same backward.
    pub(crate) fn walk_back<L: Ledger>(
        &mut self,
        kit: &mut Kit,
        command: Backward,
        text: &mut Vec<u8>,
        steps: &mut Steps<L>,
    ) -> Result<(), NoMemory>
        requires { Follows (λ p. (⟦<dyn Probe as Probe>⟧ p.vtable).tally p.value) (λ p. (⟦<dyn Probe as Probe>⟧ p.vtable).test p.value) (tests_of (λ p. (⟦<dyn Probe as Probe>⟧ p.vtable).test p.value) kit.old.boxes.items) (told_before self.old.view.group) kit.old.boxes.items }
        ensures text { OnOk result (text.new.items ≡ text.old.items ++ (reply_by (tests_of (λ p. (⟦<dyn Probe as Probe>⟧ p.vtable).test p.value) kit.old.boxes.items) self.old.view (walks (search_back command))).0) }
        ensures view { OnOk result (self.new.view ≡ (reply_by (tests_of (λ p. (⟦<dyn Probe as Probe>⟧ p.vtable).test p.value) kit.old.boxes.items) self.old.view (walks (search_back command))).1) }
        ensures group { self.new.view.group ≡ group_at self.new.view.group.position self.old.view.group }
        ensures same { OnErr result (self.new.view ≡ view_at self.new.view.group.position self.old.view) }
        ensures dropped { self.new.view.dropped ≡ self.old.view.dropped }
        ensures limit { self.new.limit ≡ self.old.limit }
        ensures kept { self.new.kept ≤ max self.old.kept (window_in (undoing_in self.new)) }
        ensures within { self.new.view.group.position ≤ end_in self.old.view.group }
        ensures tests { tests_of (λ p. (⟦<dyn Probe as Probe>⟧ p.vtable).test p.value) kit.new.boxes.items ≡ tests_of (λ p. (⟦<dyn Probe as Probe>⟧ p.vtable).test p.value) kit.old.boxes.items }
        ensures follows { Follows (λ p. (⟦<dyn Probe as Probe>⟧ p.vtable).tally p.value) (λ p. (⟦<dyn Probe as Probe>⟧ p.vtable).test p.value) (tests_of (λ p. (⟦<dyn Probe as Probe>⟧ p.vtable).test p.value) kit.new.boxes.items) (told_before self.new.view.group) kit.new.boxes.items }
        ensures refused { (code : ℕ) → refusal_by (tests_of (λ p. (⟦<dyn Probe as Probe>⟧ p.vtable).test p.value) kit.old.boxes.items) self.old.view (walks (search_back command)) ≡ Some code → (self.new ≡ self.old) × (kit.new.boxes.items ≡ kit.old.boxes.items) }
        ensures counted { steps.old ≤ steps.new }
        ensures cost { steps.new ≤ steps.old + act_cost (tests_of (λ p. (⟦<dyn Probe as Probe>⟧ p.vtable).test p.value) kit.old.boxes.items) self.old.kept self.old.view (walks (search_back command)) }
    {
        let _position = self.group.position();
        if self.is_over() {
            text.extend_from_slice(refusal_line(FOCUS_FINISHED))?;
            return Ok(());
        }
        self.search_back(kit, command, text, steps)
    }
}
