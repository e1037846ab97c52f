//! Motions to a position of the run, and where motions stop.
ghost use Rattle.std.specs.Prelude.{◌≡◌, ◌==◌, ◌<◌, ◌≤◌, ◌+◌, ◌-◌, ◌++◌, ◌&&◌, ℕ, OnOk, OnErr, max, min, not};
ghost use Rattle.spv_group.specs.Costs.{run_cost};
ghost use Rattle.spv_group.specs.Group.{end_in, group_at, invocations_in, window_in};
ghost use Rattle.spv_dbg.specs.Tables.{tables_of};
ghost use Rattle.spv_hits.specs.Halts.{told_before};
ghost use Rattle.spv_probe.specs.Kits.{Follows, tests_of};
ghost use Rattle.spv_scopes.specs.Lines.{lines_of};
ghost use Rattle.spv_search.specs.Told.{has_probe};
ghost use Rattle.spv_session.specs.Costs.{straight_cost};
ghost use Rattle.spv_session.specs.Motions.{no_hit};
ghost use Rattle.spv_session.specs.Reply.{stop_reply};
ghost use Rattle.spv_session.specs.View.{focus_on, moved_to, undoing_in, view_at};

use crate::causes::{Hit, push_stop};
use crate::following::WithProbes;
use crate::session::Core;
use spv_base::{NoMemory, Probe, Steps};
use spv_group::Group;
use spv_probe::Kit;
use spv_scopes::Lines;
use spv_search::{Hits, Never, go_on, return_to};
use spv_stops::Halts;
use std::alloc::Global;
use std::marker::PhantomData;
use std::mem;
use std::sync::ledger::Ledger;

/// Where a motion is asked to lead.
#[derive(Clone, Copy)]
pub struct Aim {
    /// The position. Past the end it stands for the end.
    pub position: u64,
    /// Whether to be there is exactly what was asked for.
    pub exact: bool,
}

impl Aim {
    /// To a position.
    pub fn at(position: u32) -> Aim
        ensures position { result.position ≡ position }
        ensures exact { (m : ℕ) → (result.exact && m == result.position) ≡ (m == position) }
    {
        Aim {
            position: u64::from(position),
            exact: true,
        }
    }

    /// So many events forward. To make none is not what was asked for.
    pub fn forward(from: u64, count: u32) -> Aim
        requires { from ≤ 4194304 }
        ensures position { result.position ≡ from + count }
        ensures exact { (m : ℕ) → (result.exact && m == result.position) ≡ (not (m == from) && m == from + count) }
    {
        Aim {
            position: from + u64::from(count),
            exact: count > 0,
        }
    }

    /// So many events back, or to the start where fewer were made. To take none back is not what was asked for.
    pub fn back(from: u64, count: u32) -> Aim
        ensures position { result.position ≡ from - count }
        ensures exact { (m : ℕ) → (result.exact && m == result.position) ≡ (not (m == from) && m + count == from) }
    {
        let count = u64::from(count);
        Aim {
            position: from.saturating_sub(count),
            exact: 0 < count && count <= from,
        }
    }
}

/// Goes on to a position, or to the end where that comes first. It takes a step for each event, and one more at most where the
/// end comes first. After want of memory the group is at some position on the way.
fn run_on<H: Hits, L: Ledger>(
    group: &mut Group,
    target: u64,
    hits: &mut H,
    steps: &mut Steps<L>,
) -> Result<(), NoMemory>
    requires suits { H.suits hits.old group.old.group.program }
    requires follows { H.follows hits.old group.old.group }
    ensures target { OnOk result (group.new.group.position ≡ max group.old.group.position (min target (end_in group.old.group))) }
    ensures same { group.new.group ≡ group_at group.new.group.position group.old.group }
    ensures limit { group.new.limit ≡ group.old.limit }
    ensures within { group.new.group.position ≤ end_in group.old.group }
    ensures kept { group.new.kept ≤ max group.old.kept (window_in group.new) }
    ensures tests { H.tests hits.new ≡ H.tests hits.old }
    ensures follows { H.follows hits.new group.new.group }
    ensures counted { steps.old ≤ steps.new }
    ensures cost { steps.new ≤ steps.old + run_cost (end_in group.old.group) group.old.group.position target }
{
    'up: while group.position() < target {
        let Some(_) = go_on(group, hits, steps)? else {
            return Ok(());
        };
    }
    Ok(())
}

/// Goes to a position, or to the end where that comes first. One before the present is reached by undoing, or by a run from the start
/// on where the events from there on aren't kept. After want of memory the group is at some position of its run. Probes follow it.
pub fn go_to<H: Hits, L: Ledger>(
    alloc: Global,
    group: &mut Group,
    target: u64,
    hits: &mut H,
    steps: &mut Steps<L>,
) -> Result<(), NoMemory>
    requires suits { H.suits hits.old group.old.group.program }
    requires follows { H.follows hits.old group.old.group }
    ensures target { OnOk result (group.new.group.position ≡ min target (end_in group.old.group)) }
    ensures same { group.new.group ≡ group_at group.new.group.position group.old.group }
    ensures limit { group.new.limit ≡ group.old.limit }
    ensures within { group.new.group.position ≤ end_in group.old.group }
    ensures kept { group.new.kept ≤ max group.old.kept (window_in group.new) }
    ensures tests { H.tests hits.new ≡ H.tests hits.old }
    ensures follows { H.follows hits.new group.new.group }
    ensures counted { steps.old ≤ steps.new }
    ensures cost { steps.new ≤ steps.old + straight_cost (has_probe (H.tests hits.old)) group.old.kept group.old.group target }
{
    if target < group.position() {
        return return_to(alloc, group, target, hits, steps);
    }
    run_on(group, target, hits, steps)
}

/// The same, where a kit follows the group.
fn go_with<L: Ledger>(
    alloc: Global,
    group: &mut Group,
    kit: &mut Kit,
    halts: &Halts,
    lines: &Lines,
    target: u64,
    steps: &mut Steps<L>,
) -> Result<(), NoMemory>
    requires lines { lines.now ≡ lines_of group.old.group.program.accepted (tables_of group.old.group.program.accepted) }
    requires follows { Follows (λ p. (⟦<dyn Probe as Probe>⟧ p.vtable).tally p.value) (λ p. (⟦<dyn Probe as Probe>⟧ p.vtable).test p.value) (tests_of (λ p. (⟦<dyn Probe as Probe>⟧ p.vtable).test p.value) kit.old.boxes.items) (told_before group.old.group) kit.old.boxes.items }
    ensures target { OnOk result (group.new.group.position ≡ min target (end_in group.old.group)) }
    ensures same { group.new.group ≡ group_at group.new.group.position group.old.group }
    ensures limit { group.new.limit ≡ group.old.limit }
    ensures within { group.new.group.position ≤ end_in group.old.group }
    ensures kept { group.new.kept ≤ max group.old.kept (window_in group.new) }
    ensures tests { tests_of (λ p. (⟦<dyn Probe as Probe>⟧ p.vtable).test p.value) kit.new.boxes.items ≡ tests_of (λ p. (⟦<dyn Probe as Probe>⟧ p.vtable).test p.value) kit.old.boxes.items }
    ensures follows { Follows (λ p. (⟦<dyn Probe as Probe>⟧ p.vtable).tally p.value) (λ p. (⟦<dyn Probe as Probe>⟧ p.vtable).test p.value) (tests_of (λ p. (⟦<dyn Probe as Probe>⟧ p.vtable).test p.value) kit.new.boxes.items) (told_before group.new.group) kit.new.boxes.items }
    ensures counted { steps.old ≤ steps.new }
    ensures cost { steps.new ≤ steps.old + straight_cost (has_probe (tests_of (λ p. (⟦<dyn Probe as Probe>⟧ p.vtable).test p.value) kit.old.boxes.items)) group.old.kept group.old.group target }
{
    let mut probes = WithProbes {
        hits: Never,
        kit: mem::replace(kit, Kit::empty(alloc)),
        halts,
        lines,
        of: PhantomData,
    };
    let gone = go_to(alloc, group, target, &mut probes, steps);
    *kit = probes.kit;
    gone
}

impl Core {
    /// Goes where a motion is asked to lead, and appends why it stopped. The innermost frame is selected then.
    pub(crate) fn go<L: Ledger>(
        &mut self,
        kit: &mut Kit,
        aim: Aim,
        text: &mut Vec<u8>,
        steps: &mut Steps<L>,
    ) -> Result<(), NoMemory>
        requires { Follows (λ p. (⟦<dyn Probe as Probe>⟧ p.vtable).tally p.value) (λ p. (⟦<dyn Probe as Probe>⟧ p.vtable).test p.value) (tests_of (λ p. (⟦<dyn Probe as Probe>⟧ p.vtable).test p.value) kit.old.boxes.items) (told_before self.old.view.group) kit.old.boxes.items }
        ensures text { OnOk result (text.new.items ≡ text.old.items ++ stop_reply no_hit (aim.exact && self.new.view.group.position == aim.position) self.new.view) }
        ensures view { OnOk result (self.new.view ≡ moved_to (min aim.position (end_in self.old.view.group)) self.old.view) }
        ensures group { self.new.view.group ≡ group_at self.new.view.group.position self.old.view.group }
        ensures same { OnErr result (self.new.view ≡ view_at self.new.view.group.position self.old.view) }
        ensures dropped { self.new.view.dropped ≡ self.old.view.dropped }
        ensures limit { self.new.limit ≡ self.old.limit }
        ensures kept { self.new.kept ≤ max self.old.kept (window_in (undoing_in self.new)) }
        ensures within { self.new.view.group.position ≤ end_in self.old.view.group }
        ensures counted { steps.old ≤ steps.new }
        ensures cost { steps.new ≤ steps.old + straight_cost (has_probe (tests_of (λ p. (⟦<dyn Probe as Probe>⟧ p.vtable).test p.value) kit.old.boxes.items)) self.old.kept self.old.view.group aim.position }
        ensures tests { tests_of (λ p. (⟦<dyn Probe as Probe>⟧ p.vtable).test p.value) kit.new.boxes.items ≡ tests_of (λ p. (⟦<dyn Probe as Probe>⟧ p.vtable).test p.value) kit.old.boxes.items }
        ensures follows { Follows (λ p. (⟦<dyn Probe as Probe>⟧ p.vtable).tally p.value) (λ p. (⟦<dyn Probe as Probe>⟧ p.vtable).test p.value) (tests_of (λ p. (⟦<dyn Probe as Probe>⟧ p.vtable).test p.value) kit.new.boxes.items) (told_before self.new.view.group) kit.new.boxes.items }
    {
        let lines = &self.info.lines;
        go_with(
            self.alloc,
            &mut self.group,
            kit,
            &self.halts,
            lines,
            aim.position,
            steps,
        )?;
        let done = aim.exact && self.group.position() == aim.position;
        let hit = Hit::none(self.alloc);
        let focus = self.focus;
        self.stop(text, &hit, focus, done)
    }

    /// Appends why a motion stopped here, and where the invocation stands that becomes the focus. Its innermost frame is selected then.
    pub(crate) fn stop(
        &mut self,
        text: &mut Vec<u8>,
        hit: &Hit,
        focus: u32,
        done: bool,
    ) -> Result<(), NoMemory>
        requires { focus < invocations_in self.old.view.group }
        ensures text { OnOk result (text.new.items ≡ text.old.items ++ stop_reply hit.now done self.new.view) }
        ensures view { OnOk result (self.new.view ≡ focus_on focus self.old.view) }
        ensures err { OnErr result (self.new ≡ self.old) }
        ensures group { self.new.view.group ≡ self.old.view.group }
        ensures kept { self.new.kept ≡ self.old.kept }
        ensures dropped { self.new.view.dropped ≡ self.old.view.dropped }
        ensures limit { self.new.limit ≡ self.old.limit }
    {
        let cause = self.group.end_cause()?;
        push_stop(
            self.alloc,
            text,
            hit,
            done,
            self.group.position() == 0,
            cause,
        )?;
        self.push_place(text, focus)?;
        self.focus = focus;
        self.frame = 0;
        Ok(())
    }
}
