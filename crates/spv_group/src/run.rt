//! A run at a position, and the events before it that its journal keeps.
ghost use Rattle.std.specs.Prelude.{◌≡◌, ◌≤◌, ◌+◌, ◌-◌, ◌<◌, ◌^◌, ◌++◌, ℕ, List, length, slice_get, Some, IfOk, OnOk, IsOk, IfSome, IsSome, MatchOption, max, min};
ghost use Rattle.spv_base.specs.declared.happenings.Happening.{Happening as AnyHappening};
ghost use Rattle.spv_state.specs.Sound.{IsSound};
ghost use Rattle.spv_state.specs.Start.{start_of};
ghost use Rattle.spv_group.specs.Costs.{ForthCounts, ForthKeeps, run_cost};
ghost use Rattle.spv_group.specs.History.{window};
ghost use Rattle.spv_group.specs.Motion.{IsRun, Makes, Goes, kept_in};
ghost use Rattle.spv_group.specs.Run.{end_of, happening_at, happening_before, happenings_between};
ghost use Rattle.spv_machine.specs.Step as spec;

use crate::ends::{all_finished, is_stuck};
use crate::motion::Forth;
use crate::witness::Witness;
use spv_base::{EndCause, Happening, Kind, NoMemory, Steps};
use spv_machine::{Did, Runnable, StepErr, World, step, unstep};
use spv_setup::Schedule;
use std::alloc::Global;
use std::sync::ledger::Ledger;

/// The world at a position.
#[derive(Drop)]
pub struct Run {
    pub world: World,
    pub position: u64,
}

/// An event of an invocation that waits or is finished.
fn idle(inv: u32) -> Happening
    ensures { result ≡ spec.idle inv }
{
    Happening {
        inv,
        kind: Kind::Idle,
        word: 0,
        root: 0,
        line: 0,
    }
}

/// The invocation of the event at a position; none where the schedule ends before.
fn entry(schedule: &Schedule, position: u64) -> Option<u32>
    ensures entry { result ≡ slice_get schedule.now.list position }
    ensures below { IsSome result → position < 2 ^ 64 - 1 }
    ensures exists { IfSome result (λ i. i < schedule.now.invocations) }
{
    // There are at most 4,194,304 entries.
    let _entries = schedule.len();
    schedule.at(position)
}

/// Makes the event of an invocation, with one step.
#[tactic(auto, using(crate::proofs::Runs::idled, crate::proofs::Runs::moved))]
fn event<L: Ledger>(
    alloc: Global,
    m: &Runnable,
    world: &mut World,
    inv: u32,
    steps: &mut Steps<L>,
) -> Result<Happening, StepErr>
    requires inv { inv < length world.old.state.statuses.list }
    requires sound { IsSound m.now world.old.state }
    ensures makes { Makes m.now world.old inv result world.new }
    ensures sound { IsSound m.now world.new.state }
    ensures count { steps.new ≡ steps.old + 1 }
{
    match step(alloc, m, world, inv, steps) {
        Ok(Did::Moved(happening)) => Ok(happening),
        Ok(Did::Idle) => Ok(idle(inv)),
        Err(error) => Err(error),
    }
}

impl Run {
    /// The start of a run by a schedule of as many invocations. Its journal keeps at most so many marks and entries.
    pub fn start(
        alloc: Global,
        m: &Runnable,
        schedule: &Schedule,
        limit: usize,
    ) -> Result<Run, NoMemory>
        requires fits { schedule.now.invocations ≡ length (start_of m.now).statuses.list }
        requires limit { 1 ≤ limit }
        ensures run { IfOk result (λ r. IsRun m.now schedule.now limit r.world r.position) }
        ensures position { IfOk result (λ r. r.position ≡ 0) }
    {
        Ok(Run {
            world: World::start(alloc, m, limit)?,
            position: 0,
        })
    }

    /// The same position, from which on nothing is undone.
    pub fn copy(
        &self,
        alloc: Global,
        m: &Runnable,
        schedule: &Schedule,
        limit: usize,
    ) -> Result<Run, NoMemory>
        requires run { (old : ℕ) × IsRun m.now schedule.now old self.now.world self.now.position }
        requires limit { 1 ≤ limit }
        ensures run { IfOk result (λ r. IsRun m.now schedule.now limit r.world r.position) }
        ensures position { IfOk result (λ r. r.position ≡ self.now.position) }
        ensures kept { IfOk result (λ r. kept_in r.world r.position ≡ self.now.position) }
    {
        Ok(Run {
            world: self.world.copy(alloc, limit)?,
            position: self.position,
        })
    }

    /// Becomes another run.
    pub fn replace(&mut self, run: Run)
        ensures { self.new ≡ run }
    {
        *self = run;
    }

    /// Makes the next event. It takes one step, or none at an end that is no fault.
    #[inline(always)]
    pub fn forth<L: Ledger>(
        &mut self,
        alloc: Global,
        m: &Runnable,
        schedule: &Schedule,
        steps: &mut Steps<L>,
    ) -> Result<Forth, NoMemory>
        requires { IsRun m.now schedule.now self.old.world.limit self.old.world self.old.position }
        ensures run { IsRun m.now schedule.now self.old.world.limit self.new.world self.new.position }
        ensures goes { Goes m.now schedule.now.list result self.old.position self.new.position }
        ensures cost { ForthCounts result steps.old steps.new }
        ensures kept { ForthKeeps result (window self.old.world.limit m.now schedule.now.list self.new.position)
            (kept_in self.old.world self.old.position) (kept_in self.new.world self.new.position) }
    {
        if all_finished(&self.world) {
            return Ok(Forth::AtEnd(EndCause::Finished));
        }
        if is_stuck(&self.world) {
            return Ok(Forth::AtEnd(EndCause::Stuck));
        }
        let Some(inv) = entry(schedule, self.position) else {
            return Ok(Forth::AtEnd(EndCause::Schedule));
        };
        match event(alloc, m, &mut self.world, inv, steps) {
            Ok(happening) => {
                self.position += 1;
                Ok(Forth::Went(happening))
            }
            Err(StepErr::Fault(fault)) => Ok(Forth::AtEnd(EndCause::Fault(fault))),
            Err(StepErr::NoMemory) => Err(NoMemory),
        }
    }

    /// Undoes the last event, where it is kept. It takes no step and no memory.
    pub fn back(&mut self, m: &Runnable, schedule: &Schedule) -> Option<Happening>
        requires { IsRun m.now schedule.now self.old.world.limit self.old.world self.old.position }
        ensures run { IsRun m.now schedule.now self.old.world.limit self.new.world self.new.position }
        ensures undone { MatchOption result ((length self.old.world.ring ≡ 0) × (self.new ≡ self.old))
            (λ h. (0 < length self.old.world.ring) × (happening_before m.now schedule.now.list self.old.position ≡ Some h)
            × (self.old.position ≡ self.new.position + 1)) }
        ensures kept { kept_in self.new.world self.new.position ≡ kept_in self.old.world self.old.position }
    {
        let happening = unstep(&mut self.world)?;
        self.position -= 1;
        Some(happening)
    }

    /// Runs on to a position, or to the end where that comes first. It takes a step for each event, and one more at most where
    /// the end comes first.
    pub fn run_to<L: Ledger>(
        &mut self,
        alloc: Global,
        m: &Runnable,
        schedule: &Schedule,
        target: u64,
        steps: &mut Steps<L>,
    ) -> Result<(), NoMemory>
        requires { IsRun m.now schedule.now self.old.world.limit self.old.world self.old.position }
        ensures run { IsRun m.now schedule.now self.old.world.limit self.new.world self.new.position }
        ensures position { OnOk result (self.new.position ≡ max self.old.position (min target (end_of m.now schedule.now.list))) }
        ensures counted { steps.old + (self.new.position - self.old.position) ≤ steps.new }
        ensures cost { steps.new ≤ steps.old + run_cost (end_of m.now schedule.now.list) self.old.position target }
        ensures kept { kept_in self.new.world self.new.position
            ≤ max (kept_in self.old.world self.old.position) (window self.old.world.limit m.now schedule.now.list self.new.position) }
    {
        'up: while self.position < target {
            if let Forth::AtEnd(_) = self.forth(alloc, m, schedule, steps)? {
                return Ok(());
            }
        }
        Ok(())
    }

    /// Makes the next event, which no end keeps from happening, with one step.
    fn make_next<L: Ledger>(
        &mut self,
        alloc: Global,
        m: &Runnable,
        schedule: &Schedule,
        steps: &mut Steps<L>,
    ) -> Result<Happening, NoMemory>
        requires run { IsRun m.now schedule.now self.old.world.limit self.old.world self.old.position }
        requires before { self.old.position < end_of m.now schedule.now.list }
        ensures run { IsRun m.now schedule.now self.old.world.limit self.new.world self.new.position }
        ensures position { OnOk result (self.new.position ≡ self.old.position + 1) }
        ensures event { IfOk result (λ h. happening_at m.now schedule.now.list self.old.position ≡ Some h) }
        ensures counted { steps.old ≤ steps.new }
        ensures cost { steps.new ≤ steps.old + 1 }
        ensures exact { IsOk result → steps.new ≡ steps.old + 1 }
    {
        match self.forth(alloc, m, schedule, steps)? {
            Forth::Went(happening) => Ok(happening),
            Forth::AtEnd(_) => unreachable!(),
        }
    }

    /// Runs on to a position up to the end, and tells each event on the way. It takes a step for each.
    fn tell_to<W: Witness, L: Ledger>(
        &mut self,
        alloc: Global,
        m: &Runnable,
        schedule: &Schedule,
        target: u64,
        witness: &mut W,
        steps: &mut Steps<L>,
    ) -> Result<(), NoMemory>
        requires run { IsRun m.now schedule.now self.old.world.limit self.old.world self.old.position }
        requires later { self.old.position ≤ target }
        requires within { target ≤ end_of m.now schedule.now.list }
        ensures told { (before : List AnyHappening) → W.follows before witness.old
            → OnOk result (W.follows (before ++ happenings_between m.now schedule.now.list self.old.position target) witness.new) }
        ensures counted { steps.old ≤ steps.new }
        ensures cost { steps.new ≤ steps.old + (target - self.old.position) }
    {
        'up: while self.position < target {
            let happening = self.make_next(alloc, m, schedule, steps)?;
            witness.tell(&happening)?;
        }
        Ok(())
    }

    /// Tells each event from here on up to a position; they are made on a copy, with a step for each.
    pub fn tell_ahead<W: Witness, L: Ledger>(
        &self,
        alloc: Global,
        m: &Runnable,
        schedule: &Schedule,
        target: u64,
        witness: &mut W,
        steps: &mut Steps<L>,
    ) -> Result<(), NoMemory>
        requires run { IsRun m.now schedule.now self.now.world.limit self.now.world self.now.position }
        requires later { self.now.position ≤ target }
        requires within { target ≤ end_of m.now schedule.now.list }
        ensures told { (before : List AnyHappening) → W.follows before witness.old
            → OnOk result (W.follows (before ++ happenings_between m.now schedule.now.list self.now.position target) witness.new) }
        ensures counted { steps.old ≤ steps.new }
        ensures cost { steps.new ≤ steps.old + (target - self.now.position) }
    {
        let mut ahead = self.copy(alloc, m, schedule, 1)?;
        ahead.tell_to(alloc, m, schedule, target, witness, steps)
    }

    /// What happens next, which no end keeps from happening; found on a copy, with one step.
    pub fn next_happening<L: Ledger>(
        &self,
        alloc: Global,
        m: &Runnable,
        schedule: &Schedule,
        steps: &mut Steps<L>,
    ) -> Result<Happening, NoMemory>
        requires run { IsRun m.now schedule.now self.now.world.limit self.now.world self.now.position }
        requires before { self.now.position < end_of m.now schedule.now.list }
        ensures event { IfOk result (λ h. happening_at m.now schedule.now.list self.now.position ≡ Some h) }
        ensures counted { steps.old ≤ steps.new }
        ensures cost { steps.new ≤ steps.old + 1 }
        ensures exact { IsOk result → steps.new ≡ steps.old + 1 }
    {
        let mut copy = self.copy(alloc, m, schedule, 1)?;
        copy.make_next(alloc, m, schedule, steps)
    }
}
