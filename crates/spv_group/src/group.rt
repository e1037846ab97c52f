//! A run of a module that goes forth and back along its schedule.
ghost use Rattle.std.specs.Prelude.{◌≡◌, ◌≤◌, ◌<◌, ◌-◌, ◌+◌, ◌++◌, List, Some, Ok, IfOk, IfSome, IsOk, OnOk, OnErr, length, slice_get};
ghost use Rattle.spv_base.specs.declared.happenings.Happening.{Happening as AnyHappening};
ghost use Rattle.spv_journal.specs.Events.{size};
ghost use Rattle.spv_state.specs.Program.{schedule_for};
ghost use Rattle.spv_state.specs.Sound.{IsSound};
ghost use Rattle.spv_state.specs.Start.{start_of};
ghost use Rattle.spv_group.specs.Costs.{ForthCounts, ForthKeeps, BackCounts, BackKeeps};
ghost use Rattle.spv_group.specs.Group.{first_undoing, group_at, entries_in, invocations_in, state_in, status_of, end_in, end_cause_in, window_in};
ghost use Rattle.spv_group.specs.Motion.{Goes, IsOpened, Returns, kept_in};
ghost use Rattle.spv_group.specs.Run.{happening_before, happenings_between};
ghost use Rattle.spv_group.specs.Touches.{IsTouch};

use crate::ends::cause_here;
use crate::motion::{Back, Forth};
use crate::run::Run;
use crate::witness::Witness;
use spv_base::{EndCause, Happening, NoMemory, Status4, Steps};
use spv_journal::Touch;
use spv_machine::{Runnable, World};
use spv_setup::Schedule;
use spv_state::laws::runs_start_with_all;
use std::alloc::Global;
use std::marker::Model;
use std::sync::ledger::Ledger;

/// How many marks and entries of events a journal keeps, where no other number is asked for.
pub const LIMIT: usize = 1048576;

/// A module, the schedule of its invocations, a position of the run that they give, and how far back it can undo.
pub struct Group {
    alloc: Global,
    module: Runnable,
    schedule: Schedule,
    limit: usize,
    /// The run at its start, from which it is made again where its events aren't kept.
    start: Run,
    run: Run,
}

// Written out, so that it is proved once: a derived drop is proved again in each function that lets go of such a value.
impl Drop for Group {
    fn drop(self) {
        let Group {
            alloc: _,
            module,
            schedule,
            limit: _,
            start,
            run,
        } = self;
        drop(module);
        drop(schedule);
        drop(start);
        drop(run);
    }
}

impl Model for Group {
    ghost use Rattle.spv_group.specs.Group.{Undoing};
    ghost use Rattle.spv_group.specs.Motion.{IsOpened, kept_in};

    ghost Value = { Undoing };

    ghost view = { λ g. record {
      group = record { program = g.module; schedule = g.schedule; position = g.run.position };
      kept = kept_in g.run.world g.run.position;
      limit = g.limit;
    } };

    ghost invariant = { λ g. IsOpened g.module g.schedule g.limit g.start.world g.start.position g.run.world g.run.position };
}

/// The run at its start with the least journal, and once more with one that keeps at most so many marks and entries.
fn runs_of(
    alloc: Global,
    m: &Runnable,
    schedule: &Schedule,
    limit: usize,
) -> Result<(Run, Run), NoMemory>
    requires fits { schedule.now.invocations ≡ length (start_of m.now).statuses.list }
    requires limit { 1 ≤ limit }
    ensures opened { IfOk result (λ runs. IsOpened m.now schedule.now limit runs.0.world runs.0.position runs.1.world runs.1.position) }
    ensures position { IfOk result (λ runs. runs.1.position ≡ 0) }
    ensures kept { IfOk result (λ runs. kept_in runs.1.world runs.1.position ≡ 0) }
{
    let start = Run::start(alloc, m, schedule, 1)?;
    let run = start.copy(alloc, m, schedule, limit)?;
    Ok((start, run))
}

impl Group {
    /// The run of a module by the schedule of its setup, at its start, with a journal that keeps at most 1,048,576 marks and entries of
    /// events.
    pub fn open(alloc: Global, m: Runnable, schedule: Schedule) -> Result<Group, NoMemory>
        requires { schedule_for m.accepted m.setup ≡ Ok schedule }
        ensures { IfOk result (λ g. g ≡ first_undoing m schedule 1048576) }
    {
        Group::open_limited(alloc, m, schedule, LIMIT)
    }

    /// The same, with a journal that keeps at most so many marks and entries of events. There is no memory for 4,294,967,296 and more.
    pub fn open_limited(
        alloc: Global,
        m: Runnable,
        schedule: Schedule,
        limit: usize,
    ) -> Result<Group, NoMemory>
        requires fits { schedule_for m.accepted m.setup ≡ Ok schedule }
        requires limit { 1 ≤ limit }
        ensures { IfOk result (λ g. g ≡ first_undoing m schedule limit) }
    {
        runs_start_with_all();
        let (start, run) = runs_of(alloc, &m, &schedule, limit)?;
        Ok(Group {
            alloc,
            module: m,
            schedule,
            limit,
            start,
            run,
        })
    }

    /// The number of events that were made, at most 4,194,304.
    pub fn position(&self) -> u64
        ensures position { result ≡ self.now.group.position }
        ensures within { result ≤ end_in self.now.group }
        ensures most { result ≤ 4194304 }
    {
        let _entries = self.schedule.len();
        self.run.position
    }

    /// The least position to which a motion back takes no step: the events from there on are kept.
    pub fn first_kept(&self) -> u64
        ensures kept { result ≡ self.now.kept }
        ensures within { result ≤ self.now.group.position }
    {
        self.run.position - self.run.world.journal().marks()
    }

    /// The module that runs.
    pub fn module(&self) -> &Runnable
        ensures { result.now ≡ self.now.group.program }
    {
        &self.module
    }

    /// The schedule by which it runs.
    pub fn schedule(&self) -> &Schedule
        ensures { result.now ≡ self.now.group.schedule }
    {
        &self.schedule
    }

    /// How many invocations there are, from 1 to 1,024.
    pub fn invocations(&self) -> u32
        ensures count { result ≡ invocations_in self.now.group }
        ensures some { 0 < result }
    {
        self.module.accepted().invocations()
    }

    /// The invocation of the next event; none where the schedule ends here.
    pub fn next(&self) -> Option<u32>
        ensures entry { result ≡ slice_get (entries_in self.now.group) self.now.group.position }
        ensures exists { IfSome result (λ i. i < invocations_in self.now.group) }
    {
        runs_start_with_all();
        self.schedule.at(self.run.position)
    }

    /// The state at the position. Its journal keeps the events from the least position that is kept on, and not more than the limit.
    pub fn world(&self) -> &World
        ensures state { result.now.state ≡ state_in self.now.group }
        ensures sound { IsSound self.now.group.program result.now.state }
        ensures stacks { length result.now.state.stacks ≡ invocations_in self.now.group }
        ensures statuses { length result.now.state.statuses.list ≡ invocations_in self.now.group }
        ensures marks { length result.now.ring ≡ self.now.group.position - self.now.kept }
        ensures size { size result.now.ring ≤ self.now.limit }
    {
        runs_start_with_all();
        &self.run.world
    }

    /// What the event before the position did, told without undoing it; none at the start, where that event isn't kept, and where its changes
    /// are of another form. Inlined: it is called once an event.
    #[inline(always)]
    pub fn touch(&self) -> Option<Touch>
        ensures touch { IfSome result (λ t. (h : AnyHappening) → happening_before self.now.group.program (entries_in self.now.group) self.now.group.position ≡ Some h
            → IsTouch t h.inv (state_in (group_at (self.now.group.position - 1) self.now.group)) (state_in self.now.group)) }
    {
        self.run.world.touch()
    }

    /// How far an invocation is.
    pub fn status(&self, i: u32) -> Status4
        requires { i < invocations_in self.now.group }
        ensures { result ≡ status_of (state_in self.now.group) i }
    {
        runs_start_with_all();
        self.run.world.whole().statuses().get(i).kind()
    }

    /// Why the run ends here; none exactly where it goes on. It takes no step.
    pub fn end_cause(&self) -> Result<Option<EndCause>, NoMemory>
        ensures { IfOk result (λ cause. cause ≡ end_cause_in self.now.group) }
    {
        let next = self.schedule.at(self.run.position);
        cause_here(self.alloc, &self.module, &self.run.world, next)
    }

    /// Makes the next event, with one step, or none at an end that is no fault. After want of memory all is as before.
    pub fn forth<L: Ledger>(&mut self, steps: &mut Steps<L>) -> Result<Forth, NoMemory>
        ensures goes { Goes self.old.group.program (entries_in self.old.group) result self.old.group.position self.new.group.position }
        ensures same { self.new.group ≡ group_at self.new.group.position self.old.group }
        ensures limit { self.new.limit ≡ self.old.limit }
        ensures kept { ForthKeeps result (window_in self.new) self.old.kept self.new.kept }
        ensures cost { ForthCounts result steps.old steps.new }
    {
        self.run
            .forth(self.alloc, &self.module, &self.schedule, steps)
    }

    /// Takes the last event back. Where it is kept it is undone, with no step and no memory. Else the events from the start on are made
    /// again, with a step for each, the last on a copy. After want of memory all is as before.
    pub fn back<L: Ledger>(&mut self, steps: &mut Steps<L>) -> Result<Back, NoMemory>
        ensures goes { Returns self.old.group.program (entries_in self.old.group) result self.old.group.position self.new.group.position }
        ensures same { self.new.group ≡ group_at self.new.group.position self.old.group }
        ensures limit { self.new.limit ≡ self.old.limit }
        ensures undone { self.old.kept < self.old.group.position → IsOk result }
        ensures kept { BackKeeps result (window_in self.old) self.old.group.position self.old.kept self.new.kept }
        ensures cost { BackCounts result self.old.kept self.old.group.position steps.old steps.new }
    {
        if self.run.position == 0 {
            return Ok(Back::AtStart);
        }
        match self.run.back(&self.module, &self.schedule) {
            Some(happening) => Ok(Back::Went(happening)),
            None => Ok(Back::Went(self.make_again(steps)?)),
        }
    }

    /// Goes back by one event, with a run from the start on.
    fn make_again<L: Ledger>(&mut self, steps: &mut Steps<L>) -> Result<Happening, NoMemory>
        requires { 0 < self.old.group.position }
        ensures goes { OnOk result (self.old.group.position ≡ self.new.group.position + 1) }
        ensures happening { IfOk result (λ h. happening_before self.old.group.program (entries_in self.old.group) self.old.group.position ≡ Some h) }
        ensures same { self.new.group ≡ group_at self.new.group.position self.old.group }
        ensures limit { self.new.limit ≡ self.old.limit }
        ensures kept { OnOk result (self.new.kept ≤ window_in self.old) }
        ensures err { OnErr result (self.new ≡ self.old) }
        ensures counted { steps.old ≤ steps.new }
        ensures cost { steps.new ≤ steps.old + self.old.group.position }
        ensures exact { IsOk result → steps.new ≡ steps.old + self.old.group.position }
    {
        let target = self.run.position - 1;
        let mut run = self
            .start
            .copy(self.alloc, &self.module, &self.schedule, self.limit)?;
        run.run_to(self.alloc, &self.module, &self.schedule, target, steps)?;
        let happening = run.next_happening(self.alloc, &self.module, &self.schedule, steps)?;
        self.run.replace(run);
        Ok(happening)
    }

    /// Goes back to the start, without undoing and with no step. After want of memory the group is as before.
    pub fn restart(&mut self) -> Result<(), NoMemory>
        ensures start { OnOk result (self.new.group ≡ group_at 0 self.old.group) }
        ensures kept { OnOk result (self.new.kept ≡ 0) }
        ensures limit { self.new.limit ≡ self.old.limit }
        ensures err { OnErr result (self.new ≡ self.old) }
    {
        let run = self
            .start
            .copy(self.alloc, &self.module, &self.schedule, self.limit)?;
        self.run.replace(run);
        Ok(())
    }

    /// Goes back to a position without undoing: a run from the start on makes it again, and another from there to the old position
    /// tells each event that is taken back. Both together take a step for each event before the old position. After want of memory, of the
    /// one who is told too, the group is as before.
    pub fn back_to<W: Witness, L: Ledger>(
        &mut self,
        target: u64,
        witness: &mut W,
        steps: &mut Steps<L>,
    ) -> Result<(), NoMemory>
        requires { target ≤ self.old.group.position }
        ensures target { OnOk result (self.new.group ≡ group_at target self.old.group) }
        ensures told { (before : List AnyHappening) → W.follows before witness.old
            → OnOk result (W.follows (before ++ happenings_between self.old.group.program (entries_in self.old.group) target self.old.group.position) witness.new) }
        ensures kept { OnOk result (self.new.kept ≤ window_in self.new) }
        ensures reached { OnOk result (self.new.kept ≤ target) }
        ensures limit { self.new.limit ≡ self.old.limit }
        ensures within { self.new.group.position ≤ end_in self.old.group }
        ensures err { OnErr result (self.new ≡ self.old) }
        ensures counted { steps.old ≤ steps.new }
        ensures cost { steps.new ≤ steps.old + self.old.group.position }
    {
        let mut run = self
            .start
            .copy(self.alloc, &self.module, &self.schedule, self.limit)?;
        run.run_to(self.alloc, &self.module, &self.schedule, target, steps)?;
        run.tell_ahead(
            self.alloc,
            &self.module,
            &self.schedule,
            self.run.position,
            witness,
            steps,
        )?;
        self.run.replace(run);
        Ok(())
    }
}
