//! The statuses of the invocations of a workgroup.
ghost use Rattle.std.specs.Prelude.{◌≡◌, ◌<◌, ◌≤◌, ◌+◌, ◌&&◌, IfOk, None, Some, true, length, nat_eq, nat_lt, replicate, slice_get, if◌then◌else◌};
ghost use Rattle.std.specs.List.{list_all, list_any};
ghost use Rattle.spv_statuses.specs.Group as spec;
ghost use Rattle.spv_statuses.specs.Invocations.{IsWithin, moves, passed_or_finished, waits_or_finished};

use crate::counts::Waiting;
use crate::invocations::Status;
use spv_base::NoMemory;
use std::alloc::Global;
use std::marker::Model;
use std::mem;

/// The statuses of the invocations of a workgroup, by their numbers, with counts of what they tell together, so that no test goes over
/// all of them (which is measured, and said by no clause). Contracts see the list, and how many words the module has.
#[derive(Drop)]
pub struct Statuses {
    list: Vec<Status>,
    /// How many are Ready or Passed.
    moving: usize,
    finished: usize,
    /// By the word of a barrier, how many wait there.
    waiting: Waiting,
}

impl Model for Statuses {
    ghost use Rattle.std.specs.Prelude.{length};
    ghost use Rattle.spv_statuses.specs.Group.{AreCounted, Held};

    ghost Value = { Held };

    ghost view = { λ s. record { list = s.list.items; words = length s.waiting.counts.items } };

    ghost invariant = { λ s. AreCounted s.list.items s.moving s.finished s.waiting.counts.items };
}

/// Whether a barrier opens at which so many invocations wait, of so many, where finished ones count as arrived or don't.
fn opens(finished_count: bool, waiting: usize, finished: usize, all: usize) -> bool
    requires { waiting + finished ≤ all }
    ensures { result ≡ (if finished_count then nat_lt 0 waiting && nat_eq (waiting + finished) all else nat_eq waiting all) }
{
    if finished_count {
        waiting > 0 && waiting + finished == all
    } else {
        waiting == all
    }
}

/// The word of the barrier at which the first invocation waits that does.
fn first_waiting(statuses: &[Status]) -> Option<u32>
    ensures { result ≡ spec.first_waiting statuses.now }
{
    for status in statuses {
        if let Some(word) = status.barrier() {
            return Some(word);
        }
    }
    None
}

/// All that wait have passed their barrier.
fn open_all(statuses: &mut Vec<Status>)
    ensures { statuses.new.items ≡ spec.opened statuses.old.items }
{
    for status in statuses.iter_mut() {
        *status = status.once_opened();
    }
}

/// All that have passed the barrier at a word wait there.
fn close_all(statuses: &mut Vec<Status>, word: u32)
    ensures { statuses.new.items ≡ spec.closed word statuses.old.items }
{
    for status in statuses.iter_mut() {
        *status = status.once_closed(word);
    }
}

impl Statuses {
    /// So many invocations, each Ready, over a module of so many words.
    #[tactic(auto, using(crate::proofs::CountLemmas::count_replicate))]
    pub fn new(alloc: Global, invocations: u32, words: u32) -> Result<Statuses, NoMemory>
        ensures { IfOk result (λ s. s ≡ record { list = replicate invocations Status.Ready; words = words }) }
    {
        Ok(Statuses {
            list: vec![in alloc; Status::Ready; invocations as usize]?,
            moving: invocations as usize,
            finished: 0,
            waiting: Waiting::new(alloc, words)?,
        })
    }

    /// Equal statuses.
    pub fn copy(&self, alloc: Global) -> Result<Statuses, NoMemory>
        ensures { IfOk result (λ s. s ≡ self.now) }
    {
        Ok(Statuses {
            list: Vec::from_slice(alloc, self.list.as_slice())?,
            moving: self.moving,
            finished: self.finished,
            waiting: self.waiting.copy(alloc)?,
        })
    }

    /// How many invocations there are.
    pub fn len(&self) -> usize
        ensures { result ≡ length self.now.list }
    {
        self.list.len()
    }

    /// The status of an invocation.
    pub fn get(&self, inv: u32) -> Status
        requires { inv < length self.now.list }
        ensures { slice_get self.now.list inv ≡ Some result }
    {
        self.list[inv as usize]
    }

    /// Whether the barrier at a word opens, where finished invocations count as arrived or don't.
    #[tactic(auto, using(crate::proofs::BarrierLemmas::opens_counted, crate::proofs::BarrierLemmas::counts_apart))]
    pub fn opens_at(&self, finished_count: bool, word: u32) -> bool
        ensures { result ≡ spec.opens_at finished_count word self.now.list }
    {
        opens(
            finished_count,
            self.waiting.at(word),
            self.finished,
            self.list.len(),
        )
    }

    /// Whether the barrier at a word opens once an invocation waits there.
    pub fn opens_with(&self, finished_count: bool, inv: u32, word: u32) -> bool
        requires { inv < length self.now.list }
        ensures { result ≡ spec.opens_at finished_count word (spec.with_status inv (Status.Arrived word) self.now.list) }
    {
        let old = self.get(inv);
        let waiting = self.waiting.at(word) + usize::from(!old.waits_at(word));
        let finished = self.finished - usize::from(old.is_finished());
        opens(finished_count, waiting, finished, self.list.len())
    }

    /// The word of the barrier at which the first invocation waits that does, where none moves. It looks for it only there, and goes over
    /// the statuses then.
    pub fn first_waiting(&self) -> Option<u32>
        ensures { result ≡ (if list_any moves self.now.list then None else spec.first_waiting self.now.list) }
    {
        if self.moving == 0 {
            first_waiting(&self.list)
        } else {
            None
        }
    }

    /// Whether all invocations are finished.
    #[tactic(auto, using(crate::proofs::CountLemmas::all_counted))]
    pub fn all_finished(&self) -> bool
        ensures { result ≡ spec.all_finished self.now.list }
    {
        self.finished == self.list.len()
    }

    /// Whether no invocation is Ready or Passed, and one is Arrived.
    #[tactic(auto, using(crate::proofs::CountLemmas::stuck_counted, crate::proofs::CountLemmas::moving_counted))]
    pub fn is_stuck(&self) -> bool
        ensures { result ≡ spec.is_stuck self.now.list }
    {
        self.moving == 0 && self.finished < self.list.len()
    }

    /// Gives an invocation another status, and hands back the one that it had. It takes no memory, and the same call undoes it.
    #[tactic(auto, using(crate::proofs::CountLemmas::count_set, crate::proofs::CountLemmas::count_has, crate::proofs::CountLemmas::within_counted))]
    pub fn exchange(&mut self, inv: u32, status: Status) -> Status
        requires inside { inv < length self.old.list }
        requires within { IsWithin self.old.words status }
        ensures after { self.new ≡ record self.old { list = spec.with_status inv status self.old.list } }
        ensures handed { slice_get self.old.list inv ≡ Some result }
        ensures within { IsWithin self.old.words result }
    {
        let old = mem::replace(&mut self.list[inv as usize], status);
        self.moving = self.moving + usize::from(status.moves()) - usize::from(old.moves());
        self.finished = self.finished + usize::from(status.is_finished())
            - usize::from(old.is_finished());
        self.waiting.leave(old);
        self.waiting.enter(status);
        old
    }

    /// Opens the barrier at a word, at which all invocations wait that aren't finished: these have passed it. It takes no memory.
    pub fn open(&mut self, word: u32)
        requires waiting { list_all (waits_or_finished word) self.old.list ≡ true }
        requires within { word < self.old.words }
        ensures { self.new ≡ record self.old { list = spec.opened self.old.list } }
    {
        open_all(&mut self.list);
        self.moving = self.waiting.at(word);
        self.waiting.put(word, 0);
    }

    /// Closes the barrier at a word again, which all invocations have passed that aren't finished: these wait there. It takes no memory.
    pub fn close(&mut self, word: u32)
        requires passed { list_all passed_or_finished self.old.list ≡ true }
        requires within { word < self.old.words }
        ensures { self.new ≡ record self.old { list = spec.closed word self.old.list } }
    {
        close_all(&mut self.list, word);
        self.waiting.put(word, self.moving);
        self.moving = 0;
    }
}
