//! How many invocations wait at each barrier.
ghost use Rattle.std.specs.Prelude.{◌≡◌, ◌≢◌, ◌+◌, ◌<◌, ◌≤◌, ℕ, IfOk, cond, length, replicate, slice_index_or};
ghost use Rattle.spv_statuses.specs.Invocations.{IsWithin, waits_at};

use crate::invocations::Status;
use spv_base::NoMemory;
use std::alloc::Global;

/// By the word number of a barrier, how many invocations wait there.
#[derive(Drop)]
pub(crate) struct Waiting {
    counts: Vec<usize>,
}

impl Waiting {
    /// None waits at any of so many words.
    pub(crate) fn new(alloc: Global, words: u32) -> Result<Waiting, NoMemory>
        ensures { IfOk result (λ w. w.counts.items ≡ replicate words 0) }
    {
        Ok(Waiting {
            counts: vec![in alloc; 0; words as usize]?,
        })
    }

    /// Equal counts.
    pub(crate) fn copy(&self, alloc: Global) -> Result<Waiting, NoMemory>
        ensures { IfOk result (λ w. w.counts.items ≡ self.now.counts.items) }
    {
        Ok(Waiting {
            counts: Vec::from_slice(alloc, self.counts.as_slice())?,
        })
    }

    /// How many wait at a word.
    pub(crate) fn at(&self, word: u32) -> usize
        ensures { result ≡ slice_index_or self.now.counts.items word 0 }
    {
        self.counts.get(word as usize).copied().unwrap_or(0)
    }

    /// One fewer waits where an invocation of a status waited.
    #[tactic(auto, using(crate::proofs::CountLemmas::leaves_place))]
    pub(crate) fn leave(&mut self, status: Status)
        requires counted { (word : ℕ) → cond (waits_at word status) 1 0 ≤ slice_index_or self.old.counts.items word 0 }
        ensures counts { (word : ℕ) → slice_index_or self.new.counts.items word 0 + cond (waits_at word status) 1 0 ≡ slice_index_or self.old.counts.items word 0 }
        ensures words { length self.new.counts.items ≡ length self.old.counts.items }
    {
        if let Status::Arrived(word) = status {
            self.counts[word as usize] -= 1;
        }
    }

    /// One more waits where an invocation of a status waits.
    pub(crate) fn enter(&mut self, status: Status)
        requires room { (word : ℕ) → slice_index_or self.old.counts.items word 0 < 18446744073709551615 }
        requires within { IsWithin (length self.old.counts.items) status }
        ensures counts { (word : ℕ) → slice_index_or self.new.counts.items word 0 ≡ slice_index_or self.old.counts.items word 0 + cond (waits_at word status) 1 0 }
        ensures words { length self.new.counts.items ≡ length self.old.counts.items }
    {
        if let Status::Arrived(word) = status {
            self.counts[word as usize] += 1;
        }
    }

    /// So many wait at a word of the module, and at no other one more than before.
    pub(crate) fn put(&mut self, word: u32, count: usize)
        requires { word < length self.old.counts.items }
        ensures words { length self.new.counts.items ≡ length self.old.counts.items }
        ensures there { slice_index_or self.new.counts.items word 0 ≡ count }
        ensures others { (other : ℕ) → other ≢ word → slice_index_or self.new.counts.items other 0 ≡ slice_index_or self.old.counts.items other 0 }
    {
        self.counts[word as usize] = count;
    }
}
