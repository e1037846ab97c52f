//! How far an invocation is.
ghost use Rattle.std.specs.Prelude.{◌≡◌};
ghost use Rattle.spv_statuses.specs.Invocations as spec;

use spv_base::Status4;

/// How far an invocation is. A barrier is named by the word number of its OpControlBarrier (SPIR-V 1.6 section 3.42.20).
#[derive(Clone, Copy)]
pub enum Status {
    /// Its next instruction is due.
    Ready,
    /// It waits at the barrier at this word.
    Arrived(u32),
    /// Its barrier is open, and it stands there still.
    Passed,
    /// It returned from the entry point.
    Finished,
}

impl Status {
    /// Whether its next event does something: it is Ready or Passed.
    pub fn moves(self) -> bool
        ensures { result ≡ spec.moves self }
    {
        match self {
            Status::Ready | Status::Passed => true,
            Status::Arrived(_) | Status::Finished => false,
        }
    }

    /// Whether it is finished.
    pub fn is_finished(self) -> bool
        ensures { result ≡ spec.is_finished self }
    {
        match self {
            Status::Finished => true,
            Status::Ready | Status::Arrived(_) | Status::Passed => false,
        }
    }

    /// Whether it waits at the barrier at a word.
    pub fn waits_at(self, word: u32) -> bool
        ensures { result ≡ spec.waits_at word self }
    {
        match self {
            Status::Arrived(at) => at == word,
            Status::Ready | Status::Passed | Status::Finished => false,
        }
    }

    /// The word of the barrier at which it waits.
    pub fn barrier(self) -> Option<u32>
        ensures { result ≡ spec.barrier_of self }
    {
        match self {
            Status::Arrived(word) => Some(word),
            Status::Ready | Status::Passed | Status::Finished => None,
        }
    }

    /// The status once its barrier has opened.
    pub fn once_opened(self) -> Status
        ensures { result ≡ spec.once_opened self }
    {
        match self {
            Status::Arrived(_) => Status::Passed,
            Status::Ready | Status::Passed | Status::Finished => self,
        }
    }

    /// The status once the barrier at a word is closed again.
    pub fn once_closed(self, word: u32) -> Status
        ensures { result ≡ spec.once_closed word self }
    {
        match self {
            Status::Passed => Status::Arrived(word),
            Status::Ready | Status::Arrived(_) | Status::Finished => self,
        }
    }

    /// The status without the barrier.
    pub fn kind(self) -> Status4
        ensures { result ≡ spec.kind self }
    {
        match self {
            Status::Ready => Status4::Ready,
            Status::Arrived(_) => Status4::Arrived,
            Status::Passed => Status4::Passed,
            Status::Finished => Status4::Finished,
        }
    }
}
