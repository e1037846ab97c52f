//! Events, and why a run ends.

/// What kind of event happened.
#[derive(Clone, Copy)]
pub enum Kind {
    /// The invocation waits or is finished: nothing changed.
    Idle,
    /// None of the other kinds.
    Plain,
    /// A store, memory copy or atomic other than AtomicLoad whose root is a StorageBuffer or Workgroup variable.
    Write,
    /// An arrival at a barrier.
    Arrive,
    /// An arrival that opens the barrier.
    Opened,
}

/// One event: its invocation, its kind, the word number of its instruction, the id of the shared variable
/// that was written (0 if none), and the source line of a line head (else 0).
#[derive(Clone, Copy)]
pub struct Happening {
    pub inv: u32,
    pub kind: Kind,
    pub word: u32,
    pub root: u32,
    pub line: u32,
}

/// How far an invocation is.
#[derive(Clone, Copy)]
pub enum Status4 {
    Ready,
    /// It waits at a barrier.
    Arrived,
    /// Its barrier is open, and it stands there still.
    Passed,
    Finished,
}

/// A fault of an invocation at the instruction with this word number.
#[derive(Clone, Copy)]
pub struct Fault {
    pub code: u8,
    pub inv: u32,
    pub word: u32,
}

/// Why a run is at its end.
#[derive(Clone, Copy)]
pub enum EndCause {
    /// All invocations are finished.
    Finished,
    /// No invocation is ready or passed, and one has arrived at a barrier.
    Stuck,
    /// The next entry's event faults.
    Fault(Fault),
    /// The schedule has no further entry.
    Schedule,
}
