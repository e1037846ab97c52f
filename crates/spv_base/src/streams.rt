//! Input and output that lie in memory: some fail at no call, and some at the calls whose numbers are listed.
//! The first call has the number 0.
ghost use Rattle.std.specs.Prelude.{◌≡◌, ◌↔◌, ◌+◌, ◌-◌, ◌^◌, ◌<◌, ◌≤◌, [], ◌∷◌, ◌++◌, drop, None, Some, length, min, vec_len, Contains, IfOk, IsErr, IsOk, IsSome};
ghost use Rattle.std.specs.Io.{ReadsAtMost};
ghost use Rattle.std.specs.Io.KnownBytes.{ReadConsumes, WriteAppends};
ghost use Rattle.spv_base.specs.Outside.{CountsFault, CountsEnd, TakesSome};

use crate::causes::Failed;
use crate::ghosts::Ghost;
use crate::lists::Items;
use crate::outside::{Sink, Source};
use crate::told::{end_told, no_ends, no_offers, offered};
use std::alloc::Global;

/// Input that lies in memory and fails at no call.
#[derive(Drop)]
pub struct MemorySource {
    pub bytes: Vec<u8>,
    pub at: usize,
    /// How often the end was told.
    pub ends: Ghost<u64>,
    ghost within: { at ≤ vec_len bytes },
}

impl MemorySource {
    /// All of these bytes are left.
    pub fn new(bytes: Vec<u8>) -> MemorySource
        ensures bytes { result.bytes ≡ bytes }
        ensures at { result.at ≡ 0 }
        ensures ends { result.ends.value ≡ 0 }
    {
        MemorySource {
            bytes,
            at: 0,
            ends: no_ends(),
        }
    }
}

impl Source for MemorySource {
    ghost left = { λ s. Some (drop s.at s.bytes.items) };

    ghost faults = { λ s. 0 };

    ghost ends = { λ s. s.ends.value };

    fn read(&mut self, buf: &mut [u8]) -> Result<usize, Failed>
        requires { 0 < 2 ^ 64 - 1 }
        ensures bound { ReadsAtMost result buf.new }
        ensures bytes { ReadConsumes (Some (drop self.old.at self.old.bytes.items)) (Some (drop self.new.at self.new.bytes.items)) result buf.new }
        ensures count { CountsFault 0 0 result }
        ensures end { CountsEnd self.old.ends.value self.new.ends.value result buf.new }
        ensures never { IsOk result }
    {
        let count = (self.bytes.len() - self.at).min(buf.len());
        let end = self.at + count;
        buf[..count].copy_from_slice(&self.bytes[self.at..end]);
        self.at = end;
        self.ends = end_told(&self.ends, count, buf);
        Ok(count)
    }
}

/// Input that lies in memory. It gives at most so many bytes at a call, and fails exactly at the calls that are listed.
#[derive(Drop)]
pub struct FailingSource {
    pub held: MemorySource,
    pub most: usize,
    pub fails: Vec<u64>,
    /// How many calls were made, to the greatest u64.
    pub calls: u64,
    pub faults: u64,
    ghost some: { 0 < most },
}

impl FailingSource {
    /// All of these bytes are left, and no call was made.
    pub fn new(bytes: Vec<u8>, most: usize, fails: Vec<u64>) -> FailingSource
        requires { 0 < most }
        ensures bytes { result.held.bytes ≡ bytes }
        ensures at { result.held.at ≡ 0 }
        ensures ends { result.held.ends.value ≡ 0 }
        ensures most { result.most ≡ most }
        ensures fails { result.fails ≡ fails }
        ensures calls { result.calls ≡ 0 }
        ensures faults { result.faults ≡ 0 }
    {
        FailingSource {
            held: MemorySource::new(bytes),
            most,
            fails,
            calls: 0,
            faults: 0,
        }
    }
}

impl Source for FailingSource {
    ghost left = { λ s. Some (drop s.held.at s.held.bytes.items) };

    ghost faults = { λ s. s.faults };

    ghost ends = { λ s. s.held.ends.value };

    fn read(&mut self, buf: &mut [u8]) -> Result<usize, Failed>
        requires { self.old.faults < 2 ^ 64 - 1 }
        ensures bound { ReadsAtMost result buf.new }
        ensures bytes { ReadConsumes (Some (drop self.old.held.at self.old.held.bytes.items)) (Some (drop self.new.held.at self.new.held.bytes.items)) result buf.new }
        ensures count { CountsFault self.old.faults self.new.faults result }
        ensures end { CountsEnd self.old.held.ends.value self.new.held.ends.value result buf.new }
        ensures exactly { IsErr result ↔ Contains self.old.fails.items self.old.calls }
        ensures most { IfOk result (λ n. n ≤ self.old.most) }
        ensures calls { self.new.calls ≡ min (self.old.calls + 1) (2 ^ 64 - 1) }
        ensures fails { self.new.fails ≡ self.old.fails }
        ensures same_most { self.new.most ≡ self.old.most }
    {
        let call = self.calls;
        self.calls = call.saturating_add(1);
        let is_listed = self.fails.contains(&call);
        if is_listed {
            self.faults += 1;
            return Err(Failed);
        }
        let room = buf.len().min(self.most);
        self.held.read(&mut buf[..room])
    }
}

/// Why a call of a sink in memory failed.
#[derive(Clone, Copy)]
pub enum SinkFault {
    /// The call's number is listed.
    Listed,
    /// There was no memory for the bytes.
    NoMemory,
}

/// Output that is kept in memory. A call fails exactly where memory runs out, since the bytes that it keeps need memory. That may
/// be at any call: no clause can say when memory ends.
#[derive(Drop)]
pub struct MemorySink {
    pub bytes: Vec<u8>,
    pub faults: u64,
    /// Why the last call failed; none where it did not.
    pub last_fault: Option<SinkFault>,
    /// The pieces that were offered, in the order of the calls.
    pub offers: Ghost<Items<Items<u8>>>,
}

impl MemorySink {
    /// Nothing was taken.
    pub fn new(alloc: Global) -> MemorySink
        ensures bytes { result.bytes.items ≡ [] }
        ensures faults { result.faults ≡ 0 }
        ensures last_fault { result.last_fault ≡ None }
        ensures offers { result.offers.value ≡ [] }
    {
        MemorySink {
            bytes: Vec::new(alloc),
            faults: 0,
            last_fault: None,
            offers: no_offers(),
        }
    }

    /// Ends a call that fails to take what it was offered.
    fn fail(&mut self, fault: SinkFault, offer: &[u8]) -> Failed
        requires { self.old.faults < 2 ^ 64 - 1 }
        ensures faults { self.new.faults ≡ self.old.faults + 1 }
        ensures last_fault { self.new.last_fault ≡ Some fault }
        ensures bytes { self.new.bytes ≡ self.old.bytes }
        ensures offer { self.new.offers.value ≡ self.old.offers.value ++ offer.now ∷ [] }
    {
        self.faults += 1;
        self.last_fault = Some(fault);
        self.offers = offered(&self.offers, offer);
        Failed
    }

    /// Takes so many bytes from the front of what it was offered.
    fn take(&mut self, offer: &[u8], count: usize) -> Result<usize, Failed>
        requires faults { self.old.faults < 2 ^ 64 - 1 }
        requires count { count ≤ length offer.now }
        ensures count { CountsFault self.old.faults self.new.faults result }
        ensures bytes { WriteAppends (Some self.old.bytes.items) (Some self.new.bytes.items) result offer.now }
        ensures offer { self.new.offers.value ≡ self.old.offers.value ++ offer.now ∷ [] }
        ensures fault { IsErr result → self.new.last_fault ≡ Some SinkFault.NoMemory }
        ensures taken { IfOk result (λ n. (n ≡ count) × (self.new.last_fault ≡ None)) }
    {
        if self.bytes.extend_from_slice(&offer[..count]).is_err() {
            return Err(self.fail(SinkFault::NoMemory, offer));
        }
        self.last_fault = None;
        self.offers = offered(&self.offers, offer);
        Ok(count)
    }
}

impl Sink for MemorySink {
    ghost taken = { λ s. Some s.bytes.items };

    ghost faults = { λ s. s.faults };

    ghost offers = { λ s. s.offers.value };

    fn write(&mut self, bytes: &[u8]) -> Result<usize, Failed>
        requires { self.old.faults < 2 ^ 64 - 1 }
        ensures bound { TakesSome result bytes.now }
        ensures bytes { WriteAppends (Some self.old.bytes.items) (Some self.new.bytes.items) result bytes.now }
        ensures count { CountsFault self.old.faults self.new.faults result }
        ensures offer { self.new.offers.value ≡ self.old.offers.value ++ bytes.now ∷ [] }
        ensures exactly { IsErr result ↔ (self.new.last_fault ≡ Some SinkFault.NoMemory) }
        ensures taken { IfOk result (λ n. (n ≡ length bytes.now) × (self.new.last_fault ≡ None)) }
    {
        self.take(bytes, bytes.len())
    }
}

/// Output that is kept in memory. It takes at most so many bytes at a call, and fails exactly at the calls that are listed and
/// where memory runs out.
#[derive(Drop)]
pub struct FailingSink {
    pub held: MemorySink,
    pub most: usize,
    pub fails: Vec<u64>,
    /// How many calls were made, to the greatest u64.
    pub calls: u64,
    ghost some: { 0 < most },
}

impl FailingSink {
    /// Nothing was taken, and no call was made.
    pub fn new(alloc: Global, most: usize, fails: Vec<u64>) -> FailingSink
        requires { 0 < most }
        ensures bytes { result.held.bytes.items ≡ [] }
        ensures most { result.most ≡ most }
        ensures fails { result.fails ≡ fails }
        ensures calls { result.calls ≡ 0 }
        ensures faults { result.held.faults ≡ 0 }
    {
        FailingSink {
            held: MemorySink::new(alloc),
            most,
            fails,
            calls: 0,
        }
    }
}

impl Sink for FailingSink {
    ghost taken = { λ s. Some s.held.bytes.items };

    ghost faults = { λ s. s.held.faults };

    ghost offers = { λ s. s.held.offers.value };

    fn write(&mut self, bytes: &[u8]) -> Result<usize, Failed>
        requires { self.old.held.faults < 2 ^ 64 - 1 }
        ensures bound { TakesSome result bytes.now }
        ensures bytes { WriteAppends (Some self.old.held.bytes.items) (Some self.new.held.bytes.items) result bytes.now }
        ensures count { CountsFault self.old.held.faults self.new.held.faults result }
        ensures offer { self.new.held.offers.value ≡ self.old.held.offers.value ++ bytes.now ∷ [] }
        ensures exactly { IsErr result ↔ IsSome self.new.held.last_fault }
        ensures listed { (self.new.held.last_fault ≡ Some SinkFault.Listed) ↔ Contains self.old.fails.items self.old.calls }
        ensures taken { IfOk result (λ n. n ≡ min (length bytes.now) self.old.most) }
        ensures calls { self.new.calls ≡ min (self.old.calls + 1) (2 ^ 64 - 1) }
        ensures fails { self.new.fails ≡ self.old.fails }
        ensures same_most { self.new.most ≡ self.old.most }
    {
        let call = self.calls;
        self.calls = call.saturating_add(1);
        if self.fails.contains(&call) {
            return Err(self.held.fail(SinkFault::Listed, bytes));
        }
        let count = bytes.len().min(self.most);
        self.held.take(bytes, count)
    }
}
