//! Watches of variables.
use crate::stops::Stops;
use spv_base::{CmdRefusal, Fail, NoMemory, Places, find_entry};
use std::alloc::Global;
use std::marker::Model;

/// What a watch looks at: a range of bits of a variable.
///
/// `local` is false for a global, and then `depth`, `function` and `inlined` are 0. A local is one of the invocation `inv`,
/// in the real frame at this depth if it is one of this function, under this InlinedAt. The range is `count` bits from `first` on, and a
/// `u64` counts the bits up to its end: there is no variable with more.
#[derive(Clone, Copy)]
pub struct WatchKey {
    pub local: bool,
    pub inv: u32,
    pub depth: u32,
    pub function: u32,
    pub variable: u32,
    pub inlined: u32,
    pub first: u64,
    pub count: u64,
}

impl Model for WatchKey {
    ghost use Rattle.std.specs.Prelude.{◌+◌, ◌<◌, ◌^◌};
    ghost use Rattle.spv_stops.specs.Watches as spec;

    ghost Value = { spec.WatchKey };

    ghost view = { λ k. record {
      local = k.local;
      inv = k.inv;
      depth = k.depth;
      function = k.function;
      variable = k.variable;
      inlined = k.inlined;
      first = k.first;
      count = k.count;
    } };

    ghost invariant = { λ k. k.first + k.count < 2 ^ 64 };

    ghost inverse = { λ k. record {
      local = k.local;
      inv = k.inv;
      depth = k.depth;
      function = k.function;
      variable = k.variable;
      inlined = k.inlined;
      first = k.first;
      count = k.count;
    } };
}

/// At most 32 watches.
#[derive(Drop)]
pub struct Watches {
    stops: Stops<WatchKey, 32>,
}

impl Model for Watches {
    ghost use Rattle.spv_stops.specs.Stops.{Stops as AnyStops};
    ghost use Rattle.spv_stops.specs.Watches.{WatchKey};

    ghost Value = { AnyStops WatchKey };

    ghost view = { λ w. w.stops };
}

impl Watches {
    ghost use Rattle.std.specs.Prelude.{◌≡◌, ◌≢◌, ◌↔◌, [], map, Ok, Err, IfOk, OnOk, OnErr, IsTrue, IsSome, option_copied, if◌then◌else◌};
    ghost use Rattle.spv_base.specs.Answers.{Answers};
    ghost use Rattle.spv_stops.specs.Stops.{AreStops, number_of, is_kept, next_number, with_stop, without_stop};
    ghost use Rattle.spv_stops.specs.Watches.{key_of};

    /// No watches; the first number is 1. Takes no memory.
    pub fn new(alloc: Global) -> Watches
        ensures { result ≡ ([], 0) }
    {
        Watches {
            stops: Stops::new(alloc),
        }
    }

    /// Adds a watch, and gives its number. It is refused where 32 watches are kept or the number 4,294,967,295 was given (C9).
    pub fn add(&mut self, key: WatchKey) -> Result<u32, Fail<CmdRefusal>>
        ensures answer { Answers (next_number 32 self.old) result }
        ensures ok { OnOk result (self.new ≡ with_stop key self.old) }
        ensures err { OnErr result (self.new ≡ self.old) }
    {
        self.stops.add(key)
    }

    /// Removes the watch with this number, which isn't used again. Where there is none it is refused (C7).
    pub fn remove(&mut self, number: u32) -> Result<(), CmdRefusal>
        ensures answer { result ≡ (if is_kept number self.old then Ok tt else Err (record { code = 7 })) }
        ensures ok { OnOk result (self.new ≡ without_stop number self.old) }
        ensures err { OnErr result (self.new ≡ self.old) }
    {
        self.stops.remove(number)
    }

    /// The key of the watch with this number.
    pub fn key(&self, number: u32) -> Option<&WatchKey>
        ensures { option_copied result ≡ key_of number self.now }
    {
        find_entry(self.stops.list(), number)
    }

    /// The watches that are kept, each after its number, ascending.
    pub fn list(&self) -> &[(u32, WatchKey)]
        ensures list { result.now ≡ self.now.0 }
        ensures ascending { AreStops 32 self.now }
    {
        self.stops.list()
    }

    /// The numbers of the watches, ascending.
    pub fn numbers(&self, alloc: Global) -> Result<Places, NoMemory>
        ensures numbers { IfOk result (λ numbers. numbers ≡ map number_of self.now.0) }
        ensures ascending { AreStops 32 self.now }
    {
        let _ascending = self.stops.list();
        self.stops.numbers(alloc)
    }

    /// Whether the bits of the watch with this number differ. Each byte is a bit of its range: 0, 1, 2 for undefined or 3 for
    /// unbound. Without a list the bits are absent, which differs from each that is there.
    pub fn changed(&self, number: u32, before: Option<&[u8]>, after: Option<&[u8]>) -> bool
        requires { IsSome (key_of number self.now) }
        ensures { IsTrue result ↔ (option_copied before.entry ≢ option_copied after.entry) }
    {
        before != after
    }
}
