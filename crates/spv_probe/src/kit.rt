//! The boxed probes of a session.
ghost use Rattle.std.specs.Prelude.{◌≡◌, ◌≤◌, vec_len, ◌-◌, ◌++◌, ◌∷◌, [], List, Bool, Option, Some, None, Ok, Err, IfOk, OnOk, OnErr, All, is_some, option_map, map, set, count_by, if◌then◌else◌, false};
ghost use Rattle.std.specs.List.{list_any};
ghost use Rattle.spv_base.specs.declared.happenings.Happening.{Happening as AnyHappening};
ghost use Rattle.spv_probe.specs.Kits.{place, tests_of, AllBelow, AllAbove, AllCount, AllUncount, Follows};

use crate::slots;
use spv_base::{CmdRefusal, Happening, NoMemory, Probe};
use std::alloc::Global;

/// No probe of this number is there.
const NO_SUCH_NUMBER: CmdRefusal = CmdRefusal { code: 7 };

/// Probes that were handed in, numbered from 1 in their order. The place of one that was dropped is empty. Only `new` takes memory.
#[derive(Drop)]
pub struct Kit {
    pub boxes: Vec<Option<Box<dyn Probe>>>,
    ghost few: { vec_len boxes ≤ 16 },
}

impl Kit {
    /// A kit of these probes, which have counted nothing.
    pub fn new(alloc: Global, probes: Vec<Box<dyn Probe>>) -> Result<Kit, NoMemory>
        requires few { vec_len probes ≤ 16 }
        requires unused { All (λ p. tally p ≡ 0) probes.items }
        ensures boxes { IfOk result (λ kit. kit.boxes.items ≡ map Some probes.items) }
        ensures follows { IfOk result (λ kit. Follows (λ p. tally p) (λ p. test p) (map (λ p. Some (test p)) probes.items) [] kit.boxes.items) }
    {
        let boxes = slots::filled(alloc, probes)?;
        Ok(Kit { boxes })
    }

    /// A kit without probes. Takes no memory.
    pub fn empty(alloc: Global) -> Kit
        ensures { result.boxes.items ≡ [] }
    {
        Kit {
            boxes: Vec::new(alloc),
        }
    }

    /// Whether a probe is there.
    pub fn has_one(&self) -> bool
        ensures one { result ≡ list_any is_some (tests_of (λ p. test p) self.now.boxes.items) }
        ensures none { result ≡ false → (events : List AnyHappening) → Follows (λ p. tally p) (λ p. test p) (tests_of (λ p. test p) self.now.boxes.items) events self.now.boxes.items }
    {
        slots::any(&self.boxes)
    }

    /// Counts an event in each probe that is there.
    pub fn forth(&mut self, h: &Happening)
        requires { AllBelow (λ p. tally p) self.old.boxes.items }
        ensures counts { AllCount (λ p. tally p) (λ p. test p) h.now self.old.boxes.items self.new.boxes.items }
        ensures follows { (tests : List (Option (AnyHappening → Bool))) (events : List AnyHappening) → Follows (λ p. tally p) (λ p. test p) tests events self.old.boxes.items
            → Follows (λ p. tally p) (λ p. test p) tests (events ++ h.now ∷ []) self.new.boxes.items }
    {
        for slot in self.boxes.iter_mut() {
            slots::forth(slot, h);
        }
    }

    /// Takes an event back in each probe that is there.
    pub fn back(&mut self, h: &Happening)
        requires { AllAbove (λ p. tally p) (λ p. test p) h.now self.old.boxes.items }
        ensures counts { AllUncount (λ p. tally p) (λ p. test p) h.now self.old.boxes.items self.new.boxes.items }
        ensures follows { (tests : List (Option (AnyHappening → Bool))) (events : List AnyHappening) → Follows (λ p. tally p) (λ p. test p) tests (events ++ h.now ∷ []) self.old.boxes.items
            → Follows (λ p. tally p) (λ p. test p) tests events self.new.boxes.items }
    {
        for slot in self.boxes.iter_mut() {
            slots::back(slot, h);
        }
    }

    /// Drops the probe with this number. Where there is none it is refused (C7).
    pub fn drop_one(&mut self, k: u32) -> Result<(), CmdRefusal>
        ensures answer { result ≡ (if is_some (place self.old.boxes.items k) then Ok tt else Err (record { code = 7 })) }
        ensures ok { OnOk result (self.new.boxes.items ≡ set self.old.boxes.items (k - 1) None) }
        ensures err { OnErr result (self.new ≡ self.old) }
        ensures follows { OnOk result ((tests : List (Option (AnyHappening → Bool))) (events : List AnyHappening) → Follows (λ p. tally p) (λ p. test p) tests events self.old.boxes.items
            → Follows (λ p. tally p) (λ p. test p) (set tests (k - 1) None) events self.new.boxes.items) }
    {
        if self.count(k).is_none() {
            return Err(NO_SUCH_NUMBER);
        }
        self.boxes[k as usize - 1] = None;
        Ok(())
    }

    /// The count of the probe with this number.
    pub fn count(&self, k: u32) -> Option<u64>
        ensures count { result ≡ option_map (λ p. tally p) (place self.now.boxes.items k) }
        ensures follows { (tests : List (Option (AnyHappening → Bool))) (events : List AnyHappening) → Follows (λ p. tally p) (λ p. test p) tests events self.now.boxes.items
            → result ≡ option_map (λ hit. count_by hit events) (place tests k) }
    {
        slots::count(&self.boxes, k)
    }

    /// Whether the probe with this number hits the event.
    pub fn hits(&self, k: u32, h: &Happening) -> Option<bool>
        ensures hits { result ≡ option_map (λ p. test p h.now) (place self.now.boxes.items k) }
        ensures follows { (tests : List (Option (AnyHappening → Bool))) (events : List AnyHappening) → Follows (λ p. tally p) (λ p. test p) tests events self.now.boxes.items
            → result ≡ option_map (λ hit. hit h.now) (place tests k) }
    {
        slots::hits(&self.boxes, k, h)
    }
}
