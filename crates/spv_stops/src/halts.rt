//! Halts of probes.
use crate::stops::place_of;
use spv_base::{NoMemory, find_entry};
use std::alloc::Global;
use std::marker::Model;

/// At which multiples of its tally each probe stops a run. A probe has one halt at most.
#[derive(Drop)]
pub struct Halts {
    halts: Vec<(u32, u32)>,
}

impl Model for Halts {
    ghost use Rattle.spv_stops.specs.Halts.{Halts as AnyHalts, AreHalts};

    ghost Value = { AnyHalts };

    ghost view = { λ h. h.halts.items };

    ghost invariant = { λ h. AreHalts h.halts.items };
}

impl Halts {
    ghost use Rattle.std.specs.Prelude.{◌≡◌, ◌<◌, ◌==◌, [], OnOk, OnErr, length};
    ghost use Rattle.spv_stops.specs.Halts.{with_halt, without_halt, is_halted};

    /// No halts. Takes no memory.
    pub fn new(alloc: Global) -> Halts
        ensures { result ≡ [] }
    {
        Halts {
            halts: Vec::new(alloc),
        }
    }

    /// Whether no probe has a halt.
    pub fn is_empty(&self) -> bool
        ensures { result ≡ (length self.now == 0) }
    {
        self.halts.is_empty()
    }

    /// Sets the halt of the probe `k` to multiples of `n`, in the place of an earlier one.
    pub fn set(&mut self, k: u32, n: u32) -> Result<(), NoMemory>
        requires { 0 < n }
        ensures ok { OnOk result (self.new ≡ with_halt k n self.old) }
        ensures err { OnErr result (self.new ≡ self.old) }
    {
        match place_of(&self.halts, k) {
            Some(place) => self.halts[place] = (k, n),
            None => self.halts.push((k, n))?,
        }
        Ok(())
    }

    /// Takes the halt of the probe `k` away, where it has one.
    pub fn unset(&mut self, k: u32)
        ensures { self.new ≡ without_halt k self.old }
    {
        self.halts.retain(|halt| halt.0 != k);
    }

    /// Whether the probe `k` stops a run after an event: whether the event hits it is told, and its tally behind the event.
    pub fn hit(&self, k: u32, hits: bool, tally: u64) -> bool
        ensures { result ≡ is_halted k hits tally self.now }
    {
        match find_entry(&self.halts, k) {
            Some(n) => hits && tally % u64::from(*n) == 0,
            None => false,
        }
    }
}
