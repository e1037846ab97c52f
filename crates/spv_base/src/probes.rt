//! Probes, which watch the events of a run.
ghost use Rattle.std.specs.Prelude.{◌≡◌, ℕ, ◌-◌, ◌^◌, ◌<◌, Bool, IsTrue};
ghost use Rattle.spv_base.specs.Counting.{Counts, Uncounts};
ghost use Rattle.spv_base.specs.declared.happenings.Happening.{Happening};

use crate::happenings::Happening;

/// A count of the events that a test hits.
pub trait Probe: Drop {
    /// How many events were hit.
    ghost tally: { Self → ℕ };

    /// Which events are hit.
    ghost test: { Self → Happening → Bool };

    /// How many events were hit.
    fn count(&self) -> u64
        ensures { result ≡ tally self.now };

    /// Whether this event is hit.
    fn hits(&self, h: &Happening) -> bool
        ensures { result ≡ test self.now h.now };

    /// Counts an event.
    fn forth(&mut self, h: &Happening)
        requires { tally self.old < 2 ^ 64 - 1 }
        ensures { Counts tally test h.now self.old self.new };

    /// Takes an event back.
    fn back(&mut self, h: &Happening)
        requires { IsTrue (test self.old h.now) → 0 < tally self.old }
        ensures { Uncounts tally test h.now self.old self.new };
}
