//! A probe of barriers.
ghost use Rattle.std.specs.Prelude.{◌≡◌};
ghost use Rattle.spv_probe.specs.Tests.{is_arrival};

use spv_base::{Happening, Kind, Probe};

/// Counts the arrivals at barriers, and those that open one among them.
#[derive(Drop)]
pub struct Barriers {
    count: u64,
}

impl Barriers {
    /// A probe that has counted nothing.
    pub fn new() -> Barriers
        ensures count { ⟦<Barriers as Probe>⟧.tally result ≡ 0 }
        ensures test { ⟦<Barriers as Probe>⟧.test result ≡ is_arrival }
    {
        Barriers { count: 0 }
    }
}

impl Probe for Barriers {
    ghost tally = { λ it. it.count };

    ghost test = { λ it h. is_arrival h };

    fn count(&self) -> u64 {
        self.count
    }

    fn hits(&self, h: &Happening) -> bool {
        matches!(h.kind, Kind::Arrive | Kind::Opened)
    }

    fn forth(&mut self, h: &Happening) {
        if self.hits(h) {
            self.count += 1;
        }
    }

    fn back(&mut self, h: &Happening) {
        if self.hits(h) {
            self.count -= 1;
        }
    }
}
