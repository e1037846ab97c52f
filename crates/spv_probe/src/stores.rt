//! A probe of stores.
ghost use Rattle.std.specs.Prelude.{◌≡◌};
ghost use Rattle.spv_probe.specs.Tests.{is_store};

use spv_base::{Happening, Kind, Probe};

/// Counts the writes to a StorageBuffer or Workgroup variable, or to any.
#[derive(Drop)]
pub struct Stores {
    root: Option<u32>,
    count: u64,
}

impl Stores {
    /// A probe of the variable with this id, or of all where none is asked for. It has counted nothing.
    pub fn new(root: Option<u32>) -> Stores
        ensures count { ⟦<Stores as Probe>⟧.tally result ≡ 0 }
        ensures test { ⟦<Stores as Probe>⟧.test result ≡ is_store root }
    {
        Stores { root, count: 0 }
    }
}

impl Probe for Stores {
    ghost tally = { λ it. it.count };

    ghost test = { λ it h. is_store it.root h };

    fn count(&self) -> u64 {
        self.count
    }

    fn hits(&self, h: &Happening) -> bool {
        matches!(h.kind, Kind::Write) && self.root.is_none_or(|root| h.root == root)
    }

    fn forth(&mut self, h: &Happening) {
        if self.hits(h) {
            self.count += 1;
        }
    }

    fn back(&mut self, h: &Happening) {
        if self.hits(h) {
            self.count -= 1;
        }
    }
}
