//! A probe of lines.
ghost use Rattle.std.specs.Prelude.{◌≡◌};
ghost use Rattle.spv_probe.specs.Tests.{is_head};

use spv_base::{Happening, Probe};

/// Counts the events at the heads of a source line, or of all lines.
#[derive(Drop)]
pub struct Lines {
    line: Option<u32>,
    count: u64,
}

impl Lines {
    /// A probe of this line, or of all where none is asked for. It has counted nothing.
    pub fn new(line: Option<u32>) -> Lines
        ensures count { ⟦<Lines as Probe>⟧.tally result ≡ 0 }
        ensures test { ⟦<Lines as Probe>⟧.test result ≡ is_head line }
    {
        Lines { line, count: 0 }
    }
}

impl Probe for Lines {
    ghost tally = { λ it. it.count };

    ghost test = { λ it h. is_head it.line h };

    fn count(&self) -> u64 {
        self.count
    }

    fn hits(&self, h: &Happening) -> bool {
        h.line != 0 && self.line.is_none_or(|line| h.line == line)
    }

    fn forth(&mut self, h: &Happening) {
        if self.hits(h) {
            self.count += 1;
        }
    }

    fn back(&mut self, h: &Happening) {
        if self.hits(h) {
            self.count -= 1;
        }
    }
}
