//! Input and output of a call, of which is kept how much it asked for.

use spv_base::{Failed, FailingSink, FailingSource, Sink, Source};

/// Input in memory, and the length of the longest buffer that was to be filled.
#[derive(Drop)]
pub struct Watched {
    pub held: FailingSource,
    pub longest: usize,
}

impl Source for Watched {
    ghost use Rattle.std.specs.Prelude.{Some, drop};

    ghost left = { λ s. Some (drop s.held.held.at s.held.held.bytes.items) };

    ghost faults = { λ s. s.held.faults };

    ghost ends = { λ s. s.held.held.ends.value };

    fn read(&mut self, buf: &mut [u8]) -> Result<usize, Failed> {
        self.longest = self.longest.max(buf.len());
        self.held.read(buf)
    }
}

/// Output in memory, and how long each piece was that was offered.
#[derive(Drop)]
pub struct Lengths {
    pub held: FailingSink,
    pub lengths: Vec<usize>,
}

impl Sink for Lengths {
    ghost use Rattle.std.specs.Prelude.{Some};

    ghost taken = { λ s. Some s.held.held.bytes.items };

    ghost faults = { λ s. s.held.held.faults };

    ghost offers = { λ s. s.held.held.offers.value };

    fn write(&mut self, bytes: &[u8]) -> Result<usize, Failed> {
        // Where memory runs out a length is missing.
        let _ = self.lengths.push(bytes.len());
        self.held.write(bytes)
    }
}
