//! What the lines of a setup set.
use crate::line::{Content, Workgroup};
use spv_base::{Bytes, Items, Overrides, Places};

/// A buffer's bytes, and the line that gives them.
#[derive(Drop)]
pub struct Buffer {
    pub line: u32,
    pub set: u32,
    pub binding: u32,
    pub content: Content,
}

/// The bytes of the push constants, and the line that gives them.
#[derive(Drop)]
pub struct Push {
    pub line: u32,
    pub bytes: Bytes,
}

/// A part of the schedule.
#[derive(Clone, Copy)]
pub enum Run {
    /// So many entries of one invocation, and the line that names it.
    Move {
        line: u32,
        invocation: u32,
        count: u32,
    },
    /// So many times an entry of each invocation.
    Rounds(u32),
}

/// What the lines of a setup set, each list in the order of the lines.
pub struct Settings {
    /// The name of the entry point, where one is given.
    pub entry: Option<Bytes>,
    /// Which workgroup runs, where one is given.
    pub group: Option<Workgroup>,
    /// Numbers for SpecIds.
    pub overrides: Overrides,
    /// The line of each of these.
    pub override_lines: Places,
    /// The buffers that are given.
    pub buffers: Items<Buffer>,
    /// The push constants, where they are given.
    pub push: Option<Push>,
    /// The parts of the schedule.
    pub runs: Items<Run>,
    /// Whether finished invocations count as arrived at a barrier.
    pub finished_count: bool,
}

// Written out, so that it is proved once: a derived drop is proved again in each function that lets go of such a value.
impl Drop for Settings {
    fn drop(self) {
        let Settings {
            entry,
            group,
            overrides,
            override_lines,
            buffers,
            push,
            runs,
            finished_count: _,
        } = self;
        drop(entry);
        drop(group);
        drop(overrides);
        drop(override_lines);
        drop(buffers);
        drop(push);
        drop(runs);
    }
}
