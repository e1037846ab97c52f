//! Where the instructions of a module stand in the source, summed up.

use spv_base::{NoMemory, Places};
use spv_dbg::{DebugTables, ShownFrame};
use spv_index::stands::Stand;
use spv_scopes::{Lines, Real};
use spv_valid::Module;
use std::alloc::Global;

/// Over all instructions of blocks: how many have a line, and the sum of their numbers; how many are line heads, and how many
/// heads the lines of these have; how many frames are shown, the sum of their lines, and the bytes of their names and files.
#[derive(Clone, Copy)]
pub struct Shown {
    pub lines: u64,
    pub numbers: u64,
    pub heads: u64,
    pub same: u64,
    pub frames: u64,
    pub outer: u64,
    pub names: u64,
}

/// A module with what is asked of it.
#[derive(Drop)]
pub struct Asked<'a> {
    pub alloc: Global,
    pub module: &'a Module,
    pub tables: &'a DebugTables,
    pub lines: &'a Lines,
}

impl Asked<'_> {
    /// The heads of the line at a word.
    fn heads_at(&self, word: u32) -> Result<Places, NoMemory> {
        let Some((file, line)) = self.lines.line(word) else {
            return Ok(Places::new(self.alloc));
        };
        let name = self.tables.string(file).unwrap_or(&[]);
        self.lines.heads(self.alloc, name, line)
    }

    /// The frames that are shown at an instruction.
    fn frames_at(&self, stand: &Stand<'_>) -> Result<Vec<ShownFrame>, NoMemory> {
        let mut frames = Vec::new(self.alloc);
        let real = Real {
            depth: 0,
            function: stand.position.function,
            word: stand.inst.word,
        };
        self.lines
            .push_frames(self.alloc, self.module, self.tables, real, &mut frames)?;
        Ok(frames)
    }
}

impl Shown {
    /// Adds the frames that are shown at an instruction.
    fn add_frames(&mut self, frames: &[ShownFrame]) {
        for frame in frames {
            self.frames = self.frames.saturating_add(1);
            self.outer = self.outer.saturating_add(u64::from(frame.line));
            let bytes = (frame.name.len() as u64).saturating_add(frame.file.len() as u64);
            self.names = self.names.saturating_add(bytes);
        }
    }

    /// Adds an instruction of a block.
    fn add(&mut self, asked: &Asked<'_>, stand: &Stand<'_>) -> Result<(), NoMemory> {
        let word = stand.inst.word;
        if let Some((_, line)) = asked.lines.line(word) {
            self.lines = self.lines.saturating_add(1);
            self.numbers = self.numbers.saturating_add(u64::from(line));
        }
        if asked.lines.is_head(word) {
            let heads = asked.heads_at(word)?;
            self.heads = self.heads.saturating_add(1);
            self.same = self.same.saturating_add(heads.len() as u64);
        }
        self.add_frames(asked.frames_at(stand)?.as_slice());
        Ok(())
    }

    /// The sums over the instructions of a module's blocks.
    pub fn of(asked: &Asked<'_>) -> Result<Shown, NoMemory> {
        let mut shown = Shown {
            lines: 0,
            numbers: 0,
            heads: 0,
            same: 0,
            frames: 0,
            outer: 0,
            names: 0,
        };
        let stands = asked.module.index().stands();
        for n in 0..stands.len() {
            let stand = stands.at(n);
            if stand.position.stage.in_block() {
                shown.add(asked, &stand)?;
            }
        }
        Ok(shown)
    }
}
