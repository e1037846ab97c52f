//! The lines, scopes and inlined calls of a module, by the words of its instructions.
ghost use Rattle.std.specs.Prelude.{◌≡◌, ◌++◌, IfOk, OnOk, slice_get};
ghost use Rattle.spv_scopes.specs.Heads.{heads_with, is_head, line_begun};
ghost use Rattle.spv_scopes.specs.Lines.{lines_of};
ghost use Rattle.spv_scopes.specs.Shown as shown;
ghost use Rattle.spv_scopes.specs.Spots.{source_line, spot_in};

use crate::frames::Real;
use crate::heads::{Heads, heads_of};
use crate::places::Place;
use crate::spot_table::SpotTable;
use spv_base::{NoMemory, Places};
use spv_dbg::{DebugTables, ShownFrame};
use spv_valid::Module;
use std::alloc::Global;
use std::marker::Model;

/// Where each instruction of a block stands in the source, and at which executables a line begins. Contracts see lists by word. How
/// long a call takes is said below, and by no clause.
#[derive(Drop)]
pub struct Lines {
    spots: SpotTable,
    heads: Heads,
}

impl Model for Lines {
    ghost use Rattle.spv_scopes.specs.Lines.{LineTable};

    ghost Value = { LineTable };

    ghost view = { λ x. record { spots = x.spots; heads = x.heads } };
}

impl Lines {
    /// Those of a module with its debug tables. In time n log n.
    pub fn build(alloc: Global, module: &Module, tables: &DebugTables) -> Result<Lines, NoMemory>
        ensures { IfOk result (λ lines. lines ≡ lines_of module.now tables.now) }
    {
        let spots = SpotTable::build(alloc, module, tables)?;
        let heads = heads_of(alloc, module, tables, &spots)?;
        Ok(Lines { spots, heads })
    }

    /// The place of the instruction at a word. In constant time.
    pub fn place(&self, word: u32) -> Place
        ensures { result ≡ (spot_in self.now.spots word).place }
    {
        self.spots.place(word)
    }

    /// The id of the OpString with the name of the file, and the number of the line, of the instruction at a word. In constant time.
    pub fn line(&self, pc: u32) -> Option<(u32, u32)>
        ensures { result ≡ source_line (spot_in self.now.spots pc).place }
    {
        self.place(pc).source_line()
    }

    /// Whether a line begins at the instruction at a word. In constant time.
    pub fn is_head(&self, pc: u32) -> bool
        ensures { result ≡ is_head self.now.heads pc }
    {
        self.heads.is_head(pc)
    }

    /// The number of the line that begins at the instruction at a word, and 0 where none does. In constant time.
    pub fn line_begun(&self, pc: u32) -> u32
        ensures { result ≡ line_begun self.now.heads pc }
    {
        self.heads.line_begun(pc)
    }

    /// The words of the executables at which a line of the file with a name begins. In logarithmic time, and with as many steps as
    /// there are.
    pub fn heads(&self, alloc: Global, file: &[u8], line: u32) -> Result<Places, NoMemory>
        ensures { IfOk result (λ words. words ≡ heads_with self.now.heads (file.now, line)) }
    {
        self.heads.with(alloc, file, line)
    }

    /// How many frames are shown of a call whose next instruction is at a word. None is made. In constant time.
    pub fn count(&self, pc: u32) -> u64
        ensures { result ≡ shown.count_at self.now.spots pc }
    {
        self.spots.count(pc)
    }

    /// The frame with a number that is shown of a call, the innermost being 0. No other is made. In as many steps as its number.
    pub fn frame(
        &self,
        alloc: Global,
        module: &Module,
        tables: &DebugTables,
        real: Real,
        number: u64,
    ) -> Result<Option<ShownFrame>, NoMemory>
        ensures { IfOk result (λ frame. frame ≡ slice_get (shown.frames_at module.now tables.now self.now.spots real) number) }
    {
        self.spots.frame(alloc, module, tables, real, number)
    }

    /// Adds the frames that are shown of a call, the innermost first.
    pub fn push_frames(
        &self,
        alloc: Global,
        module: &Module,
        tables: &DebugTables,
        real: Real,
        frames: &mut Vec<ShownFrame>,
    ) -> Result<(), NoMemory>
        ensures { OnOk result (frames.new.items ≡ frames.old.items ++ shown.frames_at module.now tables.now self.now.spots real) }
    {
        self.spots.push_frames(alloc, module, tables, real, frames)
    }
}
