//! Where the instructions of a module stand in the source, by their words.
ghost use Rattle.std.specs.Prelude.{◌≡◌, ◌++◌, IfOk, OnOk, slice_get};
ghost use Rattle.spv_scopes.specs.Calls.{kept_at};
ghost use Rattle.spv_scopes.specs.Spots as spec;
ghost use Rattle.spv_scopes.specs.Shown.{count_at, frames_at};

use crate::calls::{Linked, count_in, counts_of};
use crate::frames::{Real, first_frame, frame_at, place_outward, push_calls};
use crate::places::Place;
use crate::scopes::scopes_of;
use crate::spots::spots_of;
use spv_base::NoMemory;
use spv_dbg::{DebugTables, ShownFrame};
use spv_index::Table;
use spv_valid::Module;
use std::alloc::Global;
use std::marker::Model;

/// Where each instruction of a block stands in the source. Contracts see its place and the calls around it by its word.
#[derive(Drop)]
pub(crate) struct SpotTable {
    spots: Table<Linked>,
    calls: Vec<Linked>,
    counts: Vec<u32>,
}

impl Model for SpotTable {
    ghost use Rattle.spv_scopes.specs.Inside.{IsCounted, view_of};
    ghost use Rattle.spv_scopes.specs.Spots.{Spots};

    ghost Value = { Spots };

    ghost view = { view_of };

    ghost invariant = { IsCounted };
}

/// What is kept of the instruction at a word, and a place with nothing where none of a block stands there.
fn kept_at(spots: &Table<Linked>, word: u32) -> Linked
    ensures { result ≡ kept_at spots.now word }
{
    match spots.get(word) {
        Some(linked) => linked,
        None => Linked {
            place: Place {
                scope: 0,
                inlined: 0,
                function: 0,
                file: 0,
                line: 0,
            },
            call: None,
        },
    }
}

impl SpotTable {
    /// Those of a module with its debug tables. In time n log n, which no clause says.
    pub(crate) fn build(
        alloc: Global,
        module: &Module,
        tables: &DebugTables,
    ) -> Result<SpotTable, NoMemory>
        ensures { IfOk result (λ spots. spots ≡ spec.spots_of module.now tables.now) }
    {
        let scopes = scopes_of(alloc, tables)?;
        let entries = spots_of(alloc, module, tables, &scopes)?;
        let spots = Table::new(alloc, entries)?;
        let calls = scopes.into_calls();
        let counts = counts_of(alloc, calls.as_slice())?;
        Ok(SpotTable {
            spots,
            calls,
            counts,
        })
    }

    /// The place of the instruction at a word.
    pub(crate) fn place(&self, word: u32) -> Place
        ensures { result ≡ (spec.spot_in self.now word).place }
    {
        kept_at(&self.spots, word).place
    }

    /// How many frames are shown of a call whose next instruction is at a word. None is made.
    pub(crate) fn count(&self, word: u32) -> u64
        ensures { result ≡ count_at self.now word }
    {
        let linked = kept_at(&self.spots, word);
        if linked.place.function == 0 {
            return 1;
        }
        u64::from(count_in(self.counts.as_slice(), linked.call)) + 1
    }

    /// The frame with a number that is shown of a call, the innermost being 0. No other is made.
    pub(crate) fn frame(
        &self,
        alloc: Global,
        module: &Module,
        tables: &DebugTables,
        real: Real,
        number: u64,
    ) -> Result<Option<ShownFrame>, NoMemory>
        ensures { IfOk result (λ frame. frame ≡ slice_get (frames_at module.now tables.now self.now real) number) }
    {
        let linked = kept_at(&self.spots, real.word);
        let Some(outer) = number.checked_sub(1) else {
            return Ok(Some(first_frame(alloc, module, tables, real, linked.place)?));
        };
        if linked.place.function == 0 {
            return Ok(None);
        }
        match place_outward(self.calls.as_slice(), linked.call, outer) {
            Some(place) => Ok(Some(frame_at(alloc, module, tables, real, place)?)),
            None => Ok(None),
        }
    }

    /// Adds the frames that are shown of a call.
    pub(crate) fn push_frames(
        &self,
        alloc: Global,
        module: &Module,
        tables: &DebugTables,
        real: Real,
        frames: &mut Vec<ShownFrame>,
    ) -> Result<(), NoMemory>
        ensures { OnOk result (frames.new.items ≡ frames.old.items ++ frames_at module.now tables.now self.now real) }
    {
        let linked = kept_at(&self.spots, real.word);
        frames.push(first_frame(alloc, module, tables, real, linked.place)?)?;
        if linked.place.function == 0 {
            return Ok(());
        }
        let calls = self.calls.as_slice();
        push_calls(alloc, module, tables, real, calls, linked.call, frames)
    }
}
