//! The world that a run changes.
ghost use Rattle.std.specs.Prelude.{◌≡◌, ◌≤◌, [], IfOk, IfSome, None};
ghost use Rattle.std.specs.Option.{IsSomeAnd};
ghost use Rattle.spv_journal.specs.Events.{newest, size};
ghost use Rattle.spv_journal.specs.Touches.{IsTouch};
ghost use Rattle.spv_journal.specs.Undo.{before};
ghost use Rattle.spv_state.specs.Sound.{IsSound};
ghost use Rattle.spv_state.specs.Start.{start_of};

use spv_base::NoMemory;
use spv_journal::{Journal, Recorded, Touch};
use spv_state::{Runnable, Whole};
use spv_values::Row;
use std::alloc::Global;
use std::marker::Model;

/// The state of a workgroup with the events that led to it, and a row that takes the value of the instruction at hand, kept so that a
/// step needs no memory for it.
pub struct World {
    pub(crate) recorded: Recorded,
    pub(crate) row: Row,
}

// Written out, so that it is proved once: a derived drop is proved again in each function that lets go of such a value.
impl Drop for World {
    fn drop(self) {
        let World { recorded, row } = self;
        drop(recorded);
        drop(row);
    }
}

impl Model for World {
    ghost use Rattle.std.specs.Prelude.{◌≡◌, None};
    ghost use Rattle.std.specs.Coded.{codes};
    ghost use Rattle.spv_base.specs.contracts.values.Value as value;
    ghost use Rattle.spv_journal.specs.Below.spv_undo.specs.contracts.entries.Entry as entry;
    ghost use Rattle.spv_machine.specs.World.{Held, seen};

    ghost Value = { Held };

    ghost coded = { Prim.hlevel (codes, value.the_row.coded, entry.the_row.coded) };

    ghost view = { λ w. seen w.recorded };

    ghost invariant = { λ w. w.recorded.gathered ≡ None };
}

impl World {
    /// The world at the start of a run, which is sound, with room for so many marks and entries of the journal, 1 at least. There is no
    /// memory for 4,294,967,296 and more.
    pub fn start(alloc: Global, m: &Runnable, limit: usize) -> Result<World, NoMemory>
        requires { 1 ≤ limit }
        ensures start { IfOk result (λ w. w ≡ record { state = start_of m.now; ring = []; limit = limit }) }
        ensures sound { IfOk result (λ w. IsSound m.now w.state) }
    {
        let whole = Whole::start(alloc, m)?;
        let row = whole.row(alloc)?;
        let recorded = Recorded::new(alloc, whole, limit)?;
        Ok(World { recorded, row })
    }

    /// A world with an equal state and no events, with room for so many marks and entries of the journal, 1 at least.
    pub fn copy(&self, alloc: Global, limit: usize) -> Result<World, NoMemory>
        requires { 1 ≤ limit }
        ensures { IfOk result (λ w. w ≡ record { state = self.now.state; ring = []; limit = limit }) }
    {
        let recorded = self.recorded.copy(alloc, limit)?;
        let row = self.whole().row(alloc)?;
        Ok(World { recorded, row })
    }

    /// The state.
    pub fn whole(&self) -> &Whole
        ensures { result.now ≡ self.now.state }
    {
        self.recorded.whole()
    }

    /// The events that can be undone.
    pub fn journal(&self) -> &Journal
        ensures events { result.now ≡ record { ring = self.now.ring; gathered = None; limit = self.now.limit } }
        ensures within { size self.now.ring ≤ self.now.limit }
        ensures some { 1 ≤ self.now.limit }
    {
        self.recorded.journal()
    }

    /// What the newest event did, told without undoing it; none where no event is kept, and where its changes are of another form. Inlined:
    /// it is called once an event.
    #[inline(always)]
    pub fn touch(&self) -> Option<Touch>
        ensures { IfSome result (λ t. IsSomeAnd (newest self.now.ring) (λ v. IsTouch t v.happening.inv (before v self.now.state) self.now.state)) }
    {
        self.recorded.touch()
    }
}
