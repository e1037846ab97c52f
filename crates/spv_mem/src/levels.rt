//! The variables of the frames of an invocation, by depth.
ghost use Rattle.std.specs.Prelude.{◌≡◌, ◌↔◌, ◌<◌, IsTrue, ◌≤◌, ◌++◌, [], ◌∷◌, IfOk, OnOk, OnErr, length, slice_get, option_copied, MatchOption};
ghost use Rattle.spv_mem.specs.Levels.{ExchangesAt, ExchangesLevel, FitAt, FitLevel, MayBePutAt, MayBePutLevel};
ghost use Rattle.spv_mem.specs.Singles.{LeafAt};

use crate::entries::Locals;
use crate::singles::{Spot, exchange_single_at};
use crate::targets::Target;
use spv_base::{Ghost, NoMemory, Path};
use spv_types::TypeTable;
use spv_values::{Row, Single};
use std::alloc::Global;
use std::marker::Model;

/// The locals of an invocation. Contracts see their list, by depth, and how many there is room for.
#[derive(Drop)]
pub(crate) struct Levels {
    pub(crate) list: Vec<Locals>,
    pub(crate) room: u32,
}

impl Model for Levels {
    ghost use Rattle.std.specs.Prelude.{◌≤◌, vec_capacity};
    ghost use Rattle.std.specs.Coded.{codes};
    ghost use Rattle.spv_base.specs.contracts.values.Value as value;
    ghost use Rattle.spv_mem.specs.Memory.{Levels as Listed};

    ghost Value = { Listed };

    ghost coded = { Prim.hlevel (codes, value.the_row.coded) };

    ghost view = { λ l. record { list = l.list.items; room = l.room } };

    ghost invariant = { λ l. l.room ≤ vec_capacity l.list };
}

impl Levels {
    /// No locals, with room for so many.
    pub(crate) fn new(alloc: Global, room: u32) -> Result<Levels, NoMemory>
        ensures { IfOk result (λ levels. levels ≡ record { list = []; room = room }) }
    {
        Ok(Levels {
            list: Vec::with_capacity(alloc, room as usize)?,
            room,
        })
    }

    /// Equal locals, with room for as many.
    pub(crate) fn copy(&self, alloc: Global) -> Result<Levels, NoMemory>
        ensures { IfOk result (λ levels. levels ≡ self.now) }
    {
        levels_with(alloc, self.list.as_slice(), self.room)
    }

    /// The locals of a depth.
    pub(crate) fn get(&self, depth: u32) -> Option<&Locals>
        ensures { option_copied result ≡ slice_get self.now.list depth }
    {
        self.list.get(depth as usize)
    }

    /// Whether there is room for further locals.
    pub(crate) fn has_room(&self) -> bool
        ensures { IsTrue result ↔ length self.now.list < self.now.room }
    {
        self.list.len() < self.room as usize
    }

    /// Adds locals at the end.
    pub(crate) fn push(&mut self, locals: Locals) -> Result<(), NoMemory>
        ensures ok { OnOk result (self.new ≡ record self.old { list = self.old.list ++ locals ∷ [] }) }
        ensures err { OnErr result (self.new ≡ self.old) }
    {
        self.list.push(locals)?;
        Ok(())
    }

    /// Adds locals at the end, where there is room. It takes no memory.
    pub(crate) fn give_back(&mut self, locals: Locals)
        requires { length self.old.list < self.old.room }
        ensures { self.new ≡ record self.old { list = self.old.list ++ locals ∷ [] } }
    {
        self.list.push_reserved(locals);
    }

    /// Takes the last locals away.
    pub(crate) fn pop(&mut self) -> Option<Locals>
        ensures room { self.new.room ≡ self.old.room }
        ensures list { MatchOption result ((self.old.list ≡ []) × (self.new.list ≡ [])) (λ last. self.old.list ≡ self.new.list ++ last ∷ []) }
    {
        self.list.pop()
    }

    /// Exchanges the part that a path names in the variable with an id of a depth, and says whether there is such a part.
    pub(crate) fn exchange(
        &mut self,
        types: &TypeTable,
        target: Target,
        depth: u32,
        id: u32,
        path: &Path,
        other: &mut Row,
    ) -> bool
        requires fit { ∥ FitAt types.now target.ty id self.old.list depth ∥₁ }
        requires may { ∥ MayBePutAt types.now target.ty id self.old.list depth path.now other.old ∥₁ }
        ensures room { self.new.room ≡ self.old.room }
        ensures list { ExchangesAt self.old.list depth id path.now other.old self.new.list other.new result }
    {
        exchange_at(
            &mut self.list,
            depth as usize,
            types,
            target,
            id,
            path,
            other,
        )
    }

    /// Exchanges a leaf of the variable with an id of a depth, and says whether there is one.
    pub(crate) fn exchange_single(
        &mut self,
        depth: u32,
        spot: Spot,
        path: &Ghost<Path>,
        other: &mut Single,
    ) -> bool
        requires { ∥ LeafAt spot.id self.old.list depth spot.leaf path.now.value other.old ∥₁ }
        ensures room { self.new.room ≡ self.old.room }
        ensures list { ExchangesAt self.old.list depth spot.id path.now.value other.old self.new.list other.new result }
    {
        exchange_single_at(&mut self.list, depth as usize, spot, path, other)
    }
}

/// Copies of locals, with room for so many.
fn levels_with(alloc: Global, lists: &[Locals], room: u32) -> Result<Levels, NoMemory>
    ensures { IfOk result (λ levels. levels ≡ record { list = lists.now; room = room }) }
{
    let mut levels = Levels::new(alloc, room)?;
    for locals in lists {
        levels.push(locals.copy(alloc)?)?;
    }
    Ok(levels)
}

/// Equal locals of invocations.
pub(crate) fn levels_copied(alloc: Global, levels: &[Levels]) -> Result<Vec<Levels>, NoMemory>
    ensures { IfOk result (λ copies. copies.items ≡ levels.now) }
{
    let mut copies = Vec::with_capacity(alloc, levels.len())?;
    for level in levels {
        copies.push(level.copy(alloc)?)?;
    }
    Ok(copies)
}

/// Exchanges the part that a path names in the variable with an id of one of some lists, and says whether there is such a part.
pub(crate) fn exchange_at(
    lists: &mut [Locals],
    k: usize,
    types: &TypeTable,
    target: Target,
    id: u32,
    path: &Path,
    other: &mut Row,
) -> bool
    requires fit { ∥ FitAt types.now target.ty id lists.old k ∥₁ }
    requires may { ∥ MayBePutAt types.now target.ty id lists.old k path.now other.old ∥₁ }
    ensures { ExchangesAt lists.old k id path.now other.old lists.new other.new result }
{
    if k < lists.len() {
        lists[k].exchange(types, target, id, path, other)
    } else {
        false
    }
}

/// Exchanges the part that a path names in the variable with an id of a depth of an invocation, and says whether there is such
/// a part.
pub(crate) fn exchange_level(
    levels: &mut [Levels],
    k: usize,
    types: &TypeTable,
    target: Target,
    depth: u32,
    id: u32,
    path: &Path,
    other: &mut Row,
) -> bool
    requires fit { ∥ FitLevel types.now target.ty id levels.old k depth ∥₁ }
    requires may { ∥ MayBePutLevel types.now target.ty id levels.old k depth path.now other.old ∥₁ }
    ensures { ExchangesLevel levels.old k depth id path.now other.old levels.new other.new result }
{
    if k < levels.len() {
        levels[k].exchange(types, target, depth, id, path, other)
    } else {
        false
    }
}
