//! Roots: variables under their ids.
ghost use Rattle.std.specs.Prelude.{◌≡◌, ◌↔◌, ◌++◌, [], ◌∷◌, length, IsTrue, IfOk, OnOk, OnErr, None, Some, option_map, option_and_then, true};
ghost use Rattle.std.specs.Option.{MatchOption, option_map_or};
ghost use Rattle.spv_base.specs.Entries.{reads};
ghost use Rattle.spv_base.specs.Parts.{part_at};
ghost use Rattle.spv_base.specs.declared.values.Value.{Value};
ghost use Rattle.spv_mem.specs.Roots.{AreFit, ExchangesIn, IsAt, MayBePutIn};
ghost use Rattle.spv_mem.specs.Targets.{elements_in};
ghost use Rattle.spv_types.specs.Rows.{leaves};
ghost use Rattle.spv_mem.specs.Singles.{LeafIn, LiesIn};

use crate::places::Place;
use crate::singles::Spot;
use crate::targets::{Target, Targets};
use crate::variables::Variable;
use spv_base::{Cell, Ghost, NoMemory, Path};
use spv_types::TypeTable;
use spv_values::{Part, Row, Single};
use std::alloc::Global;
use std::marker::Model;

/// Variables under their ids. Contracts see a list of ids, each with its tree.
#[derive(Drop)]
pub struct Roots {
    pub(crate) entries: Vec<(u32, Variable)>,
}

impl Model for Roots {
    ghost use Rattle.std.specs.Prelude.{◌≡◌, true};
    ghost use Rattle.std.specs.Coded.{codes};
    ghost use Rattle.spv_base.specs.contracts.values.Value as value;
    ghost use Rattle.spv_base.specs.Variables.{Roots as Entries};
    ghost use Rattle.spv_mem.specs.Roots.{distinct};

    ghost Value = { Entries };

    ghost coded = { Prim.hlevel (codes, value.the_row.coded) };

    ghost view = { λ r. r.entries.items };

    ghost invariant = { λ r. distinct r.entries.items ≡ true };
}

/// The variables of a frame.
pub type Locals = Roots;

impl Roots {
    /// No variables.
    pub fn new(alloc: Global) -> Roots
        ensures { result ≡ [] }
    {
        Roots {
            entries: Vec::new(alloc),
        }
    }

    /// Equal variables.
    pub fn copy(&self, alloc: Global) -> Result<Roots, NoMemory>
        ensures { IfOk result (λ roots. roots ≡ self.now) }
    {
        Ok(Roots {
            entries: entries_copied(alloc, self.entries.as_slice())?,
        })
    }

    /// Adds a variable at the end.
    pub fn push(&mut self, id: u32, variable: Variable) -> Result<(), NoMemory>
        requires { reads id self.old ≡ None }
        ensures ok { OnOk result (self.new ≡ self.old ++ (id, variable) ∷ []) }
        ensures err { OnErr result (self.new ≡ self.old) }
    {
        self.entries.push((id, variable))?;
        Ok(())
    }

    /// How many variables there are.
    pub fn len(&self) -> usize
        ensures { result ≡ length self.now }
    {
        self.entries.len()
    }

    /// Notes where each variable stands.
    pub(crate) fn note_places(&self, targets: &mut Targets)
        ensures { targets.new ≡ targets.old }
    {
        for (place, entry) in self.entries.iter().enumerate() {
            targets.note(entry.0, place);
        }
    }

    /// The cells of the variable with an id.
    pub(crate) fn cells(&self, id: u32, place: usize) -> Option<&[Cell]>
        ensures { option_map (λ cells. cells.now) result ≡ option_map leaves (reads id self.now) }
    {
        let k = self.find(id, place)?;
        Some(self.entries[k].1.cells())
    }

    /// How many elements the last part of the variable with an id has; none where there is no such variable.
    pub(crate) fn elements(&self, id: u32, place: usize) -> u32
        ensures { result ≡ option_map_or elements_in (reads id self.now) 0 }
    {
        match self.find(id, place) {
            Some(k) => self.entries[k].1.elements(),
            None => 0,
        }
    }

    /// Where the variable with an id stands. The place is looked at first; where it is not there, the others are.
    pub(crate) fn find(&self, id: u32, place: usize) -> Option<usize>
        ensures { MatchOption result (reads id self.now ≡ None) (λ k. IsAt id k self.now) }
    {
        match self.entries.get(place) {
            Some(entry) if entry.0 == id => Some(place),
            _ => first(self.entries.as_slice(), id),
        }
    }

    /// Whether there is no variable with an id.
    pub(crate) fn has_none(&self, id: u32, place: usize) -> bool
        ensures { IsTrue result ↔ reads id self.now ≡ None }
    {
        self.find(id, place).is_none()
    }

    /// The value of the variable with an id, lent.
    pub(crate) fn whole(&self, id: u32, place: usize) -> Option<Part<'_>>
        ensures { result ≡ reads id self.now }
    {
        let k = self.find(id, place)?;
        Some(self.entries[k].1.whole())
    }

    /// The part that a path names in the variable with an id.
    pub(crate) fn load(
        &self,
        types: &TypeTable,
        target: Target,
        id: u32,
        path: &Path,
    ) -> Option<Part<'_>>
        requires { ∥ AreFit types.now target.ty id self.now ∥₁ }
        ensures { result ≡ option_and_then (λ v. part_at v path.now) (reads id self.now) }
    {
        let k = self.find(id, target.place)?;
        self.entries[k].1.load(types, target.ty, path)
    }

    /// Exchanges the part that a path names in the variable with an id, and says whether there is such a part.
    pub(crate) fn exchange(
        &mut self,
        types: &TypeTable,
        target: Target,
        id: u32,
        path: &Path,
        other: &mut Row,
    ) -> bool
        requires fit { ∥ AreFit types.now target.ty id self.old ∥₁ }
        requires may { ∥ MayBePutIn types.now target.ty id self.old path.now other.old ∥₁ }
        ensures { ExchangesIn self.old id path.now other.old self.new other.new result }
    {
        let Some(k) = self.find(id, target.place) else {
            return false;
        };
        self.entries[k].1.exchange(types, target.ty, path, other)
    }

    /// Where the part that a path names lies in the variable with an id; none where there is no such part.
    pub(crate) fn part_place(
        &self,
        types: &TypeTable,
        target: Target,
        id: u32,
        path: &Path,
    ) -> Option<Place>
        requires { ∥ AreFit types.now target.ty id self.now ∥₁ }
        ensures { MatchOption result (option_and_then (λ v. part_at v path.now) (reads id self.now) ≡ None) (λ p. LiesIn id self.now path.now p.start p.len) }
    {
        let k = self.find(id, target.place)?;
        self.entries[k].1.place(types, target.ty, path)
    }

    /// Exchanges a leaf of the variable with an id, and says whether there is one.
    pub(crate) fn exchange_single(
        &mut self,
        spot: Spot,
        path: &Ghost<Path>,
        other: &mut Single,
    ) -> bool
        requires { ∥ LeafIn spot.id self.old spot.leaf path.now.value other.old ∥₁ }
        ensures { ExchangesIn self.old spot.id path.now.value other.old self.new other.new result }
    {
        let Some(k) = self.find(spot.id, spot.place) else {
            return false;
        };
        self.entries[k].1.exchange_single(spot.leaf, path, other);
        true
    }
}

/// Equal entries.
fn entries_copied(
    alloc: Global,
    entries: &[(u32, Variable)],
) -> Result<Vec<(u32, Variable)>, NoMemory>
    ensures { IfOk result (λ copies. copies.items ≡ entries.now) }
{
    let mut copies = Vec::with_capacity(alloc, entries.len())?;
    for entry in entries {
        let variable = entry.1.copy(alloc)?;
        copies.push((entry.0, variable))?;
    }
    Ok(copies)
}

/// Equal lists of variables.
pub(crate) fn lists_copied(alloc: Global, lists: &[Roots]) -> Result<Vec<Roots>, NoMemory>
    ensures { IfOk result (λ copies. copies.items ≡ lists.now) }
{
    let mut copies = Vec::with_capacity(alloc, lists.len())?;
    for roots in lists {
        copies.push(roots.copy(alloc)?)?;
    }
    Ok(copies)
}

/// The first place where an id stands.
fn first(entries: &[(u32, Variable)], id: u32) -> Option<usize>
    ensures { MatchOption result (reads id entries.now ≡ None) (λ k. IsAt id k entries.now) }
{
    for (k, entry) in entries.iter().enumerate() {
        if entry.0 == id {
            return Some(k);
        }
    }
    None
}
