//! The variables of a module, each with the type that it holds.
ghost use Rattle.std.specs.Prelude.{◌≡◌, ◌≤◌, ◌<◌, ◌==◌, ℕ, if◌then◌else◌, length, IfOk, OnOk, Some, None, Option, slice_index_or, option_map};
ghost use Rattle.std.specs.Option.{option_or};
ghost use Rattle.spv_base.specs.Entries.{reads};

use spv_base::NoMemory;
use std::alloc::Global;
use std::marker::Model;

/// The type of a variable's value, and where in its list the variable stood last.
#[derive(Clone, Copy)]
pub(crate) struct Target {
    pub(crate) ty: u32,
    pub(crate) place: usize,
}

/// The ids of variables, each with the type of its value. Contracts see the list of both.
#[derive(Drop)]
pub(crate) struct Targets {
    list: Vec<(u32, u32)>,
    /// By ids.
    types: Vec<Option<u32>>,
    /// By ids, where in its list a variable stood last: the first place to look at, and no more than that.
    places: Vec<usize>,
}

impl Model for Targets {
    ghost use Rattle.std.specs.Prelude.{◌≡◌, ℕ, List, None, slice_index_or};
    ghost use Rattle.spv_base.specs.Entries.{reads};

    ghost Value = { List (ℕ × ℕ) };

    ghost view = { λ t. t.list.items };

    ghost invariant = { λ t. (id : ℕ) → slice_index_or t.types.items id None ≡ reads id t.list.items };
}

/// Makes a list long enough to have an item for each number below `len`.
fn lengthen(types: &mut Vec<Option<u32>>, len: usize) -> Result<(), NoMemory>
    ensures same { (id : ℕ) → slice_index_or types.new.items id None ≡ slice_index_or types.old.items id None }
    ensures long { OnOk result (len ≤ length types.new.items) }
{
    while types.len() < len {
        types.push(None)?;
    }
    Ok(())
}

/// Puts the type of an id that has none yet.
fn put_type(types: &mut Vec<Option<u32>>, id: u32, ty: u32) -> Result<(), NoMemory>
    ensures { OnOk result ((q : ℕ) → slice_index_or types.new.items q None ≡ option_or (slice_index_or types.old.items q None) (if id == q then Some ty else None)) }
{
    lengthen(types, id as usize + 1)?;
    if types[id as usize].is_none() {
        types[id as usize] = Some(ty);
    }
    Ok(())
}

/// By ids, the type that a list has for each.
fn types_by_ids(alloc: Global, list: &[(u32, u32)]) -> Result<Vec<Option<u32>>, NoMemory>
    ensures { IfOk result (λ types. (q : ℕ) → slice_index_or types.items q None ≡ reads q list.now) }
{
    let mut types = Vec::new(alloc);
    for target in list {
        put_type(&mut types, target.0, target.1)?;
    }
    Ok(types)
}

impl Targets {
    /// The targets of a list; of an id that stands twice, the first.
    pub(crate) fn new(alloc: Global, list: &[(u32, u32)]) -> Result<Targets, NoMemory>
        ensures { IfOk result (λ targets. targets ≡ list.now) }
    {
        let types = types_by_ids(alloc, list)?;
        let places = vec![in alloc; 0; types.len()]?;
        Ok(Targets {
            list: Vec::from_slice(alloc, list)?,
            types,
            places,
        })
    }

    /// The target of an id.
    pub(crate) fn get(&self, id: u32) -> Option<Target>
        ensures { option_map (λ t. t.ty) result ≡ reads id self.now }
    {
        let ty = (*self.types.get(id as usize)?)?;
        Some(Target {
            ty,
            place: self.place(id),
        })
    }

    /// Where the variable with an id stood last in its list.
    pub(crate) fn place(&self, id: u32) -> usize {
        match self.places.get(id as usize) {
            Some(place) => *place,
            None => 0,
        }
    }

    /// Notes where a variable stands in its list.
    pub(crate) fn note(&mut self, id: u32, place: usize)
        ensures { self.new ≡ self.old }
    {
        if (id as usize) < self.places.len() {
            self.places[id as usize] = place;
        }
    }

    /// Equal targets, with the same places.
    pub(crate) fn copy(&self, alloc: Global) -> Result<Targets, NoMemory>
        ensures { IfOk result (λ targets. targets ≡ self.now) }
    {
        Ok(Targets {
            list: Vec::from_slice(alloc, self.list.as_slice())?,
            types: Vec::from_slice(alloc, self.types.as_slice())?,
            places: Vec::from_slice(alloc, self.places.as_slice())?,
        })
    }
}
