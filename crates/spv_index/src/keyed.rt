//! Items under keys, which are ids or words of a module.
ghost use Rattle.std.specs.Prelude.{◌≡◌, IfOk, option_copied, option_map, slice_get};
ghost use Rattle.std.specs.Option.{option_and_then};
ghost use Rattle.spv_base.specs.Entries.{reads};
ghost use Rattle.spv_index.specs.Places.{keys_of, places_from};

use crate::table::Table;
use spv_base::NoMemory;
use std::alloc::Global;
use std::marker::Model;

/// Items under keys, of which the first under a key is the one that is found. Contracts see the list of both.
#[derive(Drop)]
pub struct Keyed<T> {
    entries: Vec<(u32, T)>,
    /// By key, the number of its first entry.
    places: Table<usize>,
}

impl<T> Model for Keyed<T> {
    ghost use Rattle.std.specs.Prelude.{◌≡◌, ℕ, List};
    ghost use Rattle.spv_index.specs.Places.{keys_of, places_from};

    ghost Value = { List (ℕ × T) };

    ghost view = { λ k. k.entries.items };

    ghost invariant = { λ k. k.places ≡ places_from 0 (keys_of k.entries.items) };
}

/// By key, the number of the first item with it.
pub fn places_of(alloc: Global, keys: &[u32]) -> Result<Table<usize>, NoMemory>
    ensures { IfOk result (λ places. places ≡ places_from 0 keys.now) }
{
    let mut places = Vec::new(alloc);
    for (n, key) in keys.iter().enumerate() {
        places.push((*key, n))?;
    }
    Table::new(alloc, places)
}

/// The keys of entries.
pub fn keys_of<T>(alloc: Global, entries: &[(u32, T)]) -> Result<Vec<u32>, NoMemory>
    ensures { IfOk result (λ keys. keys.items ≡ keys_of entries.now) }
{
    Ok(entries.iter().map(|entry| entry.0).collect(alloc)?)
}

/// The item of the entry with a number.
fn item_with<T>(entries: &[(u32, T)], number: Option<usize>) -> Option<&T>
    ensures { option_copied result ≡ option_map (λ e. e.1) (option_and_then (slice_get entries.now) number) }
{
    Some(&entries.get(number?)?.1)
}

impl<T: Drop> Keyed<T> {
    /// These entries.
    pub fn of(alloc: Global, entries: Vec<(u32, T)>) -> Result<Keyed<T>, NoMemory>
        ensures { IfOk result (λ keyed. keyed ≡ entries.items) }
    {
        let keys = keys_of(alloc, entries.as_slice())?;
        let places = places_of(alloc, keys.as_slice())?;
        Ok(Keyed { entries, places })
    }

    /// The item under a key.
    pub fn get(&self, key: u32) -> Option<&T>
        ensures { option_copied result ≡ reads key self.now }
    {
        item_with(self.entries.as_slice(), self.places.get(key))
    }
}
