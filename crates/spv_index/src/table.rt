//! Lists of entries under numbers. Ids and words of a module are found in a vector, whatever their number; that this is quick is
//! measured, and no clause says so.
ghost use Rattle.std.specs.Prelude.{◌≡◌, ℕ, None, IfOk, OnOk};
ghost use Rattle.std.specs.BTreeMap as tree;
ghost use Rattle.std.specs.Ordering.{nat_cmp};
ghost use Rattle.spv_base.specs.Entries.{reads};
ghost use Rattle.spv_index.specs.Tables.{found};

use spv_base::NoMemory;
use std::alloc::Global;
use std::collections::BTreeMap;
use std::marker::Model;

/// Ids and words of a module are below this number.
const KEY_LIMIT: u32 = 1_048_576;

/// Entries under numbers, of which the first under a number is the one that is found.
#[derive(Drop)]
pub struct Table<V> {
    entries: Vec<(u32, V)>,
    /// By number, what stands under it. It is as long as the greatest number asks that an id or a word may have.
    low: Vec<Option<V>>,
    /// What stands under the greater numbers.
    high: BTreeMap<u32, V>,
}

impl<V> Model for Table<V> {
    ghost use Rattle.std.specs.Prelude.{◌≡◌, ℕ, List};
    ghost use Rattle.std.specs.Ordering.{nat_cmp};
    ghost use Rattle.std.specs.BTreeMap as tree;
    ghost use Rattle.spv_base.specs.Entries.{reads};
    ghost use Rattle.spv_index.specs.Tables.{found};

    ghost Value = { List (ℕ × V) };

    ghost view = { λ t. t.entries.items };

    ghost invariant = { λ t. (k : ℕ) → found t.low.items (tree.get nat_cmp t.high) k ≡ reads k t.entries.items };
}

/// A number that is above each of these that is an id or a word: how long the vector gets. Another number would be as right, and
/// slower.
fn above<V>(entries: &[(u32, V)]) -> usize {
    let mut above = 0;
    for (key, _) in entries {
        if *key < KEY_LIMIT {
            above = above.max(*key as usize + 1);
        }
    }
    above
}

/// Puts each entry under its number, where nothing stands yet: of several under one number the first.
fn put_all<V: Copy>(
    entries: &[(u32, V)],
    low: &mut [Option<V>],
    high: &mut BTreeMap<u32, V>,
) -> Result<(), NoMemory>
    requires { (k : ℕ) → found low.old (tree.get nat_cmp high.old) k ≡ None }
    ensures { OnOk result ((k : ℕ) → found low.new (tree.get nat_cmp high.new) k ≡ reads k entries.now) }
{
    let mut i = entries.len();
    'back: while i > 0 {
        i -= 1;
        let (key, value) = entries[i];
        if (key as usize) < low.len() {
            low[key as usize] = Some(value);
        } else {
            high.insert(key, value)?;
        }
    }
    Ok(())
}

impl<V: Copy> Table<V> {
    /// The table of these entries.
    pub fn new(alloc: Global, entries: Vec<(u32, V)>) -> Result<Table<V>, NoMemory>
        ensures { IfOk result (λ table. table ≡ entries.items) }
    {
        let mut low = vec![in alloc; None; above(entries.as_slice())]?;
        let mut high = BTreeMap::new(alloc);
        put_all(entries.as_slice(), &mut low, &mut high)?;
        Ok(Table { entries, low, high })
    }

    /// What stands under a number.
    pub fn get(&self, key: u32) -> Option<V>
        ensures { result ≡ reads key self.now }
    {
        match self.low.get(key as usize) {
            Some(value) => *value,
            None => self.high.get(&key).copied(),
        }
    }
}
