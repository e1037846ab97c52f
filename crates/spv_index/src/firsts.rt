//! What was put first under each number, in a vector that is as long as the greatest number asks.
ghost use Rattle.std.specs.Prelude.{◌≡◌, ◌==◌, ◌<◌, ◌≤◌, ℕ, [], Some, None, IfOk, OnOk, OnErr, if◌then◌else◌, length, slice_index};
ghost use Rattle.std.specs.Option.{option_or};
ghost use Rattle.spv_index.specs.Firsts.{AreFirsts, slot};

use spv_base::NoMemory;
use std::alloc::Global;
use std::marker::Model;

/// Keys are below this number, the greatest Bound and the most words of a module.
const KEY_LIMIT: u32 = 1_048_576;

/// By number, as an id, the first value that was put under it.
#[derive(Drop)]
pub struct Firsts<V> {
    slots: Vec<Option<V>>,
}

impl<V> Model for Firsts<V> {
    ghost use Rattle.std.specs.Prelude.{List, Option};

    ghost Value = { List (Option V) };

    ghost view = { λ f. f.slots.items };
}

/// Makes a list long enough to have a slot for each number below `len`.
fn lengthen<V: Copy>(slots: &mut Vec<Option<V>>, len: usize) -> Result<(), NoMemory>
    ensures same { (q : ℕ) → slot slots.new.items q ≡ slot slots.old.items q }
    ensures long { OnOk result (len ≤ length slots.new.items) }
{
    while slots.len() < len {
        slots.push(None)?;
    }
    Ok(())
}

impl<V: Copy> Firsts<V> {
    /// Nothing under any number.
    pub fn new(alloc: Global) -> Firsts<V>
        ensures { result ≡ [] }
    {
        Firsts {
            slots: Vec::new(alloc),
        }
    }

    /// The first value under a number.
    pub fn get(&self, number: u32) -> Option<V>
        ensures { result ≡ slot self.now number }
    {
        *self.slots.get(number as usize)?
    }

    /// Puts a value under a number, where nothing stands yet.
    pub fn put(&mut self, number: u32, value: V) -> Result<(), NoMemory>
        ensures ok { OnOk result ((q : ℕ) → slot self.new q ≡ option_or (slot self.old q) (if number == q then Some value else None)) }
        ensures err { OnErr result ((q : ℕ) → slot self.new q ≡ slot self.old q) }
    {
        let place = number as usize;
        lengthen(&mut self.slots, place + 1)?;
        if self.slots[place].is_none() {
            self.slots[place] = Some(value);
        }
        Ok(())
    }
}

/// A number above each of these keys that is below the limit.
fn above(keys: &[u32]) -> usize
    ensures limit { result ≤ 1048576 }
    ensures above { (k : ℕ) → k < length keys.now → slice_index keys.now k < 1048576 → slice_index keys.now k < result }
{
    let mut above = 0;
    for key in keys {
        if *key < KEY_LIMIT {
            above = above.max(*key as usize + 1);
        }
    }
    above
}

/// By key, the number of the first of these keys that is this one. Keys that are not below 1,048,576 are left out.
pub(crate) fn first_numbers(alloc: Global, keys: &[u32]) -> Result<Firsts<u32>, NoMemory>
    requires { length keys.now ≤ 1048576 }
    ensures { IfOk result (λ numbers. AreFirsts keys.now numbers) }
{
    let above = above(keys);
    let mut numbers = vec![in alloc; None; above]?;
    let mut n = keys.len();
    'back: while n > 0 {
        n -= 1;
        let key = keys[n] as usize;
        if key < numbers.len() {
            numbers[key] = Some(n as u32);
        }
    }
    Ok(Firsts { slots: numbers })
}
