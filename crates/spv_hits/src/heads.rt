//! The heads of breaks, by their words: whether an executable is one is looked up at each event.
ghost use Rattle.std.specs.Prelude.{◌≡◌, ◌==◌, ◌||◌, ℕ, IfOk, OnOk, false, slice_index_or};
ghost use Rattle.std.specs.List.{list_any};
ghost use Rattle.spv_hits.specs.Kept.{AreHeads};

use spv_base::NoMemory;
use spv_stops::Breakpoint;
use std::alloc::Global;

/// Marks a word.
fn mark(marks: &mut Vec<bool>, word: u32) -> Result<(), NoMemory>
    ensures { OnOk result ((pc : ℕ) → slice_index_or marks.new.items pc false ≡ slice_index_or marks.old.items pc false || word == pc) }
{
    let place = word as usize;
    if marks.len() <= place {
        marks.resize(place + 1, false)?;
    }
    marks[place] = true;
    Ok(())
}

/// Marks words.
fn mark_all(marks: &mut Vec<bool>, words: &[u32]) -> Result<(), NoMemory>
    ensures { OnOk result ((pc : ℕ) → slice_index_or marks.new.items pc false ≡ slice_index_or marks.old.items pc false || list_any (λ head. head == pc) words.now) }
{
    for word in words {
        mark(marks, *word)?;
    }
    Ok(())
}

/// A mark for each word up to the last head: whether it is a head of one of these breaks.
pub(crate) fn heads_of(alloc: Global, breaks: &[(u32, Breakpoint)]) -> Result<Vec<bool>, NoMemory>
    ensures { IfOk result (λ marks. AreHeads breaks.now marks.items) }
{
    let mut marks = Vec::new(alloc);
    for stop in breaks {
        mark_all(&mut marks, stop.1.heads.as_slice())?;
    }
    Ok(marks)
}

/// Whether a word is marked.
#[inline(always)]
pub(crate) fn is_marked(marks: &[bool], word: u32) -> bool
    ensures { result ≡ slice_index_or marks.now word false }
{
    match marks.get(word as usize) {
        Some(mark) => *mark,
        None => false,
    }
}
