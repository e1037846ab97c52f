//! A module's instructions as words.
ghost use Rattle.std.specs.Prelude.{◌≡◌, ◌<◌, ◌≤◌, ◌+◌, ◌-◌, ℕ, List, suc, length, drop, take, slice_index, IfOk, IfErr};
ghost use Rattle.std.specs.Result.{result_map_both};
ghost use Rattle.spv_base.specs.Answers.{Answers};
ghost use Rattle.spv_base.specs.declared.causes.Refusal.{Refusal};
ghost use Rattle.spv_base.specs.declared.instructions.RawInst.{RawInst};
ghost use Rattle.spv_words.specs.Cuts.{count_of, opcode_of, cut, raw_of, AreCutFrom, BreaksOff};
ghost use Rattle.spv_words.specs.Words.{Fit32};

use crate::list::WordList;
use spv_base::{Fail, Items, NoMemory, RawInst, Refusal};
use std::alloc::Global;

/// Where the instructions begin, behind the five words of the header.
const FIRST: usize = 5;

/// The instructions of a module's words: they begin at word 5, and the first word of each says how many words it has
/// (SPIR-V 1.6 section 2.3).
///
/// The first instruction whose word count is 0 or reaches past the end is refused, with code 5 at its first word.
pub fn raw(alloc: Global, list: &WordList) -> Result<Vec<RawInst>, Fail<Refusal>>
    ensures due { Answers (raw_of list.now.items) (result_map_both (λ insts. insts.items) (λ fail. fail) result) }
    ensures cut { IfOk result (λ insts. AreCutFrom 5 (drop 5 list.now.items) insts.items) }
{
    let words = list.items();
    cut_words(alloc, words)
}

/// A law, with nothing to run: the instructions that are due are the ones that, joined, are the words from word 5 on, each in
/// its place, and a refusal stands at the first one that is not whole.
pub fn instructions_are_cut()
    ensures joined { (words : List ℕ) (insts : List RawInst) → Fit32 words → raw_of words ≡ Ok insts → AreCutFrom 5 (drop 5 words) insts }
    ensures only { (words : List ℕ) (insts : List RawInst) → AreCutFrom 5 (drop 5 words) insts → raw_of words ≡ Ok insts }
    ensures refused { (words : List ℕ) (refusal : Refusal) → Fit32 words → raw_of words ≡ Err refusal → BreaksOff 5 (drop 5 words) refusal }
{}

/// The instructions of these words.
fn cut_words(alloc: Global, words: &[u32]) -> Result<Vec<RawInst>, Fail<Refusal>>
    requires long { 5 ≤ length words.now }
    requires short { length words.now ≤ 1048576 }
    requires fits { Fit32 words.now }
    ensures due { Answers (raw_of words.now) (result_map_both (λ insts. insts.items) (λ fail. fail) result) }
    ensures cut { IfOk result (λ insts. AreCutFrom 5 (drop 5 words.now) insts.items) }
{
    let mut insts = Vec::with_capacity(alloc, inst_count(words)?)?;
    let mut place = FIRST;
    'cuts: while place < words.len() {
        let count = word_count(words, place)?;
        let inst = inst_at(alloc, words, place, count)?;
        insts.push(inst)?;
        place += count;
    }
    Ok(insts)
}

/// How many instructions there are, so that room is made for them at once.
fn inst_count(words: &[u32]) -> Result<usize, Refusal>
    requires long { 5 ≤ length words.now }
    requires short { length words.now ≤ 1048576 }
    ensures at_most { IfOk result (λ count. count ≤ length words.now) }
    ensures refused { IfErr result (λ refusal. raw_of words.now ≡ Err refusal) }
{
    let mut insts = 0;
    let mut place = FIRST;
    'cuts: while place < words.len() {
        place += word_count(words, place)?;
        insts += 1;
    }
    Ok(insts)
}

/// The word count of the instruction at a place.
fn word_count(words: &[u32], place: usize) -> Result<usize, Refusal>
    requires inside { place < length words.now }
    requires short { length words.now ≤ 1048576 }
    ensures count { IfOk result (λ count. (count ≡ count_of (slice_index words.now place)) × (0 < count) × (place + count ≤ length words.now)) }
    ensures refused { IfErr result (λ refusal. cut place 0 (drop place words.now) ≡ Err refusal) }
{
    let count = (words[place] >> 16) as usize;
    if count == 0 || count > words.len() - place {
        return Err(Refusal {
            code: 5,
            word: place as u32,
        });
    }
    Ok(count)
}

/// The instruction of so many words at a place.
fn inst_at(alloc: Global, words: &[u32], place: usize, count: usize) -> Result<RawInst, NoMemory>
    requires short { length words.now ≤ 1048576 }
    requires some { 0 < count }
    requires inside { place + count ≤ length words.now }
    ensures { IfOk result (λ inst. inst ≡ record { word = place; op = opcode_of (slice_index words.now place); rest = take (count - 1) (drop (suc place) words.now) }) }
{
    Ok(RawInst {
        word: place as u32,
        op: (words[place] & 0xFFFF) as u16,
        rest: Items::from_slice(alloc, &words[place + 1..place + count])?,
    })
}
