//! Modules that are read back from their listings.
use spv_base::{Fail, Inst, NoMemory, RawInst, Refusal, Text};
use spv_ops::{decode_all, try_encode};
use spv_text::{listing, read_listing};
use spv_words::{raw, words};
use std::alloc::Global;

/// The words of a module's header.
const HEADER_WORDS: usize = 5;

/// The most bytes of a listing that is read.
const MOST_BYTES: usize = 67_108_864;

/// The words behind an instruction, where its own stand at their front.
fn behind<'a>(words: &'a [u32], inst: &RawInst) -> Option<&'a [u32]> {
    let [first, rest @ ..] = words else {
        return None;
    };
    let others = (*first >> 16).checked_sub(1)?;
    if others as usize != inst.rest.len() || (*first & 0xFFFF) as u16 != inst.op {
        return None;
    }
    rest.strip_prefix(inst.rest.as_slice())
}

/// Whether the words of instructions are these.
fn are_words_of(alloc: Global, words: &[u32], insts: &[Inst]) -> Result<bool, NoMemory> {
    let mut left = words;
    for inst in insts {
        let Some(raw) = try_encode(alloc, inst)? else {
            return Ok(false);
        };
        let Some(more) = behind(left, &raw) else {
            return Ok(false);
        };
        left = more;
    }
    Ok(left.is_empty())
}

/// The listing of the instructions of a module of these bytes. Refuses bytes that aren't decoded.
pub fn listing_of(alloc: Global, bytes: &[u8]) -> Result<Text, Fail<Refusal>> {
    let list = words(alloc, bytes)?;
    let insts = decode_all(alloc, &raw(alloc, &list)?)?;
    Ok(listing(alloc, &insts)?)
}

/// Whether a module of these bytes is read back from its listing, word for word. Refuses bytes that aren't decoded.
pub fn is_read_back(alloc: Global, bytes: &[u8]) -> Result<bool, Fail<Refusal>> {
    let list = words(alloc, bytes)?;
    let insts = decode_all(alloc, &raw(alloc, &list)?)?;
    let text = listing(alloc, &insts)?;
    if text.len() > MOST_BYTES {
        return Ok(false);
    }
    let Ok(read) = read_listing(alloc, text.as_slice()) else {
        return Ok(false);
    };
    Ok(are_words_of(alloc, &list.items()[HEADER_WORDS..], &read)?)
}
