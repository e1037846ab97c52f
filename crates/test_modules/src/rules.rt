//! Modules as listings, and modules of one instruction.
use spv_base::{Fail, NoMemory, RawInst, Refusal};
use spv_ops::try_encode;
use spv_text::read_listing;
use std::alloc::Global;

/// The most bytes of a listing that is read.
const MOST_BYTES: usize = 67_108_864;

/// The words before the instructions: the magic number, version 1.6, no generator, the Bound 1,000, and the schema.
const HEADER: [u32; 5] = [0x0723_0203, 0x0001_0600, 0, 1000, 0];

/// The first word of an instruction: its opcode below, and how many words it has above.
fn first_word(raw: &RawInst) -> u32 {
    let count = u32::try_from(raw.rest.len()).unwrap_or(0).wrapping_add(1);
    count.wrapping_shl(16) | raw.op as u32
}

/// Adds words, the lowest byte of each first.
fn push_words(bytes: &mut Vec<u8>, words: &[u32]) -> Result<(), NoMemory> {
    for word in words {
        bytes.extend_from_slice(&word.to_le_bytes())?;
    }
    Ok(())
}

/// The bytes of the module with a listing. Refuses a text that is none, by its lowest wrong line.
pub fn module_of(alloc: Global, text: &[u8]) -> Result<Vec<u8>, Fail<Refusal>> {
    let mut bytes = Vec::new(alloc);
    push_words(&mut bytes, &HEADER)?;
    if text.len() > MOST_BYTES {
        return Err(Fail::NoMemory);
    }
    for inst in &read_listing(alloc, text)? {
        if let Some(raw) = try_encode(alloc, inst)? {
            push_words(&mut bytes, &[first_word(&raw)])?;
            push_words(&mut bytes, raw.rest.as_slice())?;
        }
    }
    Ok(bytes)
}

/// The bytes of a module of one instruction, whose words are the numbers of a line.
pub fn module_of_words(alloc: Global, line: &str) -> Result<Vec<u8>, NoMemory> {
    let mut bytes = Vec::new(alloc);
    push_words(&mut bytes, &HEADER)?;
    for number in line.split(' ') {
        if let Ok(word) = number.parse() {
            push_words(&mut bytes, &[word])?;
        }
    }
    Ok(bytes)
}
