//! The inputs that are made.
ghost use Rattle.std.specs.Prelude.{◌≡◌, ◌≤◌, length, false, IfOk, Ok};
ghost use Rattle.std.specs.List.{flat_map};
ghost use Rattle.byteorder.specs.Endian.{little_bytes};
ghost use Rattle.spv_words.specs.Words.{words_of};
ghost use Rattle.spv_make.specs.Inputs.{words_for, module_for, made_for};

use crate::encoding::push_rows;
use crate::rows::all_rows;
use crate::texts::{commands_for, setup_for};
use byteorder::{ByteOrder, LittleEndian};
use spv_base::{Bytes, NoMemory, Words};
use std::alloc::Global;

/// What stands before the instructions: the magic number, version 1.6, no generator, the Bound, and 0 (SPIR-V 1.6 section 2.3).
const HEADER: [u32; 5] = [0x0723_0203, 0x0001_0600, 0, 68, 0];

/// The inputs of a run: the bytes of a module, of a setup and of commands.
#[derive(Drop)]
pub struct Made {
    pub module: Bytes,
    pub setup: Bytes,
    pub commands: Bytes,
}

/// The words of the module.
fn words_for(alloc: Global, n: u32) -> Result<Words, NoMemory>
    requires { n ≤ 64 }
    ensures { IfOk result (λ words. words ≡ words_for n) }
{
    let mut words = Words::from_slice(alloc, &HEADER)?;
    push_rows(alloc, &mut words, all_rows(), 4 * n)?;
    Ok(words)
}

/// The bytes of words, the lowest byte of each first.
fn bytes_of(alloc: Global, words: &[u32]) -> Result<Bytes, NoMemory>
    requires { length words.now ≤ 1048576 }
    ensures { IfOk result (λ bytes. bytes ≡ flat_map (little_bytes 4) words.now) }
{
    let mut bytes = vec![in alloc; 0u8; 4 * words.len()]?;
    LittleEndian::write_u32_into(words, &mut bytes);
    Ok(Bytes::from_vec(bytes))
}

/// The module.
fn module_for(alloc: Global, n: u32) -> Result<Bytes, NoMemory>
    requires { n ≤ 64 }
    ensures bytes { IfOk result (λ bytes. bytes ≡ module_for n) }
    ensures words { IfOk result (λ bytes. words_of bytes ≡ Ok (record { big = false; items = words_for n })) }
{
    let words = words_for(alloc, n)?;
    bytes_of(alloc, words.as_slice())
}

/// The inputs for a number of 1 to 64: a module of a workgroup of 64 invocations with two barriers in a loop, which each of them goes
/// round `4 * n` times, and with debug records; a setup by which it runs to its end; and commands that run it there and back.
///
/// The module is in little-endian order, for SPIR-V 1.6. What it has, word for word, and the two texts are in specs/Instructions.antt and
/// specs/Inputs.antt.
pub fn make(alloc: Global, n: u32) -> Result<Made, NoMemory>
    requires low { 1 ≤ n }
    requires high { n ≤ 64 }
    ensures made { IfOk result (λ made. made ≡ made_for n) }
    // Its bytes are read as these words.
    ensures words { IfOk result (λ made. words_of made.«module» ≡ Ok (record { big = false; items = words_for n })) }
{
    Ok(Made {
        module: module_for(alloc, n)?,
        setup: setup_for(alloc, n)?,
        commands: commands_for(alloc, n)?,
    })
}
