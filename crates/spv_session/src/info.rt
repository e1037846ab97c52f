//! What a module and its run have in numbers.
ghost use Rattle.std.specs.Prelude.{◌≡◌, ◌+◌, ◌++◌, ℕ, IfOk, OnOk, decimal, length};
ghost use Rattle.spv_ops.specs.Encoding.{encoding, head_of, words_of_head, words_of_operand, words_of_operands};
ghost use Rattle.spv_ops.specs.Grammar.{row_of};
ghost use Rattle.spv_session.specs.Info.{module_words, words_of};
ghost use Rattle.spv_session.specs.Texts.{info_line, module_numbers};

use spv_base::{Inst, NoMemory, Operand};
use spv_line::push_number;
use spv_ops::{Head, opcode_of};
use std::alloc::Global;

/// The words of a module's header.
const HEADER: u64 = 5;

/// A sum, where it is one of a `u64`. There is no memory for more words than it counts.
fn sum(a: u64, b: u64) -> Result<u64, NoMemory>
    ensures { IfOk result (λ sum. sum ≡ a + b) }
{
    a.checked_add(b).ok_or(NoMemory)
}

/// How many words an operand has. A text has a zero byte behind it, and fills whole words.
fn operand_words(operand: &Operand) -> u64
    ensures { result ≡ length (words_of_operand operand.now) }
{
    match operand {
        Operand::Id(_) | Operand::Lit(_) => 1,
        Operand::Text(text) => text.len() as u64 / 4 + 1,
    }
}

/// How many words some operands have.
fn operands_words(operands: &[Operand]) -> Result<u64, NoMemory>
    ensures { IfOk result (λ words. words ≡ length (words_of_operands operands.now)) }
{
    let mut words = 0;
    for operand in operands {
        words = sum(words, operand_words(operand))?;
    }
    Ok(words)
}

/// How many words stand for result type and result in an instruction with an opcode.
fn head_words(op: u16) -> u64
    ensures { (ty : ℕ) (id : ℕ) → result ≡ length (words_of_head (head_of (row_of op)) ty id) }
{
    match opcode_of(op) {
        Some((_, _, Head::Result, _, _)) => 1,
        Some((_, _, Head::TypedResult, _, _)) => 2,
        Some((_, _, Head::Plain, _, _)) | None => 0,
    }
}

/// How many words an instruction has: its first, those of its result, and those of its operands.
#[tactic(auto, unfolding(spv_ops::specs::Encoding::raw_of))]
fn inst_words(inst: &Inst) -> Result<u64, NoMemory>
    ensures { IfOk result (λ words. words ≡ length (encoding inst.now)) }
{
    let operands = operands_words(inst.operands.as_slice())?;
    sum(sum(1, head_words(inst.op))?, operands)
}

/// How many words a module with these instructions has, the header's too.
pub(crate) fn module_words(insts: &[Inst]) -> Result<u64, NoMemory>
    ensures { IfOk result (λ words. words ≡ module_words insts.now) }
{
    let mut words = HEADER;
    for inst in insts {
        words = sum(words, inst_words(inst)?)?;
    }
    Ok(words)
}

/// How many words and instructions a module has, how many of its debug instructions are malformed, and how many invocations and entries
/// its run has.
#[derive(Clone, Copy)]
pub(crate) struct Info {
    pub(crate) words: u64,
    pub(crate) instructions: u64,
    pub(crate) ignored: u64,
    pub(crate) invocations: u64,
    pub(crate) entries: u64,
}

/// Appends a number behind what it tells of.
fn push_labelled(alloc: Global, text: &mut Vec<u8>, label: &[u8], n: u64) -> Result<(), NoMemory>
    ensures { OnOk result (text.new.items ≡ text.old.items ++ label.now ++ decimal n) }
{
    text.extend_from_slice(label)?;
    push_number(alloc, text, n)
}

/// Appends the numbers of the module.
fn push_module(alloc: Global, text: &mut Vec<u8>, info: Info) -> Result<(), NoMemory>
    ensures { OnOk result (text.new.items ≡ text.old.items ++ module_numbers info.words info.instructions info.ignored) }
{
    push_labelled(alloc, text, b"words ", info.words)?;
    push_labelled(alloc, text, b", instructions ", info.instructions)?;
    push_labelled(alloc, text, b", ignored ", info.ignored)
}

/// Appends the line of these numbers.
pub(crate) fn push_info(alloc: Global, text: &mut Vec<u8>, info: Info) -> Result<(), NoMemory>
    ensures { OnOk result (text.new.items ≡ text.old.items ++ info_line info.words info.instructions info.ignored info.invocations info.entries) }
{
    push_module(alloc, text, info)?;
    push_labelled(alloc, text, b", invocations ", info.invocations)?;
    push_labelled(alloc, text, b", entries ", info.entries)?;
    text.extend_from_slice(b"\n")?;
    Ok(())
}
