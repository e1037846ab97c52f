//! The words of an instruction.
ghost use Rattle.std.specs.Prelude.{◌≡◌, [], ◌∷◌, ◌++◌, ◌<◌, ◌↔◌, IsTrue, length, Some, Ok, IfOk, OnOk, IfSome, IfNone};
ghost use Rattle.std.specs.List.{AllByRecursion};
ghost use Rattle.spv_base.specs.declared.instructions.RawInst.{RawInst};
ghost use Rattle.spv_ops.specs.Strings.{words_of_text};
ghost use Rattle.spv_ops.specs.Reading.{inst_of};
ghost use Rattle.spv_ops.specs.Grammar.{row_of};
ghost use Rattle.spv_ops.specs.Encoding.{head_of, words_of_head, words_of_operand, words_of_operands, HasBytes, IsFormed, IsInst, raw_of};

use crate::comparing::is_same_inst;
use crate::decoding::{decode, inst_by};
use crate::grammar::{Head, Opcode};
use crate::opcodes::opcode_of;
use crate::reading::WrongOperands;
use spv_base::{Fail, Inst, NoMemory, Operand, RawInst, Words};
use std::alloc::Global;

/// The word that ends a string, with the bytes that no other word has.
fn last_word(bytes: &[u8]) -> u32
    requires { length bytes.now < 4 }
    ensures { words_of_text bytes.now ≡ result ∷ [] }
{
    match bytes {
        [] => 0,
        [a] => u32::from_le_bytes([*a, 0, 0, 0]),
        [a, b] => u32::from_le_bytes([*a, *b, 0, 0]),
        [a, b, c, ..] => u32::from_le_bytes([*a, *b, *c, 0]),
    }
}

/// Adds the words of a string: its bytes and a zero byte, four to a word, the first in the lowest-order byte, padded
/// with zero bytes.
fn push_text(words: &mut Words, bytes: &[u8]) -> Result<(), NoMemory>
    ensures { OnOk result ((words.new ≡ words.old ++ words_of_text bytes.now) × AllByRecursion (λ byte. byte < 256) bytes.now) }
{
    let mut rest = bytes;
    while let [a, b, c, d, more @ ..] = rest {
        words.push(u32::from_le_bytes([*a, *b, *c, *d]))?;
        rest = more;
    }
    words.push(last_word(rest))?;
    Ok(())
}

fn push_operand(words: &mut Words, operand: &Operand) -> Result<(), NoMemory>
    ensures { OnOk result ((words.new ≡ words.old ++ words_of_operand operand.now) × HasBytes operand.now) }
{
    match operand {
        Operand::Id(id) => words.push(*id),
        Operand::Lit(literal) => words.push(*literal),
        Operand::Text(bytes) => push_text(words, bytes.as_slice()),
    }
}

fn push_operands(words: &mut Words, operands: &[Operand]) -> Result<(), NoMemory>
    ensures { OnOk result ((words.new ≡ words.old ++ words_of_operands operands.now) × AllByRecursion HasBytes operands.now) }
{
    for operand in operands {
        push_operand(words, operand)?;
    }
    Ok(())
}

fn push_head(words: &mut Words, head: Head, ty: u32, id: u32) -> Result<(), NoMemory>
    ensures { OnOk result (words.new ≡ words.old ++ words_of_head head ty id) }
{
    match head {
        Head::Plain => Ok(()),
        Head::Result => words.push(id),
        Head::TypedResult => {
            words.push(ty)?;
            words.push(id)
        }
    }
}

fn head_of(op: u16) -> Head
    ensures { result ≡ head_of (row_of op) }
{
    match opcode_of(op) {
        Some((_, _, head, _, _)) => head,
        None => Head::Plain,
    }
}

/// The words that the opcode's grammar gives, whether the operands follow it or not.
fn raw_of(alloc: Global, i: &Inst) -> Result<RawInst, NoMemory>
    ensures { IfOk result (λ r. (r ≡ raw_of i.now) × AllByRecursion HasBytes i.now.operands) }
{
    let mut rest = Words::new(alloc);
    push_head(&mut rest, head_of(i.op), i.ty, i.id)?;
    push_operands(&mut rest, i.operands.as_slice())?;
    Ok(RawInst {
        word: i.word,
        op: i.op,
        rest,
    })
}

/// The words of an instruction, which are read as that instruction again.
pub fn encode(alloc: Global, i: &Inst) -> Result<RawInst, NoMemory>
    requires { IsInst i.now }
    ensures raw { IfOk result (λ r. r ≡ raw_of i.now) }
    ensures again { IfOk result (λ r. inst_of r ≡ Ok i.now) }
{
    raw_of(alloc, i)
}

/// The words of an instruction, or none where the opcode is not in the table, the operands do not follow its grammar, a text
/// has a zero byte, or there are more than 65,535 words.
pub fn try_encode(alloc: Global, i: &Inst) -> Result<Option<RawInst>, NoMemory>
    ensures some { IfOk result (λ found. IfSome found (λ r. IsInst i.now × (r ≡ raw_of i.now))) }
    ensures none { IfOk result (λ found. IfNone found (IsInst i.now → ⊥)) }
{
    let raw = raw_of(alloc, i)?;
    let read = match decode(alloc, &raw) {
        Ok(read) => read,
        Err(Fail::Refused(_)) => return Ok(None),
        Err(Fail::NoMemory) => return Err(NoMemory),
    };
    if !is_same_inst(&read, i) {
        return Ok(None);
    }
    Ok(Some(raw))
}

/// Whether the words of an instruction are read by the grammar of its opcode as that instruction.
fn is_read_again(
    alloc: Global,
    opcode: Opcode,
    word: u32,
    op: u16,
    words: &[u32],
    i: &Inst,
) -> Result<bool, NoMemory>
    requires opcode { row_of i.now.op ≡ Some (opcode.0, opcode.1.now, opcode.2, opcode.3.now, opcode.4) }
    requires words { record { word = word; op = op; rest = words.now } ≡ raw_of i.now }
    requires bytes { AllByRecursion HasBytes i.now.operands }
    ensures { IfOk result (λ formed. IsTrue formed ↔ IsFormed i.now) }
{
    match inst_by(alloc, opcode, word, op, words) {
        Ok(read) => Ok(is_same_inst(&read, i)),
        Err(Fail::Refused(WrongOperands)) => Ok(false),
        Err(Fail::NoMemory) => Err(NoMemory),
    }
}

/// Whether the result type, the result id and the operands follow the grammar of the opcode, and no text a zero byte, however
/// many words the instruction would have (SPIR-V 1.6 section 2.3).
pub fn is_formed(alloc: Global, i: &Inst) -> Result<bool, NoMemory>
    ensures { IfOk result (λ formed. IsTrue formed ↔ IsFormed i.now) }
{
    let Some(opcode) = opcode_of(i.op) else {
        return Ok(false);
    };
    let raw = raw_of(alloc, i)?;
    is_read_again(alloc, opcode, raw.word, raw.op, raw.rest.as_slice(), i)
}
