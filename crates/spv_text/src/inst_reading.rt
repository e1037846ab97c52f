//! The instruction of a line.
ghost use Rattle.std.specs.Prelude.{◌≡◌, ◌≢◌, ◌++◌, ◌+◌, ◌<◌, ℕ, List, length, map, ◌≤◌, Err, IfOk, MatchOption};
ghost use Rattle.spv_base.specs.declared.instructions.Inst.{Inst};
ghost use Rattle.spv_base.specs.declared.instructions.Operand.{Operand};
ghost use Rattle.spv_ops.specs.Encoding.{encoding, HasHead, IsInst};
ghost use Rattle.spv_text.specs.declared.lines.Part.TheVariants as part;
ghost use Rattle.spv_base.specs.declared.causes.Fail.TheVariants.{Refused};
ghost use Rattle.spv_text.specs.declared.lines.Wrong.{Wrong};
ghost use Rattle.spv_text.specs.Listing.{head_parts, line_of};
ghost use Rattle.spv_text.specs.Reading.{HasPlace, IsWrongLine};

use crate::lines::{Line, Part, Wrong};
use crate::naming::opcode_named;
use spv_base::{Fail, Inst, NoMemory, Operand, Operands};
use spv_ops::{Head, is_formed, try_encode};
use std::alloc::Global;

/// An equal operand.
fn copy_operand(alloc: Global, operand: &Operand) -> Result<Operand, NoMemory>
    ensures { IfOk result (λ copy. copy ≡ operand.now) }
{
    match operand {
        Operand::Id(id) => Ok(Operand::Id(*id)),
        Operand::Lit(literal) => Ok(Operand::Lit(*literal)),
        Operand::Text(bytes) => Ok(Operand::Text(bytes.copy(alloc)?)),
    }
}

/// The operands that all of these parts are, or nothing where one is no operand.
fn operands_of(alloc: Global, parts: &[Part]) -> Result<Option<Operands>, NoMemory>
    ensures { IfOk result (λ found. MatchOption found
        ((operands : List Operand) → parts.now ≢ map part.Operand operands)
        (λ operands. parts.now ≡ map part.Operand operands)) }
{
    let mut operands = Operands::new(alloc);
    for part in parts {
        let Part::Operand(operand) = part else {
            return Ok(None);
        };
        operands.push(copy_operand(alloc, operand)?)?;
    }
    Ok(Some(operands))
}

/// The result type, the result id (0 where the grammar has none) and the operands that parts are.
fn split(
    alloc: Global,
    head: Head,
    parts: &[Part],
) -> Result<Option<(u32, u32, Operands)>, NoMemory>
    ensures { IfOk result (λ found. MatchOption found
        ((ty id : ℕ) (operands : List Operand) → HasHead head ty id → parts.now ≢ head_parts head ty id ++ map part.Operand operands)
        (λ it. HasHead head it.0 it.1 × (parts.now ≡ head_parts head it.0 it.1 ++ map part.Operand it.2))) }
{
    let (ty, id, rest) = match (head, parts) {
        (Head::Plain, rest) => (0, 0, rest),
        (Head::Result, [Part::ResultId(id), rest @ ..]) => (0, *id, rest),
        (Head::TypedResult, [Part::ResultType(ty), Part::ResultId(id), rest @ ..]) => (
            *ty, *id, rest,
        ),
        _ => return Ok(None),
    };
    match operands_of(alloc, rest)? {
        Some(operands) => Ok(Some((ty, id, operands))),
        None => Ok(None),
    }
}

/// The instruction that a line would be of: its opcode has the line's name.
fn named_inst(alloc: Global, line: &Line) -> Result<Inst, Fail<Wrong>>
    ensures ok { IfOk result (λ inst. HasPlace inst × (line.now ≡ line_of inst)) }
    ensures err { (wrong : Wrong) (word : ℕ) → result ≡ Err (Refused wrong) → IsWrongLine wrong word line.now }
{
    let Some((op, _, head, _, _)) = opcode_named(line.name.as_slice()) else {
        return Err(Fail::Refused(Wrong::UnknownName));
    };
    let Some((ty, id, operands)) = split(alloc, head, line.parts.as_slice())? else {
        return Err(Fail::Refused(Wrong::WrongOperands));
    };
    Ok(Inst {
        word: line.word,
        op,
        ty,
        id,
        operands,
    })
}

/// The number of the words of an instruction, which is to stand at this word.
fn count_of(alloc: Global, inst: &Inst, word: u64) -> Result<u64, Fail<Wrong>>
    requires { HasPlace inst.now }
    ensures ok { IfOk result (λ count. IsInst inst.now × (inst.now.word ≡ word) × (count ≡ length (encoding inst.now))) }
    ensures few { IfOk result (λ count. count ≤ 65535) }
    ensures err { (wrong : Wrong) → result ≡ Err (Refused wrong) → IsWrongLine wrong word (line_of inst.now) }
{
    let Some(raw) = try_encode(alloc, inst)? else {
        if is_formed(alloc, inst)? {
            return Err(Fail::Refused(Wrong::Misplaced));
        }
        return Err(Fail::Refused(Wrong::WrongOperands));
    };
    if u64::from(inst.word) != word {
        return Err(Fail::Refused(Wrong::Misplaced));
    }
    Ok(raw.rest.len() as u64 + 1)
}

/// The instruction of a line, which is to stand at this word, and the number of its words.
pub fn inst_of(alloc: Global, line: &Line, word: u64) -> Result<(Inst, u64), Fail<Wrong>>
    ensures ok { IfOk result (λ it. IsInst it.0 × (it.0.word ≡ word) × (line.now ≡ line_of it.0) × (it.1 ≡ length (encoding it.0))) }
    ensures few { IfOk result (λ it. it.1 ≤ 65535) }
    ensures err { (wrong : Wrong) → result ≡ Err (Refused wrong) → IsWrongLine wrong word line.now }
{
    let inst = named_inst(alloc, line)?;
    let count = count_of(alloc, &inst, word)?;
    Ok((inst, count))
}
