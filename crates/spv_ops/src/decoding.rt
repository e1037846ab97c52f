//! The instruction that an opcode and words are.
ghost use Rattle.std.specs.Prelude.{◌≡◌, ◌<◌, ◌^◌, List, map, Ok, IfOk, IfErr};
ghost use Rattle.std.specs.List.{AllByRecursion};
ghost use Rattle.spv_base.specs.Answers.{Answers};
ghost use Rattle.spv_ops.specs.Encoding.{HasBytes, IsInst, IsRefused, raw_of};
ghost use Rattle.spv_ops.specs.Reading.{inst_by, inst_of, insts_of};
ghost use Rattle.spv_ops.specs.Steps.{seen};

use crate::grammar::Opcode;
use crate::opcodes::opcode_of;
use crate::reading::{WrongOperands, head_at, operands_of};
use spv_base::{Fail, Inst, RawInst, Refusal};
use std::alloc::Global;

/// The code of the refusal of an opcode that is not in the table.
pub const UNKNOWN_OPCODE: u8 = 6;

/// The code of the refusal of words that no instruction with the opcode has.
pub const WRONG_FORM: u8 = 7;

/// An instruction has at most this many words, with its first (SPIR-V 1.6 section 2.3).
pub const MOST_WORDS: usize = 65535;

/// The instruction that words are by the grammar of an opcode.
#[tactic(auto, unfolding(crate::specs::Reading::inst_by))]
pub fn inst_by(
    alloc: Global,
    opcode: Opcode,
    word: u32,
    op: u16,
    words: &[u32],
) -> Result<Inst, Fail<WrongOperands>>
    ensures { Answers (inst_by (opcode.entry.0, opcode.entry.1.now, opcode.entry.2, opcode.entry.3.now, opcode.entry.4) (record { word = word; op = op; rest = words.now })) result }
{
    let (_, _, head, parts, rest) = opcode;
    let (ty, id, words) = head_at(head, words)?;
    let operands = operands_of(alloc, parts, rest, words)?;
    Ok(Inst {
        word,
        op,
        ty,
        id,
        operands,
    })
}

#[tactic(auto, unfolding(crate::specs::Reading::inst_of))]
fn inst_at(alloc: Global, word: u32, op: u16, words: &[u32]) -> Result<Inst, Fail<Refusal>>
    ensures answers { Answers (inst_of (record { word = word; op = op; rest = words.now })) result }
    ensures encodes { IfOk result (λ i. IsInst i × (raw_of i ≡ record { word = word; op = op; rest = words.now })) }
{
    let Some(opcode) = opcode_of(op) else {
        return Err(Fail::Refused(Refusal {
            code: UNKNOWN_OPCODE,
            word,
        }));
    };
    let wrong_operands = Refusal {
        code: WRONG_FORM,
        word,
    };
    if words.len() >= MOST_WORDS {
        return Err(Fail::Refused(wrong_operands));
    }
    match inst_by(alloc, opcode, word, op, words) {
        Ok(inst) => Ok(inst),
        Err(Fail::Refused(WrongOperands)) => Err(Fail::Refused(wrong_operands)),
        Err(Fail::NoMemory) => Err(Fail::NoMemory),
    }
}

/// The instruction that an opcode and the words after the first are. Refuses an opcode that is not in the table, and
/// words that no instruction with the opcode has, each at the place of the instruction.
pub fn decode(alloc: Global, r: &RawInst) -> Result<Inst, Fail<Refusal>>
    ensures answers { Answers (inst_of r.now) result }
    // What is read is an instruction with these words.
    ensures encodes { IfOk result (λ i. IsInst i × (raw_of i ≡ r.now)) }
    // The instruction with these words is read, unless memory runs out.
    ensures only { (i : Inst) → IsInst i → AllByRecursion HasBytes i.operands → raw_of i ≡ r.now → Answers (Ok i) result }
    ensures refused { IfErr result (IsRefused r.now) }
{
    inst_at(alloc, r.word, r.op, r.rest.as_slice())
}

/// Words are read as the one instruction that has them, and only as that.
pub fn one_reading()
    ensures reads { (i : Inst) → IsInst i → AllByRecursion HasBytes i.operands → inst_of (raw_of i) ≡ Ok i }
    ensures read { (r : RawInst) (i : Inst) → AllByRecursion (λ w. w < 2 ^ 32) r.rest → inst_of r ≡ Ok i
        → IsInst i × AllByRecursion HasBytes i.operands × (raw_of i ≡ r) }
{}

/// A list of instructions is read from the list of their words, and only from that.
pub fn one_list_reading()
    ensures reads { (is : List Inst) → AllByRecursion IsInst is → AllByRecursion (λ i. AllByRecursion HasBytes i.operands) is
        → insts_of (map raw_of is) ≡ Ok is }
    ensures read { (rs : List RawInst) (is : List Inst) → AllByRecursion (λ r. AllByRecursion (λ w. w < 2 ^ 32) r.rest) rs → insts_of rs ≡ Ok is
        → AllByRecursion IsInst is × (map raw_of is ≡ rs) }
{}

/// Instructions stand where their words do.
pub fn instructions_stand_at_their_words()
    ensures { (rs : List RawInst) (is : List Inst) → insts_of rs ≡ Ok is → map (λ i. i.word) is ≡ map (λ r. r.word) rs }
{}

/// All instructions, or the refusal of the first that has one.
pub fn decode_all(alloc: Global, raws: &[RawInst]) -> Result<Vec<Inst>, Fail<Refusal>>
    ensures due { Answers (insts_of raws.now) (seen (λ insts. insts.items) result) }
    // They stand where their words do.
    ensures words { IfOk result (λ insts. map (λ i. i.word) insts.items ≡ map (λ r. r.word) raws.now) }
{
    let mut insts = Vec::new(alloc);
    for raw in raws {
        insts.push(decode(alloc, raw)?)?;
    }
    Ok(insts)
}
