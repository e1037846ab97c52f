//! Reading operands by a grammar.
ghost use Rattle.std.specs.Prelude.{◌≡◌, ◌≤◌, ◌==◌};
ghost use Rattle.std.specs.List.{list_all};
ghost use Rattle.spv_base.specs.Answers.{Answers};
ghost use Rattle.spv_ops.specs.Strings.{text_len, is_padded, text_at};
ghost use Rattle.spv_ops.specs.Reading.{word_at, memory_operands_at, part_at, ends_at, operands_of, head_at};
ghost use Rattle.spv_ops.specs.Steps.{seen, after};

use crate::grammar::{Head, Part, Rest};
use crate::rests::{is_rest, push_rest};
use spv_base::{Fail, Operand, Operands, Text};
use std::alloc::Global;

/// The words are not of the grammar.
#[derive(Clone, Copy)]
pub struct WrongOperands;

impl From<WrongOperands> for Fail<WrongOperands> {
    ghost use Rattle.std.specs.Prelude.{◌≡◌};
    ghost use Rattle.spv_base.specs.declared.causes.Fail.TheVariants.{Refused};

    ghost from_gives = { λ refusal e. e ≡ Refused refusal };

    fn from(refusal: WrongOperands) -> Fail<WrongOperands> {
        Fail::Refused(refusal)
    }
}

fn word_at(words: &[u32]) -> Result<(u32, &[u32]), Fail<WrongOperands>>
    ensures { Answers (word_at words.now) (seen (λ x. (x.0, x.1.now)) result) }
{
    match words {
        [] => Err(Fail::Refused(WrongOperands)),
        [word, rest @ ..] => Ok((*word, rest)),
    }
}

#[tactic(auto, unfolding(crate::specs::Strings::text_len))]
fn text_len(word: u32) -> usize
    ensures value { result ≡ text_len word }
    ensures within { result ≤ 4 }
{
    let [a, b, c, d] = word.to_le_bytes();
    if a == 0 {
        0
    } else if b == 0 {
        1
    } else if c == 0 {
        2
    } else if d == 0 {
        3
    } else {
        4
    }
}

fn all_zero(bytes: &[u8]) -> bool
    ensures { result ≡ list_all (λ byte. byte == 0) bytes.now }
{
    bytes.iter().all(|byte| *byte == 0)
}

#[tactic(auto, unfolding(crate::specs::Strings::is_padded))]
fn is_padded(word: u32) -> bool
    ensures { result ≡ is_padded word }
{
    all_zero(&word.to_le_bytes()[text_len(word)..])
}

fn text_at(alloc: Global, words: &[u32]) -> Result<(Text, &[u32]), Fail<WrongOperands>>
    ensures { Answers (text_at words.now) (seen (λ x. (x.0, x.1.now)) result) }
{
    let mut bytes = Vec::new(alloc);
    for (i, word) in words.iter().enumerate() {
        let len = text_len(*word);
        bytes.extend_from_slice(&word.to_le_bytes()[..len])?;
        if len != 4 {
            if !is_padded(*word) {
                return Err(Fail::Refused(WrongOperands));
            }
            return Ok((Text::from_vec(bytes), &words[i + 1..]));
        }
    }
    Err(Fail::Refused(WrongOperands))
}

fn take_memory_operands<'a>(
    operands: &mut Operands,
    words: &'a [u32],
) -> Result<&'a [u32], Fail<WrongOperands>>
    ensures { Answers (after operands.old (memory_operands_at words.now)) (seen (λ rest. (operands.new, rest.now)) result) }
{
    let [mask, rest @ ..] = words else {
        return Err(Fail::Refused(WrongOperands));
    };
    if 7 < *mask {
        return Err(Fail::Refused(WrongOperands));
    }
    operands.push(Operand::Lit(*mask))?;
    if *mask & 2 == 0 {
        return Ok(rest);
    }
    let (alignment, rest) = word_at(rest)?;
    operands.push(Operand::Lit(alignment))?;
    Ok(rest)
}

/// Adds the operands of a part, and gives the words after them.
#[tactic(auto, unfolding(crate::specs::Reading::part_at))]
fn take_part<'a>(
    alloc: Global,
    operands: &mut Operands,
    part: Part,
    words: &'a [u32],
) -> Result<&'a [u32], Fail<WrongOperands>>
    ensures { Answers (after operands.old (part_at part words.now)) (seen (λ rest. (operands.new, rest.now)) result) }
{
    match part {
        Part::Id => {
            let (id, rest) = word_at(words)?;
            operands.push(Operand::Id(id))?;
            Ok(rest)
        }
        Part::Literal => {
            let (literal, rest) = word_at(words)?;
            operands.push(Operand::Lit(literal))?;
            Ok(rest)
        }
        Part::String => {
            let (text, rest) = text_at(alloc, words)?;
            operands.push(Operand::Text(text))?;
            Ok(rest)
        }
        Part::MayEnd => Ok(words),
        Part::MemoryOperands => take_memory_operands(operands, words),
    }
}

fn ends_at(part: Part, words: &[u32]) -> bool
    ensures { result ≡ ends_at part words.now }
{
    match part {
        Part::MayEnd => words.is_empty(),
        Part::Id | Part::Literal | Part::String | Part::MemoryOperands => false,
    }
}

/// The operands that all of these words are.
pub fn operands_of(
    alloc: Global,
    parts: &[Part],
    rest: Rest,
    words: &[u32],
) -> Result<Operands, Fail<WrongOperands>>
    ensures { Answers (operands_of parts.now rest words.now) result }
{
    let mut operands = Operands::new(alloc);
    let mut words = words;
    for part in parts {
        if ends_at(*part, words) {
            return Ok(operands);
        }
        words = take_part(alloc, &mut operands, *part, words)?;
    }
    if !is_rest(rest, words) {
        return Err(Fail::Refused(WrongOperands));
    }
    push_rest(&mut operands, rest, words)?;
    Ok(operands)
}

/// The result type, the result id, and the words after them.
pub fn head_at(head: Head, words: &[u32]) -> Result<(u32, u32, &[u32]), Fail<WrongOperands>>
    ensures { Answers (head_at head words.now) (seen (λ x. (x.0, x.1, x.2.now)) result) }
{
    match head {
        Head::Plain => Ok((0, 0, words)),
        Head::Result => {
            let (id, rest) = word_at(words)?;
            Ok((0, id, rest))
        }
        Head::TypedResult => {
            let (ty, rest) = word_at(words)?;
            let (id, rest) = word_at(rest)?;
            Ok((ty, id, rest))
        }
    }
}
