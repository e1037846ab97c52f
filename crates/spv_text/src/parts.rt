//! Reading the parts of a line.
ghost use Rattle.std.specs.Prelude.{◌≡◌, ◌≢◌, ℕ, List, ◌∷◌, ◌++◌, IfOk, MatchOption};
ghost use Rattle.std.specs.List.{AllByRecursion};
ghost use Rattle.spv_text.specs.Spelling.{ended, part_text};
ghost use Rattle.spv_text.specs.Lines.{Any, HasNoDigit, IsPart, Lacks, Stands};
ghost use Rattle.spv_text.specs.Marks.{mark_text, numbered, EndsBefore, MayFollow};

use crate::fronts::after;
use crate::lines::Part;
use crate::numbers::number_at;
use crate::strings::string_at;
use spv_base::{Items, NoMemory, Operand};
use std::alloc::Global;

/// What stands before the number of a part.
#[derive(Clone, Copy)]
enum Mark {
    /// `type=%`
    ResultType,
    /// `id=%`
    ResultId,
    /// `%`
    Id,
    /// Nothing: the number is a literal.
    Literal,
}

impl Mark {
    /// The part of this mark and number.
    fn part(self, number: u32) -> Part
        ensures { result ≡ numbered self number }
    {
        match self {
            Mark::ResultType => Part::ResultType(number),
            Mark::ResultId => Part::ResultId(number),
            Mark::Id => Part::Operand(Operand::Id(number)),
            Mark::Literal => Part::Operand(Operand::Lit(number)),
        }
    }
}

/// The mark at the front, and what follows it.
fn mark_at(text: &[u8]) -> (Mark, &[u8])
    ensures whole { text.now ≡ mark_text result.0 ++ result.1.now }
    ensures only { (mark : Mark) (rest : List ℕ) → MayFollow mark rest → text.now ≡ mark_text mark ++ rest → (mark ≡ result.0) × (rest ≡ result.1.now) }
{
    if let Some(rest) = after(text, b"type=%") {
        return (Mark::ResultType, rest);
    }
    if let Some(rest) = after(text, b"id=%") {
        return (Mark::ResultId, rest);
    }
    if let Some(rest) = after(text, b"%") {
        return (Mark::Id, rest);
    }
    (Mark::Literal, text)
}

/// The part at the front, where it is no string.
fn numbered_at(text: &[u8]) -> Option<(Part, &[u8])>
    requires { (rest : List ℕ) → text.now ≢ 34 ∷ rest }
    ensures { MatchOption result
        (Lacks part_text IsPart HasNoDigit text.now)
        (λ it. IsPart it.0 × (text.now ≡ part_text it.0 ++ it.1.now) × EndsBefore it.0 it.1.now) }
{
    let (mark, digits) = mark_at(text);
    match number_at(digits) {
        Some((number, rest)) => Some((mark.part(number), rest)),
        None => None,
    }
}

/// The part at the front.
fn part_at(alloc: Global, text: &[u8]) -> Result<Option<(Part, &[u8])>, NoMemory>
    ensures { IfOk result (λ found. MatchOption found
        (Lacks part_text IsPart HasNoDigit text.now)
        (λ it. IsPart it.0 × (text.now ≡ part_text it.0 ++ it.1.now) × EndsBefore it.0 it.1.now)) }
{
    let Some(bytes) = after(text, b"\"") else {
        return Ok(numbered_at(text));
    };
    match string_at(alloc, bytes)? {
        Some((bytes, rest)) => Ok(Some((Part::Operand(Operand::Text(bytes)), rest))),
        None => Ok(None),
    }
}

/// The parts up to the end of a line, each after a space, and the byte LF.
pub fn parts_at(alloc: Global, text: &[u8]) -> Result<Option<(Items<Part>, &[u8])>, NoMemory>
    ensures { IfOk result (λ found. MatchOption found
        (Lacks ended (AllByRecursion IsPart) Any text.now)
        (λ it. Stands ended (AllByRecursion IsPart) Any text.now it.0 it.1.now)) }
{
    let mut parts = Items::new(alloc);
    let mut rest = text;
    while let Some(spaced) = after(rest, b" ") {
        let Some((part, more)) = part_at(alloc, spaced)? else {
            return Ok(None);
        };
        parts.push(part)?;
        rest = more;
    }
    match after(rest, b"\n") {
        Some(rest) => Ok(Some((parts, rest))),
        None => Ok(None),
    }
}
