//! Paths: a name with parts `.member` and `[index]`, or `%id`.
ghost use Rattle.std.specs.Prelude.{◌≡◌, ◌≢◌, ◌≤◌, ◌<◌, ◌+◌, ℕ, List, ◌∷◌, drop, length};
ghost use Rattle.std.specs.List.{list_all, position, position_or_len};
ghost use Rattle.spv_cmd.specs.Paths.{is_name, is_name_byte, is_mark, IsPart, AreParts, IsPath};
ghost use Rattle.spv_cmd.specs.Answers.{Reads};

use crate::arguments::WRONG_ARGUMENTS;
use crate::command::{PathPart, PathParts, PathText};
use crate::numbers::number;
use spv_base::{Bytes, CmdRefusal, Fail};
use std::alloc::Global;

/// Whether a text is a name.
fn is_name(text: &[u8]) -> bool
    ensures { result ≡ is_name text.now }
{
    match text.first() {
        None => false,
        Some(first) => *first != b'%' && are_name_bytes(text),
    }
}

/// Whether a name may have these bytes.
fn are_name_bytes(text: &[u8]) -> bool
    ensures { result ≡ list_all is_name_byte text.now }
{
    text.iter()
        .all(|b| *b != b' ' && *b != b'.' && *b != b'[' && *b != b']')
}

/// The place of the first part.
fn first_part(text: &[u8]) -> Option<usize>
    ensures { result ≡ position is_mark text.now }
{
    text.iter().position(|b| *b == b'.' || *b == b'[')
}

/// The length of what stands before the first part.
#[tactic(auto, using(spv_line::proofs::Exports::place_or_end, spv_line::proofs::Exports::place_within))]
fn front_len(text: &[u8]) -> usize
    ensures front { result ≡ position_or_len is_mark text.now }
    ensures within { result ≤ length text.now }
{
    first_part(text).unwrap_or(text.len())
}

/// The length of the part that a text begins with.
#[tactic(auto, using(spv_line::proofs::Exports::place_within))]
fn part_len(text: &[u8]) -> usize
    requires { 0 < length text.now }
    ensures part { result ≡ 1 + position_or_len is_mark (drop 1 text.now) }
    ensures within { result ≤ length text.now }
{
    let (_, behind) = text.split_at(1);
    1 + front_len(behind)
}

/// The part `.member`, without its point.
#[tactic(auto, using(crate::proofs::PartLemmas::no_member))]
fn member(alloc: Global, name: &[u8]) -> Result<PathPart, Fail<CmdRefusal>>
    ensures { Reads (λ part. IsPart part (46 ∷ name.now)) result }
{
    if !is_name(name) {
        return Err(WRONG_ARGUMENTS);
    }
    Ok(PathPart::Member(Bytes::from_slice(alloc, name)?))
}

/// The part `[index]`, without its first bracket.
#[tactic(auto, using(crate::proofs::PartLemmas::no_index_empty, crate::proofs::PartLemmas::no_index_end, crate::proofs::PartLemmas::no_index_number, crate::proofs::PartLemmas::index_is))]
fn index(text: &[u8]) -> Result<PathPart, Fail<CmdRefusal>>
    ensures { Reads (λ part. IsPart part (91 ∷ text.now)) result }
{
    match text.split_last() {
        None => Err(WRONG_ARGUMENTS),
        Some((last, digits)) => {
            if *last != b']' {
                return Err(WRONG_ARGUMENTS);
            }
            match number(digits) {
                Some(n) => Ok(PathPart::Index(n)),
                None => Err(WRONG_ARGUMENTS),
            }
        }
    }
}

/// A part of a path.
#[tactic(auto, using(crate::proofs::PartLemmas::no_part_empty, crate::proofs::PartLemmas::no_part_other))]
fn part(alloc: Global, text: &[u8]) -> Result<PathPart, Fail<CmdRefusal>>
    ensures { Reads (λ part. IsPart part text.now) result }
{
    match text.split_first() {
        None => Err(WRONG_ARGUMENTS),
        Some((first, rest)) => match *first {
            b'.' => member(alloc, rest),
            b'[' => index(rest),
            _ => Err(WRONG_ARGUMENTS),
        },
    }
}

/// The parts of a path.
fn parts(alloc: Global, text: &[u8]) -> Result<PathParts, Fail<CmdRefusal>>
    ensures { Reads (λ parts. AreParts parts text.now) result }
{
    let mut parts = PathParts::new(alloc);
    let mut rest = text;
    while !rest.is_empty() {
        let (first, after) = rest.split_at(part_len(rest));
        parts.push(part(alloc, first)?)?;
        rest = after;
    }
    Ok(parts)
}

/// The path `%id`, without its percent sign.
#[tactic(auto, using(crate::proofs::PartLemmas::id_is, crate::proofs::PartLemmas::no_id))]
fn id(digits: &[u8]) -> Result<PathText, Fail<CmdRefusal>>
    ensures { Reads (λ path. IsPath path (37 ∷ digits.now)) result }
{
    match number(digits) {
        Some(id) => Ok(PathText::Id(id)),
        None => Err(WRONG_ARGUMENTS),
    }
}

/// A path that begins with a name.
#[tactic(auto, using(crate::proofs::PartLemmas::named_is, crate::proofs::PartLemmas::no_name, crate::proofs::PartLemmas::no_parts))]
fn name_path(alloc: Global, text: &[u8]) -> Result<PathText, Fail<CmdRefusal>>
    requires { (rest : List ℕ) → text.now ≢ 37 ∷ rest }
    ensures { Reads (λ path. IsPath path text.now) result }
{
    let (name, rest) = text.split_at(front_len(text));
    if !is_name(name) {
        return Err(WRONG_ARGUMENTS);
    }
    let parts = parts(alloc, rest)?;
    Ok(PathText::Name {
        name: Bytes::from_slice(alloc, name)?,
        parts,
    })
}

/// The path that a text is.
#[tactic(auto, using(crate::proofs::PartLemmas::empty_begins, crate::proofs::PartLemmas::other_begins))]
pub fn path(alloc: Global, text: &[u8]) -> Result<PathText, Fail<CmdRefusal>>
    ensures { Reads (λ path. IsPath path text.now) result }
{
    match text.split_first() {
        None => Err(WRONG_ARGUMENTS),
        Some((first, rest)) => {
            if *first == b'%' {
                id(rest)
            } else {
                name_path(alloc, text)
            }
        }
    }
}
