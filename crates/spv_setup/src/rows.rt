//! What the words of a line say.
ghost use Rattle.std.specs.Prelude.{◌≡◌, ◌≤◌, ◌<◌, ◌≢◌, ◌∷◌, [], length, MatchOption, IfSome};
ghost use Rattle.spv_base.specs.Answers.{Answers};
ghost use Rattle.spv_line.specs.Words.{words_in};
ghost use Rattle.spv_setup.specs.Rows as spec;

use crate::line::{Content, Line, LineFault, Version, Workgroup};
use spv_base::{Bytes, Fail};
use spv_line::{bytes, next_word, only_word};
use std::alloc::Global;

/// A word is unknown, or the number of words is wrong.
const WORDS: Fail<LineFault> = Fail::Refused(LineFault::Words);

/// A number or a hexadecimal word has a wrong form or range.
const FORM: Fail<LineFault> = Fail::Refused(LineFault::Form);

/// How many digits a number may have.
const MOST_DIGITS: usize = 20;

/// The most entries of one line.
const MOST_ENTRIES: u64 = 4_194_304;

/// The most zero bytes of a buffer.
const MOST_ZEROS: u64 = 16_777_216;

/// The number of 1 to 20 decimal digits, where it is at most a limit.
fn number(word: &[u8], limit: u64) -> Option<u64>
    ensures number { result ≡ spec.number limit word.now }
    ensures within { IfSome result (λ n. n ≤ limit) }
{
    if word.len() <= MOST_DIGITS {
        spv_line::number(word, limit)
    } else {
        None
    }
}

/// The number of 32 bits that a word is.
fn short(word: &[u8]) -> Option<u32>
    ensures { result ≡ spec.short word.now }
{
    let number = number(word, u32::MAX as u64)?;
    Some(number as u32)
}

/// The number from -2^63 to 2^64 - 1 that a word is.
fn value(word: &[u8]) -> Option<i128>
    ensures { result ≡ spec.value word.now }
{
    match word.strip_prefix(b"-") {
        Some(digits) => {
            let number = number(digits, 1 << 63)?;
            Some(-(number as i128))
        }
        None => {
            let number = number(word, u64::MAX)?;
            Some(number as i128)
        }
    }
}

/// Three numbers of 32 bits.
fn triple(x: &[u8], y: &[u8], z: &[u8]) -> Option<(u32, u32, u32)>
    ensures { result ≡ spec.three (spec.short x.now) (spec.short y.now) (spec.short z.now) }
{
    let x = short(x)?;
    let y = short(y)?;
    let z = short(z)?;
    Some((x, y, z))
}

/// Three words.
type Three<'a> = (&'a [u8], &'a [u8], &'a [u8]);

/// The two words of a text.
#[tactic(auto, using(crate::proofs::RowLemmas::not_two))]
pub fn two_words(text: &[u8]) -> Option<(&[u8], &[u8])>
    ensures { MatchOption result (length (words_in text.now) ≢ 2) (λ p. words_in text.now ≡ p.0.now ∷ p.1.now ∷ []) }
{
    let (first, rest) = next_word(text)?;
    let second = only_word(rest)?;
    Some((first, second))
}

/// The first three words of a text, and the text after them.
fn three_words(text: &[u8]) -> Option<(Three<'_>, &[u8])>
    ensures { MatchOption result (length (words_in text.now) < 3) (λ p. words_in text.now ≡ p.0.0.now ∷ p.0.1.now ∷ p.0.2.now ∷ words_in p.1.now) }
{
    let (first, rest) = next_word(text)?;
    let (second, rest) = next_word(rest)?;
    let (third, rest) = next_word(rest)?;
    Some(((first, second, third), rest))
}

/// The seven words of a text.
fn seven_words(text: &[u8]) -> Option<(Three<'_>, &[u8], Three<'_>)>
    ensures { MatchOption result (length (words_in text.now) ≢ 7) (λ p. words_in text.now ≡ p.0.0.now ∷ p.0.1.now ∷ p.0.2.now ∷ p.1.now ∷ p.2.0.now ∷ p.2.1.now ∷ p.2.2.now ∷ []) }
{
    let (front, rest) = three_words(text)?;
    let (middle, rest) = next_word(rest)?;
    let (back, rest) = three_words(rest)?;
    match next_word(rest) {
        None => Some((front, middle, back)),
        Some(_) => None,
    }
}

/// `entry NAME`
#[tactic(auto, using(crate::proofs::RowLemmas::no_entry))]
fn entry(alloc: Global, text: &[u8]) -> Result<Line, Fail<LineFault>>
    ensures { Answers (spec.entry_row (words_in text.now)) result }
{
    match only_word(text) {
        None => Err(WORDS),
        Some(name) => Ok(Line::Entry(Bytes::from_slice(alloc, name)?)),
    }
}

/// Whether each number of a workgroup is below how many there are.
fn is_in_grid(place: (u32, u32, u32), number: (u32, u32, u32)) -> bool
    ensures { result ≡ spec.is_in_grid place number }
{
    place.0 < number.0 && place.1 < number.1 && place.2 < number.2
}

/// The line of a workgroup and of how many there are.
fn group_line(
    place: Option<(u32, u32, u32)>,
    number: Option<(u32, u32, u32)>,
) -> Result<Line, Fail<LineFault>>
    ensures { Answers (spec.group_line place number) result }
{
    let place = place.ok_or(FORM)?;
    let number = number.ok_or(FORM)?;
    if is_in_grid(place, number) {
        Ok(Line::Group(Workgroup { place, number }))
    } else {
        Err(FORM)
    }
}

/// `group X Y Z of X Y Z`
#[tactic(auto, using(crate::proofs::RowLemmas::no_group))]
fn group(text: &[u8]) -> Result<Line, Fail<LineFault>>
    ensures { Answers (spec.group_row (words_in text.now)) result }
{
    let Some(((x, y, z), of, (nx, ny, nz))) = seven_words(text) else {
        return Err(WORDS);
    };
    if of == b"of".as_slice() {
        group_line(triple(x, y, z), triple(nx, ny, nz))
    } else {
        Err(WORDS)
    }
}

/// `spec ID VALUE`
#[tactic(auto, using(crate::proofs::RowLemmas::no_spec))]
fn spec(text: &[u8]) -> Result<Line, Fail<LineFault>>
    ensures { Answers (spec.spec_row (words_in text.now)) result }
{
    let (id, it) = two_words(text).ok_or(WORDS)?;
    let id = short(id).ok_or(FORM)?;
    let value = value(it).ok_or(FORM)?;
    Ok(Line::Spec { id, value })
}

/// `buffer SET BIND hex DIGITS`, from its digits on.
fn hex_buffer(
    alloc: Global,
    set: &[u8],
    binding: &[u8],
    text: &[u8],
) -> Result<Line, Fail<LineFault>>
    ensures { Answers (spec.hex_row set.now binding.now (words_in text.now)) result }
{
    let set = short(set).ok_or(FORM)?;
    let binding = short(binding).ok_or(FORM)?;
    let bytes = bytes(alloc, text)?.ok_or(FORM)?;
    Ok(Line::Buffer {
        set,
        binding,
        content: Content::Hex(bytes),
    })
}

/// `buffer SET BIND zero N`, from its number on.
#[tactic(auto, using(crate::proofs::RowLemmas::no_zero))]
fn zero_buffer(set: &[u8], binding: &[u8], text: &[u8]) -> Result<Line, Fail<LineFault>>
    ensures { Answers (spec.zero_row set.now binding.now (words_in text.now)) result }
{
    let count = only_word(text).ok_or(WORDS)?;
    let set = short(set).ok_or(FORM)?;
    let binding = short(binding).ok_or(FORM)?;
    let count = number(count, MOST_ZEROS).ok_or(FORM)?;
    Ok(Line::Buffer {
        set,
        binding,
        content: Content::Zero(count as u32),
    })
}

/// `buffer SET BIND hex DIGITS` and `buffer SET BIND zero N`
#[tactic(auto, using(crate::proofs::RowLemmas::no_buffer))]
fn buffer(alloc: Global, text: &[u8]) -> Result<Line, Fail<LineFault>>
    ensures { Answers (spec.buffer_row (words_in text.now)) result }
{
    let Some(((set, binding, kind), rest)) = three_words(text) else {
        return Err(WORDS);
    };
    if kind == b"hex".as_slice() {
        hex_buffer(alloc, set, binding, rest)
    } else if kind == b"zero".as_slice() {
        zero_buffer(set, binding, rest)
    } else {
        Err(WORDS)
    }
}

/// `push hex DIGITS`
fn push(alloc: Global, text: &[u8]) -> Result<Line, Fail<LineFault>>
    ensures { Answers (spec.push_row (words_in text.now)) result }
{
    let Some((kind, rest)) = next_word(text) else {
        return Err(WORDS);
    };
    if kind == b"hex".as_slice() {
        let bytes = bytes(alloc, rest)?.ok_or(FORM)?;
        Ok(Line::Push(bytes))
    } else {
        Err(WORDS)
    }
}

/// `move I N`
#[tactic(auto, using(crate::proofs::RowLemmas::no_move))]
fn moves(text: &[u8]) -> Result<Line, Fail<LineFault>>
    ensures { Answers (spec.move_row (words_in text.now)) result }
{
    let (invocation, count) = two_words(text).ok_or(WORDS)?;
    let invocation = short(invocation).ok_or(FORM)?;
    let count = number(count, MOST_ENTRIES).ok_or(FORM)?;
    Ok(Line::Move {
        invocation,
        count: count as u32,
    })
}

/// `rounds N`
#[tactic(auto, using(crate::proofs::RowLemmas::no_rounds))]
fn rounds(text: &[u8]) -> Result<Line, Fail<LineFault>>
    ensures { Answers (spec.rounds_row (words_in text.now)) result }
{
    let count = only_word(text).ok_or(WORDS)?;
    let count = number(count, MOST_ENTRIES).ok_or(FORM)?;
    Ok(Line::Rounds(count as u32))
}

/// `barrier finished-count`, in version 2 alone
#[tactic(auto, using(crate::proofs::RowLemmas::no_barrier))]
fn barrier(version: Version, text: &[u8]) -> Result<Line, Fail<LineFault>>
    ensures { Answers (spec.barrier_row version (words_in text.now)) result }
{
    match version {
        Version::One => Err(WORDS),
        Version::Two => {
            let kind = only_word(text).ok_or(WORDS)?;
            if kind == b"finished-count".as_slice() {
                Ok(Line::FinishedCount)
            } else {
                Err(WORDS)
            }
        }
    }
}

/// The line of a first word and the text after it.
#[tactic(auto, unfolding(crate::specs::Rows::row))]
fn line_of(
    alloc: Global,
    version: Version,
    word: &[u8],
    text: &[u8],
) -> Result<Line, Fail<LineFault>>
    ensures { Answers (spec.row version word.now (words_in text.now)) result }
{
    if word == b"entry".as_slice() {
        entry(alloc, text)
    } else if word == b"group".as_slice() {
        group(text)
    } else if word == b"spec".as_slice() {
        spec(text)
    } else if word == b"buffer".as_slice() {
        buffer(alloc, text)
    } else if word == b"push".as_slice() {
        push(alloc, text)
    } else if word == b"move".as_slice() {
        moves(text)
    } else if word == b"rounds".as_slice() {
        rounds(text)
    } else if word == b"barrier".as_slice() {
        barrier(version, text)
    } else {
        Err(WORDS)
    }
}

/// What a line after the first says; nothing where it has no words, or begins with `#`.
pub fn read_line(
    alloc: Global,
    version: Version,
    line: &[u8],
) -> Result<Option<Line>, Fail<LineFault>>
    ensures { Answers (spec.meaning version line.now) result }
{
    if line.first() == Some(&b'#') {
        return Ok(None);
    }
    match next_word(line) {
        None => Ok(None),
        Some((word, text)) => Ok(Some(line_of(alloc, version, word, text)?)),
    }
}
