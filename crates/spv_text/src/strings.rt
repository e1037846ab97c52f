//! Reading strings.
ghost use Rattle.std.specs.Prelude.{◌≡◌, ◌≢◌, ℕ, List, ◌<◌, ◌++◌, [], ◌∷◌, IfOk, MatchOption};
ghost use Rattle.std.specs.List.{flat_map, AllByRecursion};
ghost use Rattle.spv_text.specs.Spelling.{byte_text, hex_digit, quoted};
ghost use Rattle.spv_text.specs.Lines.{Any, IsByte, Lacks, Stands};

use crate::fronts::after;
use spv_base::{NoMemory, Text};
use std::alloc::Global;

/// What a digit of base 16 in lower case stands for.
fn hex_value(digit: u8) -> Option<u8>
    ensures { MatchOption result ((n : ℕ) → n < 16 → hex_digit n ≢ digit) (λ n. (n < 16) × (hex_digit n ≡ digit)) }
{
    match digit {
        b'0'..=b'9' => Some(digit - b'0'),
        b'a'..=b'f' => Some(digit - b'a' + 10),
        _ => None,
    }
}

/// The byte that is written by these two digits of base 16: it isn't zero, and has no shorter form.
fn escaped_byte(high: u8, low: u8) -> Option<u8>
    ensures { MatchOption result ((byte : ℕ) → IsByte byte → byte_text byte ≢ 92 ∷ 120 ∷ high ∷ low ∷ []) (λ byte. IsByte byte × (byte_text byte ≡ 92 ∷ 120 ∷ high ∷ low ∷ [])) }
{
    let high = hex_value(high)?;
    let low = hex_value(low)?;
    let byte = 16 * high + low;
    if byte == 0 || (32 <= byte && byte <= 126) {
        None
    } else {
        Some(byte)
    }
}

/// The byte of a string at the front.
fn byte_at(text: &[u8]) -> Option<(u8, &[u8])>
    ensures { MatchOption result (Lacks byte_text IsByte Any text.now) (λ found. Stands byte_text IsByte Any text.now found.0 found.1.now) }
{
    match text {
        [b'\\', b'x', high, low, rest @ ..] => match escaped_byte(*high, *low) {
            Some(byte) => Some((byte, rest)),
            None => None,
        },
        [b'\\', b'"', rest @ ..] => Some((b'"', rest)),
        [b'\\', b'\\', rest @ ..] => Some((b'\\', rest)),
        [b'\\' | b'"', ..] => None,
        [32..=126, rest @ ..] => Some((text[0], rest)),
        _ => None,
    }
}

/// The bytes of a string that are written at the front.
fn bytes_at(alloc: Global, text: &[u8]) -> Result<(Vec<u8>, &[u8]), NoMemory>
    ensures bytes { IfOk result (λ found. AllByRecursion IsByte found.0.items) }
    ensures whole { IfOk result (λ found. text.now ≡ flat_map byte_text found.0.items ++ found.1.now) }
    ensures all { IfOk result (λ found. Lacks byte_text IsByte Any found.1.now) }
    ensures rest { IfOk result (λ found. (bs r : List ℕ) → AllByRecursion IsByte bs → text.now ≡ flat_map byte_text bs ++ 34 ∷ r
        → (cs : List ℕ) × AllByRecursion IsByte cs × (found.1.now ≡ flat_map byte_text cs ++ 34 ∷ r)) }
{
    let mut bytes = Vec::new(alloc);
    let mut rest = text;
    while let Some((byte, more)) = byte_at(rest) {
        bytes.push(byte)?;
        rest = more;
    }
    Ok((bytes, rest))
}

/// The string at the front, behind its first quote.
pub fn string_at(alloc: Global, text: &[u8]) -> Result<Option<(Text, &[u8])>, NoMemory>
    ensures { IfOk result (λ found. MatchOption found (Lacks quoted (AllByRecursion IsByte) Any text.now) (λ it. Stands quoted (AllByRecursion IsByte) Any text.now it.0 it.1.now)) }
{
    let (bytes, rest) = bytes_at(alloc, text)?;
    match after(rest, b"\"") {
        Some(rest) => Ok(Some((Text::from_vec(bytes), rest))),
        None => Ok(None),
    }
}
