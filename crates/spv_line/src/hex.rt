//! Bytes that pairs of hexadecimal digits spell.
ghost use Rattle.std.specs.Prelude.{◌≡◌, ◌++◌, ◌<◌, true, OnOk, IfOk, [], MatchOption};
ghost use Rattle.std.specs.List.{list_all};
ghost use Rattle.spv_line.specs.Words.{words_in};
ghost use Rattle.spv_line.specs.Hex.{is_hex_digit, hex_digit, is_hex_word, pairs_of, bytes_of, HasFirstPair};

use crate::words::next_word;
use spv_base::{Bytes, NoMemory};
use std::alloc::Global;

fn is_digit(b: u8) -> bool
    ensures { result ≡ is_hex_digit b }
{
    b.is_ascii_hexdigit()
}

/// What a digit stands for.
fn digit(b: u8) -> u8
    requires { is_hex_digit b ≡ true }
    ensures value { result ≡ hex_digit b }
    ensures below { result < 16 }
{
    if b < b':' {
        b - b'0'
    } else if b < b'a' {
        b - b'A' + 10
    } else {
        b - b'a' + 10
    }
}

fn all_digits(word: &[u8]) -> bool
    ensures { result ≡ list_all is_hex_digit word.now }
{
    word.iter().all(|b| is_digit(*b))
}

/// Whether a word is of pairs of digits.
fn is_word(word: &[u8]) -> bool
    ensures { result ≡ is_hex_word word.now }
{
    all_digits(word) && word.len() % 2 == 0
}

/// The byte that the first two digits spell, and the digits after them.
#[tactic(auto, using(crate::proofs::HexLemmas::pair_first, crate::proofs::HexLemmas::no_pair))]
fn next_pair(digits: &[u8]) -> Option<(u8, &[u8])>
    requires { list_all is_hex_digit digits.now ≡ true }
    ensures { MatchOption result (pairs_of digits.now ≡ []) (λ parts. HasFirstPair digits.now parts.0 parts.1.now) }
{
    let (high, digits) = digits.split_first()?;
    let (low, digits) = digits.split_first()?;
    Some((16 * digit(*high) + digit(*low), digits))
}

/// Appends the bytes of a word.
fn push_pairs(bytes: &mut Vec<u8>, word: &[u8]) -> Result<(), NoMemory>
    requires { list_all is_hex_digit word.now ≡ true }
    ensures { OnOk result (bytes.new.items ≡ bytes.old.items ++ pairs_of word.now) }
{
    let mut digits = word;
    while let Some((byte, rest)) = next_pair(digits) {
        bytes.push(byte)?;
        digits = rest;
    }
    Ok(())
}

/// The bytes that the words of a text spell, where each is of pairs of hexadecimal digits. No words spell no bytes.
#[tactic(auto, unfolding(crate::specs::Hex::bytes_of))]
pub fn bytes(alloc: Global, text: &[u8]) -> Result<Option<Bytes>, NoMemory>
    ensures { IfOk result (λ bytes. bytes ≡ bytes_of (words_in text.now)) }
{
    let mut bytes = Vec::new(alloc);
    let mut left = text;
    while let Some((word, rest)) = next_word(left) {
        if !is_word(word) {
            return Ok(None);
        }
        push_pairs(&mut bytes, word)?;
        left = rest;
    }
    Ok(Some(Bytes::from_vec(bytes)))
}
