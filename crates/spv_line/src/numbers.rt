//! Numbers that decimal digits spell, and their texts.
ghost use Rattle.std.specs.Prelude.{◌≡◌, ◌++◌, ◌^◌, ◌≤◌, decimal, min, IfSome, OnOk, OnErr};
ghost use Rattle.std.specs.List.{list_all};
ghost use Rattle.spv_line.specs.Numbers.{number_of, value_of, is_digit};

use spv_base::NoMemory;
use std::alloc::Global;

/// What decimal digits spell, or 2^64 where that is more.
fn value(digits: &[u8]) -> u128
    ensures { result ≡ min (value_of digits.now) (2 ^ 64) }
{
    let mut value: u128 = 0;
    for digit in digits {
        value = (10 * value + digit.saturating_sub(b'0') as u128).min(1 << 64);
    }
    value
}

fn all_digits(digits: &[u8]) -> bool
    ensures { result ≡ list_all is_digit digits.now }
{
    digits.iter().all(|b| b.is_ascii_digit())
}

/// The number of one or more decimal digits, where it is at most a limit. Leading zeros are read.
#[tactic(auto, using(crate::proofs::NumberLemmas::number_is), unfolding(crate::specs::Numbers::number_of))]
pub fn number(digits: &[u8], limit: u64) -> Option<u64>
    ensures number { result ≡ number_of limit digits.now }
    ensures within { IfSome result (λ n. n ≤ limit) }
{
    if digits.is_empty() {
        return None;
    }
    if !all_digits(digits) {
        return None;
    }
    let value = value(digits);
    if value <= limit as u128 {
        Some(value as u64)
    } else {
        None
    }
}

/// Appends a number in decimal. Where memory runs out, the text is as before.
pub fn push_number(alloc: Global, text: &mut Vec<u8>, number: u64) -> Result<(), NoMemory>
    ensures ok { OnOk result (text.new.items ≡ text.old.items ++ decimal number) }
    ensures err { OnErr result (text.new.items ≡ text.old.items) }
{
    text.extend_from_slice(number.to_string(alloc)?.as_bytes())?;
    Ok(())
}
