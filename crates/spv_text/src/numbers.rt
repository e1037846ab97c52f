//! Reading numbers and names.
ghost use Rattle.std.specs.Prelude.{◌≡◌, ◌≢◌, ℕ, ◌++◌, true, not, decimal, MatchOption, IsTrue, ◌↔◌};
ghost use Rattle.std.specs.List.{list_all, position};
ghost use Rattle.spv_line.specs.Numbers.{is_digit};
ghost use Rattle.spv_text.specs.Lines.{LeadsWell, is_name_byte, HasNoDigit, HasNoNameByte, IsName, IsNumber, Lacks, Stands};

/// The place of the first byte that is no digit.
fn digits_end(text: &[u8]) -> Option<usize>
    ensures { result ≡ position (λ b. not (is_digit b)) text.now }
{
    text.iter().position(|b| !b.is_ascii_digit())
}

/// The digits at the front, and what follows them.
#[tactic(auto, using(crate::proofs::FrontLemmas::front_within))]
fn digits_at(text: &[u8]) -> (&[u8], &[u8])
    ensures digits { list_all is_digit result.0.now ≡ true }
    ensures whole { text.now ≡ result.0.now ++ result.1.now }
    ensures rest { HasNoDigit result.1.now }
{
    text.split_at(digits_end(text).unwrap_or(text.len()))
}

/// Whether digits are there, and the first is no zero that others follow.
fn leads_well(digits: &[u8]) -> bool
    ensures { IsTrue result ↔ LeadsWell digits.now }
{
    match digits {
        [] => false,
        [b'0'] => true,
        [first, ..] => *first != b'0',
    }
}

/// The number that has these digits: without leading zeros, and of 32 bits.
fn number(digits: &[u8]) -> Option<u32>
    requires { list_all is_digit digits.now ≡ true }
    ensures { MatchOption result ((n : ℕ) → IsNumber n → digits.now ≢ decimal n) (λ n. digits.now ≡ decimal n) }
{
    if !leads_well(digits) {
        return None;
    }
    match spv_line::number(digits, u32::MAX as u64) {
        Some(number) => Some(number as u32),
        None => None,
    }
}

/// The number at the front.
pub fn number_at(text: &[u8]) -> Option<(u32, &[u8])>
    ensures { MatchOption result (Lacks decimal IsNumber HasNoDigit text.now) (λ found. Stands decimal IsNumber HasNoDigit text.now found.0 found.1.now) }
{
    let (digits, rest) = digits_at(text);
    match number(digits) {
        Some(number) => Some((number, rest)),
        None => None,
    }
}

/// The place of the first byte that is no letter and no digit.
fn name_end(text: &[u8]) -> Option<usize>
    ensures { result ≡ position (λ b. not (is_name_byte b)) text.now }
{
    text.iter().position(|b| !b.is_ascii_alphanumeric())
}

/// The letters and digits at the front, and what follows them.
#[tactic(auto, using(crate::proofs::FrontLemmas::front_within))]
fn letters_at(text: &[u8]) -> (&[u8], &[u8])
    ensures letters { list_all is_name_byte result.0.now ≡ true }
    ensures whole { text.now ≡ result.0.now ++ result.1.now }
    ensures rest { HasNoNameByte result.1.now }
{
    text.split_at(name_end(text).unwrap_or(text.len()))
}

/// The name at the front.
pub fn name_at(text: &[u8]) -> Option<(&[u8], &[u8])>
    ensures { MatchOption result (Lacks (λ name. name) IsName HasNoNameByte text.now) (λ found. Stands (λ name. name) IsName HasNoNameByte text.now found.0.now found.1.now) }
{
    let (name, rest) = letters_at(text);
    if name.is_empty() {
        None
    } else {
        Some((name, rest))
    }
}
