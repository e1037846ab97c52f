//! Numbers that decimal digits spell.
ghost use Rattle.std.specs.Prelude.{◌≡◌};
ghost use Rattle.spv_cmd.specs.Numbers.{number_of};

/// The number of one or more decimal digits, where it has 32 bits. Leading zeros are read.
#[tactic(auto, unfolding(crate::specs::Numbers::number_of))]
pub fn number(digits: &[u8]) -> Option<u32>
    ensures { result ≡ number_of digits.now }
{
    match spv_line::number(digits, u32::MAX as u64) {
        Some(number) => Some(number as u32),
        None => None,
    }
}
