//! Integers in the bytes of a buffer, the lowest byte first.
ghost use Rattle.std.specs.Prelude.{◌≡◌, ◌+◌, ◌<◌, ◌^◌};
ghost use Rattle.spv_start.specs.Numbers as spec;

use spv_base::Cell;

/// The byte at a place. Those behind the bytes that are written out are 0.
fn byte_at(bytes: &[u8], at: u128) -> u8
    ensures { result ≡ spec.byte_at bytes.now at }
{
    match usize::try_from(at) {
        Ok(at) => bytes.get(at).copied().unwrap_or(0),
        Err(_) => 0,
    }
}

/// The number of the two bytes from a place on.
#[tactic(auto, using(crate::proofs::NumberLemmas::two))]
fn half_at(bytes: &[u8], at: u128) -> u16
    requires { at + 2 < 2 ^ 128 }
    ensures { result ≡ spec.number_at bytes.now at 2 }
{
    u16::from(byte_at(bytes, at)) + 256 * u16::from(byte_at(bytes, at + 1))
}

/// The number of the four bytes from a place on.
#[tactic(auto, using(crate::proofs::NumberLemmas::four))]
fn word_at(bytes: &[u8], at: u128) -> u32
    requires { at + 4 < 2 ^ 128 }
    ensures { result ≡ spec.number_at bytes.now at 4 }
{
    u32::from(half_at(bytes, at)) + 65_536 * u32::from(half_at(bytes, at + 2))
}

/// The number of the eight bytes from a place on.
#[tactic(auto, using(crate::proofs::NumberLemmas::eight))]
fn long_at(bytes: &[u8], at: u128) -> u64
    requires { at + 8 < 2 ^ 128 }
    ensures { result ≡ spec.number_at bytes.now at 8 }
{
    u64::from(word_at(bytes, at)) + 4_294_967_296 * u64::from(word_at(bytes, at + 4))
}

/// The integer of a width, in bits, that begins at a place, in bytes, lowest byte first. Bytes behind those that are written out are
/// 0.
#[tactic(auto, using(crate::proofs::NumberLemmas::one))]
pub fn scalar_at(bytes: &[u8], at: u128, width: u32) -> Cell
    requires { at + 8 < 2 ^ 128 }
    ensures { result ≡ spec.scalar_at bytes.now at width }
{
    match width {
        8 => Cell {
            bits: u64::from(byte_at(bytes, at)),
            width: 8,
            defined: true,
        },
        16 => Cell {
            bits: u64::from(half_at(bytes, at)),
            width: 16,
            defined: true,
        },
        32 => Cell {
            bits: u64::from(word_at(bytes, at)),
            width: 32,
            defined: true,
        },
        64 => Cell {
            bits: long_at(bytes, at),
            width: 64,
            defined: true,
        },
        _ => Cell {
            bits: 0,
            width: 1,
            defined: false,
        },
    }
}
