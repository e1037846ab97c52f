//! Integers as bits: their reading as signed, and the bits of a width.
ghost use Rattle.std.specs.Prelude.{◌≡◌, ◌-◌, ◌^◌, ◌<◌, ◌↔◌, IsTrue};
ghost use Rattle.spv_alu.specs.Integers.{IsWidth, signed};

/// Whether an integer or a Boolean may have this width.
pub fn is_width(width: u8) -> bool
    ensures { IsTrue result ↔ IsWidth width }
{
    0 < width && width <= 64
}

/// The greatest number of a width, of which each bit is 1.
pub fn greatest(width: u8) -> u64
    requires { IsWidth width }
    ensures { result ≡ 2 ^ width - 1 }
{
    u64::MAX >> (64 - width)
}

/// The integer that the bits of a width stand for where they are read as signed, in two's complement.
#[tactic(auto, unfolding(crate::specs::Integers::signed))]
pub fn signed(bits: u64, width: u8) -> i64
    requires width { IsWidth width }
    requires fits { bits < 2 ^ width }
    ensures { result ≡ signed width bits }
{
    if bits >> (width - 1) == 0 {
        bits as i64
    } else {
        // The complement of n is -(n + 1).
        !((greatest(width) - bits) as i64)
    }
}
