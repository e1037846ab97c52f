//! Numbers in the bits of a value, and their texts.
ghost use Rattle.std.specs.Prelude.{◌≡◌, ◌++◌, ◌+◌, ◌*◌, ◌&&◌, ◌<◌, ◌≤◌, ◌^◌};
ghost use Rattle.spv_print.specs.Leaves as spec;
ghost use Rattle.spv_print.specs.Numbers.{is_signed};
ghost use Rattle.spv_print.specs.Pieces as pieces;

use spv_dbg::Bit;

/// The bits of a TypeBasic in a value: the first of them, how many they are, and the Encoding.
#[derive(Clone, Copy)]
pub struct Leaf {
    pub first: u64,
    pub size: u32,
    pub encoding: u32,
}

/// What the bits of a leaf tell.
#[derive(Clone, Copy)]
pub enum Reading {
    /// Not all are bound, or there are none or more than 64.
    Unavailable,
    /// Not all are defined.
    Undefined,
    /// The number that they are, the lowest first.
    Number(u64),
}

/// Encodings (NonSemantic.Shader.DebugInfo.100).
pub(crate) const BOOLEAN: u32 = 2;

pub(crate) const FLOAT: u32 = 3;

const SIGNED: u32 = 4;

const SIGNED_CHAR: u32 = 5;

/// A bit that no value has.
const UNBOUND: Bit = Bit {
    bound: false,
    defined: false,
    one: false,
};

/// A bit of some; a missing one is unbound.
fn bit_in(bits: &[Bit], k: u64) -> Bit
    ensures { result ≡ spec.bits_in bits.now k }
{
    bits.get(k as usize).copied().unwrap_or(UNBOUND)
}

/// Some bits: whether all are bound, whether all are defined, and the number that they are, the lowest first.
#[derive(Clone, Copy)]
struct Bits {
    bound: bool,
    defined: bool,
    number: u64,
}

/// So many bits with one more.
fn with(all: Bits, i: u32, bit: Bit) -> Bits
    requires below { i < 64 }
    requires fits { all.number < 2 ^ i }
    ensures bound { result.bound ≡ (all.bound && bit.bound) }
    ensures defined { result.defined ≡ (all.defined && bit.defined) }
    ensures number { result.number ≡ all.number + spec.digit bit * 2 ^ i }
{
    Bits {
        bound: all.bound && bit.bound,
        defined: all.defined && bit.defined,
        number: all.number + (u64::from(bit.one) << i),
    }
}

impl Leaf {
    /// Whether its number is shown: it has 1 to 64 bits.
    pub(crate) fn is_shown(self) -> bool
        ensures { result ≡ spec.is_shown self }
    {
        1 <= self.size && self.size <= 64
    }

    /// Whether its number is read as signed.
    pub(crate) fn is_signed(self) -> bool
        ensures { result ≡ is_signed self.encoding }
    {
        self.encoding == SIGNED || self.encoding == SIGNED_CHAR
    }

    /// Its bits among those of a value.
    fn bits_of(self, bits: &[Bit]) -> Bits
        requires { self.size ≤ 64 }
        ensures bound { result.bound ≡ spec.is_bound (spec.bits_in bits.now) self }
        ensures defined { result.defined ≡ spec.is_defined (spec.bits_in bits.now) self }
        ensures number { result.number ≡ spec.number (spec.bits_in bits.now) self }
        ensures fits { result.number < 2 ^ self.size }
    {
        let mut all = Bits {
            bound: true,
            defined: true,
            number: 0,
        };
        for i in 0..self.size {
            let bit = bit_in(bits, self.first.saturating_add(u64::from(i)));
            all = with(all, i, bit);
        }
        all
    }

    /// What they tell.
    pub(crate) fn reading(self, bits: &[Bit]) -> Reading
        ensures reading { result ≡ spec.reading (spec.bits_in bits.now) self }
        ensures fits { spec.IsFitting self result }
    {
        if !self.is_shown() {
            return Reading::Unavailable;
        }
        let all = self.bits_of(bits);
        match (all.bound, all.defined) {
            (true, true) => Reading::Number(all.number),
            (true, false) => Reading::Undefined,
            (false, _) => Reading::Unavailable,
        }
    }

    /// How many bits of a value are read for it, from the first bit on.
    pub(crate) fn end(self) -> u64
        requires { pieces.leaf_end self < 2 ^ 64 }
        ensures { result ≡ pieces.leaf_end self }
    {
        if self.is_shown() {
            self.first + u64::from(self.size)
        } else {
            0
        }
    }
}
