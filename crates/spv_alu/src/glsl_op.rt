//! The extended instructions of GLSL.std.450 on integers.
ghost use Rattle.std.specs.Prelude.{◌≡◌, ◌^◌, ◌<◌, ◌-◌, int_le, int_lt, pos, if◌then◌else◌};
ghost use Rattle.std.specs.Int.{int_min, int_max};
ghost use Rattle.spv_alu.specs.Integers.{IsWidth, signed};
ghost use Rattle.spv_alu.specs.Results.{integer, defined_if};
ghost use Rattle.spv_alu.specs.Glsl.{glsl_row, glsl_result, glsl_defined, glsl_lane, glsl_op, highest_one, lowest_one};

use crate::integers::{greatest, signed};
use crate::results::{defined_if, integer, signed_integer, undefined};
use spv_base::Cell;
use spv_ops::glsl;

/// An extended instruction on integers.
#[derive(Clone, Copy)]
pub enum GlslOp {
    SAbs,
    SSign,
    UMin,
    SMin,
    UMax,
    SMax,
    UClamp,
    SClamp,
    FindILsb,
    FindSMsb,
    FindUMsb,
}

impl GlslOp {
    /// The instruction of a number, if it is one of these.
    #[tactic(auto, unfolding(crate::specs::Glsl::glsl_op))]
    pub fn of(number: u32) -> Option<GlslOp>
        ensures { result ≡ glsl_op number }
    {
        match number {
            glsl::S_ABS => Some(GlslOp::SAbs),
            glsl::S_SIGN => Some(GlslOp::SSign),
            glsl::U_MIN => Some(GlslOp::UMin),
            glsl::S_MIN => Some(GlslOp::SMin),
            glsl::U_MAX => Some(GlslOp::UMax),
            glsl::S_MAX => Some(GlslOp::SMax),
            glsl::U_CLAMP => Some(GlslOp::UClamp),
            glsl::S_CLAMP => Some(GlslOp::SClamp),
            glsl::FIND_I_LSB => Some(GlslOp::FindILsb),
            glsl::FIND_S_MSB => Some(GlslOp::FindSMsb),
            glsl::FIND_U_MSB => Some(GlslOp::FindUMsb),
            _ => None,
        }
    }

    /// The lane of the instruction on as many of the operands as it has.
    pub fn apply(self, a: Cell, b: Cell, c: Cell) -> Cell
        requires first { IsWidth a.width }
        requires second { b.width ≡ a.width }
        requires third { c.width ≡ a.width }
        ensures lane { result ≡ glsl_lane self a b c }
        ensures width { result.width ≡ a.width }
    {
        let defined = self.is_defined(a.defined, b.defined, c.defined);
        defined_if(defined, self.result(a, b, c))
    }

    /// Whether the operands that it has are defined.
    #[tactic(auto, unfolding(crate::specs::Glsl::glsl_row))]
    fn is_defined(self, a: bool, b: bool, c: bool) -> bool
        ensures { result ≡ glsl_defined (glsl_row self) a b c }
    {
        match self {
            GlslOp::SAbs | GlslOp::SSign | GlslOp::FindILsb | GlslOp::FindSMsb | GlslOp::FindUMsb =>
                a,
            GlslOp::UMin | GlslOp::SMin | GlslOp::UMax | GlslOp::SMax => a && b,
            GlslOp::UClamp | GlslOp::SClamp => a && b && c,
        }
    }

    /// The result at the bits of the operands.
    #[tactic(auto, unfolding(crate::specs::Glsl::glsl_row))]
    fn result(self, a: Cell, b: Cell, c: Cell) -> Cell
        requires first { IsWidth a.width }
        requires second { b.width ≡ a.width }
        requires third { c.width ≡ a.width }
        ensures lane { result ≡ glsl_result (glsl_row self) a.width a.bits b.bits c.bits }
        ensures width { result.width ≡ a.width }
    {
        let Cell { bits: x, width, .. } = a;
        let (y, z) = (b.bits, c.bits);
        match self {
            GlslOp::SAbs => integer(signed(x, width).unsigned_abs(), width),
            GlslOp::SSign => signed_integer(signed(x, width).signum(), width),
            GlslOp::UMin => integer(x.min(y), width),
            GlslOp::SMin => signed_integer(signed(x, width).min(signed(y, width)), width),
            GlslOp::UMax => integer(x.max(y), width),
            GlslOp::SMax => signed_integer(signed(x, width).max(signed(y, width)), width),
            GlslOp::UClamp => unsigned_clamp(x, y, z, width),
            GlslOp::SClamp => signed_clamp(
                signed(x, width),
                signed(y, width),
                signed(z, width),
                width,
            ),
            GlslOp::FindILsb => signed_integer(lowest_one(x, width), width),
            GlslOp::FindSMsb => signed_integer(highest_one(magnitude(x, width), width), width),
            GlslOp::FindUMsb => signed_integer(highest_one(x, width), width),
        }
    }
}

/// The least of `high` and the greatest of `x` and `low`, undefined where `low` is above `high`.
fn unsigned_clamp(x: u64, low: u64, high: u64, width: u8) -> Cell
    requires { IsWidth width }
    ensures { result ≡ defined_if (int_le (pos low) (pos high)) (integer width (int_min (int_max (pos x) (pos low)) (pos high))) }
{
    if low <= high {
        integer(x.max(low).min(high), width)
    } else {
        undefined(width)
    }
}

/// The same of signed integers.
fn signed_clamp(x: i64, low: i64, high: i64, width: u8) -> Cell
    requires { IsWidth width }
    ensures { result ≡ defined_if (int_le low high) (integer width (int_min (int_max x low) high)) }
{
    if low <= high {
        signed_integer(x.max(low).min(high), width)
    } else {
        undefined(width)
    }
}

/// The bits where they differ from the sign.
fn magnitude(x: u64, width: u8) -> u64
    requires width { IsWidth width }
    requires x { x < 2 ^ width }
    ensures value { result ≡ (if int_lt (signed width x) (pos 0) then 2 ^ width - 1 - x else x) }
    ensures fits { result < 2 ^ width }
{
    if signed(x, width) < 0 {
        greatest(width) - x
    } else {
        x
    }
}

/// The number of the lowest bit that is 1, or -1.
fn lowest_one(x: u64, width: u8) -> i64
    requires width { IsWidth width }
    requires x { x < 2 ^ width }
    ensures { result ≡ lowest_one width x }
{
    if x == 0 {
        -1
    } else {
        x.trailing_zeros() as i64
    }
}

/// The number of the highest bit that is 1, or -1.
fn highest_one(x: u64, width: u8) -> i64
    requires width { IsWidth width }
    requires x { x < 2 ^ width }
    ensures { result ≡ highest_one width x }
{
    if x == 0 {
        -1
    } else {
        63 - x.leading_zeros() as i64
    }
}
