//! How many bits the values of debug types have, and how deep the types are nested. Numbers stop at the greatest u64.
ghost use Rattle.std.specs.Prelude.{◌≡◌, ◌*◌, ◌<◌, drop, length};
ghost use Rattle.spv_base.specs.Saturation.{saturated};
ghost use Rattle.spv_dbg.specs.Saturation.{saturated_measure};
ghost use Rattle.spv_dbg.specs.Literals.{literal_of};
ghost use Rattle.spv_dbg.specs.Marks as spec;

use crate::insts::operand;
use crate::literals::literal_of;
use crate::marks::{Mark, known};
use spv_ops::debug_info::*;
use spv_valid::Module;

/// The bits of the values of a type, and its nesting.
#[derive(Clone, Copy)]
pub struct Measure {
    pub bits: u64,
    pub nesting: u64,
}

/// Of what is no type.
const NOTHING: Measure = Measure {
    bits: 0,
    nesting: 0,
};

/// The operands from one on.
pub(crate) fn operands_from(ids: &[u32], n: usize) -> &[u32]
    ensures { result.now ≡ drop n ids.now }
{
    ids.get(n..).unwrap_or(&[])
}

fn measure_in(mark: Mark) -> Measure
    ensures { result ≡ spec.measure_in mark }
{
    Measure {
        bits: mark.bits,
        nesting: mark.nesting,
    }
}

/// That of an earlier type.
fn part(module: &Module, marks: &[Option<Mark>], id: u32) -> Measure
    ensures { result ≡ spec.part (spec.known module.now marks.now) id }
{
    match known(module, marks, id) {
        Some(mark) => measure_in(mark),
        None => NOTHING,
    }
}

fn count_of(module: &Module, id: u32) -> u64
    ensures { result ≡ spec.count_of (literal_of module.now) id }
{
    u64::from(literal_of(module, id).unwrap_or(0))
}

/// A number times the product of some Counts.
fn times(module: &Module, base: u64, counts: &[u32]) -> u64
    ensures { result ≡ saturated (base * spec.product (literal_of module.now) counts.now) }
{
    let mut bits = base;
    for id in counts {
        bits = bits.saturating_mul(count_of(module, *id));
    }
    bits
}

/// That of a member, where it is a well-formed one.
fn member(module: &Module, marks: &[Option<Mark>], id: u32) -> Measure
    ensures { result ≡ spec.member (spec.known module.now marks.now) id }
{
    match known(module, marks, id) {
        Some(mark) if mark.number == TYPE_MEMBER => measure_in(mark),
        Some(_) | None => NOTHING,
    }
}

/// The sum of the bits of some members, and the greatest of their nestings.
fn members(module: &Module, marks: &[Option<Mark>], ids: &[u32]) -> Measure
    ensures { result ≡ saturated_measure (spec.members (spec.known module.now marks.now) ids.now) }
{
    let mut all = NOTHING;
    for id in ids {
        let one = member(module, marks, *id);
        all = Measure {
            bits: all.bits.saturating_add(one.bits),
            nesting: all.nesting.max(one.nesting),
        };
    }
    all
}

/// A type over another one, so many times.
fn over(times: u64, base: Measure) -> Measure
    ensures { result ≡ saturated_measure (spec.over times 1 base) }
{
    Measure {
        bits: base.bits.saturating_mul(times),
        nesting: base.nesting.saturating_add(1),
    }
}

/// An array of a type.
fn array(module: &Module, counts: &[u32], base: Measure) -> Measure
    ensures { result ≡ saturated_measure (spec.over (spec.product (literal_of module.now) counts.now) (length counts.now) base) }
{
    Measure {
        bits: times(module, base.bits, counts),
        nesting: base.nesting.saturating_add(counts.len() as u64),
    }
}

/// The measure of a debug instruction with a number and these operands.
#[tactic(auto, unfolding(crate::specs::Marks::measure_of))]
pub(crate) fn measure_of(
    module: &Module,
    marks: &[Option<Mark>],
    number: u32,
    ids: &[u32],
) -> Measure
    ensures { result ≡ saturated_measure (spec.measure_of (literal_of module.now) (spec.known module.now marks.now) number ids.now) }
{
    match number {
        TYPE_BASIC => Measure {
            bits: count_of(module, operand(ids, 1)),
            nesting: 1,
        },
        INFO_NONE | TYPE_POINTER | TYPE_FUNCTION => Measure {
            bits: 0,
            nesting: 1,
        },
        TYPE_QUALIFIER => over(1, part(module, marks, operand(ids, 0))),
        TYPE_ARRAY => array(
            module,
            operands_from(ids, 1),
            part(module, marks, operand(ids, 0)),
        ),
        TYPE_VECTOR | TYPE_MATRIX => over(
            count_of(module, operand(ids, 1)),
            part(module, marks, operand(ids, 0)),
        ),
        TYPEDEF | TYPE_ENUM => over(1, part(module, marks, operand(ids, 1))),
        TYPE_COMPOSITE => over(1, members(module, marks, operands_from(ids, 9))),
        TYPE_MEMBER => part(module, marks, operand(ids, 1)),
        _ => NOTHING,
    }
}
