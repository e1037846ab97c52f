//! The parts of a variable, one within the other, by their bits. Numbers of bits stop at the greatest u64.
ghost use Rattle.std.specs.Prelude.{◌≡◌, ◌+◌, ◌==◌, ◌&&◌, option_map};
ghost use Rattle.spv_base.specs.Saturation.{saturated};
ghost use Rattle.spv_parts.specs.Kept.{kept_part, kept_place};
ghost use Rattle.spv_parts.specs.Parts.{part_bits};
ghost use Rattle.spv_paths.specs.Kept.{kept_portion, saturated_portion};
ghost use Rattle.spv_paths.specs.Portions as spec;

use spv_dbg::DebugTables;
use spv_parts::{
    Place, TypePart, as_array, last_member, literal, member_count, member_named, part_bits,
    part_named, type_bits,
};

/// Where a part of a variable lies: the bits before it, and whether it is the last part of a global.
#[derive(Clone, Copy)]
pub(crate) struct Portion<'a> {
    pub(crate) start: u64,
    pub(crate) part: TypePart<'a>,
    pub(crate) last: bool,
}

/// How many elements an array has by its outermost Count.
fn outermost(tables: &DebugTables, array: TypePart<'_>) -> u64
    ensures { result ≡ spec.outermost tables.now (kept_part array.entry) }
{
    match array.counts.first() {
        Some(count) => u64::from(literal(tables, *count)),
        None => 0,
    }
}

/// What the elements of an array are.
fn inner<'a>(array: TypePart<'a>) -> TypePart<'a>
    ensures { kept_part result ≡ spec.inner (kept_part array.entry) }
{
    TypePart {
        base: array.base,
        counts: array.counts.get(1..).unwrap_or(&[]),
    }
}

/// How many whole times some bits hold others.
fn divided(bits: u64, each: u64) -> u64
    ensures { result ≡ spec.whole_elements bits each }
{
    if each == 0 { 0 } else { bits / each }
}

/// How many whole elements some bits are. The bits of an element may be more than a u64 counts, so they are divided by one
/// Count after the other.
fn whole_elements(tables: &DebugTables, bits: u64, part: TypePart<'_>) -> u64
    ensures { result ≡ spec.whole_elements bits (part_bits tables.now (kept_part part.entry)) }
{
    let mut whole = divided(bits, type_bits(tables, part.base));
    for count in part.counts {
        whole = divided(whole, u64::from(literal(tables, *count)));
    }
    whole
}

/// How many elements a portion has, which is an array, in a global with so many bits.
fn elements(tables: &DebugTables, bits: u64, portion: Portion<'_>, array: TypePart<'_>) -> u64
    ensures { result ≡ spec.elements tables.now bits (kept_portion portion.entry) (kept_part array.entry) }
{
    let count = outermost(tables, array);
    if count == 0 && portion.last {
        whole_elements(tables, bits.saturating_sub(portion.start), inner(array))
    } else {
        count
    }
}

/// Whether a number is the last of so many.
fn is_last(number: u64, count: u64) -> bool
    ensures { result ≡ (number + 1 == count) }
{
    number < count && count - number == 1
}

/// Whether a part is the last one of a global, where what it is part of is or isn't, and it has a number of so many.
fn ends(last: bool, number: u64, count: u64) -> bool
    ensures { result ≡ (last && (number + 1 == count)) }
{
    last && is_last(number, count)
}

/// An element of so many.
fn element_of<'a>(
    tables: &DebugTables,
    portion: Portion<'_>,
    array: TypePart<'a>,
    count: u64,
    index: u64,
) -> Option<Portion<'a>>
    ensures { option_map kept_portion result ≡ option_map saturated_portion (spec.element_of tables.now (kept_portion portion.entry) (kept_part array.entry) count index) }
{
    if index >= count {
        return None;
    }
    let part = inner(array);
    let before = part_bits(tables, part).saturating_mul(index);
    Some(Portion {
        start: portion.start.saturating_add(before),
        part,
        last: ends(portion.last, index, count),
    })
}

/// An element of a portion.
pub(crate) fn element<'a>(
    tables: &'a DebugTables,
    bits: u64,
    portion: Portion<'a>,
    index: u32,
) -> Option<Portion<'a>>
    ensures { option_map kept_portion result ≡ option_map saturated_portion (spec.element tables.now bits (kept_portion portion.entry) index) }
{
    let array = as_array(tables, portion.part)?;
    let count = elements(tables, bits, portion, array);
    element_of(tables, portion, array, count, u64::from(index))
}

/// A part of a portion, with the bits before it there, as its last one or not.
fn within<'a>(portion: Portion<'_>, last: bool, place: Place<'a>) -> Portion<'a>
    ensures { kept_portion result ≡ saturated_portion (spec.within (kept_portion portion.entry) last (kept_place place.entry)) }
{
    Portion {
        start: portion.start.saturating_add(place.start),
        part: place.part,
        last: portion.last && last,
    }
}

/// The first member of a portion with a name.
pub(crate) fn member<'a>(
    tables: &'a DebugTables,
    portion: Portion<'_>,
    name: &[u8],
) -> Option<Portion<'a>>
    ensures { option_map kept_portion result ≡ option_map saturated_portion (spec.member tables.now (kept_portion portion.entry) name.now) }
{
    let number = member_named(tables, portion.part, name)?;
    let place = part_named(tables, portion.part, name)?;
    let last = is_last(number as u64, member_count(tables, portion.part) as u64);
    Some(within(portion, last, place))
}

/// The last element of a portion, where it has one.
fn last_element<'a>(tables: &'a DebugTables, bits: u64, portion: Portion<'a>) -> Option<Portion<'a>>
    ensures { option_map kept_portion result ≡ option_map saturated_portion (spec.last_element tables.now bits (kept_portion portion.entry)) }
{
    let array = as_array(tables, portion.part)?;
    let count = elements(tables, bits, portion, array);
    element_of(tables, portion, array, count, count.saturating_sub(1))
}

/// The last element or the last member of a portion, where there is one.
fn last_part<'a>(tables: &'a DebugTables, bits: u64, portion: Portion<'a>) -> Option<Portion<'a>>
    ensures { option_map kept_portion result ≡ option_map saturated_portion (spec.last_part tables.now bits (kept_portion portion.entry)) }
{
    if let Some(element) = last_element(tables, bits, portion) {
        return Some(element);
    }
    Some(within(portion, true, last_member(tables, portion.part)?))
}

/// How many bits stand before the end of a portion, by its type alone.
fn plain_end(tables: &DebugTables, portion: Portion<'_>) -> u64
    ensures { result ≡ saturated (spec.plain_end tables.now (kept_portion portion.entry)) }
{
    portion
        .start
        .saturating_add(part_bits(tables, portion.part))
}

/// How many bits stand before the end of a portion, in a global with so many bits: past the last of its elements that a Count
/// of 0 stands for.
pub(crate) fn end_of(tables: &DebugTables, bits: u64, portion: Portion<'_>) -> u64
    ensures { result ≡ saturated (spec.end_of tables.now bits (kept_portion portion.entry)) }
{
    let mut at = portion;
    for n in 0..64u32 {
        if !at.last {
            return plain_end(tables, at);
        }
        let Some(part) = last_part(tables, bits, at) else {
            return plain_end(tables, at);
        };
        at = part;
    }
    plain_end(tables, at)
}
