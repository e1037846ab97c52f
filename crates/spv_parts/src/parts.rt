//! Parts of the types of variables, by their bits. Numbers of bits stop at the greatest u64.
ghost use Rattle.std.specs.Prelude.{◌≡◌, ◌*◌, drop, option_map, slice_index};
ghost use Rattle.std.specs.Option.{option_and_then};
ghost use Rattle.spv_base.specs.Saturation.{saturated};
ghost use Rattle.spv_dbg.specs.Tables.{with_id};
ghost use Rattle.spv_parts.specs.Kept.{kept_part, kept_place, saturated_place};
ghost use Rattle.spv_parts.specs.Parts as spec;

use crate::arrays::first_of;
use crate::composites::member_of;
use spv_dbg::{DebugInst, DebugTables};
use spv_ops::debug_info::*;

/// A part of a type: an array of a type by some Counts, or a type itself where there are none.
#[derive(Clone, Copy)]
pub struct TypePart<'a> {
    pub base: u32,
    pub counts: &'a [u32],
}

/// A part of a type with the bits before it.
#[derive(Clone, Copy)]
pub struct Place<'a> {
    pub start: u64,
    pub part: TypePart<'a>,
}

/// The operand of a debug instruction with a number, and 0 where there is none.
pub fn operand(debug: &DebugInst, n: usize) -> u32
    ensures { result ≡ slice_index debug.now.operands n }
{
    debug.operands.get(n).copied().unwrap_or(0)
}

/// The operands of a debug instruction from one on.
pub fn operands_from(debug: &DebugInst, n: usize) -> &[u32]
    ensures { result.now ≡ drop n debug.now.operands }
{
    debug.operands.as_slice().get(n..).unwrap_or(&[])
}

/// The number that a literal operand stands for.
pub fn literal(tables: &DebugTables, id: u32) -> u32
    ensures { result ≡ spec.literal tables.now id }
{
    tables.number_of(id).unwrap_or(0)
}

/// The same as a number of 64 bits.
fn count(tables: &DebugTables, id: u32) -> u64
    ensures { result ≡ spec.literal tables.now id }
{
    u64::from(literal(tables, id))
}

/// A number times the product of some Counts.
fn times(tables: &DebugTables, base: u64, counts: &[u32]) -> u64
    ensures { result ≡ saturated (base * spec.product tables.now counts.now) }
{
    let mut bits = base;
    for id in counts {
        bits = bits.saturating_mul(count(tables, *id));
    }
    bits
}

/// How many bits a type has, or the Type of a TypeMember.
pub fn type_bits(tables: &DebugTables, id: u32) -> u64
    ensures { result ≡ spec.type_bits tables.now id }
{
    tables.bits(id).unwrap_or(0)
}

/// How many bits a part has.
pub fn part_bits(tables: &DebugTables, part: TypePart<'_>) -> u64
    ensures { result ≡ saturated (spec.part_bits tables.now (kept_part part.entry)) }
{
    times(tables, type_bits(tables, part.base), part.counts)
}

/// A type as a part.
pub fn whole<'a>(ty: u32) -> TypePart<'a>
    ensures { kept_part result ≡ spec.whole ty }
{
    TypePart {
        base: ty,
        counts: &[],
    }
}

/// What a TypeQualifier or a Typedef stands over.
fn base_in(debug: &DebugInst) -> Option<u32>
    ensures { result ≡ spec.base_in debug.now }
{
    match debug.number {
        TYPE_QUALIFIER => Some(operand(debug, 0)),
        TYPEDEF => Some(operand(debug, 1)),
        _ => None,
    }
}

/// What the type with an id stands over, where it is one of these.
fn base_of(tables: &DebugTables, id: u32) -> Option<u32>
    ensures { result ≡ option_and_then spec.base_in (with_id tables.now id) }
{
    base_in(tables.get(id)?)
}

/// A type seen through each TypeQualifier and Typedef.
#[tactic(auto, using(crate::proofs::PartLemmas::plain_step))]
pub fn plain(tables: &DebugTables, id: u32) -> u32
    ensures { result ≡ spec.plain tables.now id }
{
    let mut plain = id;
    for n in 0..tables.insts().len() {
        let Some(base) = base_of(tables, plain) else {
            return plain;
        };
        plain = base;
    }
    plain
}

/// An element of an array by some Counts.
#[tactic(auto, using(crate::proofs::PartLemmas::scaled))]
fn element<'a>(tables: &DebugTables, base: u32, counts: &'a [u32], index: u32) -> Option<Place<'a>>
    ensures { option_map kept_place result ≡ option_map saturated_place (spec.element tables.now base counts.now index) }
{
    let (count, counts) = counts.split_first()?;
    if index >= literal(tables, *count) {
        return None;
    }
    let part = TypePart { base, counts };
    let start = part_bits(tables, part).saturating_mul(u64::from(index));
    Some(Place { start, part })
}

/// A part of a type, which is no Typedef and no TypeQualifier.
fn part_in<'a>(tables: &DebugTables, index: u32, debug: &'a DebugInst) -> Option<Place<'a>>
    ensures { option_map kept_place result ≡ option_map saturated_place (spec.part_in tables.now index debug.now) }
{
    match debug.number {
        TYPE_ARRAY => element(tables, operand(debug, 0), operands_from(debug, 1), index),
        TYPE_VECTOR | TYPE_MATRIX => {
            let counts = first_of(operands_from(debug, 1));
            element(tables, operand(debug, 0), counts, index)
        }
        TYPE_COMPOSITE => member_of(tables, debug, index),
        _ => None,
    }
}

/// A part of the type with an id.
fn part_of<'a>(tables: &'a DebugTables, index: u32, ty: u32) -> Option<Place<'a>>
    ensures { option_map kept_place result ≡ option_map saturated_place (option_and_then (spec.part_in tables.now index) (with_id tables.now (spec.plain tables.now ty))) }
{
    part_in(tables, index, tables.get(plain(tables, ty))?)
}

/// A part of a part. The first Count of an array is its outermost.
pub fn part_at<'a>(tables: &'a DebugTables, part: TypePart<'a>, index: u32) -> Option<Place<'a>>
    ensures { option_map kept_place result ≡ option_map saturated_place (spec.part_at tables.now (kept_part part.entry) index) }
{
    if part.counts.is_empty() {
        part_of(tables, index, part.base)
    } else {
        element(tables, part.base, part.counts, index)
    }
}

/// The part of a type that some Indexes lead to.
pub fn reached<'a>(tables: &'a DebugTables, ty: u32, indexes: &[u32]) -> Option<Place<'a>>
    ensures { option_map kept_place result ≡ option_map saturated_place (spec.reached tables.now (0, spec.whole ty) indexes.now) }
{
    let mut place = Place {
        start: 0,
        part: whole(ty),
    };
    for id in indexes {
        let inner = part_at(tables, place.part, literal(tables, *id))?;
        place = Place {
            start: place.start.saturating_add(inner.start),
            part: inner.part,
        };
    }
    Some(place)
}
