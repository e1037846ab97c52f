//! The members of TypeComposites, by number and by name.
ghost use Rattle.std.specs.Prelude.{◌≡◌, IfOk, filter, length, option_copied, option_map, position, unwrap_or};
ghost use Rattle.std.specs.Option.{option_map_or};
ghost use Rattle.spv_dbg.specs.Tables.{number_in, with_id};
ghost use Rattle.spv_parts.specs.Kept.{kept_part, kept_place, saturated_place};
ghost use Rattle.spv_parts.specs.Composites as named;
ghost use Rattle.spv_parts.specs.Parts as spec;

use crate::parts::{Place, TypePart, operand, operands_from, part_at, plain, type_bits, whole};
use spv_base::{NoMemory, Places};
use spv_dbg::{DebugInst, DebugTables};
use spv_ops::debug_info::*;
use std::alloc::Global;

/// Whether a Member is a TypeMember that stands before the debug instruction with a number.
pub fn is_member(tables: &DebugTables, n: usize, id: u32) -> bool
    ensures { result ≡ spec.is_member tables.now n id }
{
    match (tables.get(id), tables.number(id)) {
        (Some(debug), Some(number)) => debug.number == TYPE_MEMBER && number < n,
        _ => false,
    }
}

/// The Type of a TypeMember.
pub fn member_type(tables: &DebugTables, id: u32) -> u32
    ensures { result ≡ spec.member_type tables.now id }
{
    match tables.get(id) {
        Some(debug) => operand(debug, 1),
        None => 0,
    }
}

/// A member of a TypeComposite with a number.
fn member<'a>(tables: &DebugTables, n: usize, ids: &[u32], index: usize) -> Option<Place<'a>>
    ensures { option_map kept_place result ≡ option_map saturated_place (spec.member tables.now (filter (spec.is_member tables.now n) ids.now) index) }
{
    let mut start = 0u64;
    let mut left = index;
    for id in ids {
        if is_member(tables, n, *id) {
            if left == 0 {
                let part = whole(member_type(tables, *id));
                return Some(Place { start, part });
            }
            left -= 1;
            start = start.saturating_add(type_bits(tables, *id));
        }
    }
    None
}

/// A member of a TypeComposite.
pub(crate) fn member_of<'a>(
    tables: &DebugTables,
    debug: &DebugInst,
    index: u32,
) -> Option<Place<'a>>
    ensures { option_map kept_place result ≡ option_map saturated_place (spec.member tables.now (spec.members_of tables.now debug.now) index) }
{
    numbered_in(tables, debug, index as usize)
}

/// The name of a debug instruction that has it as its first operand, as a TypeMember or a variable has. There are no bytes
/// where there is none.
pub fn name_of(tables: &DebugTables, id: u32) -> &[u8]
    ensures { result.now ≡ named.name_of tables.now id }
{
    match tables.get(id) {
        Some(debug) => tables.string(operand(debug, 0)).unwrap_or(&[]),
        None => &[],
    }
}

/// The ids of the members of a TypeComposite among some ids.
fn members_among(
    alloc: Global,
    tables: &DebugTables,
    n: usize,
    ids: &[u32],
) -> Result<Places, NoMemory>
    ensures { IfOk result (λ members. members ≡ filter (spec.is_member tables.now n) ids.now) }
{
    let mut members = Places::new(alloc);
    for id in ids {
        if is_member(tables, n, *id) {
            members.push(*id)?;
        }
    }
    Ok(members)
}

/// The number of the first member with a name among some ids.
fn number_named(tables: &DebugTables, n: usize, ids: &[u32], name: &[u8]) -> Option<usize>
    ensures { result ≡ position (named.is_named tables.now name.now) (filter (spec.is_member tables.now n) ids.now) }
{
    let mut number = 0;
    for id in ids {
        if is_member(tables, n, *id) {
            if name_of(tables, *id) == name {
                return Some(number);
            }
            number += 1;
        }
    }
    None
}

/// The number of a TypeComposite among all debug instructions.
fn number_of(tables: &DebugTables, debug: &DebugInst) -> usize
    ensures { result ≡ unwrap_or (number_in tables.now debug.now.id) 0 }
{
    tables.number(debug.id).unwrap_or(0)
}

/// A debug instruction, where it is a TypeComposite.
fn composite_in(debug: &DebugInst) -> Option<&DebugInst>
    ensures { option_copied result ≡ named.composite_in debug.now }
{
    match debug.number {
        TYPE_COMPOSITE => Some(debug),
        _ => None,
    }
}

/// The TypeComposite that a part is.
fn composite_of<'a>(tables: &'a DebugTables, part: TypePart<'_>) -> Option<&'a DebugInst>
    ensures { option_copied result ≡ named.composite_of tables.now (kept_part part.entry) }
{
    if !part.counts.is_empty() {
        return None;
    }
    composite_in(tables.get(plain(tables, part.base))?)
}

/// The ids of the members of a part in their order. There are none where it is no TypeComposite.
pub fn members(alloc: Global, tables: &DebugTables, part: TypePart<'_>) -> Result<Places, NoMemory>
    ensures { IfOk result (λ members. members ≡ named.members tables.now (kept_part part.entry)) }
{
    let Some(debug) = composite_of(tables, part) else {
        return Ok(Places::new(alloc));
    };
    members_among(
        alloc,
        tables,
        number_of(tables, debug),
        operands_from(debug, 9),
    )
}

/// How many of some ids are members of a TypeComposite.
fn count_among(tables: &DebugTables, n: usize, ids: &[u32]) -> usize
    ensures { result ≡ length (filter (spec.is_member tables.now n) ids.now) }
{
    let mut count = 0;
    for id in ids {
        if is_member(tables, n, *id) {
            count += 1;
        }
    }
    count
}

/// How many members a TypeComposite has.
fn count_in(tables: &DebugTables, debug: &DebugInst) -> usize
    ensures { result ≡ length (spec.members_of tables.now debug.now) }
{
    count_among(tables, number_of(tables, debug), operands_from(debug, 9))
}

/// How many members a part has.
pub fn member_count(tables: &DebugTables, part: TypePart<'_>) -> usize
    ensures { result ≡ length (named.members tables.now (kept_part part.entry)) }
{
    match composite_of(tables, part) {
        Some(debug) => count_in(tables, debug),
        None => 0,
    }
}

/// A member of a TypeComposite with a number.
fn numbered_in<'a>(tables: &DebugTables, debug: &DebugInst, number: usize) -> Option<Place<'a>>
    ensures { option_map kept_place result ≡ option_map saturated_place (spec.member tables.now (spec.members_of tables.now debug.now) number) }
{
    member(
        tables,
        number_of(tables, debug),
        operands_from(debug, 9),
        number,
    )
}

/// The last member of a part, and the bits before it.
pub fn last_member<'a>(tables: &DebugTables, part: TypePart<'_>) -> Option<Place<'a>>
    ensures { option_map kept_place result ≡ option_map saturated_place (named.last_member tables.now (kept_part part.entry)) }
{
    let debug = composite_of(tables, part)?;
    let count = count_in(tables, debug);
    if count == 0 {
        return None;
    }
    numbered_in(tables, debug, count - 1)
}

/// The number of the first member of a TypeComposite with a name.
fn named_in(tables: &DebugTables, debug: &DebugInst, name: &[u8]) -> Option<usize>
    ensures { result ≡ position (named.is_named tables.now name.now) (spec.members_of tables.now debug.now) }
{
    number_named(
        tables,
        number_of(tables, debug),
        operands_from(debug, 9),
        name,
    )
}

/// The number of the first member of a part with a name.
pub fn member_named(tables: &DebugTables, part: TypePart<'_>, name: &[u8]) -> Option<usize>
    ensures { result ≡ named.member_named tables.now (kept_part part.entry) name.now }
{
    named_in(tables, composite_of(tables, part)?, name)
}

/// The first member of a part with a name, and the bits before it.
pub fn part_named<'a>(tables: &DebugTables, part: TypePart<'_>, name: &[u8]) -> Option<Place<'a>>
    ensures { option_map kept_place result ≡ option_map saturated_place (named.part_named tables.now (kept_part part.entry) name.now) }
{
    let debug = composite_of(tables, part)?;
    let number = named_in(tables, debug, name)?;
    numbered_in(tables, debug, number)
}
