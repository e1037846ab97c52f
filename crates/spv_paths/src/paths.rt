//! The parts of variables that paths name.
ghost use Rattle.std.specs.Prelude.{◌≡◌, option_map};
ghost use Rattle.spv_paths.specs.Kept.{kept_answer, kept_portion, saturated_answer, saturated_portion};
ghost use Rattle.spv_paths.specs.Paths as spec;

use crate::portions::{Portion, element, end_of, member};
use spv_base::CmdRefusal;
use spv_cmd::{PathPart, PathParts};
use spv_dbg::DebugTables;
use spv_ops::debug_info::*;
use spv_parts::{TypePart, operand, whole};

/// What a path names: a variable, the part of it, and the bits of it from `start` to `end`.
#[derive(Clone, Copy)]
pub struct Named<'a> {
    pub variable: u32,
    pub is_local: bool,
    pub part: TypePart<'a>,
    pub start: u64,
    pub end: u64,
}

/// Whether the debug instruction with an id has a number.
fn has_number(tables: &DebugTables, number: u32, id: u32) -> bool
    ensures { result ≡ spec.has_number tables.now number id }
{
    match tables.get(id) {
        Some(debug) => debug.number == number,
        None => false,
    }
}

/// Whether a variable is a LocalVariable.
pub fn is_local(tables: &DebugTables, variable: u32) -> bool
    ensures { result ≡ spec.is_local tables.now variable }
{
    has_number(tables, LOCAL_VARIABLE, variable)
}

/// The type of a variable.
fn type_of(tables: &DebugTables, variable: u32) -> u32
    ensures { result ≡ spec.type_of tables.now variable }
{
    match tables.get(variable) {
        Some(debug) => operand(debug, 1),
        None => 0,
    }
}

/// The portion that a part of a path names within another.
fn next<'a>(
    tables: &'a DebugTables,
    bits: u64,
    portion: Portion<'a>,
    part: &PathPart,
) -> Option<Portion<'a>>
    ensures { option_map kept_portion result ≡ option_map saturated_portion (spec.next tables.now bits (kept_portion portion.entry) part.now) }
{
    match part {
        PathPart::Member(name) => member(tables, portion, name.as_slice()),
        PathPart::Index(index) => element(tables, bits, portion, *index),
    }
}

/// The part that the parts of a path lead to.
fn reached<'a>(
    tables: &'a DebugTables,
    bits: u64,
    variable: u32,
    parts: &[PathPart],
) -> Option<Portion<'a>>
    ensures { option_map kept_portion result ≡ option_map saturated_portion (spec.reached tables.now bits (spec.all_of tables.now variable) parts.now) }
{
    let mut portion = Portion {
        start: 0,
        part: whole(type_of(tables, variable)),
        last: has_number(tables, GLOBAL_VARIABLE, variable),
    };
    for part in parts {
        let inner = next(tables, bits, portion, part)?;
        portion = Portion {
            start: inner.start,
            part: inner.part,
            last: inner.last,
        };
    }
    Some(portion)
}

/// The part of a variable that the parts of a path name, of which a global has so many bits. Where there is no such part it is
/// refused (C6). The bits of a local are not looked at.
pub fn part_of<'a>(
    tables: &'a DebugTables,
    variable: u32,
    bits: u64,
    parts: &PathParts,
) -> Result<Named<'a>, CmdRefusal>
    ensures { kept_answer result ≡ saturated_answer (spec.part_due tables.now variable bits parts.now) }
{
    let Some(portion) = reached(tables, bits, variable, parts.as_slice()) else {
        return Err(CmdRefusal { code: 6 });
    };
    Ok(Named {
        variable,
        is_local: is_local(tables, variable),
        part: portion.part,
        start: portion.start,
        end: end_of(tables, bits, portion),
    })
}
