//! Which debug events tell of a variable, and of which of its bits.
ghost use Rattle.std.specs.Prelude.{◌≡◌, option_copied, option_map};
ghost use Rattle.spv_expr.specs.Kept.{kept_telling, saturated_telling};
ghost use Rattle.spv_expr.specs.Variables as spec;

use crate::ranges::{Range, covered};
use spv_dbg::{DebugInst, DebugTables};
use spv_ops::debug_info::{DECLARE, INLINED_VARIABLE, VALUE};
use spv_parts::operand;

/// A variable, and the InlinedAt where it is one, or 0.
#[derive(Clone, Copy)]
pub struct Instance {
    pub variable: u32,
    pub inlined: u32,
}

/// A debug event with the bits that it covers.
#[derive(Clone, Copy)]
pub(crate) struct Telling<'a> {
    pub(crate) debug: &'a DebugInst,
    pub(crate) range: Range,
}

/// What the id of a debug instruction stands for where an InlinedAt holds.
fn meant_by(inlined: u32, id: u32, debug: &DebugInst) -> Instance
    ensures { result ≡ spec.meant_by inlined id debug.now }
{
    if debug.number == INLINED_VARIABLE {
        Instance {
            variable: operand(debug, 0),
            inlined: operand(debug, 1),
        }
    } else {
        Instance {
            variable: id,
            inlined,
        }
    }
}

/// What an id stands for where an InlinedAt holds.
pub(crate) fn meant(tables: &DebugTables, inlined: u32, id: u32) -> Instance
    ensures { result ≡ spec.meant tables.now inlined id }
{
    match tables.get(id) {
        Some(debug) => meant_by(inlined, id, debug),
        None => Instance {
            variable: id,
            inlined,
        },
    }
}

/// The Type of a variable.
fn type_of(tables: &DebugTables, variable: u32) -> u32
    ensures { result ≡ spec.type_of tables.now variable }
{
    match tables.get(variable) {
        Some(debug) => operand(debug, 1),
        None => 0,
    }
}

/// The well-formed Declare or Value at a word.
pub(crate) fn event_at(tables: &DebugTables, word: u32) -> Option<&DebugInst>
    ensures { option_copied result ≡ spec.event_at tables.now word }
{
    let debug = tables.at(word)?;
    match debug.number {
        DECLARE | VALUE => Some(debug),
        _ => None,
    }
}

/// Whether an event is of a variable.
fn is_of(tables: &DebugTables, instance: Instance, debug: &DebugInst) -> bool
    ensures { result ≡ spec.is_of tables.now instance debug.now }
{
    let of = meant(tables, tables.inlined_at(debug.word), operand(debug, 0));
    of.variable == instance.variable && of.inlined == instance.inlined
}

/// The event at a word, where it is of a variable.
pub(crate) fn event_of(tables: &DebugTables, instance: Instance, word: u32) -> Option<&DebugInst>
    ensures { option_copied result ≡ spec.event_of tables.now instance word }
{
    let debug = event_at(tables, word)?;
    is_of(tables, instance, debug).then_some(debug)
}

/// The event of a variable at a word, with the bits that it covers.
pub(crate) fn told_at(tables: &DebugTables, instance: Instance, word: u32) -> Option<Telling<'_>>
    ensures { option_map kept_telling result ≡ option_map saturated_telling (spec.telling tables.now instance word) }
{
    let debug = event_of(tables, instance, word)?;
    let range = covered(tables, type_of(tables, instance.variable), debug)?;
    Some(Telling { debug, range })
}
