//! The frames that are shown of one call.
ghost use Rattle.std.specs.Prelude.{◌≡◌, ◌<◌, ◌++◌, IfOk, IfSome, OnOk, map, reverse, slice_get};
ghost use Rattle.spv_scopes.specs.Calls.{before, calls_behind, calls_from, rank};
ghost use Rattle.spv_scopes.specs.Shown as spec;

use crate::calls::Linked;
use crate::places::{Place, operand};
use spv_base::{Bytes, NoMemory};
use spv_dbg::{DebugTables, ShownFrame};
use spv_valid::Module;
use std::alloc::Global;

/// A call: its depth, the function that runs in it, and the word of its next instruction.
#[derive(Clone, Copy)]
pub struct Real {
    pub depth: u32,
    pub function: u32,
    pub word: u32,
}

/// The bytes of the OpString with an id, and none where there is no such string.
pub(crate) fn string_in(tables: &DebugTables, id: u32) -> &[u8]
    ensures { result.now ≡ spec.string_in tables.now id }
{
    match tables.string(id) {
        Some(text) => text,
        None => &[],
    }
}

/// The Name of the Function with an id.
fn debug_name(tables: &DebugTables, function: u32) -> &[u8]
    ensures { result.now ≡ spec.debug_name tables.now function }
{
    match tables.get(function) {
        Some(debug) => string_in(tables, operand(debug, 0)),
        None => &[],
    }
}

/// The first OpName of a function.
fn op_name(module: &Module, function: u32) -> &[u8]
    ensures { result.now ≡ spec.op_name module.now function }
{
    match module.index().name(function) {
        Some(name) => name,
        None => &[],
    }
}

/// What a Function is called, and where it has no name the real one.
fn name_of(
    alloc: Global,
    module: &Module,
    tables: &DebugTables,
    function: u32,
    real: u32,
) -> Result<Bytes, NoMemory>
    ensures { IfOk result (λ name. name ≡ spec.name_or (spec.debug_name tables.now function) (spec.op_name module.now real)) }
{
    let name = debug_name(tables, function);
    if name.is_empty() {
        return Bytes::from_slice(alloc, op_name(module, real));
    }
    Bytes::from_slice(alloc, name)
}

/// The frame of a call at a place.
pub(crate) fn frame_at(
    alloc: Global,
    module: &Module,
    tables: &DebugTables,
    real: Real,
    place: Place,
) -> Result<ShownFrame, NoMemory>
    ensures { IfOk result (λ frame. frame ≡ spec.frame_at module.now tables.now real place) }
{
    Ok(ShownFrame {
        depth: real.depth,
        function: real.function,
        scope: place.scope,
        inlined: place.inlined,
        name: name_of(alloc, module, tables, place.function, real.function)?,
        file: Bytes::from_slice(alloc, string_in(tables, place.file))?,
        line: place.line,
        word: real.word,
    })
}

/// A place in no Function tells of no scope.
fn plain(place: Place) -> Place
    ensures { result ≡ spec.plain place }
{
    Place {
        scope: 0,
        inlined: 0,
        ..place
    }
}

/// The first frame of a call, at the place of its next instruction.
pub(crate) fn first_frame(
    alloc: Global,
    module: &Module,
    tables: &DebugTables,
    real: Real,
    place: Place,
) -> Result<ShownFrame, NoMemory>
    ensures { IfOk result (λ frame. frame ≡ spec.first_at module.now tables.now real place) }
{
    if place.function == 0 {
        return frame_at(alloc, module, tables, real, plain(place));
    }
    frame_at(alloc, module, tables, real, place)
}

/// The number of an outer call, where it stands before the one with a number.
fn before(n: usize, call: Option<usize>) -> Option<usize>
    ensures { result ≡ before n call }
{
    match call {
        Some(outer) if outer < n => Some(outer),
        _ => None,
    }
}

/// The call with a number, with the one around it where this stands before.
pub(crate) fn call_with(calls: &[Linked], number: Option<usize>) -> Option<Linked>
    ensures calls { calls_from (reverse calls.now) number ≡ calls_behind (reverse calls.now) result }
    ensures smaller { IfSome result (λ k. rank k.call < rank number) }
{
    let n = number?;
    let linked = *calls.get(n)?;
    Some(Linked {
        place: linked.place,
        call: before(n, linked.call),
    })
}

/// The place of the call that is so many outward from the one with a number, if there is one.
pub(crate) fn place_outward(calls: &[Linked], first: Option<usize>, outer: u64) -> Option<Place>
    ensures { result ≡ slice_get (calls_from (reverse calls.now) first) outer }
{
    let mut number = first;
    for _step in 0..outer {
        number = call_with(calls, number)?.call;
    }
    Some(call_with(calls, number)?.place)
}

/// Adds the frames of the calls from one with a number outward.
pub(crate) fn push_calls(
    alloc: Global,
    module: &Module,
    tables: &DebugTables,
    real: Real,
    calls: &[Linked],
    first: Option<usize>,
    frames: &mut Vec<ShownFrame>,
) -> Result<(), NoMemory>
    ensures { OnOk result (frames.new.items ≡ frames.old.items ++ map (spec.frame_at module.now tables.now real) (calls_from (reverse calls.now) first)) }
{
    let mut number = first;
    'outward: while let Some(linked) = call_with(calls, number) {
        frames.push(frame_at(alloc, module, tables, real, linked.place)?)?;
        number = linked.call;
    }
    Ok(())
}
