//! Scopes outward, with the variables of each.
ghost use Rattle.std.specs.Prelude.{◌≡◌, ℕ, IfOk, find, flat_map};
ghost use Rattle.spv_paths.specs.Kept.{ids_under};
ghost use Rattle.spv_paths.specs.Variables as spec;
ghost use Rattle.spv_parts.specs.Composites.{is_named};
ghost use Rattle.spv_scopes.specs.Scopes.{parent_in};

use crate::variables::{Locals, ids_of};
use spv_base::{NoMemory, Places};
use spv_dbg::{DebugInst, DebugTables};
use spv_ops::debug_info::*;
use spv_parts::{name_of, operand};
use std::alloc::Global;

/// The Parent of a scope that is no Function, and 0 where it has none.
fn parent_of(debug: &DebugInst) -> u32
    ensures { result ≡ parent_in debug.now }
{
    match debug.number {
        TYPE_COMPOSITE => operand(debug, 5),
        LEXICAL_BLOCK => operand(debug, 3),
        LEXICAL_BLOCK_DISCRIMINATOR => operand(debug, 2),
        _ => 0,
    }
}

/// The first with a name of some variables.
pub(crate) fn named_among(tables: &DebugTables, ids: &[u32], name: &[u8]) -> Option<u32>
    ensures { result ≡ find (is_named tables.now name.now) ids.now }
{
    for id in ids {
        if name_of(tables, *id) == name {
            return Some(*id);
        }
    }
    None
}

/// The first with a name of the locals from a scope outward.
pub(crate) fn named_from(
    tables: &DebugTables,
    locals: &Locals,
    scope: u32,
    name: &[u8],
) -> Option<u32>
    ensures { result ≡ find (is_named tables.now name.now) (flat_map (ids_under locals.now) (spec.scopes tables.now scope)) }
{
    let mut at = scope;
    for n in 0..tables.insts().len() {
        let Some(debug) = tables.get(at) else {
            return None;
        };
        if let Some(id) = named_among(tables, ids_of(locals, at), name) {
            return Some(id);
        }
        at = parent_of(debug);
    }
    None
}

/// The locals from a scope outward.
pub(crate) fn push_from(
    alloc: Global,
    tables: &DebugTables,
    locals: &Locals,
    scope: u32,
) -> Result<Places, NoMemory>
    ensures { IfOk result (λ ids. ids ≡ flat_map (ids_under locals.now) (spec.scopes tables.now scope)) }
{
    let mut ids = Vec::new(alloc);
    let mut at = scope;
    for n in 0..tables.insts().len() {
        let Some(debug) = tables.get(at) else {
            return Ok(Places::from_vec(ids));
        };
        ids.extend_from_slice(ids_of(locals, at))?;
        at = parent_of(debug);
    }
    Ok(Places::from_vec(ids))
}
