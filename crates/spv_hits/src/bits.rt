//! The bits that a watch looks at.
ghost use Rattle.std.specs.Prelude.{◌≡◌, IfOk, None, not, option_copied, slice_get};
ghost use Rattle.std.specs.Cmp.Lexicographic.{pointwise};
ghost use Rattle.spv_group.specs.Group.{state_in};
ghost use Rattle.spv_hits.specs.Kept.{kept_bits};
ghost use Rattle.spv_hits.specs.Watches as spec;

use spv_base::{Bytes, NoMemory};
use spv_dbg::{Bit, DebugTables, ShownFrame};
use spv_expr::variable_bits;
use spv_frame::Stack;
use spv_group::Group;
use spv_mem::Memory;
use spv_stops::WatchKey;
use std::alloc::Global;
use std::marker::Model;

/// A shown frame of a watch on a local: what is asked for where its bits are read.
pub(crate) fn frame_of(alloc: Global, key: &WatchKey) -> Option<ShownFrame>
    ensures { result ≡ spec.frame_of key.now }
{
    if !key.local {
        return None;
    }
    Some(ShownFrame {
        depth: key.depth,
        function: key.function,
        scope: 0,
        inlined: key.inlined,
        name: Bytes::new(alloc),
        file: Bytes::new(alloc),
        line: 0,
        word: 0,
    })
}

/// Whether a watch has bits, by the calls of its invocation.
pub(crate) fn is_there(key: &WatchKey, stack: &Stack) -> bool
    ensures { result ≡ spec.is_there key.now stack.now.frames }
{
    if !key.local {
        return true;
    }
    match stack.frame(key.depth) {
        Some(frame) => frame.function() == key.function,
        None => false,
    }
}

/// The bits of a watch, by the memory and the calls of its invocation.
fn watched_in(
    alloc: Global,
    tables: &DebugTables,
    key: &WatchKey,
    memory: &Memory,
    stack: &Stack,
) -> Result<Option<Vec<Bit>>, NoMemory>
    ensures { IfOk result (λ bits. kept_bits bits ≡ spec.watched_in tables.now key.now memory.now stack.now.frames) }
{
    if !is_there(key, stack) {
        return Ok(None);
    }
    let frame = frame_of(alloc, key);
    let bits = variable_bits(
        alloc,
        tables,
        memory,
        stack,
        key.inv,
        frame.as_ref(),
        key.variable,
        key.first,
        key.count,
    )?;
    Ok(Some(bits))
}

/// The calls of an invocation, if there is such an invocation.
pub(crate) fn stack_of(group: &Group, inv: u32) -> Option<&Stack>
    ensures { option_copied result ≡ slice_get (state_in group.now.group).stacks inv }
{
    let whole = group.world().whole();
    if inv < whole.invocations() {
        return Some(whole.stack(inv));
    }
    None
}

/// Whether two bits are the same.
#[inline(always)]
fn same_bit(a: Bit, b: Bit) -> bool
    ensures { result ≡ spec.same_bit a b }
{
    a.bound == b.bound && a.defined == b.defined && a.one == b.one
}

/// Whether the bits of two lists are the same.
fn same_list(mut a: &[Bit], mut b: &[Bit]) -> bool
    ensures { result ≡ pointwise spec.same_bit a.entry.now b.entry.now }
{
    'bits: while let ([x, xs @ ..], [y, ys @ ..]) = (a, b) {
        if !same_bit(*x, *y) {
            return false;
        }
        a = xs;
        b = ys;
    }
    a.is_empty() && b.is_empty()
}

/// Whether the bits of a watch are the same, or absent both times.
fn same_bits(a: &Option<Vec<Bit>>, b: &Option<Vec<Bit>>) -> bool
    ensures { result ≡ spec.same_bits (kept_bits a.now) (kept_bits b.now) }
{
    match (a, b) {
        (Some(a), Some(b)) => same_list(a.as_slice(), b.as_slice()),
        (None, None) => true,
        _ => false,
    }
}

/// The bits of a watch at a position.
fn read(
    alloc: Global,
    tables: &DebugTables,
    key: &WatchKey,
    group: &Group,
) -> Result<Option<Vec<Bit>>, NoMemory>
    ensures { IfOk result (λ bits. kept_bits bits ≡ spec.watched tables.now key.now group.now.group) }
{
    let memory = group.world().whole().memory();
    match stack_of(group, key.inv) {
        Some(stack) => watched_in(alloc, tables, key, memory, stack),
        None => watched_in(alloc, tables, key, memory, &Stack::new(alloc, 0)?),
    }
}

/// The bits of a watch, if it has some.
#[derive(Drop)]
pub(crate) struct Kept {
    bits: Option<Vec<Bit>>,
}

impl Model for Kept {
    ghost use Rattle.std.specs.Prelude.{List, Option};
    ghost use Rattle.spv_dbg.specs.declared.frames.Bit.{Bit};
    ghost use Rattle.spv_hits.specs.Kept.{kept_bits};

    ghost Value = { Option (List Bit) };

    ghost view = { λ k. kept_bits k.bits };
}

impl Kept {
    /// No bits.
    pub(crate) fn none() -> Kept
        ensures { result ≡ None }
    {
        Kept { bits: None }
    }

    /// The bits of a watch at a position.
    pub(crate) fn of(
        alloc: Global,
        tables: &DebugTables,
        key: &WatchKey,
        group: &Group,
    ) -> Result<Kept, NoMemory>
        ensures { IfOk result (λ kept. kept ≡ spec.watched tables.now key.now group.now.group) }
    {
        Ok(Kept {
            bits: read(alloc, tables, key, group)?,
        })
    }

    /// Whether those of a watch at a position differ from them.
    pub(crate) fn differ(
        &self,
        alloc: Global,
        tables: &DebugTables,
        key: &WatchKey,
        group: &Group,
    ) -> Result<bool, NoMemory>
        ensures { IfOk result (λ differ. differ ≡ not (spec.same_bits self.now (spec.watched tables.now key.now group.now.group))) }
    {
        let bits = read(alloc, tables, key, group)?;
        Ok(!same_bits(&self.bits, &bits))
    }
}
