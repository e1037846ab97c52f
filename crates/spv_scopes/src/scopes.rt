//! What encloses scopes, and the calls that were inlined, read off the debug instructions in their order.
ghost use Rattle.std.specs.Prelude.{◌≡◌, ◌==◌, [], ◌∷◌, List, IfOk, OnOk, if◌then◌else◌, reverse};
ghost use Rattle.spv_dbg.specs.Tables.{Tables};
ghost use Rattle.spv_dbg.specs.declared.insts.DebugInst.{DebugInst as Record};
ghost use Rattle.spv_scopes.specs.Calls.{calls_from};
ghost use Rattle.spv_scopes.specs.InForce.{file_of};
ghost use Rattle.spv_scopes.specs.Read.{AreCallsRead, AreScopesRead, enclosing_in};
ghost use Rattle.spv_scopes.specs.Scopes as spec;

use crate::calls::Linked;
use crate::in_force::{file_of, literal};
use crate::places::{Place, operand};
use spv_base::NoMemory;
use spv_dbg::{DebugInst, DebugTables};
use spv_ops::debug_info::{
    FUNCTION, INLINED_AT, LEXICAL_BLOCK, LEXICAL_BLOCK_DISCRIMINATOR, TYPE_COMPOSITE,
};
use std::alloc::Global;
use std::collections::BTreeMap;

/// What encloses a scope: the Function, and the Source of the nearest LexicalBlock or Function. What is missing is 0.
#[derive(Clone, Copy)]
pub struct Enclosing {
    pub function: u32,
    pub source: u32,
}

/// By the ids of debug instructions, what encloses them.
type Enclosings = BTreeMap<u32, Enclosing>;

/// The calls that were inlined, and their numbers by the ids of the InlinedAts.
#[derive(Drop)]
pub(crate) struct Calls {
    pub(crate) list: Vec<Linked>,
    pub(crate) numbers: BTreeMap<u32, usize>,
}

/// What is known behind some debug instructions.
#[derive(Drop)]
pub(crate) struct Scopes {
    pub(crate) enclosings: Enclosings,
    pub(crate) calls: Calls,
}

/// What encloses the scope with an id, or is it.
fn enclosing_in(enclosings: &Enclosings, id: u32) -> Enclosing
    ensures { result ≡ enclosing_in enclosings.now id }
{
    match enclosings.get(&id) {
        Some(enclosing) => *enclosing,
        None => Enclosing {
            function: 0,
            source: 0,
        },
    }
}

/// The Parent of a scope that is no Function, and 0 where it has none.
fn parent_of(debug: &DebugInst) -> u32
    ensures { result ≡ spec.parent_in debug.now }
{
    match debug.number {
        TYPE_COMPOSITE => operand(debug, 5),
        LEXICAL_BLOCK => operand(debug, 3),
        LEXICAL_BLOCK_DISCRIMINATOR => operand(debug, 2),
        _ => 0,
    }
}

/// What encloses a debug instruction, where what encloses those before it is known.
fn enclosing_of(enclosings: &Enclosings, debug: &DebugInst) -> Enclosing
    ensures { (back : List Record) → AreScopesRead back enclosings.now → result ≡ spec.enclosing (debug.now ∷ back) debug.now.id }
{
    let around = enclosing_in(enclosings, parent_of(debug));
    match debug.number {
        FUNCTION => Enclosing {
            function: debug.id,
            source: operand(debug, 2),
        },
        LEXICAL_BLOCK => Enclosing {
            function: around.function,
            source: operand(debug, 0),
        },
        _ => around,
    }
}

/// Reads what encloses a debug instruction.
fn add_enclosing(enclosings: &mut Enclosings, debug: &DebugInst) -> Result<(), NoMemory>
    ensures { OnOk result ((back : List Record) → AreScopesRead back enclosings.old → AreScopesRead (debug.now ∷ back) enclosings.new) }
{
    let enclosing = enclosing_of(enclosings, debug);
    enclosings.insert(debug.id, enclosing)?;
    Ok(())
}

/// The file of a call at a line: that of the Source around it. A line 0 has no file.
fn call_file(tables: &DebugTables, source: u32, line: u32) -> u32
    ensures { result ≡ (if line == 0 then 0 else file_of tables.now source) }
{
    if line == 0 {
        return 0;
    }
    file_of(tables, source)
}

/// The place of the call that an InlinedAt tells of.
fn call_place(tables: &DebugTables, enclosings: &Enclosings, debug: &DebugInst) -> Place
    ensures { (back : List Record) → AreScopesRead back enclosings.now → result ≡ spec.call_place tables.now back debug.now }
{
    let scope = operand(debug, 1);
    let around = enclosing_in(enclosings, scope);
    let line = literal(tables, operand(debug, 0));
    Place {
        scope,
        inlined: operand(debug, 2),
        function: around.function,
        file: call_file(tables, around.source, line),
        line,
    }
}

impl Calls {
    /// No calls.
    fn new(alloc: Global) -> Calls
        ensures { (t : Tables) → AreCallsRead t [] result }
    {
        Calls {
            list: Vec::new(alloc),
            numbers: BTreeMap::new(alloc),
        }
    }

    /// The number of the call of an InlinedAt.
    pub(crate) fn number(&self, inlined: u32) -> Option<usize>
        ensures { (t : Tables) (back : List Record) → AreCallsRead t back self.now → calls_from (reverse self.now.list.items) result ≡ spec.calls_around t back inlined }
    {
        self.numbers.get(&inlined).copied()
    }

    /// Reads a debug instruction, which is a call or another one.
    fn add(
        &mut self,
        tables: &DebugTables,
        enclosings: &Enclosings,
        debug: &DebugInst,
    ) -> Result<(), NoMemory>
        ensures { OnOk result ((back : List Record) → AreScopesRead back enclosings.now → AreCallsRead tables.now back self.old → AreCallsRead tables.now (debug.now ∷ back) self.new) }
    {
        if debug.number != INLINED_AT {
            return Ok(());
        }
        let place = call_place(tables, enclosings, debug);
        let call = self.numbers.get(&operand(debug, 2)).copied();
        let number = self.list.len();
        self.list.push(Linked { place, call })?;
        self.numbers.insert(debug.id, number)?;
        Ok(())
    }
}

impl Scopes {
    /// The Function that encloses the scope with an id, or is it, and 0 where there is none.
    pub(crate) fn function(&self, scope: u32) -> u32
        ensures { (back : List Record) → AreScopesRead back self.now.enclosings → result ≡ spec.function_around back scope }
    {
        enclosing_in(&self.enclosings, scope).function
    }

    /// The calls alone.
    pub(crate) fn into_calls(self) -> Vec<Linked>
        ensures { result ≡ self.calls.list }
    {
        let Scopes {
            enclosings: _,
            calls,
        } = self;
        let Calls { list, numbers: _ } = calls;
        list
    }
}

/// What is known behind all debug instructions. In time n log n, which no clause says.
pub(crate) fn scopes_of(alloc: Global, tables: &DebugTables) -> Result<Scopes, NoMemory>
    ensures scopes { IfOk result (λ scopes. AreScopesRead (reverse tables.now.insts) scopes.enclosings) }
    ensures calls { IfOk result (λ scopes. AreCallsRead tables.now (reverse tables.now.insts) scopes.calls) }
{
    let mut enclosings = BTreeMap::new(alloc);
    let mut calls = Calls::new(alloc);
    let insts = tables.insts();
    for debug in insts {
        calls.add(tables, &enclosings, debug)?;
        add_enclosing(&mut enclosings, debug)?;
    }
    Ok(Scopes { enclosings, calls })
}
