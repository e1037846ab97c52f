//! The variables of a module by their scopes.
ghost use Rattle.std.specs.Prelude.{◌≡◌, ◌==◌, ◌++◌, ℕ, List, [], ◌∷◌, IfOk, OnOk, if◌then◌else◌};
ghost use Rattle.spv_dbg.specs.declared.insts.DebugInst.{DebugInst as Record};
ghost use Rattle.spv_paths.specs.Kept.{IsRead, ids_under};
ghost use Rattle.spv_paths.specs.Paths.{variable_due};
ghost use Rattle.spv_paths.specs.Variables as spec;

use crate::scopes::{named_among, named_from, push_from};
use spv_base::{CmdRefusal, NoMemory, Places};
use spv_dbg::{DebugInst, DebugTables};
use spv_ops::debug_info::*;
use spv_parts::operand;
use std::alloc::Global;
use std::collections::BTreeMap;
use std::marker::Model;

/// The ids of LocalVariables by their Parents.
pub(crate) type Locals = BTreeMap<u32, Vec<u32>>;

/// The variables of a module. Contracts see the locals, each with its Parent, and the globals.
#[derive(Drop)]
pub struct Variables {
    entries: Vec<(u32, u32)>,
    /// By its Parent, the id of each local.
    locals: Locals,
    globals: Vec<u32>,
}

impl Model for Variables {
    ghost use Rattle.std.specs.Prelude.{◌≡◌, ℕ};
    ghost use Rattle.spv_paths.specs.Variables.{Variables as Seen, ids_with};
    ghost use Rattle.spv_paths.specs.Kept.{ids_under};

    ghost Value = { Seen };

    ghost view = { λ v. record { locals = v.entries.items; globals = v.globals.items } };

    ghost invariant = { λ v. (scope : ℕ) → ids_under v.locals scope ≡ ids_with v.entries.items scope };
}

/// The variables among the debug instructions that were gone past.
#[derive(Drop)]
pub(crate) struct Read {
    entries: Vec<(u32, u32)>,
    locals: Locals,
    globals: Vec<u32>,
}

/// Puts an id behind those of its scope.
fn push_id(locals: &mut Locals, alloc: Global, scope: u32, id: u32) -> Result<(), NoMemory>
    ensures { OnOk result ((other : ℕ) → ids_under locals.new other ≡ ids_under locals.old other ++ (if scope == other then id ∷ [] else [])) }
{
    let mut ids = match locals.remove(&scope) {
        Some(ids) => ids,
        None => Vec::new(alloc),
    };
    ids.push(id)?;
    locals.insert(scope, ids)?;
    Ok(())
}

/// The ids of the LocalVariables whose Parent a scope is.
pub(crate) fn ids_of(locals: &Locals, scope: u32) -> &[u32]
    ensures { result.now ≡ ids_under locals.now scope }
{
    match locals.get(&scope) {
        Some(ids) => ids.as_slice(),
        None => &[],
    }
}

impl Read {
    /// No variables.
    fn new(alloc: Global) -> Read
        ensures { IsRead [] result }
    {
        Read {
            entries: Vec::new(alloc),
            locals: BTreeMap::new(alloc),
            globals: Vec::new(alloc),
        }
    }

    /// Adds a LocalVariable.
    fn add_local(&mut self, alloc: Global, scope: u32, id: u32) -> Result<(), NoMemory>
        ensures globals { OnOk result (self.new.globals.items ≡ self.old.globals.items) }
        ensures entries { OnOk result (self.new.entries.items ≡ self.old.entries.items ++ (scope, id) ∷ []) }
        ensures locals { OnOk result ((other : ℕ) → ids_under self.new.locals other ≡ ids_under self.old.locals other ++ (if scope == other then id ∷ [] else [])) }
    {
        self.entries.push((scope, id))?;
        push_id(&mut self.locals, alloc, scope, id)
    }

    /// Goes past a debug instruction.
    fn add(&mut self, alloc: Global, debug: &DebugInst) -> Result<(), NoMemory>
        ensures { OnOk result ((read : List Record) → IsRead read self.old → IsRead (read ++ debug.now ∷ []) self.new) }
    {
        match debug.number {
            LOCAL_VARIABLE => self.add_local(alloc, operand(debug, 5), debug.id),
            GLOBAL_VARIABLE => Ok(self.globals.push(debug.id)?),
            _ => Ok(()),
        }
    }
}

/// The variables among debug instructions.
fn read_all(alloc: Global, insts: &[DebugInst]) -> Result<Read, NoMemory>
    ensures { IfOk result (λ read. IsRead insts.now read) }
{
    let mut read = Read::new(alloc);
    for debug in insts {
        read.add(alloc, debug)?;
    }
    Ok(read)
}

impl Variables {
    /// The variables of a module with these debug tables. In time n log n.
    pub fn build(alloc: Global, tables: &DebugTables) -> Result<Variables, NoMemory>
        ensures { IfOk result (λ variables. variables ≡ spec.variables_of tables.now) }
    {
        let Read {
            entries,
            locals,
            globals,
        } = read_all(alloc, tables.insts())?;
        Ok(Variables {
            entries,
            locals,
            globals,
        })
    }

    /// The ids of the GlobalVariables, in the order of the module.
    pub fn globals(&self) -> &[u32]
        ensures { result.now ≡ self.now.globals }
    {
        self.globals.as_slice()
    }

    /// The ids of the LocalVariables that are seen from a scope: its own first, then those of the scope around it, to its
    /// Function; in the order of the module within one. There are none for the scope 0.
    pub fn locals(
        &self,
        alloc: Global,
        tables: &DebugTables,
        scope: u32,
    ) -> Result<Places, NoMemory>
        requires { self.now ≡ spec.variables_of tables.now }
        ensures { IfOk result (λ ids. ids ≡ spec.locals tables.now scope) }
    {
        push_from(alloc, tables, &self.locals, scope)
    }

    /// The variable with a name that is seen from a scope: of its own locals the first in the order of the module, then of those
    /// of the scope around it, to its Function, and then of the globals. Where there is none it is refused (C5). For the scope 0
    /// it is a global.
    pub fn find(&self, tables: &DebugTables, scope: u32, name: &[u8]) -> Result<u32, CmdRefusal>
        requires { self.now ≡ spec.variables_of tables.now }
        ensures { result ≡ variable_due tables.now scope name.now }
    {
        match self.found(tables, scope, name) {
            Some(id) => Ok(id),
            None => Err(CmdRefusal { code: 5 }),
        }
    }

    /// The same variable, if there is one.
    fn found(&self, tables: &DebugTables, scope: u32, name: &[u8]) -> Option<u32>
        requires { self.now ≡ spec.variables_of tables.now }
        ensures { result ≡ spec.variable_named tables.now scope name.now }
    {
        match named_from(tables, &self.locals, scope, name) {
            Some(id) => Some(id),
            None => named_among(tables, self.globals.as_slice(), name),
        }
    }
}
