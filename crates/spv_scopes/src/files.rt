//! The names of source files, numbered in the order in which they are met.
ghost use Rattle.std.specs.Prelude.{◌≡◌, ◌<◌, IfOk, OnOk, Some, length, slice_get};
ghost use Rattle.spv_dbg.specs.Tables.{Tables};
ghost use Rattle.spv_scopes.specs.Files.{AreFiles, Grows};
ghost use Rattle.spv_scopes.specs.Shown.{string_in};

use crate::frames::string_in;
use spv_base::{Bytes, NoMemory};
use spv_dbg::DebugTables;
use std::alloc::Global;
use std::collections::BTreeMap;

/// The numbers of files by their names.
pub(crate) type Names = BTreeMap<Vec<u8>, usize>;

/// The names of files, and their numbers by name and by the id of an OpString with it.
#[derive(Drop)]
pub(crate) struct Files {
    pub(crate) list: Vec<Bytes>,
    pub(crate) names: Names,
    pub(crate) ids: BTreeMap<u32, usize>,
}

impl Files {
    /// No files.
    pub(crate) fn new(alloc: Global) -> Files
        ensures { (t : Tables) → AreFiles t result }
    {
        Files {
            list: Vec::new(alloc),
            names: BTreeMap::new(alloc),
            ids: BTreeMap::new(alloc),
        }
    }

    /// The number of the file with a name, which is a new one where the name is new.
    fn number_of_name(&mut self, alloc: Global, name: &[u8]) -> Result<usize, NoMemory>
        ensures files { OnOk result ((t : Tables) → AreFiles t self.old → AreFiles t self.new) }
        ensures grows { OnOk result (Grows self.old.list.items self.new.list.items) }
        ensures number { IfOk result (λ n. (t : Tables) → AreFiles t self.old → slice_get self.new.list.items n ≡ Some name.now) }
    {
        if let Some(number) = self.names.get(name) {
            return Ok(*number);
        }
        let number = self.list.len();
        let text = Bytes::from_slice(alloc, name)?;
        let key = Vec::from_slice(alloc, name)?;
        self.list.push(text)?;
        self.names.insert(key, number)?;
        Ok(number)
    }

    /// The number of the file whose name is the OpString with an id. A name is looked for once for each id.
    pub(crate) fn number(
        &mut self,
        alloc: Global,
        tables: &DebugTables,
        id: u32,
    ) -> Result<usize, NoMemory>
        requires { AreFiles tables.now self.old }
        ensures files { OnOk result (AreFiles tables.now self.new) }
        ensures grows { OnOk result (Grows self.old.list.items self.new.list.items) }
        ensures number { IfOk result (λ n. slice_get self.new.list.items n ≡ Some (string_in tables.now id)) }
    {
        if let Some(number) = self.ids.get(&id) {
            return Ok(*number);
        }
        let number = self.number_of_name(alloc, string_in(tables, id))?;
        self.ids.insert(id, number)?;
        Ok(number)
    }
}
