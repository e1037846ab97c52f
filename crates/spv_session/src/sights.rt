//! Variables of an invocation, as they are told.
ghost use Rattle.std.specs.Prelude.{◌≡◌, ◌++◌, ◌+◌, ◌<◌, ◌^◌, IfOk, OnOk, option_copied};
ghost use Rattle.std.specs.List.{flat_map};
ghost use Rattle.spv_cmd.specs.Paths.{path_text};
ghost use Rattle.spv_expr.specs.Bits.{AreBits, variable_bit};
ghost use Rattle.spv_expr.specs.Typing.{typing_of};
ghost use Rattle.spv_paths.specs.Kept.{kept_answer, kept_named, saturated_named};
ghost use Rattle.spv_paths.specs.Paths.{Named as AnyNamed};
ghost use Rattle.spv_paths.specs.Variables.{variables_of};
ghost use Rattle.spv_session.specs.Sights.{IsSortedFor};
ghost use Rattle.spv_session.specs.Variables as spec;

use spv_base::{CmdRefusal, NoMemory};
use spv_cmd::{PathParts, PathText, push_path_text};
use spv_dbg::{Bit, DebugTables, ShownFrame};
use spv_expr::{Events, Sizes};
use spv_frame::Stack;
use spv_line::push_number;
use spv_mem::Memory;
use spv_parts::name_of;
use spv_paths::{Named, Variables, part_of};
use spv_print::Layout;
use spv_source::push_shown;
use std::alloc::Global;

/// Where variables are read: the debug tables and the types of the module, the memory, an invocation with its calls, and a shown frame
/// or none.
#[derive(Clone, Copy)]
pub(crate) struct Sight<'a> {
    pub(crate) tables: &'a DebugTables,
    pub(crate) sizes: &'a Sizes,
    pub(crate) memory: &'a Memory,
    pub(crate) stack: &'a Stack,
    pub(crate) inv: u32,
    pub(crate) frame: Option<&'a ShownFrame>,
}

/// What is named, where its bits are counted by a `u64`. There is no memory for more.
fn exact<'a>(named: Named<'a>) -> Result<Named<'a>, NoMemory>
    ensures { IfOk result (λ exact. (n : AnyNamed) → kept_named named.entry ≡ saturated_named n → kept_named exact ≡ n) }
{
    if named.start == u64::MAX || named.end == u64::MAX {
        return Err(NoMemory);
    }
    Ok(named)
}

impl<'a> Sight<'a> {
    /// The scope of the frame.
    fn scope(&self) -> u32
        ensures { result ≡ spec.scope_of (option_copied self.now.frame) }
    {
        match self.frame {
            Some(frame) => frame.scope,
            None => 0,
        }
    }

    /// The part of a variable that the parts of a path name.
    fn part(&self, id: u32, parts: &PathParts) -> Result<Result<Named<'a>, CmdRefusal>, NoMemory>
        requires { self.now.sizes.now ≡ typing_of self.now.memory.now }
        ensures { IfOk result (λ due. kept_answer due ≡ spec.part_in self.now.tables.now self.now.memory.now self.now.inv self.now.stack.now (option_copied self.now.frame) id parts.now) }
    {
        let size = self
            .sizes
            .global_size(self.tables, self.memory, self.inv, id)?;
        match part_of(self.tables, id, size, parts) {
            Ok(named) => Ok(Ok(exact(named)?)),
            Err(refusal) => Ok(Err(refusal)),
        }
    }

    /// What a path names.
    pub(crate) fn named(
        &self,
        variables: &Variables,
        name: &[u8],
        parts: &PathParts,
    ) -> Result<Result<Named<'a>, CmdRefusal>, NoMemory>
        requires variables { variables.now ≡ variables_of self.now.tables.now }
        requires typed { self.now.sizes.now ≡ typing_of self.now.memory.now }
        ensures { IfOk result (λ due. kept_answer due ≡ spec.named_in self.now.tables.now self.now.memory.now self.now.inv self.now.stack.now (option_copied self.now.frame) name.now parts.now) }
    {
        match variables.find(self.tables, self.scope(), name) {
            Ok(id) => self.part(id, parts),
            Err(refusal) => Ok(Err(refusal)),
        }
    }

    /// So many bits of a variable from one on. Where the events of the frame are sorted by variables, those of this one alone are read.
    fn bits(
        &self,
        alloc: Global,
        events: Option<&Events<'_>>,
        variable: u32,
        first: u64,
        count: u64,
    ) -> Result<Vec<Bit>, NoMemory>
        requires typed { self.now.sizes.now ≡ typing_of self.now.memory.now }
        requires sorted { IsSortedFor self.now.tables.now self.now.stack.now (option_copied self.now.frame) (option_copied events) }
        requires fits { first + count < 2 ^ 64 }
        ensures { IfOk result (λ bits. AreBits (variable_bit self.now.memory.now self.now.inv self.now.tables.now self.now.stack.now (option_copied self.now.frame) variable) first count bits.items) }
    {
        match events {
            Some(events) => {
                events.variable_bits(alloc, self.memory, self.inv, variable, first, count)
            }
            None => self.sizes.variable_bits(
                alloc,
                self.tables,
                self.memory,
                self.stack,
                self.inv,
                self.frame,
                variable,
                first,
                count,
            ),
        }
    }

    /// Appends the text of a part of a variable.
    fn push_part(
        &self,
        alloc: Global,
        text: &mut Vec<u8>,
        events: Option<&Events<'_>>,
        named: Named<'_>,
    ) -> Result<(), NoMemory>
        requires typed { self.now.sizes.now ≡ typing_of self.now.memory.now }
        requires sorted { IsSortedFor self.now.tables.now self.now.stack.now (option_copied self.now.frame) (option_copied events) }
        ensures { OnOk result (text.new.items ≡ text.old.items ++ spec.part_text self.now.tables.now self.now.memory.now self.now.inv self.now.stack.now (option_copied self.now.frame) (kept_named named.entry)) }
    {
        let size = named.end.saturating_sub(named.start);
        let layout = Layout::of(alloc, self.tables, named.part, size)?;
        let count = layout.end();
        let Some(_) = named.start.checked_add(count) else {
            return Err(NoMemory);
        };
        let bits = self.bits(alloc, events, named.variable, named.start, count)?;
        layout.text(alloc, self.tables, bits.as_slice(), text)
    }

    /// Appends the line of a part of a variable, under a name.
    fn push_value(
        &self,
        alloc: Global,
        text: &mut Vec<u8>,
        events: Option<&Events<'_>>,
        name: &[u8],
        named: Named<'_>,
    ) -> Result<(), NoMemory>
        requires typed { self.now.sizes.now ≡ typing_of self.now.memory.now }
        requires sorted { IsSortedFor self.now.tables.now self.now.stack.now (option_copied self.now.frame) (option_copied events) }
        ensures { OnOk result (text.new.items ≡ text.old.items
            ++ spec.value_line name.now (spec.part_text self.now.tables.now self.now.memory.now self.now.inv self.now.stack.now (option_copied self.now.frame) (kept_named named.entry))) }
    {
        push_shown(text, name)?;
        text.extend_from_slice(b" = ")?;
        self.push_part(alloc, text, events, named)?;
        text.extend_from_slice(b"\n")?;
        Ok(())
    }

    /// Appends the line of what a path names.
    pub(crate) fn push_path(
        &self,
        alloc: Global,
        text: &mut Vec<u8>,
        path: &PathText,
        named: Named<'_>,
    ) -> Result<(), NoMemory>
        requires { self.now.sizes.now ≡ typing_of self.now.memory.now }
        ensures { OnOk result (text.new.items ≡ text.old.items
            ++ spec.value_line (path_text path.now) (spec.part_text self.now.tables.now self.now.memory.now self.now.inv self.now.stack.now (option_copied self.now.frame) (kept_named named.entry))) }
    {
        let mut name = Vec::new(alloc);
        push_path_text(alloc, &mut name, path)?;
        self.push_value(alloc, text, None, name.as_slice(), named)
    }

    /// Appends the line of a variable whole.
    fn push_variable(
        &self,
        alloc: Global,
        text: &mut Vec<u8>,
        events: Option<&Events<'_>>,
        id: u32,
    ) -> Result<(), NoMemory>
        requires typed { self.now.sizes.now ≡ typing_of self.now.memory.now }
        requires sorted { IsSortedFor self.now.tables.now self.now.stack.now (option_copied self.now.frame) (option_copied events) }
        ensures { OnOk result (text.new.items ≡ text.old.items ++ spec.variable_line self.now.tables.now self.now.memory.now self.now.inv self.now.stack.now (option_copied self.now.frame) id) }
    {
        let parts = PathParts::new(alloc);
        let Ok(named) = self.part(id, &parts)? else {
            return Ok(());
        };
        self.push_value(alloc, text, events, name_of(self.tables, id), named)
    }

    /// Appends the lines of variables.
    pub(crate) fn push_variables(
        &self,
        alloc: Global,
        text: &mut Vec<u8>,
        events: Option<&Events<'_>>,
        ids: &[u32],
    ) -> Result<(), NoMemory>
        requires typed { self.now.sizes.now ≡ typing_of self.now.memory.now }
        requires sorted { IsSortedFor self.now.tables.now self.now.stack.now (option_copied self.now.frame) (option_copied events) }
        ensures { OnOk result (text.new.items ≡ text.old.items
            ++ flat_map (spec.variable_line self.now.tables.now self.now.memory.now self.now.inv self.now.stack.now (option_copied self.now.frame)) ids.now) }
    {
        for id in ids {
            self.push_variable(alloc, text, events, *id)?;
        }
        Ok(())
    }
}

/// Appends the line of what an id stands for.
pub(crate) fn push_id_line(
    alloc: Global,
    text: &mut Vec<u8>,
    id: u32,
    value: &[u8],
) -> Result<(), NoMemory>
    ensures { OnOk result (text.new.items ≡ text.old.items ++ spec.id_line id value.now) }
{
    text.extend_from_slice(b"%")?;
    push_number(alloc, text, u64::from(id))?;
    text.extend_from_slice(b" = ")?;
    text.extend_from_slice(value)?;
    text.extend_from_slice(b"\n")?;
    Ok(())
}
