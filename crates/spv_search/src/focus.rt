//! Where an invocation stands in the source.
ghost use Rattle.std.specs.Prelude.{◌≡◌, ◌<◌, ◌==◌, false, IfOk, option_map, slice_get};
ghost use Rattle.std.specs.Option.{option_eq, option_map_or};
ghost use Rattle.spv_scopes.specs.Heads.{same_line};
ghost use Rattle.spv_scopes.specs.Shown.{line_named, string_in};
ghost use Rattle.spv_search.specs.Keys as spec;
ghost use Rattle.spv_search.specs.Keys.{IsFocus, named_key};
ghost use Rattle.spv_state.specs.State.{frames_of};
ghost use Rattle.spv_group.specs.Group.{entries_in, invocations_in, state_in};

use spv_base::{NoMemory, Status4};
use spv_dbg::DebugTables;
use spv_frame::Stack;
use spv_group::Group;
use spv_scopes::{Lines, innermost_line, shown_count};

/// An invocation, and the debug information of the module that it runs.
#[derive(Clone, Copy)]
pub struct Focus<'a> {
    pub inv: u32,
    pub tables: &'a DebugTables,
    pub lines: &'a Lines,
}

/// What tells places apart: how many frames are shown, and the line of the innermost, with the id of the OpString with its file's name.
#[derive(Clone, Copy)]
pub struct Key {
    pub depth: u64,
    pub line: Option<(u32, u32)>,
}

/// The bytes of the OpString with an id, and none where there is no such string.
fn string_in(tables: &DebugTables, id: u32) -> &[u8]
    ensures { result.now ≡ string_in tables.now id }
{
    match tables.string(id) {
        Some(text) => text,
        None => &[],
    }
}

/// Whether two lines are the same, with the same names of their files.
fn same_line(tables: &DebugTables, a: (u32, u32), b: (u32, u32)) -> bool
    ensures { result ≡ same_line (line_named tables.now a) (line_named tables.now b) }
{
    a.1 == b.1 && (a.0 == b.0 || string_in(tables, a.0) == string_in(tables, b.0))
}

/// The same, of lines or none.
fn same_lines(tables: &DebugTables, a: Option<(u32, u32)>, b: Option<(u32, u32)>) -> bool
    ensures { result ≡ option_eq same_line (option_map (line_named tables.now) a) (option_map (line_named tables.now) b) }
{
    match (a, b) {
        (Some(a), Some(b)) => same_line(tables, a, b),
        (None, None) => true,
        _ => false,
    }
}

/// Whether two keys are the same. No name is copied.
pub(crate) fn same_key(tables: &DebugTables, a: &Key, b: &Key) -> bool
    ensures { result ≡ spec.same_key (named_key tables.now a.now) (named_key tables.now b.now) }
{
    a.depth == b.depth && same_lines(tables, a.line, b.line)
}

/// The calls of an invocation.
fn stack_of(group: &Group, inv: u32) -> &Stack
    requires { inv < invocations_in group.now.group }
    ensures { result.now.frames ≡ frames_of (state_in group.now.group) inv }
{
    group.world().whole().stack(inv)
}

/// Whether an event is one of an invocation, by the schedule.
pub(crate) fn is_entry(group: &Group, inv: u32, event: u64) -> bool
    ensures { result ≡ option_map_or (λ i. i == inv) (slice_get (entries_in group.now.group) event) false }
{
    match group.schedule().at(event) {
        Some(i) => i == inv,
        None => false,
    }
}

impl Focus<'_> {
    /// How many frames are shown of it. None is made.
    pub(crate) fn depth(&self, group: &Group) -> Result<u64, NoMemory>
        requires { IsFocus group.now.group self.now.inv self.now.tables.now self.now.lines.now }
        ensures { IfOk result (λ depth. depth ≡ spec.depth_in group.now.group self.now.inv) }
    {
        shown_count(self.lines, stack_of(group, self.inv))
    }

    /// Its key.
    pub(crate) fn key(&self, group: &Group) -> Result<Key, NoMemory>
        requires { IsFocus group.now.group self.now.inv self.now.tables.now self.now.lines.now }
        ensures { IfOk result (λ key. named_key self.now.tables.now key ≡ spec.key_in group.now.group self.now.inv) }
    {
        Ok(Key {
            depth: self.depth(group)?,
            line: innermost_line(self.lines, stack_of(group, self.inv)),
        })
    }

    /// Whether it is finished.
    pub(crate) fn has_finished(&self, group: &Group) -> bool
        requires { IsFocus group.now.group self.now.inv self.now.tables.now self.now.lines.now }
        ensures { result ≡ spec.has_finished group.now.group self.now.inv }
    {
        matches!(group.status(self.inv), Status4::Finished)
    }

    /// Whether it stands where a line begins.
    pub(crate) fn at_head(&self, group: &Group) -> bool
        requires { IsFocus group.now.group self.now.inv self.now.tables.now self.now.lines.now }
        ensures { result ≡ spec.at_head group.now.group self.now.inv }
    {
        match stack_of(group, self.inv).pc() {
            Some(pc) => self.lines.is_head(pc),
            None => false,
        }
    }
}
