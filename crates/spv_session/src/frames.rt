//! The frames that are shown of an invocation.
ghost use Rattle.std.specs.Prelude.{◌≡◌, ◌<◌, ◌+◌, ◌++◌, IfOk, MatchResult, OnOk, length, slice_get};
ghost use Rattle.std.specs.List.{enumerate_from, flat_map};
ghost use Rattle.spv_dbg.specs.declared.frames.ShownFrame.{ShownFrame as Shown};
ghost use Rattle.spv_group.specs.Group.{invocations_in};
ghost use Rattle.spv_scopes.specs.Shown.{shown_of};
ghost use Rattle.spv_search.specs.Keys.{shown_in};
ghost use Rattle.spv_session.specs.Reply.{Told, frame_told, frames_told, refuses, told_reply};
ghost use Rattle.spv_session.specs.Shown as spec;
ghost use Rattle.spv_session.specs.Shown.{focus_frames};
ghost use Rattle.spv_session.specs.Variables.{selected};
ghost use Rattle.spv_source.specs.Frames.{frame_line};

use crate::session::Core;
use crate::texts::refusal_line;
use spv_base::{CmdRefusal, NoMemory};
use spv_dbg::{DebugTables, ShownFrame};
use spv_frame::Stack;
use spv_scopes::{Lines, innermost, shown_at, shown_of_call};
use spv_source::push_frame;
use spv_valid::Module;
use std::alloc::Global;

/// The command names a shown frame that doesn't exist.
const NO_SUCH_FRAME: CmdRefusal = CmdRefusal { code: 4 };

/// The command names an id that stands for nothing there.
pub(crate) const NO_SUCH_NAME: CmdRefusal = CmdRefusal { code: 5 };

/// The command asks for lines of the source where there are none.
pub(crate) const NO_SOURCE_TEXT: CmdRefusal = CmdRefusal { code: 10 };

/// The command asks for a frame of a finished invocation.
pub(crate) const FOCUS_FINISHED: CmdRefusal = CmdRefusal { code: 12 };

/// Appends the lines of shown frames, of which the first has a number, and gives the number of the next. There is no memory for so many that
/// a `u32` doesn't count them.
fn push_lines_of(
    alloc: Global,
    text: &mut Vec<u8>,
    first: u32,
    frames: &[ShownFrame],
) -> Result<u32, NoMemory>
    ensures text { OnOk result (text.new.items ≡ text.old.items ++ flat_map (λ numbered. frame_line numbered.0 numbered.1) (enumerate_from first frames.now)) }
    ensures next { IfOk result (λ next. next ≡ first + length frames.now) }
{
    let mut number = first;
    for frame in frames {
        push_frame(alloc, text, number, frame)?;
        let Some(next) = number.checked_add(1) else {
            return Err(NoMemory);
        };
        number = next;
    }
    Ok(number)
}

/// Appends the lines of the frames that are shown of a stack, numbered from 0. Only those of one call are made at a time. There is no memory
/// for so many that a `u32` doesn't count them.
pub(crate) fn push_frame_lines(
    alloc: Global,
    text: &mut Vec<u8>,
    module: &Module,
    tables: &DebugTables,
    lines: &Lines,
    stack: &Stack,
) -> Result<(), NoMemory>
    ensures { OnOk result (text.new.items ≡ text.old.items ++ flat_map (λ numbered. frame_line numbered.0 numbered.1) (enumerate_from 0 (shown_of module.now tables.now lines.now.spots stack.now.frames))) }
{
    let Ok(mut depth) = u32::try_from(stack.depth()) else {
        return Err(NoMemory);
    };
    let mut number = 0;
    'calls: while depth > 0 {
        depth -= 1;
        let frames = shown_of_call(alloc, module, tables, lines, stack, depth)?;
        number = push_lines_of(alloc, text, number, frames.as_slice())?;
    }
    Ok(())
}

impl Core {
    /// The frame with a number that is shown of an invocation, if there is one.
    fn frame_of(&self, inv: u32, number: u32) -> Result<Option<ShownFrame>, NoMemory>
        requires { inv < invocations_in self.now.view.group }
        ensures { IfOk result (λ frame. frame ≡ slice_get (shown_in self.now.view.group inv) number) }
    {
        let module = self.group.module().accepted();
        let stack = self.group.world().whole().stack(inv);
        shown_at(
            self.alloc,
            module,
            &self.info.tables,
            &self.info.lines,
            stack,
            number,
        )
    }

    /// The innermost of them.
    pub(crate) fn innermost(&self, inv: u32) -> Result<Option<ShownFrame>, NoMemory>
        requires { inv < invocations_in self.now.view.group }
        ensures { IfOk result (λ frame. frame ≡ spec.innermost self.now.view.group inv) }
    {
        let module = self.group.module().accepted();
        let stack = self.group.world().whole().stack(inv);
        innermost(
            self.alloc,
            module,
            &self.info.tables,
            &self.info.lines,
            stack,
        )
    }

    /// The selected frame of the focus, if it is shown.
    pub(crate) fn selected(&self) -> Result<Option<ShownFrame>, NoMemory>
        ensures { IfOk result (λ frame. frame ≡ selected self.now.view) }
    {
        self.frame_of(self.focus, self.frame)
    }

    /// The shown frame of the focus with a number, or why there is none.
    pub(crate) fn focus_frame(
        &self,
        number: u32,
    ) -> Result<Result<ShownFrame, CmdRefusal>, NoMemory>
        ensures { IfOk result (λ due. MatchResult due
            (λ frame. (told : Shown → Told) → frame_told told (focus_frames self.now.view) number ≡ told frame)
            (λ refusal. (told : Shown → Told) → frame_told told (focus_frames self.now.view) number ≡ refuses refusal.code)) }
    {
        if let Some(frame) = self.frame_of(self.focus, number)? {
            return Ok(Ok(frame));
        }
        match self.innermost(self.focus)? {
            Some(_) => Ok(Err(NO_SUCH_FRAME)),
            None => Ok(Err(FOCUS_FINISHED)),
        }
    }

    /// Appends the line of each shown frame of the focus.
    pub(crate) fn push_frames(&self, text: &mut Vec<u8>) -> Result<(), NoMemory>
        ensures { OnOk result (text.new.items ≡ text.old.items ++ (told_reply self.now.view (frames_told self.now.view (focus_frames self.now.view))).0) }
    {
        if self.innermost(self.focus)?.is_none() {
            text.extend_from_slice(refusal_line(FOCUS_FINISHED))?;
            return Ok(());
        }
        let module = self.group.module().accepted();
        let stack = self.group.world().whole().stack(self.focus);
        push_frame_lines(
            self.alloc,
            text,
            module,
            &self.info.tables,
            &self.info.lines,
            stack,
        )
    }
}
