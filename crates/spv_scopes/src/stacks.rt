//! The frames that are shown of a stack.
ghost use Rattle.std.specs.Prelude.{◌≡◌, ◌++◌, IfOk, length, option_map, slice_get, suc};
ghost use Rattle.std.specs.Option.{option_and_then};
ghost use Rattle.spv_valid.specs.Acceptance.{Accepted};
ghost use Rattle.spv_dbg.specs.Tables.{Tables};
ghost use Rattle.spv_scopes.specs.Shown as spec;

use crate::frames::Real;
use crate::lines::Lines;
use spv_base::NoMemory;
use spv_dbg::{DebugTables, ShownFrame};
use spv_frame::Stack;
use spv_valid::Module;
use std::alloc::Global;

/// The call at a depth of a stack, if there is one.
fn call_at(stack: &Stack, depth: u32) -> Option<Real>
    ensures { result ≡ option_map (spec.real_of depth) (slice_get stack.now.frames depth) }
{
    let frame = stack.frame(depth)?;
    Some(Real {
        depth,
        function: frame.function(),
        word: frame.pc(),
    })
}

/// The frames of a stack as they are shown, the innermost first. There is no memory for so many that a `u32` doesn't count them.
#[tactic(auto, unfolding(crate::specs::Shown::shown_of))]
pub fn shown(
    alloc: Global,
    module: &Module,
    tables: &DebugTables,
    lines: &Lines,
    stack: &Stack,
) -> Result<Vec<ShownFrame>, NoMemory>
    ensures { IfOk result (λ frames. frames.items ≡ spec.shown_of module.now tables.now lines.now.spots stack.now.frames) }
{
    let Ok(mut depth) = u32::try_from(stack.depth()) else {
        return Err(NoMemory);
    };
    let mut frames = Vec::new(alloc);
    'frames: while depth > 0 {
        depth -= 1;
        if let Some(real) = call_at(stack, depth) {
            lines.push_frames(alloc, module, tables, real, &mut frames)?;
        }
    }
    Ok(frames)
}

/// The frame with a number that is shown of a stack, the innermost being 0, and none where it has no such frame. No other is made. In as
/// many steps as the stack has frames and the frame's real one has calls that were inlined, which no clause says. There is no memory for so
/// many frames that a `u32` doesn't count them.
#[tactic(auto, unfolding(crate::specs::Shown::shown_of))]
pub fn shown_at(
    alloc: Global,
    module: &Module,
    tables: &DebugTables,
    lines: &Lines,
    stack: &Stack,
    number: u32,
) -> Result<Option<ShownFrame>, NoMemory>
    ensures { IfOk result (λ frame. frame ≡ slice_get (spec.shown_of module.now tables.now lines.now.spots stack.now.frames) number) }
{
    let Ok(mut depth) = u32::try_from(stack.depth()) else {
        return Err(NoMemory);
    };
    let mut left = u64::from(number);
    'frames: while depth > 0 {
        depth -= 1;
        if let Some(real) = call_at(stack, depth) {
            let count = lines.count(real.word);
            if left < count {
                return lines.frame(alloc, module, tables, real, left);
            }
            left -= count;
        }
    }
    Ok(None)
}

/// The innermost frame that is shown of a stack, and none where it has no frame. No other is made. There is no memory for so many frames
/// that a `u32` doesn't count them.
pub fn innermost(
    alloc: Global,
    module: &Module,
    tables: &DebugTables,
    lines: &Lines,
    stack: &Stack,
) -> Result<Option<ShownFrame>, NoMemory>
    ensures { IfOk result (λ frame. frame ≡ slice_get (spec.shown_of module.now tables.now lines.now.spots stack.now.frames) 0) }
{
    shown_at(alloc, module, tables, lines, stack, 0)
}

/// The frames that are shown of the call at a depth of a stack: those that come before the frames of the calls below it.
#[tactic(auto, unfolding(crate::specs::Shown::shown_below))]
pub fn shown_of_call(
    alloc: Global,
    module: &Module,
    tables: &DebugTables,
    lines: &Lines,
    stack: &Stack,
    depth: u32,
) -> Result<Vec<ShownFrame>, NoMemory>
    ensures { IfOk result (λ frames. spec.shown_below module.now tables.now lines.now.spots (suc depth) stack.now.frames
        ≡ frames.items ++ spec.shown_below module.now tables.now lines.now.spots depth stack.now.frames) }
{
    let mut frames = Vec::new(alloc);
    let Some(real) = call_at(stack, depth) else {
        return Ok(frames);
    };
    lines.push_frames(alloc, module, tables, real, &mut frames)?;
    Ok(frames)
}

/// How many frames are shown of a stack. None is made. In as many steps as the stack has frames, which no clause says. There is no memory
/// for so many that a `u64` doesn't count them.
#[tactic(auto, unfolding(crate::specs::Shown::shown_of))]
pub fn shown_count(lines: &Lines, stack: &Stack) -> Result<u64, NoMemory>
    ensures { (m : Accepted) (t : Tables) → IfOk result (λ count. count ≡ length (spec.shown_of m t lines.now.spots stack.now.frames)) }
{
    let Ok(mut depth) = u32::try_from(stack.depth()) else {
        return Err(NoMemory);
    };
    let mut count = 0u64;
    'frames: while depth > 0 {
        depth -= 1;
        if let Some(frame) = stack.frame(depth) {
            let Some(sum) = count.checked_add(lines.count(frame.pc())) else {
                return Err(NoMemory);
            };
            count = sum;
        }
    }
    Ok(count)
}

/// The line of the innermost frame that is shown of a stack, with the id of the OpString with the name of its file; none where there is no
/// frame, or it has no line. In constant time, which no clause says.
#[tactic(auto, unfolding(crate::specs::Shown::shown_of))]
pub fn innermost_line(lines: &Lines, stack: &Stack) -> Option<(u32, u32)>
    ensures { (m : Accepted) (t : Tables) → option_map (spec.line_named t) result ≡ option_and_then spec.line_shown (slice_get (spec.shown_of m t lines.now.spots stack.now.frames) 0) }
{
    lines.line(stack.pc()?)
}
