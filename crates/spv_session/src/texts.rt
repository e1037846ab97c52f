//! The texts of replies.
ghost use Rattle.std.specs.Prelude.{◌≡◌, ◌++◌, OnOk, option_copied};
ghost use Rattle.spv_session.specs.Texts.{refusal_line, standing_text, position_line, status_text, invocation_line, break_line, deleted_line, watch_line, unwatched_line, tally_line, dropped_line, halt_line};

use spv_base::{CmdRefusal, NoMemory, Status4};
use spv_dbg::ShownFrame;
use spv_line::push_number;
use spv_source::{place_text, push_shown};
use std::alloc::Global;

/// The line of a refusal. Its code is 1 to 13.
pub fn refusal_line(refusal: CmdRefusal) -> &'static [u8]
    ensures { result.now ≡ refusal_line refusal.code }
{
    match refusal.code {
        1 => b"refused: C1 unknown command\n",
        2 => b"refused: C2 arguments\n",
        3 => b"refused: C3 no such invocation\n",
        4 => b"refused: C4 no such frame\n",
        5 => b"refused: C5 no such name\n",
        6 => b"refused: C6 no such part\n",
        7 => b"refused: C7 no such number\n",
        8 => b"refused: C8 no code at that line\n",
        9 => b"refused: C9 list full\n",
        10 => b"refused: C10 no source text\n",
        11 => b"refused: C11 line too long\n",
        12 => b"refused: C12 focus finished\n",
        13 => b"refused: C13 past the end\n",
        _ => b"refused: \n",
    }
}

/// Appends where a shown frame stands, or that there is none.
fn push_standing(
    alloc: Global,
    text: &mut Vec<u8>,
    frame: Option<&ShownFrame>,
) -> Result<(), NoMemory>
    ensures { OnOk result (text.new.items ≡ text.old.items ++ standing_text (option_copied frame.entry)) }
{
    match frame {
        Some(frame) => place_text(alloc, frame, text)?,
        None => text.extend_from_slice(b"finished")?,
    }
    Ok(())
}

/// Appends the line that tells the position, and where an invocation with this innermost frame stands there.
pub fn push_position(
    alloc: Global,
    text: &mut Vec<u8>,
    position: u64,
    inv: u32,
    frame: Option<&ShownFrame>,
) -> Result<(), NoMemory>
    ensures { OnOk result (text.new.items ≡ text.old.items ++ position_line position inv (option_copied frame.entry)) }
{
    text.extend_from_slice(b"@")?;
    push_number(alloc, text, position)?;
    text.extend_from_slice(b" i=")?;
    push_number(alloc, text, inv as u64)?;
    text.extend_from_slice(b" ")?;
    push_standing(alloc, text, frame)?;
    text.extend_from_slice(b"\n")?;
    Ok(())
}

/// Appends how far an invocation is, and where it stands with this innermost frame.
fn push_status(
    alloc: Global,
    text: &mut Vec<u8>,
    status: Status4,
    frame: Option<&ShownFrame>,
) -> Result<(), NoMemory>
    ensures { OnOk result (text.new.items ≡ text.old.items ++ status_text status (option_copied frame.entry)) }
{
    match status {
        Status4::Ready => text.extend_from_slice(b"ready ")?,
        Status4::Arrived => text.extend_from_slice(b"arrived ")?,
        Status4::Passed => text.extend_from_slice(b"passed ")?,
        Status4::Finished => {
            text.extend_from_slice(b"finished")?;
            return Ok(());
        }
    }
    push_standing(alloc, text, frame)
}

/// Appends the line of an invocation that has this status and innermost frame.
pub fn push_invocation(
    alloc: Global,
    text: &mut Vec<u8>,
    inv: u32,
    status: Status4,
    frame: Option<&ShownFrame>,
) -> Result<(), NoMemory>
    ensures { OnOk result (text.new.items ≡ text.old.items ++ invocation_line inv status (option_copied frame.entry)) }
{
    text.extend_from_slice(b"i=")?;
    push_number(alloc, text, inv as u64)?;
    text.extend_from_slice(b" ")?;
    push_status(alloc, text, status, frame)?;
    text.extend_from_slice(b"\n")?;
    Ok(())
}

/// Appends the number of a new break, and the line of a file where it is.
pub(crate) fn push_break(
    alloc: Global,
    text: &mut Vec<u8>,
    number: u32,
    file: &[u8],
    line: u32,
) -> Result<(), NoMemory>
    ensures { OnOk result (text.new.items ≡ text.old.items ++ break_line number file.now line) }
{
    text.extend_from_slice(b"break ")?;
    push_number(alloc, text, u64::from(number))?;
    text.extend_from_slice(b" at ")?;
    push_shown(text, file)?;
    text.extend_from_slice(b":")?;
    push_number(alloc, text, u64::from(line))?;
    text.extend_from_slice(b"\n")?;
    Ok(())
}

/// Appends the number of a new watch, before the line of what it watches.
pub(crate) fn push_watch(
    alloc: Global,
    text: &mut Vec<u8>,
    number: u32,
    line: &[u8],
) -> Result<(), NoMemory>
    ensures { OnOk result (text.new.items ≡ text.old.items ++ watch_line number line.now) }
{
    text.extend_from_slice(b"watch ")?;
    push_number(alloc, text, u64::from(number))?;
    text.extend_from_slice(b": ")?;
    text.extend_from_slice(line)?;
    Ok(())
}

/// Appends that a break is gone.
pub(crate) fn push_deleted(alloc: Global, text: &mut Vec<u8>, number: u32) -> Result<(), NoMemory>
    ensures { OnOk result (text.new.items ≡ text.old.items ++ deleted_line number) }
{
    text.extend_from_slice(b"deleted ")?;
    push_number(alloc, text, u64::from(number))?;
    text.extend_from_slice(b"\n")?;
    Ok(())
}

/// Appends that a watch is gone.
pub(crate) fn push_unwatched(alloc: Global, text: &mut Vec<u8>, number: u32) -> Result<(), NoMemory>
    ensures { OnOk result (text.new.items ≡ text.old.items ++ unwatched_line number) }
{
    text.extend_from_slice(b"unwatched ")?;
    push_number(alloc, text, u64::from(number))?;
    text.extend_from_slice(b"\n")?;
    Ok(())
}

/// Appends how many events a probe hit.
pub(crate) fn push_tally(
    alloc: Global,
    text: &mut Vec<u8>,
    number: u32,
    count: u64,
) -> Result<(), NoMemory>
    ensures { OnOk result (text.new.items ≡ text.old.items ++ tally_line number count) }
{
    text.extend_from_slice(b"probe ")?;
    push_number(alloc, text, u64::from(number))?;
    text.extend_from_slice(b": ")?;
    push_number(alloc, text, count)?;
    text.extend_from_slice(b"\n")?;
    Ok(())
}

/// Appends that a probe is dropped.
pub(crate) fn push_dropped(alloc: Global, text: &mut Vec<u8>, number: u32) -> Result<(), NoMemory>
    ensures { OnOk result (text.new.items ≡ text.old.items ++ dropped_line number) }
{
    text.extend_from_slice(b"dropped ")?;
    push_number(alloc, text, u64::from(number))?;
    text.extend_from_slice(b"\n")?;
    Ok(())
}

/// Appends at which multiples of its tally a probe stops a run.
pub(crate) fn push_halt(
    alloc: Global,
    text: &mut Vec<u8>,
    number: u32,
    every: u32,
) -> Result<(), NoMemory>
    ensures { OnOk result (text.new.items ≡ text.old.items ++ halt_line number every) }
{
    text.extend_from_slice(b"halt ")?;
    push_number(alloc, text, u64::from(number))?;
    text.extend_from_slice(b" every ")?;
    push_number(alloc, text, u64::from(every))?;
    text.extend_from_slice(b"\n")?;
    Ok(())
}
