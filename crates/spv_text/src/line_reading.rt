//! Reading lines.
ghost use Rattle.std.specs.Prelude.{IfOk, MatchOption};
ghost use Rattle.spv_text.specs.Spelling.{line_text};
ghost use Rattle.spv_text.specs.Lines.{Any, IsLine, Lacks, Stands};

use crate::fronts::after;
use crate::lines::Line;
use crate::numbers::{name_at, number_at};
use crate::parts::parts_at;
use spv_base::{NoMemory, Text};
use std::alloc::Global;

/// The line at the front of a text, and what follows it.
pub fn line_at(alloc: Global, text: &[u8]) -> Result<Option<(Line, &[u8])>, NoMemory>
    ensures { IfOk result (λ found. MatchOption found
        (Lacks line_text IsLine Any text.now)
        (λ it. Stands line_text IsLine Any text.now it.0 it.1.now)) }
{
    let Some((word, behind)) = number_at(text) else {
        return Ok(None);
    };
    let Some(named) = after(behind, b": ") else {
        return Ok(None);
    };
    let Some((name, parted)) = name_at(named) else {
        return Ok(None);
    };
    let Some((parts, rest)) = parts_at(alloc, parted)? else {
        return Ok(None);
    };
    let name = Text::from_slice(alloc, name)?;
    Ok(Some((Line { word, name, parts }, rest)))
}
