//! The lines around a line.
ghost use Rattle.std.specs.Prelude.{◌≡◌, ◌++◌, IfOk, OnErr, OnOk, is_some, option_map, unwrap_or, []};
ghost use Rattle.std.specs.List.{concat, flat_map};
ghost use Rattle.spv_source.specs.Windows.{row_text, source_lines, window};

use crate::walks::Walk;
use spv_base::NoMemory;
use spv_dbg::SourceText;
use std::alloc::Global;

/// The lines of a text around a line.
fn window_of(alloc: Global, text: &SourceText<'_>, line: u32) -> Result<Vec<u8>, NoMemory>
    ensures { IfOk result (λ rows. rows.items ≡ flat_map (row_text line) (window line (concat text.now))) }
{
    let mut walk = Walk::new(alloc, line);
    walk.pass_all(alloc, text)?;
    walk.finish(alloc)
}

/// The lines around a line, and no bytes where there is none.
fn rows(alloc: Global, text: Option<SourceText<'_>>, line: u32) -> Result<Vec<u8>, NoMemory>
    ensures { IfOk result (λ rows. rows.items ≡ unwrap_or (source_lines line (option_map (λ pieces. concat pieces) text.entry)) []) }
{
    match text {
        Some(text) if line != 0 => window_of(alloc, &text, line),
        Some(_) | None => Ok(Vec::new(alloc)),
    }
}

/// Appends the lines of a text around a line, and tells whether any is shown: none is where there is no text, no line, or no line near. The
/// text is read once, and no further than two lines after the line; pieces of it that end before the lines that are shown are not read.
/// After want of memory nothing was appended.
pub fn source_lines(
    alloc: Global,
    text: Option<SourceText<'_>>,
    line: u32,
    out: &mut Vec<u8>,
) -> Result<bool, NoMemory>
    ensures shown { IfOk result (λ shown. shown ≡ is_some (source_lines line (option_map (λ pieces. concat pieces) text.entry))) }
    ensures ok { OnOk result (out.new.items ≡ out.old.items ++ unwrap_or (source_lines line (option_map (λ pieces. concat pieces) text.entry)) []) }
    ensures err { OnErr result (out.new.items ≡ out.old.items) }
{
    let rows = rows(alloc, text, line)?;
    let shown = rows.as_slice();
    out.extend_from_slice(shown)?;
    Ok(!shown.is_empty())
}
