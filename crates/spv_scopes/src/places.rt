//! Places in the source.
ghost use Rattle.std.specs.Prelude.{◌≡◌, slice_index};
ghost use Rattle.spv_scopes.specs.Spots as spec;

use spv_dbg::DebugInst;

/// A place in the source: the debug scope, the InlinedAt of the call around it, the Function around its scope, the OpString with
/// the name of its file, and its line. What is missing is 0.
#[derive(Clone, Copy)]
pub struct Place {
    pub scope: u32,
    pub inlined: u32,
    pub function: u32,
    pub file: u32,
    pub line: u32,
}

impl Place {
    /// The file and the line, where it has a line.
    pub fn source_line(self) -> Option<(u32, u32)>
        ensures { result ≡ spec.source_line self }
    {
        if self.line == 0 {
            return None;
        }
        Some((self.file, self.line))
    }
}

/// The operand of a debug instruction with a number, and 0 where there is none.
pub(crate) fn operand(debug: &DebugInst, n: usize) -> u32
    ensures { result ≡ slice_index debug.now.operands n }
{
    debug.operands.get(n).copied().unwrap_or(0)
}
