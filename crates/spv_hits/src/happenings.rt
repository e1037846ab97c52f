//! The lines of happenings.
ghost use Rattle.std.specs.Prelude.{◌≡◌};
ghost use Rattle.spv_dbg.specs.Tables.{tables_of};
ghost use Rattle.spv_scopes.specs.Lines.{lines_of};
ghost use Rattle.spv_hits.specs.Happenings.{is_barrier, line_of, lined};

use spv_base::{Happening, Kind};
use spv_ops::op;
use spv_scopes::Lines;
use spv_valid::Module;

/// Whether an OpControlBarrier stands at a word.
fn is_barrier(module: &Module, word: u32) -> bool
    ensures { result ≡ is_barrier module.now word }
{
    match module.at(word) {
        Some(inst) => inst.op == op::CONTROL_BARRIER,
        None => false,
    }
}

/// The line that an event of a kind at a word is told with: the one that begins there, but none where it is idle or leaves a barrier.
fn line_of(module: &Module, lines: &Lines, kind: Kind, word: u32) -> u32
    requires { lines.now ≡ lines_of module.now (tables_of module.now) }
    ensures { result ≡ line_of module.now kind word }
{
    match kind {
        Kind::Idle => 0,
        Kind::Plain if is_barrier(module, word) => 0,
        _ => lines.line_begun(word),
    }
}

/// A happening of a run of this module, with its line.
pub fn lined(module: &Module, lines: &Lines, happening: Happening) -> Happening
    requires { lines.now ≡ lines_of module.now (tables_of module.now) }
    ensures { result ≡ lined module.now happening }
{
    Happening {
        line: line_of(module, lines, happening.kind, happening.word),
        ..happening
    }
}
