//! The event of a step, as all invocations see it.
ghost use Rattle.std.specs.Prelude.{◌≡◌, ◌<◌, length};
ghost use Rattle.spv_base.specs.declared.values.Value.{Value};
ghost use Rattle.spv_sites.specs.Planned.{shown};
ghost use Rattle.spv_machine.specs.Step as spec;

use spv_base::{Happening, Kind, Root};
use spv_index::literal_operand;
use spv_ops::storage_class;
use spv_sites::{Control, Effect};
use spv_state::{Runnable, Whole};
use spv_valid::Module;

/// An event that writes nothing that all invocations see.
pub(crate) fn plain(inv: u32, word: u32) -> Happening
    ensures { result ≡ spec.plain inv word }
{
    Happening {
        inv,
        kind: Kind::Plain,
        word,
        root: 0,
        line: 0,
    }
}

/// Whether a variable is one that all invocations see and write: of the class StorageBuffer or Workgroup.
fn is_written(accepted: &Module, id: u32) -> bool
    ensures { result ≡ spec.is_written accepted.now id }
{
    let Some(inst) = accepted.defining(id) else {
        return false;
    };
    match literal_operand(inst, 0) {
        Some(class) => {
            class == storage_class::STORAGE_BUFFER || class == storage_class::WORKGROUP
        }
        None => false,
    }
}

/// The event of a store in a variable.
pub(crate) fn written(accepted: &Module, inv: u32, word: u32, root: Root) -> Happening
    ensures { result ≡ spec.written accepted.now inv word root }
{
    match root {
        Root::Shared(id) if is_written(accepted, id) => Happening {
            inv,
            kind: Kind::Write,
            word,
            root: id,
            line: 0,
        },
        _ => plain(inv, word),
    }
}

/// The event of what an effect stores.
fn store_happening(accepted: &Module, inv: u32, word: u32, effect: &Effect) -> Happening
    ensures { (v : Value) → result ≡ spec.stored_at accepted.now inv word (shown effect.now v).store }
{
    match &effect.store {
        Some(target) => written(accepted, inv, word, target.root()),
        None => plain(inv, word),
    }
}

/// The event of an arrival at a barrier that opens then, or doesn't.
fn arrival(inv: u32, word: u32, opens: bool) -> Happening
    ensures { result ≡ spec.arrival_with inv word opens }
{
    Happening {
        inv,
        kind: if opens { Kind::Opened } else { Kind::Arrive },
        word,
        root: 0,
        line: 0,
    }
}

/// The event of an effect, in the state before it.
pub(crate) fn happening_of(
    m: &Runnable,
    whole: &Whole,
    inv: u32,
    word: u32,
    effect: &Effect,
) -> Happening
    requires { inv < length whole.now.statuses.list }
    ensures { (v : Value) → result ≡ spec.happening_of m.now whole.now inv word (shown effect.now v) }
{
    match &effect.control {
        Control::Next => store_happening(m.accepted(), inv, word, effect),
        Control::Wait => {
            let counts = m.setup().finished_count();
            arrival(inv, word, whole.statuses().opens_with(counts, inv, word))
        }
        Control::Jump { .. } | Control::Enter(_) | Control::Leave(_) => plain(inv, word),
    }
}
