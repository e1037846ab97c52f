//! The events of predecoded instructions, which are those on values of one cell: the same as by any other way, with few look-ups.
ghost use Rattle.std.specs.Prelude.{◌≡◌, ◌<◌, IfSome, None, Ok, length};
ghost use Rattle.spv_actions.specs.Cells.{full};
ghost use Rattle.spv_machine.specs.Cells.{IsCellStep};
ghost use Rattle.spv_machine.specs.Reached.{IsReached};
ghost use Rattle.spv_machine.specs.Recording.{Made};
ghost use Rattle.spv_machine.specs.Step as spec;
ghost use Rattle.spv_machine.specs.Weights.{effect_weight};
ghost use Rattle.spv_state.specs.State.{State};

use crate::execution::Did;
use crate::happenings::{plain, written};
use spv_actions::{CellEffect, cell_effect};
use spv_base::{Happening, Inst};
use spv_journal::Recorded;
use spv_sites::Site;
use spv_state::{Runnable, Whole};
use std::alloc::Global;

/// What a predecoded instruction does, the word at which it stands, and that of the executable behind it, before which no debug instruction stands.
#[derive(Drop)]
pub(crate) struct CellStep {
    effect: CellEffect,
    /// The instruction's, which itself isn't read: it lies elsewhere in memory.
    word: u32,
    next: u32,
}

/// What the instruction does that a Ready invocation has reached, where it is predecoded and its operands have values.
#[inline(always)]
pub(crate) fn cell_due(
    alloc: Global,
    m: &Runnable,
    whole: &Whole,
    inv: u32,
    inst: &Inst,
) -> Option<CellStep>
    requires inv { inv < length whole.now.statuses.list }
    requires reached { IsReached m.now whole.now inv inst.now }
    ensures { IfSome result (IsCellStep m.now whole.now inv inst.now) }
{
    let frame = whole.top(inv)?;
    let word = frame.pc();
    let predecoded = m.predecoded(word)?;
    if frame.function() != predecoded.function {
        return None;
    }
    let site = Site::of(alloc, m, whole, inv, frame, inst);
    let effect = cell_effect(&site, &predecoded.short)?;
    let next = predecoded.next;
    Some(CellStep { effect, word, next })
}

/// The event of what a predecoded instruction does.
#[inline(always)]
fn happening_of(m: &Runnable, inv: u32, word: u32, effect: &CellEffect) -> Happening
    ensures { (s : State) → result ≡ spec.happening_of m.now s inv word (full effect.now) }
{
    match effect {
        CellEffect::Gives { .. } => plain(inv, word),
        CellEffect::Sets { root, .. } => written(m.accepted(), inv, word, *root),
    }
}

/// Does what a predecoded instruction does as one event.
#[inline(always)]
pub(crate) fn cell_event(
    m: &Runnable,
    recorded: &mut Recorded,
    inv: u32,
    inst: &Inst,
    step: CellStep,
) -> Did
    requires none { recorded.old.gathered ≡ None }
    requires reached { IsReached m.now recorded.old.state inv inst.now }
    requires step { IsCellStep m.now recorded.old.state inv inst.now step }
    ensures { Made (spec.happening_of m.now recorded.old.state inv inst.now.word (full step.effect)) (spec.apply m.now inv inst.now (full step.effect) recorded.old.state) (effect_weight m.now recorded.old.state inv inst.now (full step.effect)) (Ok result) recorded.old recorded.new }
{
    let happening = happening_of(m, inv, step.word, &step.effect);
    let next = step.next;
    match step.effect {
        CellEffect::Gives { slot, value } => {
            recorded.set_cell(happening, &slot, value, next);
            Did::Moved(happening)
        }
        CellEffect::Sets { root, value } => {
            recorded.store_cell(happening, root, value, next);
            Did::Moved(happening)
        }
    }
}
