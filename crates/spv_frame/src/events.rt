//! Debug events that a frame passed, each with the value that it captured.
ghost use Rattle.std.specs.Prelude.{◌≡◌, IfOk};
ghost use Rattle.spv_frame.specs.Events.{IsPlain, seen};

use spv_base::{NoMemory, Pointer};
use spv_values::Row;
use std::alloc::Global;
use std::marker::Model;

/// What a debug event captured: the value of an id, if it had one.
#[derive(Drop)]
pub enum Captured {
    Nothing,
    /// A value that is no pointer.
    Data(Row),
    Pointer(Pointer),
}

/// A debug event that was passed: the word number of its instruction, and what it captured.
#[derive(Drop)]
pub struct DebugEvent {
    word: u32,
    captured: Captured,
}

impl Model for DebugEvent {
    ghost use Rattle.std.specs.Coded.{codes};
    ghost use Rattle.spv_base.specs.contracts.values.Value as value;
    ghost use Rattle.spv_base.specs.declared.values.PassedEvent.{PassedEvent};
    ghost use Rattle.spv_frame.specs.Events.{IsPlain, seen};

    ghost Value = { PassedEvent };

    ghost coded = { Prim.hlevel (codes, value.the_row.coded) };

    ghost view = { λ e. record { word = e.word; value = seen e.captured } };

    ghost invariant = { λ e. ∥ IsPlain e.captured ∥₁ };
}

impl DebugEvent {
    /// The event of the instruction at a word.
    pub fn new(word: u32, captured: Captured) -> DebugEvent
        requires { ∥ IsPlain captured ∥₁ }
        ensures { result ≡ record { word = word; value = seen captured } }
    {
        DebugEvent { word, captured }
    }

    /// The word number of its instruction.
    pub fn word(&self) -> u32
        ensures { result ≡ self.now.word }
    {
        self.word
    }

    /// What it captured.
    pub fn captured(&self) -> &Captured
        ensures captured { seen result.now ≡ self.now.value }
        ensures plain { ∥ IsPlain result.now ∥₁ }
    {
        &self.captured
    }

    /// An equal event.
    pub fn copy(&self, alloc: Global) -> Result<DebugEvent, NoMemory>
        ensures { IfOk result (λ event. event ≡ self.now) }
    {
        Ok(DebugEvent {
            word: self.word,
            captured: copied(alloc, &self.captured)?,
        })
    }
}

/// The same that was captured.
fn copied(alloc: Global, captured: &Captured) -> Result<Captured, NoMemory>
    requires { ∥ IsPlain captured.now ∥₁ }
    ensures captured { IfOk result (λ copy. seen copy ≡ seen captured.now) }
    ensures plain { IfOk result (λ copy. ∥ IsPlain copy ∥₁) }
{
    Ok(match captured {
        Captured::Nothing => Captured::Nothing,
        Captured::Data(row) => Captured::Data(Row::of_part(alloc, &row.as_part())?),
        Captured::Pointer(pointer) => Captured::Pointer(pointer.copy(alloc)?),
    })
}
