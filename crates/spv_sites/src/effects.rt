//! What an instruction does to a world, before any of it is done.

use crate::targets::Target;
use spv_base::{Cell, Pointer};
use spv_frame::Frame;
use spv_mem::Locals;
use spv_values::Row;

/// A value or a pointer.
#[derive(Drop)]
pub enum Taken {
    Value(Row),
    Pointer(Pointer),
}

/// What a phi takes.
#[derive(Drop)]
pub struct PhiValue {
    pub id: u32,
    pub value: Taken,
}

/// A frame that a call makes, with its variables.
#[derive(Drop)]
pub struct Entered {
    pub frame: Frame,
    pub locals: Locals,
}

/// Where control goes.
#[derive(Drop)]
pub enum Control {
    /// To the next executable of the block.
    Next,
    /// To a block of the function, whose phis all take their values at once.
    Jump { block: u32, phis: Vec<PhiValue> },
    /// Into a function: a frame with its variables, above the one that calls. It is boxed, so that an effect is small.
    Enter(Box<Entered>),
    /// Out of the function, with what it gives to the call.
    Leave(Gain),
    /// Nowhere: the invocation waits at the barrier.
    Wait,
}

/// What the register of an instruction takes.
#[derive(Drop)]
pub enum Gain {
    Nothing,
    /// The value in the row at hand.
    Row,
    /// A pointer, boxed as a new frame is.
    Pointer(Box<Pointer>),
    /// The scalar that the store hands back.
    Handed(Cell),
}

/// What an instruction does. A value that it stores, that its register takes or that its function gives lies in a row beside it.
#[derive(Drop)]
pub struct Effect {
    /// Where memory is set.
    pub store: Option<Target>,
    pub gain: Gain,
    pub control: Control,
}

/// An effect is moved twice an event.
const _: () = prove!(size_of::<Effect>() <= 96);
