//! Entries: what one primitive change of a state was before.
ghost use Rattle.std.specs.Prelude.{◌≡◌, ◌≤◌};
ghost use Rattle.spv_undo.specs.Entries.{count_of, variable_item};

use crate::undoing::no_path;
use spv_base::{Ghost, Path, Pointer, Root};
use spv_frame::Frame;
use spv_mem::Locals;
use spv_statuses::Status;
use spv_values::{Row, Single};

/// A part of a variable as it was, and where it lies.
#[derive(Drop)]
pub struct OldPart {
    pub place: Pointer,
    pub row: Row,
}

/// The value that a register had, by the number of the register in the plan of its frame.
#[derive(Drop)]
pub struct OldValue {
    pub number: usize,
    pub row: Row,
}

/// A frame that was left, with its variables.
#[derive(Drop)]
pub struct OldFrame {
    pub frame: Frame,
    pub locals: Locals,
}

/// What one primitive change was before. Registers are those of the top frame of the invocation whose event it is, by their numbers in
/// the frame's plan. An entry of one cell takes no memory beside its own.
#[derive(Drop)]
pub enum Entry {
    /// A leaf of a variable had a value: which variable, and how many leaves lie before this one. The path leads to it.
    Leaf {
        root: Root,
        leaf: u32,
        path: Ghost<Path>,
        value: Single,
    },
    /// A part of a variable that isn't one leaf had a value.
    Part(Box<OldPart>),
    /// A register had no value.
    NoValue(usize),
    /// A register of one cell had a value.
    CellRegister {
        number: usize,
        value: Single,
    },
    /// A register of another number of cells had a value.
    RowRegister(Box<OldValue>),
    /// A register had a pointer or none.
    PointerRegister {
        number: usize,
        held: Option<Box<Pointer>>,
    },
    /// A frame became the top one.
    FramePushed,
    /// The top frame was left.
    FramePopped(Box<OldFrame>),
    /// The top frame stood at an instruction.
    PcMoved(u32),
    /// The top frame passed a debug event.
    EventAppended,
    /// The invocation had a status.
    StatusChanged(Status),
    /// The barrier at a word opened.
    BarrierOpened(u32),
}

impl Entry {
    /// How much it counts, so that what a journal keeps is bounded: as many as the leaves that it puts back.
    pub fn count(&self) -> usize
        ensures count { result ≡ count_of self.now }
        ensures some { 1 ≤ result }
    {
        match self {
            Entry::Part(part) => part.row.len().max(1),
            _ => 1,
        }
    }
}

/// The entry of a whole variable of one cell, by the value that it had.
#[inline(always)]
pub fn variable_entry(root: Root, value: Single) -> Entry
    ensures { result ≡ variable_item root value }
{
    Entry::Leaf {
        root,
        leaf: 0,
        path: no_path(),
        value,
    }
}
