//! What registers hold, and what phis and calls put there.
use crate::slots::Slot;
use spv_base::Pointer;
use spv_values::{Part, Row};

/// What a register of a value holds: cells, and a mark whether they are its value.
#[derive(Drop)]
pub struct Content {
    pub row: Row,
    pub has: bool,
}

/// What a phi takes: what a register of its frame holds, or a value that lies elsewhere, as a constant.
#[derive(Drop)]
pub enum Source<'a> {
    Register(&'a Slot),
    Value(Part<'a>),
}

/// What a parameter begins with: a value or a pointer.
#[derive(Drop)]
pub enum Argument<'a> {
    Value(Part<'a>),
    Pointer(&'a Pointer),
}
