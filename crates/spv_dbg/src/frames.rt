//! What is shown of a debugged program: a frame, and a bit of a value.
use spv_base::Bytes;

/// A frame as it is shown: the depth and the id of the function of the real frame, the debug scope, the InlinedAt, the
/// names of function and file, the line, and the word of the real frame's next instruction. What is missing is 0 or empty.
#[derive(Drop)]
pub struct ShownFrame {
    pub depth: u32,
    pub function: u32,
    pub scope: u32,
    pub inlined: u32,
    pub name: Bytes,
    pub file: Bytes,
    pub line: u32,
    pub word: u32,
}

/// A bit of a shown value: whether the value has it, whether it is defined, and whether it is one.
#[derive(Clone, Copy)]
pub struct Bit {
    pub bound: bool,
    pub defined: bool,
    pub one: bool,
}
