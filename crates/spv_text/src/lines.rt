//! The lines of a listing.
use spv_base::{Items, Operand, Text};

/// A part of a line, after the name of the opcode.
#[derive(Drop)]
pub enum Part {
    /// The result type: `type=%` and its id.
    ResultType(u32),
    /// The result id: `id=%` and the id.
    ResultId(u32),
    /// An operand: `%` and an id, a number, or a string in quotes.
    Operand(Operand),
}

/// A line: the number of the instruction's first word, the name of its opcode with `Op` before it, and the parts.
#[derive(Drop)]
pub struct Line {
    pub word: u32,
    pub name: Text,
    pub parts: Items<Part>,
}

/// What is wrong with a line of a text that is no listing, in this order.
#[derive(Clone, Copy)]
pub enum Wrong {
    /// No line: it has no LF, or isn't made of a word, a colon, a name and parts.
    NoLine,
    /// The name is no opcode's.
    UnknownName,
    /// The type, the id and the operands aren't of the opcode's grammar.
    WrongOperands,
    /// The instruction has more than 65,535 words, or doesn't stand behind those before.
    Misplaced,
}
