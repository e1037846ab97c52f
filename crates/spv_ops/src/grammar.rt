//! What the grammar of an opcode is made of.

/// What stands before the operands: the result type and the result id.
#[derive(Clone, Copy)]
pub enum Head {
    /// Neither.
    Plain,
    /// A result id.
    Result,
    /// A result type and a result id.
    TypedResult,
}

/// A part of a grammar.
#[derive(Clone, Copy)]
pub enum Part {
    /// An id.
    Id,
    /// A literal word.
    Literal,
    /// A string.
    String,
    /// The instruction may end here: what follows is optional.
    MayEnd,
    /// A mask of Volatile 1, Aligned 2 and Nontemporal 4, with a literal, the alignment, after Aligned.
    MemoryOperands,
}

/// What stands after the parts of a grammar, up to the end of the instruction.
#[derive(Clone, Copy)]
pub enum Rest {
    /// Nothing.
    Nothing,
    /// Any number of ids.
    Ids,
    /// Any number of literals.
    Literals,
    /// Any number of pairs of ids.
    IdPairs,
    /// A loop control mask, and a literal for each of its bits that has one.
    LoopControl,
    /// A decoration and its literals.
    Decoration,
    /// An execution mode and its literals.
    ExecutionMode,
    /// An execution mode and its ids.
    ExecutionModeIds,
}

/// An opcode: its number, its name without the `Op` before it, what stands before its operands, the parts of its grammar,
/// and what stands after them.
pub type Opcode = (u16, &'static str, Head, &'static [Part], Rest);
