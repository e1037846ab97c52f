//! Instructions, as words and as operands (SPIR-V 1.6 section 2.3).
use crate::lists::Items;

/// One operand of an instruction: an id, a literal word, or the bytes of a string.
#[derive(Drop)]
pub enum Operand {
    Id(u32),
    Lit(u32),
    Text(Items<u8>),
}

/// An instruction as words: the number of its first word, its opcode, and the words after the first.
#[derive(Drop)]
pub struct RawInst {
    pub word: u32,
    pub op: u16,
    pub rest: Items<u32>,
}

/// An instruction: the number of its first word, its opcode, its result type and result id
/// (0 where it has none), and its other operands.
#[derive(Drop)]
pub struct Inst {
    pub word: u32,
    pub op: u16,
    pub ty: u32,
    pub id: u32,
    pub operands: Items<Operand>,
}
