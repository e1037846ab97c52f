//! Operands that were found.
ghost use Rattle.std.specs.Prelude.{◌≡◌, option_map};
ghost use Rattle.spv_operands.specs.Operands.{IsPlain, data_of, pointer_of, referred, shown};

use crate::trees::of_variable;
use spv_base::{Pointer, Root};
use spv_mem::Variable;
use spv_values::Part;
use std::alloc::Global;

/// What an operand stands for, and where it lies.
#[derive(Drop)]
pub enum Operand<'a> {
    /// A value, lent: that of a constant, or what a register holds.
    Value(Part<'a>),
    /// The undefined value of an OpUndef outside functions. It is boxed, so that an operand is small.
    Undefined(Box<Variable>),
    /// The pointer to a whole variable.
    Variable(Root),
    /// The pointer that a register holds, lent.
    Pointer(&'a Pointer),
}

/// A pointer that is lent, or one that was made.
#[derive(Drop)]
pub enum Reference<'a> {
    Lent(&'a Pointer),
    Made(Pointer),
}

impl<'a> Reference<'a> {
    /// The pointer.
    pub fn pointer(&self) -> &Pointer
        ensures { result.now ≡ referred self.now }
    {
        match self {
            Reference::Lent(pointer) => pointer,
            Reference::Made(pointer) => pointer,
        }
    }
}

/// The value of a variable, lent.
fn part_of(variable: &Variable) -> Part<'_>
    ensures { result ≡ variable.now }
{
    Part::with_tree(variable.cells(), of_variable(variable))
}

impl<'a> Operand<'a> {
    /// The value, where it is no pointer. It takes no memory.
    pub fn part(&self) -> Option<Part<'_>>
        ensures { IsPlain self.now → result ≡ data_of (shown self.now) }
    {
        match self {
            Operand::Value(part) => Some(part.again()),
            Operand::Undefined(variable) => Some(part_of(variable)),
            Operand::Variable(_) | Operand::Pointer(_) => None,
        }
    }

    /// The pointer, where it is one. It takes no memory.
    pub fn pointer(&self, alloc: Global) -> Option<Reference<'_>>
        ensures { IsPlain self.now → option_map referred result ≡ pointer_of (shown self.now) }
    {
        match self {
            Operand::Value(_) | Operand::Undefined(_) => None,
            Operand::Variable(root) => Some(Reference::Made(Pointer::whole(alloc, *root))),
            Operand::Pointer(pointer) => Some(Reference::Lent(pointer)),
        }
    }
}
