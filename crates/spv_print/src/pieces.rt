//! The pieces of texts.
ghost use Rattle.std.specs.Prelude.{◌≡◌, ◌++◌, ◌<◌, ◌^◌, OnOk};
ghost use Rattle.spv_print.specs.Enums.{enum_text};
ghost use Rattle.spv_print.specs.Leaves as leaves;
ghost use Rattle.spv_print.specs.Numbers.{basic_text};
ghost use Rattle.spv_print.specs.Pieces as spec;

use crate::enums::push_enum;
use crate::leaves::{Leaf, Reading};
use crate::numbers::push_basic;
use spv_base::NoMemory;
use spv_dbg::{Bit, DebugTables};
use spv_parts::name_of;
use spv_source::push_shown;
use std::alloc::Global;

/// A piece of the text of a value.
#[derive(Clone, Copy)]
pub enum Piece {
    OpenList,
    CloseList,
    OpenStruct,
    CloseStruct,
    /// What stands between two elements or members.
    Separator,
    /// What stands in place of elements that aren't written.
    Rest,
    /// The name of the TypeMember with an id, and what stands behind it.
    Name(u32),
    /// The number of a TypeBasic.
    Basic(Leaf),
    /// The number of a TypeBasic by the pairs of the TypeEnum with an id.
    Enum(Leaf, u32),
    /// A value of a type whose values aren't shown.
    Unavailable,
}

const UNAVAILABLE: &[u8] = b"<unavailable>";

const UNDEFINED: &[u8] = b"<undefined>";

/// What texts are written of: the tables of a module, and the bits of a value.
#[derive(Clone, Copy)]
pub(crate) struct Source<'a> {
    pub(crate) alloc: Global,
    pub(crate) tables: &'a DebugTables,
    pub(crate) bits: &'a [Bit],
}

impl<'a> Source<'a> {
    /// Appends the name of a TypeMember and what stands behind it.
    fn push_name(&self, text: &mut Vec<u8>, member: u32) -> Result<(), NoMemory>
        ensures { OnOk result (text.new.items ≡ text.old.items ++ spec.name_text self.now.tables.now member) }
    {
        push_shown(text, name_of(self.tables, member))?;
        text.extend_from_slice(b" = ")?;
        Ok(())
    }

    /// Appends the number of a TypeBasic.
    fn push_basic(&self, text: &mut Vec<u8>, leaf: Leaf) -> Result<(), NoMemory>
        ensures { OnOk result (text.new.items ≡ text.old.items ++ leaves.leaf_text (basic_text leaf) (leaves.reading (leaves.bits_in self.now.bits.now) leaf)) }
    {
        match leaf.reading(self.bits) {
            Reading::Number(number) => push_basic(self.alloc, text, leaf, number),
            Reading::Undefined => Ok(text.extend_from_slice(UNDEFINED)?),
            Reading::Unavailable => Ok(text.extend_from_slice(UNAVAILABLE)?),
        }
    }

    /// Appends the number of a TypeBasic by the pairs of a TypeEnum.
    fn push_enum(&self, text: &mut Vec<u8>, leaf: Leaf, ty: u32) -> Result<(), NoMemory>
        ensures { OnOk result (text.new.items ≡ text.old.items ++ leaves.leaf_text (enum_text self.now.tables.now ty leaf) (leaves.reading (leaves.bits_in self.now.bits.now) leaf)) }
    {
        match leaf.reading(self.bits) {
            Reading::Number(number) => push_enum(self.alloc, self.tables, text, ty, leaf, number),
            Reading::Undefined => Ok(text.extend_from_slice(UNDEFINED)?),
            Reading::Unavailable => Ok(text.extend_from_slice(UNAVAILABLE)?),
        }
    }

    /// Appends a piece.
    fn push(&self, text: &mut Vec<u8>, piece: Piece) -> Result<(), NoMemory>
        ensures { OnOk result (text.new.items ≡ text.old.items ++ spec.piece_text self.now.tables.now (leaves.bits_in self.now.bits.now) piece) }
    {
        match piece {
            Piece::OpenList => Ok(text.extend_from_slice(b"[")?),
            Piece::CloseList => Ok(text.extend_from_slice(b"]")?),
            Piece::OpenStruct => Ok(text.extend_from_slice(b"{")?),
            Piece::CloseStruct => Ok(text.extend_from_slice(b"}")?),
            Piece::Separator => Ok(text.extend_from_slice(b", ")?),
            Piece::Rest => Ok(text.extend_from_slice(b"...")?),
            Piece::Name(member) => self.push_name(text, member),
            Piece::Basic(leaf) => self.push_basic(text, leaf),
            Piece::Enum(leaf, ty) => self.push_enum(text, leaf, ty),
            Piece::Unavailable => Ok(text.extend_from_slice(UNAVAILABLE)?),
        }
    }

    /// Appends some pieces.
    pub(crate) fn push_all(&self, text: &mut Vec<u8>, pieces: &[Piece]) -> Result<(), NoMemory>
        ensures { OnOk result (text.new.items ≡ text.old.items ++ spec.text_of self.now.tables.now (leaves.bits_in self.now.bits.now) pieces.now) }
    {
        for piece in pieces {
            self.push(text, *piece)?;
        }
        Ok(())
    }
}

impl Piece {
    /// How many bits of a value can be read for it, from the first bit on.
    pub(crate) fn end(self) -> u64
        requires { spec.piece_end self < 2 ^ 64 }
        ensures { result ≡ spec.piece_end self }
    {
        match self {
            Piece::Basic(leaf) => leaf.end(),
            Piece::Enum(leaf, _) => leaf.end(),
            _ => 0,
        }
    }
}
