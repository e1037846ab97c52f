//! The kinds of debug instructions, a row each: the tables of `specs/Kinds.antt`, which these are proved to be.
ghost use Rattle.std.specs.Prelude.{◌≡◌, map};
ghost use Rattle.std.specs.Option.{option_map};
ghost use Rattle.spv_base.specs.Entries.{reads};
ghost use Rattle.spv_dbg.specs.Kinds as spec;
ghost use Rattle.spv_dbg.specs.Marks.{is_one_of};

use crate::kinds::More::{Many, Nothing, Optional, Pairs};
use crate::kinds::Role::{
    Any, DebugType, Expression, InlinedAt, Literal, Local, Operation, Scope, Source, Text, Variable,
};
use spv_ops::debug_info::*;

/// What an operand has to be.
#[derive(Clone, Copy)]
pub enum Role {
    /// It is only counted.
    Any,
    /// A 32-bit integer constant.
    Literal,
    /// An OpString.
    Text,
    /// A type, or InfoNone.
    DebugType,
    /// A compilation unit, composite, function or lexical block, or InfoNone.
    Scope,
    /// A Source.
    Source,
    /// An InlinedAt.
    InlinedAt,
    /// A LocalVariable.
    Local,
    /// A LocalVariable or an InlinedVariable.
    Variable,
    /// An Expression.
    Expression,
    /// An Operation.
    Operation,
}

/// What the operands behind those that are asked for have to be.
#[derive(Clone, Copy)]
pub enum More {
    /// They are not looked at.
    Nothing,
    /// The first one, where it is there.
    Optional(Role),
    /// Each one.
    Many(Role),
    /// Each whole pair.
    Pairs(Role, Role),
}

/// A kind: its number, the operands that it has to have, and what those behind them have to be.
pub(crate) type Kind = (u32, &'static [Role], More);

/// The kinds.
pub(crate) const KINDS: [Kind; 44] = [
    (INFO_NONE, &[], Nothing),
    (COMPILATION_UNIT, &[Any, Any, Any, Any], Nothing),
    (TYPE_BASIC, &[Any, Literal, Literal, Any], Nothing),
    (TYPE_POINTER, &[Any, Any, Any], Nothing),
    (TYPE_QUALIFIER, &[DebugType, Any], Nothing),
    (TYPE_ARRAY, &[DebugType, Literal], Many(Literal)),
    (TYPE_VECTOR, &[DebugType, Literal], Nothing),
    (TYPEDEF, &[Any, DebugType, Any, Any, Any, Any], Nothing),
    (TYPE_FUNCTION, &[Any, Any], Nothing),
    (
        TYPE_ENUM,
        &[Any, DebugType, Any, Any, Any, Any, Any, Any],
        Pairs(Literal, Text),
    ),
    (
        TYPE_COMPOSITE,
        &[Any, Any, Any, Any, Any, Scope, Any, Any, Any],
        Nothing,
    ),
    (
        TYPE_MEMBER,
        &[Text, DebugType, Any, Any, Any, Any, Any, Any],
        Nothing,
    ),
    (TYPE_INHERITANCE, &[], Nothing),
    (TYPE_PTR_TO_MEMBER, &[], Nothing),
    (TYPE_TEMPLATE, &[], Nothing),
    (TYPE_TEMPLATE_PARAMETER, &[], Nothing),
    (TYPE_TEMPLATE_TEMPLATE_PARAMETER, &[], Nothing),
    (TYPE_TEMPLATE_PARAMETER_PACK, &[], Nothing),
    (
        GLOBAL_VARIABLE,
        &[Text, DebugType, Any, Any, Any, Any, Any, Any, Any],
        Nothing,
    ),
    (FUNCTION_DECLARATION, &[], Nothing),
    (
        FUNCTION,
        &[Text, Any, Source, Any, Any, Any, Any, Any, Any],
        Nothing,
    ),
    (LEXICAL_BLOCK, &[Source, Any, Any, Scope], Nothing),
    (LEXICAL_BLOCK_DISCRIMINATOR, &[Any, Any, Scope], Nothing),
    (SCOPE, &[Scope], Optional(InlinedAt)),
    (NO_SCOPE, &[], Nothing),
    (INLINED_AT, &[Literal, Scope], Optional(InlinedAt)),
    (
        LOCAL_VARIABLE,
        &[Text, DebugType, Any, Any, Any, Scope, Any],
        Nothing,
    ),
    (INLINED_VARIABLE, &[Local, InlinedAt], Nothing),
    (DECLARE, &[Variable, Any, Expression], Many(Literal)),
    (VALUE, &[Variable, Any, Expression], Many(Literal)),
    (OPERATION, &[Literal], Nothing),
    (EXPRESSION, &[], Many(Operation)),
    (MACRO_DEF, &[], Nothing),
    (MACRO_UNDEF, &[], Nothing),
    (IMPORTED_ENTITY, &[], Nothing),
    (SOURCE, &[Text], Optional(Text)),
    (FUNCTION_DEFINITION, &[Any, Any], Nothing),
    (SOURCE_CONTINUED, &[Text], Nothing),
    (LINE, &[Source, Literal, Any, Any, Any], Nothing),
    (NO_LINE, &[], Nothing),
    (BUILD_IDENTIFIER, &[], Nothing),
    (STORAGE_PATH, &[], Nothing),
    (ENTRY_POINT, &[], Nothing),
    (TYPE_MATRIX, &[DebugType, Literal, Any], Nothing),
];

/// An operation: its OpCode, and the operands that stand behind it, no more and no less.
pub(crate) type Code = (u32, &'static [Role]);

/// Deref, Plus, Minus, PlusUconst, BitPiece, Swap, Xderef, StackValue, Constu and Fragment.
pub(crate) const OPERATIONS: [Code; 10] = [
    (0, &[]),
    (1, &[]),
    (2, &[]),
    (3, &[Literal]),
    (4, &[Any, Any]),
    (5, &[]),
    (6, &[]),
    (7, &[]),
    (8, &[Literal]),
    (FRAGMENT, &[Literal, Literal]),
];

/// The OpCode of a Fragment.
pub(crate) const FRAGMENT: u32 = 9;

fn kind_in(mut table: &'static [Kind], number: u32) -> Option<(&'static [Role], More)>
    ensures { option_map (λ o. (o.0.now, o.1)) result ≡ spec.kind_with number (map (λ o. (o.0, (o.1.now, o.2))) table.entry.now) }
{
    while let [kind, more @ ..] = table {
        if kind.0 == number {
            return Some((kind.1, kind.2));
        }
        table = more;
    }
    None
}

/// What the operands of a kind have to be.
pub(crate) fn kind_of(number: u32) -> Option<(&'static [Role], More)>
    ensures { option_map (λ o. (o.0.now, o.1)) result ≡ spec.kind_with number spec.kinds }
{
    kind_in(&KINDS, number)
}

fn code_in(mut table: &'static [Code], opcode: u32) -> Option<&'static [Role]>
    ensures { option_map (λ o. o.now) result ≡ reads opcode (map (λ o. (o.0, o.1.now)) table.entry.now) }
{
    while let [code, more @ ..] = table {
        if code.0 == opcode {
            return Some(code.1);
        }
        table = more;
    }
    None
}

/// What stands behind the OpCode of an Operation.
pub(crate) fn operands_of(opcode: u32) -> Option<&'static [Role]>
    ensures { option_map (λ o. o.now) result ≡ reads opcode spec.operations }
{
    code_in(&OPERATIONS, opcode)
}

/// Whether an instruction has a meaning in blocks alone.
pub(crate) fn is_in_blocks_alone(number: u32) -> bool
    ensures { result ≡ is_one_of spec.in_blocks_alone number }
{
    matches!(number, SCOPE | NO_SCOPE | DECLARE | VALUE | LINE | NO_LINE)
}

fn is_type(number: u32) -> bool
    ensures { result ≡ is_one_of (spec.numbers_for Role.DebugType) number }
{
    matches!(
        number,
        INFO_NONE
            | TYPE_BASIC
            | TYPE_POINTER
            | TYPE_QUALIFIER
            | TYPE_ARRAY
            | TYPE_VECTOR
            | TYPEDEF
            | TYPE_FUNCTION
            | TYPE_ENUM
            | TYPE_COMPOSITE
            | TYPE_MATRIX
    )
}

fn is_scope(number: u32) -> bool
    ensures { result ≡ is_one_of (spec.numbers_for Role.Scope) number }
{
    matches!(
        number,
        INFO_NONE
            | COMPILATION_UNIT
            | TYPE_COMPOSITE
            | FUNCTION
            | LEXICAL_BLOCK
            | LEXICAL_BLOCK_DISCRIMINATOR
    )
}

impl Role {
    /// Whether an operand of this role may name a debug instruction with a number.
    pub(crate) fn takes(self, number: u32) -> bool
        ensures { result ≡ is_one_of (spec.numbers_for self) number }
    {
        match self {
            Role::Any | Role::Literal | Role::Text => false,
            Role::DebugType => is_type(number),
            Role::Scope => is_scope(number),
            Role::Source => number == SOURCE,
            Role::InlinedAt => number == INLINED_AT,
            Role::Local => number == LOCAL_VARIABLE,
            Role::Variable => number == LOCAL_VARIABLE || number == INLINED_VARIABLE,
            Role::Expression => number == EXPRESSION,
            Role::Operation => number == OPERATION,
        }
    }
}
