//! Which rule the types of an operation's operands and result keep, by its opcode.
ghost use Rattle.std.specs.Prelude.{◌≡◌};
ghost use Rattle.spv_typing.specs.Rules as spec;

use spv_ops::op;

/// How the types of the operands and of the result belong together.
#[derive(Clone, Copy)]
pub enum Rule {
    /// An integer of any width gives an integer.
    Convert,
    /// Integers give integers with as many bits together.
    Bitcast,
    /// An integer gives an integer of its width.
    Integer,
    /// Two integers give an integer of their width.
    Integers,
    /// Three integers give an integer of their width.
    Clamp,
    /// An integer and an amount of any width give an integer.
    Shift,
    /// A Boolean gives a Boolean.
    Boolean,
    /// Two Booleans give a Boolean.
    Booleans,
    /// A vector of Booleans gives one Boolean.
    Reduce,
    /// Two integers of one width give a Boolean.
    Compare,
    /// Two integers of one type give a struct of two integers of it.
    Extended,
    /// A condition chooses one of two objects.
    Select,
    /// A base, a part to insert, an offset and a number of bits.
    InsertField,
    /// A base, an offset and a number of bits.
    ExtractField,
}

/// The rule of an opcode; none where the table has no such opcode.
#[tactic(auto, unfolding(crate::specs::Rules::rule_of))]
pub fn rule_of(op: u16) -> Option<Rule>
    ensures { result ≡ spec.rule_of op }
{
    match op {
        op::U_CONVERT | op::S_CONVERT => Some(Rule::Convert),
        op::BITCAST => Some(Rule::Bitcast),
        op::S_NEGATE | op::NOT | op::BIT_REVERSE | op::BIT_COUNT => Some(Rule::Integer),
        op::I_ADD
        | op::I_SUB
        | op::I_MUL
        | op::U_DIV
        | op::S_DIV
        | op::U_MOD
        | op::S_REM
        | op::S_MOD
        | op::BITWISE_OR
        | op::BITWISE_XOR
        | op::BITWISE_AND => Some(Rule::Integers),
        op::I_ADD_CARRY | op::I_SUB_BORROW | op::U_MUL_EXTENDED | op::S_MUL_EXTENDED => Some(
            Rule::Extended,
        ),
        op::ANY | op::ALL => Some(Rule::Reduce),
        op::LOGICAL_EQUAL | op::LOGICAL_NOT_EQUAL | op::LOGICAL_OR | op::LOGICAL_AND => Some(
            Rule::Booleans,
        ),
        op::LOGICAL_NOT => Some(Rule::Boolean),
        op::SELECT => Some(Rule::Select),
        op::I_EQUAL
        | op::I_NOT_EQUAL
        | op::U_GREATER_THAN
        | op::S_GREATER_THAN
        | op::U_GREATER_THAN_EQUAL
        | op::S_GREATER_THAN_EQUAL
        | op::U_LESS_THAN
        | op::S_LESS_THAN
        | op::U_LESS_THAN_EQUAL
        | op::S_LESS_THAN_EQUAL => Some(Rule::Compare),
        op::SHIFT_RIGHT_LOGICAL | op::SHIFT_RIGHT_ARITHMETIC | op::SHIFT_LEFT_LOGICAL => Some(
            Rule::Shift,
        ),
        op::BIT_FIELD_INSERT => Some(Rule::InsertField),
        op::BIT_FIELD_S_EXTRACT | op::BIT_FIELD_U_EXTRACT => Some(Rule::ExtractField),
        _ => None,
    }
}

impl Rule {
    /// How many operands there are; not said of the bit fields.
    pub(crate) fn count(self) -> Option<u32>
        ensures { result ≡ spec.rule_count self }
    {
        match self {
            Rule::InsertField | Rule::ExtractField => None,
            Rule::Clamp | Rule::Select => Some(3),
            Rule::Convert | Rule::Bitcast | Rule::Integer | Rule::Boolean | Rule::Reduce => Some(1),
            Rule::Integers | Rule::Shift | Rule::Booleans | Rule::Compare | Rule::Extended => {
                Some(2)
            }
        }
    }

    fn is_constant(self) -> bool
        ensures { result ≡ spec.is_constant_rule self }
    {
        match self {
            Rule::Convert
            | Rule::Integer
            | Rule::Integers
            | Rule::Shift
            | Rule::Boolean
            | Rule::Booleans
            | Rule::Compare
            | Rule::Select => true,
            Rule::Bitcast
            | Rule::Clamp
            | Rule::Reduce
            | Rule::Extended
            | Rule::InsertField
            | Rule::ExtractField => false,
        }
    }
}

/// How many operands a unary or binary operation has, or Select; none for another opcode.
pub fn operand_count(op: u16) -> Option<u32>
    ensures { result ≡ spec.operand_count op }
{
    rule_of(op)?.count()
}

/// Whether OpSpecConstantOp takes an opcode.
pub fn is_constant_operation(op: u16) -> bool
    ensures { result ≡ spec.is_constant_operation op }
{
    match rule_of(op) {
        Some(rule) => rule.is_constant() && !matches!(op, op::BIT_REVERSE | op::BIT_COUNT),
        None => false,
    }
}
