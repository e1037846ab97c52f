//! The kinds of ids, and which kinds the ids in an instruction's operands are of (SPIR-V 1.6 sections 2.2.1 and 3.42).
ghost use Rattle.std.specs.Prelude.{◌≡◌};
ghost use Rattle.spv_sections.specs.Kinds as spec;

use spv_ops::op;

/// What an id stands for.
#[derive(Clone, Copy)]
pub enum Kind {
    DeclaredType,
    Constant,
    ModuleVariable,
    Function,
    Label,
    /// A parameter, or any other result: a variable in a function and an undefined value too.
    Computed,
    String,
    Import,
}

/// What the id in an operand has to stand for.
#[derive(Clone, Copy)]
pub enum Wanted {
    DeclaredType,
    /// A constant, a variable, a parameter or another result.
    Value,
    Function,
    Label,
    /// An imported set of instructions.
    Set,
    /// The name of a file, a string.
    File,
    /// A variable of the module.
    Interface,
    /// Anything, or nothing: such an id may be one that nothing defines.
    Anything,
}

/// What the ids in the operands of an instruction have to stand for, in their order.
#[derive(Clone, Copy)]
pub enum Uses {
    /// Each of them.
    Each(Wanted),
    /// The first of them, and each of the others.
    First(Wanted, Wanted),
    /// By turns.
    Turns(Wanted, Wanted),
}

impl Kind {
    /// What the result of an instruction is, by its opcode and whether it stands in a function.
    pub fn of(local: bool, op: u16) -> Kind
        ensures { result ≡ spec.kind_of local op }
    {
        match op {
            op::STRING => Kind::String,
            op::EXT_INST_IMPORT => Kind::Import,
            op::TYPE_VOID
            | op::TYPE_BOOL
            | op::TYPE_INT
            | op::TYPE_VECTOR
            | op::TYPE_ARRAY
            | op::TYPE_RUNTIME_ARRAY
            | op::TYPE_STRUCT
            | op::TYPE_POINTER
            | op::TYPE_FUNCTION => Kind::DeclaredType,
            op::CONSTANT_TRUE
            | op::CONSTANT_FALSE
            | op::CONSTANT
            | op::CONSTANT_COMPOSITE
            | op::CONSTANT_NULL
            | op::SPEC_CONSTANT_TRUE
            | op::SPEC_CONSTANT_FALSE
            | op::SPEC_CONSTANT
            | op::SPEC_CONSTANT_COMPOSITE
            | op::SPEC_CONSTANT_OP => Kind::Constant,
            op::FUNCTION => Kind::Function,
            op::VARIABLE => if local {
                Kind::Computed
            } else {
                Kind::ModuleVariable
            },
            op::LABEL => Kind::Label,
            _ => Kind::Computed,
        }
    }

    /// Whether a value operand may name it.
    fn is_value(self) -> bool
        ensures { result ≡ spec.is_value self }
    {
        matches!(self, Kind::Constant | Kind::ModuleVariable | Kind::Computed)
    }
}

impl Wanted {
    /// Whether an id may be one that nothing defines.
    pub fn is_anything(self) -> bool
        ensures { result ≡ spec.is_anything self }
    {
        matches!(self, Wanted::Anything)
    }

    /// Whether an id of some kind stands for what is wanted.
    pub fn fits(self, kind: Kind) -> bool
        ensures { result ≡ spec.fits self kind }
    {
        match self {
            Wanted::DeclaredType => matches!(kind, Kind::DeclaredType),
            Wanted::Value => kind.is_value(),
            Wanted::Function => matches!(kind, Kind::Function),
            Wanted::Label => matches!(kind, Kind::Label),
            Wanted::Set => matches!(kind, Kind::Import),
            Wanted::File => matches!(kind, Kind::String),
            Wanted::Interface => matches!(kind, Kind::ModuleVariable),
            Wanted::Anything => true,
        }
    }
}

impl Uses {
    /// The ids in the operands of an opcode.
    pub fn of(op: u16) -> Uses
        ensures { result ≡ spec.uses_of op }
    {
        match op {
            op::SOURCE | op::LINE => Uses::Each(Wanted::File),
            op::NAME | op::MEMBER_NAME | op::DECORATE | op::MEMBER_DECORATE => Uses::Each(
                Wanted::Anything,
            ),
            op::EXT_INST => Uses::First(Wanted::Set, Wanted::Value),
            op::ENTRY_POINT => Uses::First(Wanted::Function, Wanted::Interface),
            op::EXECUTION_MODE => Uses::Each(Wanted::Function),
            op::TYPE_VECTOR
            | op::TYPE_RUNTIME_ARRAY
            | op::TYPE_STRUCT
            | op::TYPE_POINTER
            | op::TYPE_FUNCTION
            | op::FUNCTION => Uses::Each(Wanted::DeclaredType),
            op::TYPE_ARRAY => Uses::First(Wanted::DeclaredType, Wanted::Value),
            op::FUNCTION_CALL | op::EXECUTION_MODE_ID => Uses::First(
                Wanted::Function,
                Wanted::Value,
            ),
            op::PHI => Uses::Turns(Wanted::Value, Wanted::Label),
            op::LOOP_MERGE | op::SELECTION_MERGE | op::BRANCH => Uses::Each(Wanted::Label),
            op::BRANCH_CONDITIONAL | op::SWITCH => Uses::First(Wanted::Value, Wanted::Label),
            _ => Uses::Each(Wanted::Value),
        }
    }

    /// What the id with this number among the ids of the operands has to stand for.
    pub fn wanted(self, number: usize) -> Wanted
        ensures { result ≡ spec.wanted self number }
    {
        match self {
            Uses::Each(each) => each,
            Uses::First(first, other) => if number == 0 { first } else { other },
            Uses::Turns(one, other) => if number % 2 == 0 { one } else { other },
        }
    }
}
