//! What the ids of a module stand for.
ghost use Rattle.std.specs.Prelude.{◌≡◌, unwrap_or};
ghost use Rattle.spv_base.specs.Entries.{reads};
ghost use Rattle.spv_valid.specs.Meanings as spec;

use spv_base::Inst;
use spv_index::Index;
use spv_index::positions::Standing;
use spv_ops::op;

/// What an id stands for.
#[derive(Clone, Copy)]
pub enum Meaning {
    /// A type.
    TypeDefinition,
    /// A constant, which has a row in the constants.
    Constant,
    /// An undefined value of a type, outside functions.
    Undefined(u32),
    /// A variable outside functions.
    ModuleVariable,
    /// A variable of the function with an id.
    Variable(u32),
    /// A register of the function with an id: the result of an instruction in a block, or a parameter.
    Register(u32),
    /// The label of a block of the function with an id.
    Label(u32),
    /// A function.
    Function,
    /// A string, or an imported set of instructions.
    Other,
}

/// What a result with a type stands for outside functions, by its opcode.
fn outside(op: u16, ty: u32) -> Meaning
    ensures { result ≡ unwrap_or (reads op (spec.outside_meanings ty)) Meaning.Other }
{
    match op {
        op::UNDEF => Meaning::Undefined(ty),
        op::TYPE_VOID
        | op::TYPE_BOOL
        | op::TYPE_INT
        | op::TYPE_VECTOR
        | op::TYPE_ARRAY
        | op::TYPE_RUNTIME_ARRAY
        | op::TYPE_STRUCT
        | op::TYPE_POINTER
        | op::TYPE_FUNCTION => Meaning::TypeDefinition,
        op::CONSTANT_TRUE
        | op::CONSTANT_FALSE
        | op::CONSTANT
        | op::CONSTANT_COMPOSITE
        | op::CONSTANT_NULL
        | op::SPEC_CONSTANT_TRUE
        | op::SPEC_CONSTANT_FALSE
        | op::SPEC_CONSTANT
        | op::SPEC_CONSTANT_COMPOSITE
        | op::SPEC_CONSTANT_OP => Meaning::Constant,
        op::FUNCTION => Meaning::Function,
        op::VARIABLE => Meaning::ModuleVariable,
        _ => Meaning::Other,
    }
}

/// What a result stands for in a function, by its opcode.
fn inside(op: u16, function: u32) -> Meaning
    ensures { result ≡ unwrap_or (reads op (spec.inside_meanings function)) (Meaning.Register function) }
{
    match op {
        op::VARIABLE => Meaning::Variable(function),
        op::LABEL => Meaning::Label(function),
        _ => Meaning::Register(function),
    }
}

/// What the result of an instruction that stands somewhere stands for.
fn meaning_at(standing: Standing, inst: &Inst) -> Meaning
    ensures { result ≡ spec.meaning_at (record { position = standing.position; class = standing.class; inst = inst.now }) }
{
    let position = standing.position;
    if position.stage.in_function() {
        inside(inst.op, position.function)
    } else {
        outside(inst.op, inst.ty)
    }
}

/// What an id stands for, where an instruction defines it.
#[tactic(auto, using(crate::proofs::MeaningLemmas::unplaced, crate::proofs::MeaningLemmas::undefined, crate::proofs::MeaningLemmas::meant))]
pub fn meaning_of(index: &Index, id: u32) -> Option<Meaning>
    ensures { result ≡ spec.meaning_of index.now.insts id }
{
    let standing = index.standing(id)?;
    let inst = index.defining(id)?;
    Some(meaning_at(standing, inst))
}
