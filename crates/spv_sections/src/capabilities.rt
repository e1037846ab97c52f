//! What a module declares that it needs (SPIR-V 1.6 sections 3.4, 3.5, 3.31 and 3.42.2 to 3.42.4).
ghost use Rattle.std.specs.Prelude.{◌≡◌};
ghost use Rattle.spv_index.specs.Classes.{name_of};
ghost use Rattle.spv_sections.specs.Capabilities as spec;

use spv_base::{Inst, Operand, Refusal};
use spv_index::{Index, literal_operand};
use spv_ops::{addressing_model, capability, memory_model, op};

/// The code of the rules of capabilities, extensions, imports and memory models.
const CAPABILITY_CODE: u8 = 11;

/// The capability of operations on pointers into storage buffers (SPIR-V 1.6 section 3.31).
const VARIABLE_POINTERS_STORAGE_BUFFER: u32 = 4441;

/// The name that an instruction declares.
fn name_of(inst: &Inst) -> &[u8]
    ensures { result.now ≡ name_of inst.now }
{
    match inst.operands.get(0) {
        Some(Operand::Text(name)) => name.as_slice(),
        Some(Operand::Id(_)) => &[],
        Some(Operand::Lit(_)) => &[],
        None => &[],
    }
}

fn is_capability(number: u32) -> bool
    ensures { result ≡ spec.is_capability number }
{
    matches!(
        number,
        capability::MATRIX
            | capability::SHADER
            | capability::INT64
            | capability::INT64_ATOMICS
            | capability::INT16
            | capability::INT8
            | capability::STORAGE_BUFFER16_BIT_ACCESS
            | capability::UNIFORM_AND_STORAGE_BUFFER16_BIT_ACCESS
            | VARIABLE_POINTERS_STORAGE_BUFFER
            | capability::STORAGE_BUFFER8_BIT_ACCESS
            | capability::UNIFORM_AND_STORAGE_BUFFER8_BIT_ACCESS
    )
}

fn is_extension(name: &[u8]) -> bool
    ensures { result ≡ spec.is_extension name.now }
{
    name == b"SPV_KHR_non_semantic_info".as_slice()
        || name == b"SPV_KHR_storage_buffer_storage_class".as_slice()
        || name == b"SPV_KHR_16bit_storage".as_slice()
        || name == b"SPV_KHR_8bit_storage".as_slice()
        || name == b"SPV_KHR_variable_pointers".as_slice()
}

/// Whether a name is of a set of instructions that has a meaning here, or of one with no meaning at run time.
fn is_set(name: &[u8]) -> bool
    ensures { result ≡ spec.is_set name.now }
{
    name == b"GLSL.std.450".as_slice() || name.starts_with(b"NonSemantic.")
}

/// Whether the addressing model is Logical, and the memory model GLSL450.
fn is_memory_model(inst: &Inst) -> bool
    ensures { result ≡ spec.is_memory_model inst.now }
{
    literal_operand(inst, 0) == Some(addressing_model::LOGICAL)
        && literal_operand(inst, 1) == Some(memory_model::GLSL450)
}

/// Whether an instruction declares variable pointers.
fn is_variable_pointers(inst: &Inst) -> bool
    ensures { result ≡ spec.is_variable_pointers inst.now }
{
    inst.op == op::CAPABILITY && literal_operand(inst, 0) == Some(VARIABLE_POINTERS_STORAGE_BUFFER)
}

/// Whether a module declares that it computes with pointers into storage buffers.
#[tactic(auto, unfolding(crate::specs::Capabilities::declares_variable_pointers))]
pub fn declares_variable_pointers(insts: &[Inst]) -> bool
    ensures { result ≡ spec.declares_variable_pointers insts.now }
{
    insts.iter().any(is_variable_pointers)
}

/// Whether an instruction asks for nothing that is not here, in a module that declares variable pointers or doesn't.
fn is_here(pointers: bool, inst: &Inst) -> bool
    ensures { result ≡ spec.is_here pointers inst.now }
{
    match inst.op {
        op::EXTENSION => is_extension(name_of(inst)),
        op::EXT_INST_IMPORT => is_set(name_of(inst)),
        op::MEMORY_MODEL => is_memory_model(inst),
        op::CAPABILITY => match literal_operand(inst, 0) {
            Some(number) => is_capability(number),
            None => false,
        },
        op::PTR_ACCESS_CHAIN | op::PTR_EQUAL | op::PTR_NOT_EQUAL => pointers,
        _ => true,
    }
}

/// Refuses the first instruction that asks for something that is not here.
fn check_all(insts: &[Inst]) -> Result<(), Refusal>
    ensures { result ≡ spec.capabilities_of insts.now }
{
    let pointers = declares_variable_pointers(insts);
    for inst in insts {
        if !is_here(pointers, inst) {
            return Err(Refusal {
                code: CAPABILITY_CODE,
                word: inst.word,
            });
        }
    }
    Ok(())
}

/// Checks what a module declares that it needs.
///
/// Refuses M11: at a capability, an extension, an import or a memory model that is not accepted, and at an operation on
/// pointers in a module that doesn't declare variable pointers.
pub fn check_capabilities(index: &Index) -> Result<(), Refusal>
    ensures { result ≡ spec.capabilities_of index.now.insts }
{
    check_all(index.insts())
}
