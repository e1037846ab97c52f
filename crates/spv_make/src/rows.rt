//! The instructions of the module, as a table.
ghost use Rattle.std.specs.Prelude.{◌≡◌, ℕ, map};
ghost use Rattle.spv_make.specs.Instructions.{instructions};
ghost use Rattle.spv_make.specs.Rows.{inst_of};

use crate::debug_set;
use crate::ids::*;
use crate::rows::Part::{Id, Literal, Text, Turns};
use spv_ops::{
    addressing_model, built_in, capability, decoration, execution_mode, execution_model,
    memory_model, op, storage_class,
};

/// What stands in the place of an operand.
#[derive(Clone, Copy)]
pub enum Part {
    /// An id.
    Id(u32),
    /// A literal word.
    Literal(u32),
    /// A string.
    Text(&'static str),
    /// The literal word that says how often the loop is gone round.
    Turns,
}

/// An instruction: its opcode, its result type and result id (0 where it has none), and its operands.
pub type Row = (u16, u32, u32, &'static [Part]);

/// The instructions, in their order.
const ROWS: [Row; 89] = [
    (op::CAPABILITY, 0, 0, &[Literal(capability::SHADER)]),
    (op::EXTENSION, 0, 0, &[Text("SPV_KHR_non_semantic_info")]),
    (
        op::EXT_INST_IMPORT,
        0,
        DEBUG_SET,
        &[Text("NonSemantic.Shader.DebugInfo.100")],
    ),
    (
        op::MEMORY_MODEL,
        0,
        0,
        &[
            Literal(addressing_model::LOGICAL),
            Literal(memory_model::GLSL450),
        ],
    ),
    (
        op::ENTRY_POINT,
        0,
        0,
        &[
            Literal(execution_model::GL_COMPUTE),
            Id(MAIN),
            Text("main"),
            Id(INDEX),
            Id(SHARED),
            Id(BUFFER),
        ],
    ),
    (
        op::EXECUTION_MODE,
        0,
        0,
        &[
            Id(MAIN),
            Literal(execution_mode::LOCAL_SIZE),
            Literal(64),
            Literal(1),
            Literal(1),
        ],
    ),
    // strings
    (op::STRING, 0, FILE_NAME, &[Text("make.comp")]),
    (op::STRING, 0, MAIN_NAME, &[Text("main")]),
    (op::STRING, 0, ACC_NAME, &[Text("acc")]),
    (op::STRING, 0, UINT_NAME, &[Text("uint")]),
    // decorations
    (
        op::DECORATE,
        0,
        0,
        &[
            Id(INDEX),
            Literal(decoration::BUILT_IN),
            Literal(built_in::LOCAL_INVOCATION_INDEX),
        ],
    ),
    (
        op::DECORATE,
        0,
        0,
        &[Id(BUFFER_BLOCK), Literal(decoration::BLOCK)],
    ),
    (
        op::MEMBER_DECORATE,
        0,
        0,
        &[
            Id(BUFFER_BLOCK),
            Literal(0),
            Literal(decoration::OFFSET),
            Literal(0),
        ],
    ),
    (
        op::DECORATE,
        0,
        0,
        &[
            Id(BUFFER_ARRAY),
            Literal(decoration::ARRAY_STRIDE),
            Literal(4),
        ],
    ),
    (
        op::DECORATE,
        0,
        0,
        &[Id(BUFFER), Literal(decoration::DESCRIPTOR_SET), Literal(0)],
    ),
    (
        op::DECORATE,
        0,
        0,
        &[Id(BUFFER), Literal(decoration::BINDING), Literal(0)],
    ),
    // types and constants
    (op::TYPE_VOID, 0, VOID, &[]),
    (op::TYPE_FUNCTION, 0, MAIN_TYPE, &[Id(VOID)]),
    (op::TYPE_BOOL, 0, BOOL, &[]),
    (op::TYPE_INT, 0, UINT, &[Literal(32), Literal(0)]),
    (op::CONSTANT, UINT, C0, &[Literal(0)]),
    (op::CONSTANT, UINT, C1, &[Literal(1)]),
    (op::CONSTANT, UINT, C2, &[Literal(2)]),
    (op::CONSTANT, UINT, C3, &[Literal(3)]),
    (op::CONSTANT, UINT, C4, &[Literal(4)]),
    (op::CONSTANT, UINT, C5, &[Literal(5)]),
    (op::CONSTANT, UINT, C6, &[Literal(6)]),
    (op::CONSTANT, UINT, C32, &[Literal(32)]),
    (op::CONSTANT, UINT, C64, &[Literal(64)]),
    (op::CONSTANT, UINT, C264, &[Literal(264)]),
    (op::CONSTANT, UINT, TURNS, &[Turns]),
    (op::TYPE_ARRAY, 0, BUFFER_ARRAY, &[Id(UINT), Id(C64)]),
    (op::TYPE_ARRAY, 0, SHARED_ARRAY, &[Id(UINT), Id(C64)]),
    (op::TYPE_STRUCT, 0, BUFFER_BLOCK, &[Id(BUFFER_ARRAY)]),
    (
        op::TYPE_POINTER,
        0,
        INPUT_POINTER,
        &[Literal(storage_class::INPUT), Id(UINT)],
    ),
    (
        op::TYPE_POINTER,
        0,
        ARRAY_POINTER,
        &[Literal(storage_class::WORKGROUP), Id(SHARED_ARRAY)],
    ),
    (
        op::TYPE_POINTER,
        0,
        SHARED_POINTER,
        &[Literal(storage_class::WORKGROUP), Id(UINT)],
    ),
    (
        op::TYPE_POINTER,
        0,
        BLOCK_POINTER,
        &[Literal(storage_class::STORAGE_BUFFER), Id(BUFFER_BLOCK)],
    ),
    (
        op::TYPE_POINTER,
        0,
        BUFFER_POINTER,
        &[Literal(storage_class::STORAGE_BUFFER), Id(UINT)],
    ),
    // variables
    (
        op::VARIABLE,
        INPUT_POINTER,
        INDEX,
        &[Literal(storage_class::INPUT)],
    ),
    (
        op::VARIABLE,
        ARRAY_POINTER,
        SHARED,
        &[Literal(storage_class::WORKGROUP)],
    ),
    (
        op::VARIABLE,
        BLOCK_POINTER,
        BUFFER,
        &[Literal(storage_class::STORAGE_BUFFER)],
    ),
    // debug records
    (
        op::EXT_INST,
        VOID,
        SOURCE,
        &[Id(DEBUG_SET), Literal(debug_set::SOURCE), Id(FILE_NAME)],
    ),
    (
        op::EXT_INST,
        VOID,
        UNIT,
        &[
            Id(DEBUG_SET),
            Literal(debug_set::COMPILATION_UNIT),
            Id(C1),
            Id(C4),
            Id(SOURCE),
            Id(C2),
        ],
    ),
    (
        op::EXT_INST,
        VOID,
        NOTHING,
        &[Id(DEBUG_SET), Literal(debug_set::INFO_NONE)],
    ),
    (
        op::EXT_INST,
        VOID,
        UINT_RECORD,
        &[
            Id(DEBUG_SET),
            Literal(debug_set::TYPE_BASIC),
            Id(UINT_NAME),
            Id(C32),
            Id(C6),
            Id(C0),
        ],
    ),
    (
        op::EXT_INST,
        VOID,
        TYPE_RECORD,
        &[
            Id(DEBUG_SET),
            Literal(debug_set::TYPE_FUNCTION),
            Id(C0),
            Id(NOTHING),
        ],
    ),
    (
        op::EXT_INST,
        VOID,
        MAIN_RECORD,
        &[
            Id(DEBUG_SET),
            Literal(debug_set::FUNCTION),
            Id(MAIN_NAME),
            Id(TYPE_RECORD),
            Id(SOURCE),
            Id(C1),
            Id(C0),
            Id(UNIT),
            Id(MAIN_NAME),
            Id(C0),
            Id(C1),
        ],
    ),
    (
        op::EXT_INST,
        VOID,
        ACC_RECORD,
        &[
            Id(DEBUG_SET),
            Literal(debug_set::LOCAL_VARIABLE),
            Id(ACC_NAME),
            Id(UINT_RECORD),
            Id(SOURCE),
            Id(C2),
            Id(C0),
            Id(MAIN_RECORD),
            Id(C0),
        ],
    ),
    (
        op::EXT_INST,
        VOID,
        EXPRESSION,
        &[Id(DEBUG_SET), Literal(debug_set::EXPRESSION)],
    ),
    // the function, with the block in which it begins
    (op::FUNCTION, VOID, MAIN, &[Literal(0), Id(MAIN_TYPE)]),
    (op::LABEL, 0, ENTRY, &[]),
    (
        op::EXT_INST,
        VOID,
        42,
        &[
            Id(DEBUG_SET),
            Literal(debug_set::FUNCTION_DEFINITION),
            Id(MAIN_RECORD),
            Id(MAIN),
        ],
    ),
    (
        op::EXT_INST,
        VOID,
        43,
        &[Id(DEBUG_SET), Literal(debug_set::SCOPE), Id(MAIN_RECORD)],
    ),
    (
        op::EXT_INST,
        VOID,
        44,
        &[
            Id(DEBUG_SET),
            Literal(debug_set::LINE),
            Id(SOURCE),
            Id(C1),
            Id(C1),
            Id(C0),
            Id(C0),
        ],
    ),
    (op::LOAD, UINT, OWN, &[Id(INDEX)]),
    (
        op::ACCESS_CHAIN,
        SHARED_POINTER,
        PLACE,
        &[Id(SHARED), Id(OWN)],
    ),
    (op::STORE, 0, 0, &[Id(PLACE), Id(OWN)]),
    (op::BRANCH, 0, 0, &[Id(HEAD)]),
    // the block with which each turn begins
    (op::LABEL, 0, HEAD, &[]),
    (
        op::PHI,
        UINT,
        COUNT,
        &[Id(C0), Id(ENTRY), Id(COUNT_NEXT), Id(BODY)],
    ),
    (
        op::PHI,
        UINT,
        ACC,
        &[Id(OWN), Id(ENTRY), Id(ACC_NEXT), Id(BODY)],
    ),
    (
        op::EXT_INST,
        VOID,
        50,
        &[Id(DEBUG_SET), Literal(debug_set::SCOPE), Id(MAIN_RECORD)],
    ),
    (
        op::EXT_INST,
        VOID,
        51,
        &[
            Id(DEBUG_SET),
            Literal(debug_set::LINE),
            Id(SOURCE),
            Id(C2),
            Id(C2),
            Id(C0),
            Id(C0),
        ],
    ),
    (
        op::EXT_INST,
        VOID,
        52,
        &[
            Id(DEBUG_SET),
            Literal(debug_set::VALUE),
            Id(ACC_RECORD),
            Id(ACC),
            Id(EXPRESSION),
        ],
    ),
    (op::U_LESS_THAN, BOOL, GOES, &[Id(COUNT), Id(TURNS)]),
    (op::LOOP_MERGE, 0, 0, &[Id(DONE), Id(BODY), Literal(0)]),
    (
        op::BRANCH_CONDITIONAL,
        0,
        0,
        &[Id(GOES), Id(BODY), Id(DONE)],
    ),
    // the block of a turn
    (op::LABEL, 0, BODY, &[]),
    (
        op::EXT_INST,
        VOID,
        55,
        &[Id(DEBUG_SET), Literal(debug_set::SCOPE), Id(MAIN_RECORD)],
    ),
    (
        op::EXT_INST,
        VOID,
        56,
        &[
            Id(DEBUG_SET),
            Literal(debug_set::LINE),
            Id(SOURCE),
            Id(C3),
            Id(C3),
            Id(C0),
            Id(C0),
        ],
    ),
    (op::BITWISE_XOR, UINT, OTHER, &[Id(OWN), Id(C1)]),
    (
        op::ACCESS_CHAIN,
        SHARED_POINTER,
        OTHER_PLACE,
        &[Id(SHARED), Id(OTHER)],
    ),
    (op::CONTROL_BARRIER, 0, 0, &[Id(C2), Id(C2), Id(C264)]),
    (op::LOAD, UINT, THEIRS, &[Id(OTHER_PLACE)]),
    (op::CONTROL_BARRIER, 0, 0, &[Id(C2), Id(C2), Id(C264)]),
    (
        op::EXT_INST,
        VOID,
        60,
        &[
            Id(DEBUG_SET),
            Literal(debug_set::LINE),
            Id(SOURCE),
            Id(C4),
            Id(C4),
            Id(C0),
            Id(C0),
        ],
    ),
    (op::I_ADD, UINT, DOUBLED, &[Id(ACC), Id(ACC)]),
    (op::I_ADD, UINT, ACC_NEXT, &[Id(DOUBLED), Id(THEIRS)]),
    (op::STORE, 0, 0, &[Id(PLACE), Id(ACC_NEXT)]),
    (op::I_ADD, UINT, COUNT_NEXT, &[Id(COUNT), Id(C1)]),
    (op::BRANCH, 0, 0, &[Id(HEAD)]),
    // the block behind the loop
    (op::LABEL, 0, DONE, &[]),
    (
        op::EXT_INST,
        VOID,
        65,
        &[Id(DEBUG_SET), Literal(debug_set::SCOPE), Id(MAIN_RECORD)],
    ),
    (
        op::EXT_INST,
        VOID,
        66,
        &[
            Id(DEBUG_SET),
            Literal(debug_set::LINE),
            Id(SOURCE),
            Id(C5),
            Id(C5),
            Id(C0),
            Id(C0),
        ],
    ),
    (
        op::ACCESS_CHAIN,
        BUFFER_POINTER,
        OUT,
        &[Id(BUFFER), Id(C0), Id(OWN)],
    ),
    (op::STORE, 0, 0, &[Id(OUT), Id(ACC)]),
    (op::RETURN, 0, 0, &[]),
    (op::FUNCTION_END, 0, 0, &[]),
];

/// The instructions, in their order.
pub fn all_rows() -> &'static [Row]
    ensures { (turns : ℕ) → map (λ row. inst_of turns row.0 row.1 row.2 row.3.now) result.now ≡ instructions turns }
{
    &ROWS
}
