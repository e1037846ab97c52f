//! The text of what an id stands for.
ghost use Rattle.std.specs.Prelude.{◌≡◌, ◌++◌, [], IfOk, OnErr, OnOk, unwrap_or};
ghost use Rattle.std.specs.Option.{is_some};
ghost use Rattle.spv_types.specs.Shapes.{LeadsTo};
ghost use Rattle.spv_mem.specs.Memory.{load_of};
ghost use Rattle.spv_operands.specs.Operands.{IsPlain, shown};
ghost use Rattle.spv_state.specs.Sound.{IsSound};
ghost use Rattle.spv_ids.specs.Texts as spec;
ghost use Rattle.spv_ids.specs.Typed.{IsTyped, variable_type};

use crate::elements::elements;
use crate::ids::found;
use spv_base::{NoMemory, Pointer};
use spv_operands::Operand;
use spv_operands::laws::variables_are_declared;
use spv_plans::laws::registers_have_types;
use spv_show::{open_text, pointer_text};
use spv_state::laws::top_frames_are_sound;
use spv_state::{Runnable, Whole};
use spv_types::queries::pointee;
use spv_valid::Module;
use std::alloc::Global;

/// The type of the result with an id; 0 where it has none.
pub fn type_of(accepted: &Module, id: u32) -> u32
    ensures { result ≡ spec.type_of accepted.now id }
{
    accepted.type_of_id(id).unwrap_or(0)
}

/// The type that it points to; 0 where it points to none.
pub fn target_of(accepted: &Module, id: u32) -> u32
    ensures { result ≡ spec.target_of accepted.now id }
{
    match pointee(accepted.types().form(type_of(accepted, id))) {
        Some(pointed) => pointed.target,
        None => 0,
    }
}

/// Appends the text of the part of memory that a pointer of an invocation names, of a type. The part is lent, and no more of it read than
/// is written.
fn push_part(
    alloc: Global,
    m: &Runnable,
    state: &Whole,
    inv: u32,
    target: u32,
    pointer: &Pointer,
    text: &mut Vec<u8>,
) -> Result<(), NoMemory>
    requires sound { IsSound m.now state.now }
    requires leads { LeadsTo m.now.accepted.types (variable_type m.now.accepted) pointer.now target }
    ensures { OnOk result (text.new.items ≡ text.old.items ++ spec.part_text m.now.accepted.types target (load_of state.now.memory inv pointer.now)) }
{
    match state.memory().load(inv, pointer) {
        Ok(part) => {
            let count = elements(alloc, m, state, inv, target, pointer)?;
            open_text(alloc, m.accepted().types(), target, count, &part, text)
        }
        Err(_) => Ok(text.extend_from_slice(b"<unavailable>")?),
    }
}

/// Appends a pointer of an invocation to a type, and what it points to.
fn push_reference(
    alloc: Global,
    m: &Runnable,
    state: &Whole,
    inv: u32,
    target: u32,
    pointer: &Pointer,
    text: &mut Vec<u8>,
) -> Result<(), NoMemory>
    requires sound { IsSound m.now state.now }
    requires leads { LeadsTo m.now.accepted.types (variable_type m.now.accepted) pointer.now target }
    ensures { OnOk result (text.new.items ≡ text.old.items ++ spec.reference_text m.now.accepted.types state.now.memory inv target pointer.now) }
{
    pointer_text(alloc, pointer, text)?;
    text.extend_from_slice(b" -> ")?;
    push_part(alloc, m, state, inv, target, pointer, text)
}

/// Appends the text of what an id stands for.
fn push_value(
    alloc: Global,
    m: &Runnable,
    state: &Whole,
    inv: u32,
    id: u32,
    operand: &Operand,
    text: &mut Vec<u8>,
) -> Result<(), NoMemory>
    requires sound { IsSound m.now state.now }
    requires plain { IsPlain operand.now }
    requires typed { IsTyped m.now.accepted id (shown operand.now) }
    ensures { OnOk result (text.new.items ≡ text.old.items ++ spec.text_of m.now.accepted state.now.memory inv id (shown operand.now)) }
{
    let accepted = m.accepted();
    if let Some(part) = operand.part() {
        return open_text(
            alloc,
            accepted.types(),
            type_of(accepted, id),
            0,
            &part,
            text,
        );
    }
    match operand.pointer(alloc) {
        Some(reference) => push_reference(
            alloc,
            m,
            state,
            inv,
            target_of(accepted, id),
            reference.pointer(),
            text,
        ),
        None => unreachable!(),
    }
}

/// Appends the text of what an id stands for at a depth of an invocation, and tells whether it stands for something there: for a constant,
/// a variable of the module, or, in the frame at that depth, a variable of its function or a register that holds something. Where no depth
/// is given, or there is no such frame, it is looked at outside frames. Behind a pointer stands what it points to in this state. At most
/// 256 leaves and empty lists are read and written. After want of memory nothing was appended.
pub fn id_text(
    alloc: Global,
    m: &Runnable,
    state: &Whole,
    inv: u32,
    depth: Option<u32>,
    id: u32,
    out: &mut Vec<u8>,
) -> Result<bool, NoMemory>
    requires { IsSound m.now state.now }
    ensures known { IfOk result (λ known. known ≡ is_some (spec.id_text m.now state.now inv depth id)) }
    ensures text { OnOk result (out.new.items ≡ out.old.items ++ unwrap_or (spec.id_text m.now state.now inv depth id) []) }
    ensures err { OnErr result (out.new.items ≡ out.old.items) }
{
    registers_have_types();
    top_frames_are_sound();
    variables_are_declared();
    let _insts = m.accepted().insts();
    let Some(operand) = found(alloc, m, state, inv, depth, id)? else {
        return Ok(false);
    };
    let mut text = Vec::new(alloc);
    push_value(alloc, m, state, inv, id, &operand, &mut text)?;
    out.extend_from_slice(&text)?;
    Ok(true)
}
