//! The registers of a frame, as they are shown.
ghost use Rattle.std.specs.Prelude.{◌≡◌, ◌<◌, ◌++◌, ℕ, fold, IfOk, List, OnOk, length, slice_get};
ghost use Rattle.std.specs.List.{Contains, filter_map, flat_map};
ghost use Rattle.std.specs.List.Sorted.{IsStrictlyIncreasing};
ghost use Rattle.std.specs.Map.{keys_of};
ghost use Rattle.spv_base.specs.declared.values.Value.{Ptr};
ghost use Rattle.spv_ids.specs.Below.spv_operands.specs.Shapes.{target_in};
ghost use Rattle.spv_leaves.specs.Below.spv_types.specs.Rows.{leaves};
ghost use Rattle.spv_leaves.specs.Below.spv_types.specs.Shapes.{HasShape};
ghost use Rattle.spv_show.specs.Rows.{IsRowOf};
ghost use Rattle.spv_ids.specs.Texts.{type_of};
ghost use Rattle.spv_session.specs.Frames.{IsShown};
ghost use Rattle.spv_session.specs.Texts.{ascending, register_text, registers_text, shown_in, shown_line, shown_pointer, shown_value, with_any, with_shown};

use spv_base::{NoMemory, Pointer, Text};
use spv_frame::Frame;
use spv_ids::type_of;
use spv_line::push_number;
use spv_plans::laws::registers_have_types;
use spv_show::{pointer_text, value_text};
use spv_state::Runnable;
use spv_values::Part;
use std::alloc::Global;
use std::collections::BTreeMap;

/// Puts the text of a value under the id of its register.
fn show_value(
    alloc: Global,
    m: &Runnable,
    shown: &mut BTreeMap<u32, Text>,
    id: u32,
    part: &Part,
) -> Result<(), NoMemory>
    requires { IsRowOf m.now.accepted.types (type_of m.now.accepted id) (leaves part.now) part.now }
    ensures { OnOk result (shown.new.entries ≡ with_shown shown.old.entries (id, register_text m.now.accepted id part.now)) }
{
    let mut text = Vec::new(alloc);
    let accepted = m.accepted();
    value_text(
        alloc,
        accepted.types(),
        type_of(accepted, id),
        part,
        &mut text,
    )?;
    shown.insert(id, Text::from_vec(text))?;
    Ok(())
}

/// Puts the text of a pointer under the id of its register.
fn show_pointer(
    alloc: Global,
    m: &Runnable,
    shown: &mut BTreeMap<u32, Text>,
    id: u32,
    pointer: &Pointer,
) -> Result<(), NoMemory>
    requires { HasShape m.now.accepted.types (target_in m.now.accepted (type_of m.now.accepted id)) (type_of m.now.accepted id) (Ptr pointer.now) }
    ensures { OnOk result (shown.new.entries ≡ with_shown shown.old.entries (id, register_text m.now.accepted id (Ptr pointer.now))) }
{
    let mut text = Vec::new(alloc);
    pointer_text(alloc, pointer, &mut text)?;
    let _types = m.accepted().types();
    shown.insert(id, Text::from_vec(text))?;
    Ok(())
}

/// Puts the text of the value with a number under its register's id, if there is one.
fn show_value_at(
    alloc: Global,
    m: &Runnable,
    frame: &Frame,
    number: usize,
    shown: &mut BTreeMap<u32, Text>,
) -> Result<(), NoMemory>
    requires frame { IsShown m.now.accepted frame.now }
    requires number { number < length frame.now.values }
    ensures { OnOk result (shown.new.entries ≡ with_any shown.old.entries (shown_value m.now.accepted) (slice_get frame.now.values number)) }
{
    registers_have_types();
    let _insts = m.accepted().insts();
    let (id, value) = frame.value_at(number);
    match value {
        Some(part) => show_value(alloc, m, shown, id, &part),
        None => Ok(()),
    }
}

/// Puts the text of the pointer with a number under its register's id, if there is one.
fn show_pointer_at(
    alloc: Global,
    m: &Runnable,
    frame: &Frame,
    number: usize,
    shown: &mut BTreeMap<u32, Text>,
) -> Result<(), NoMemory>
    requires frame { IsShown m.now.accepted frame.now }
    requires number { number < length frame.now.pointers }
    ensures { OnOk result (shown.new.entries ≡ with_any shown.old.entries (shown_pointer m.now.accepted) (slice_get frame.now.pointers number)) }
{
    registers_have_types();
    let _insts = m.accepted().insts();
    let (id, pointer) = frame.pointer_at(number);
    match pointer {
        Some(pointer) => show_pointer(alloc, m, shown, id, pointer),
        None => Ok(()),
    }
}

/// Adds the texts of the values of registers.
fn show_values(
    alloc: Global,
    m: &Runnable,
    frame: &Frame,
    shown: &mut BTreeMap<u32, Text>,
) -> Result<(), NoMemory>
    requires { IsShown m.now.accepted frame.now }
    ensures { OnOk result (shown.new.entries ≡ fold with_shown shown.old.entries (filter_map (shown_value m.now.accepted) frame.now.values)) }
{
    for number in 0..frame.value_count() {
        show_value_at(alloc, m, frame, number, shown)?;
    }
    Ok(())
}

/// Adds the texts of the pointers of registers.
fn show_pointers(
    alloc: Global,
    m: &Runnable,
    frame: &Frame,
    shown: &mut BTreeMap<u32, Text>,
) -> Result<(), NoMemory>
    requires { IsShown m.now.accepted frame.now }
    ensures { OnOk result (shown.new.entries ≡ fold with_shown shown.old.entries (filter_map (shown_pointer m.now.accepted) frame.now.pointers)) }
{
    for number in 0..frame.pointer_count() {
        show_pointer_at(alloc, m, frame, number, shown)?;
    }
    Ok(())
}

/// The texts of the registers that hold something, by their ids.
fn shown_registers(
    alloc: Global,
    m: &Runnable,
    frame: &Frame,
) -> Result<BTreeMap<u32, Text>, NoMemory>
    requires { IsShown m.now.accepted frame.now }
    ensures { IfOk result (λ shown. shown.entries ≡ ascending (shown_in m.now.accepted frame.now)) }
{
    let mut shown = BTreeMap::new(alloc);
    show_values(alloc, m, frame, &mut shown)?;
    show_pointers(alloc, m, frame, &mut shown)?;
    Ok(shown)
}

/// Appends the line of a register with this text.
fn push_register(alloc: Global, text: &mut Vec<u8>, id: u32, shown: &Text) -> Result<(), NoMemory>
    ensures { OnOk result (text.new.items ≡ text.old.items ++ shown_line (id, shown.now)) }
{
    text.extend_from_slice(b"%")?;
    push_number(alloc, text, id as u64)?;
    text.extend_from_slice(b" = ")?;
    text.extend_from_slice(shown.as_slice())?;
    text.extend_from_slice(b"\n")?;
    Ok(())
}

/// Appends a line for each register of a frame that holds something, in ascending order of their ids.
pub fn push_registers(
    alloc: Global,
    text: &mut Vec<u8>,
    m: &Runnable,
    frame: &Frame,
) -> Result<(), NoMemory>
    requires { IsShown m.now.accepted frame.now }
    ensures { OnOk result (text.new.items ≡ text.old.items ++ registers_text m.now.accepted frame.now) }
{
    let shown = shown_registers(alloc, m, frame)?;
    push_shown(alloc, text, &shown)
}

/// Appends a line for each register with its text.
fn push_shown(
    alloc: Global,
    text: &mut Vec<u8>,
    shown: &BTreeMap<u32, Text>,
) -> Result<(), NoMemory>
    ensures { OnOk result (text.new.items ≡ text.old.items ++ flat_map shown_line shown.now.entries) }
{
    for (id, line) in shown {
        push_register(alloc, text, *id, line)?;
    }
    Ok(())
}

/// The registers that are shown ascend by their ids, each with the text that it has, and all are shown that hold something.
pub fn shown_registers_ascend()
    ensures ascending { (shown : List (ℕ × List ℕ)) → IsStrictlyIncreasing (keys_of (ascending shown)) }
    ensures texts { (shown : List (ℕ × List ℕ)) (id : ℕ) (text : List ℕ) → Contains (ascending shown) (id, text) → Contains shown (id, text) }
    ensures all { (shown : List (ℕ × List ℕ)) (id : ℕ) (text : List ℕ) → Contains shown (id, text) → Contains (keys_of (ascending shown)) id }
{}
