//! Writing lines.
ghost use Rattle.std.specs.Prelude.{◌≡◌, ◌++◌, ◌+◌, ◌<◌, IfOk, OnOk, codes, map};
ghost use Rattle.std.specs.List.{flat_map};
ghost use Rattle.spv_ops.specs.Encoding.{head_of};
ghost use Rattle.spv_ops.specs.Grammar.{row_of};
ghost use Rattle.spv_text.specs.declared.lines.Part.TheVariants as part;
ghost use Rattle.spv_text.specs.Spelling.{byte_text, hex_digit, line_text, operand_text, part_text, parts_text};
ghost use Rattle.spv_text.specs.Listing.{head_parts, line_of, listing, name_of};

use spv_base::{Inst, NoMemory, Operand, Text};
use spv_line::push_number;
use spv_ops::{Head, opcode_of};
use std::alloc::Global;

/// A digit of base 16, in lower case.
fn hex_digit(n: u8) -> u8
    requires { n < 16 }
    ensures { result ≡ hex_digit n }
{
    if n < 10 { b'0' + n } else { b'a' - 10 + n }
}

/// Appends a byte of a string, as itself or after a backslash.
fn push_byte(text: &mut Vec<u8>, byte: u8) -> Result<(), NoMemory>
    ensures { OnOk result (text.new.items ≡ text.old.items ++ byte_text byte) }
{
    match byte {
        b'"' | b'\\' => text.extend_from_slice(&[b'\\', byte])?,
        32..=126 => text.push(byte)?,
        _ => text.extend_from_slice(&[b'\\', b'x', hex_digit(byte / 16), hex_digit(byte % 16)])?,
    }
    Ok(())
}

/// Appends the bytes of a string.
fn push_bytes(text: &mut Vec<u8>, bytes: &[u8]) -> Result<(), NoMemory>
    ensures { OnOk result (text.new.items ≡ text.old.items ++ flat_map byte_text bytes.now) }
{
    for byte in bytes {
        push_byte(text, *byte)?;
    }
    Ok(())
}

/// Appends an operand.
fn push_operand(alloc: Global, text: &mut Vec<u8>, operand: &Operand) -> Result<(), NoMemory>
    ensures { OnOk result (text.new.items ≡ text.old.items ++ operand_text operand.now) }
{
    match operand {
        Operand::Id(id) => {
            text.push(b'%')?;
            push_number(alloc, text, u64::from(*id))
        }
        Operand::Lit(literal) => push_number(alloc, text, u64::from(*literal)),
        Operand::Text(bytes) => {
            text.push(b'"')?;
            push_bytes(text, bytes.as_slice())?;
            text.push(b'"')?;
            Ok(())
        }
    }
}

/// Appends a result type.
fn push_type(alloc: Global, text: &mut Vec<u8>, id: u32) -> Result<(), NoMemory>
    ensures { OnOk result (text.new.items ≡ text.old.items ++ part_text (part.ResultType id)) }
{
    text.extend_from_slice(b"type=%")?;
    push_number(alloc, text, u64::from(id))
}

/// Appends a result id.
fn push_id(alloc: Global, text: &mut Vec<u8>, id: u32) -> Result<(), NoMemory>
    ensures { OnOk result (text.new.items ≡ text.old.items ++ part_text (part.ResultId id)) }
{
    text.extend_from_slice(b"id=%")?;
    push_number(alloc, text, u64::from(id))
}

/// Appends the result type and the result id of a grammar, each after a space.
fn push_head(
    alloc: Global,
    text: &mut Vec<u8>,
    head: Head,
    ty: u32,
    id: u32,
) -> Result<(), NoMemory>
    ensures { OnOk result (text.new.items ≡ text.old.items ++ parts_text (head_parts head ty id)) }
{
    match head {
        Head::Plain => Ok(()),
        Head::Result => {
            text.push(b' ')?;
            push_id(alloc, text, id)
        }
        Head::TypedResult => {
            text.push(b' ')?;
            push_type(alloc, text, ty)?;
            text.push(b' ')?;
            push_id(alloc, text, id)
        }
    }
}

/// Appends operands, each after a space.
fn push_operands(alloc: Global, text: &mut Vec<u8>, operands: &[Operand]) -> Result<(), NoMemory>
    ensures { OnOk result (text.new.items ≡ text.old.items ++ parts_text (map part.Operand operands.now)) }
{
    for operand in operands {
        text.push(b' ')?;
        push_operand(alloc, text, operand)?;
    }
    Ok(())
}

/// The name of an opcode, without `Op`, and what stands before its operands.
fn name_and_head(op: u16) -> (&'static str, Head)
    ensures name { codes "Op" ++ result.0.now ≡ name_of op }
    ensures head { result.1 ≡ head_of (row_of op) }
{
    match opcode_of(op) {
        Some((_, name, head, _, _)) => (name, head),
        None => ("", Head::Plain),
    }
}

/// Appends the line of an instruction.
fn push_inst(alloc: Global, text: &mut Vec<u8>, inst: &Inst) -> Result<(), NoMemory>
    ensures { OnOk result (text.new.items ≡ text.old.items ++ line_text (line_of inst.now)) }
{
    let (name, head) = name_and_head(inst.op);
    push_number(alloc, text, u64::from(inst.word))?;
    text.extend_from_slice(b": Op")?;
    text.extend_from_slice(name.as_bytes())?;
    push_head(alloc, text, head, inst.ty, inst.id)?;
    push_operands(alloc, text, inst.operands.as_slice())?;
    text.push(b'\n')?;
    Ok(())
}

/// The listing of instructions: a line for each, by the grammar of its opcode.
#[tactic(auto, unfolding(crate::specs::Listing::listing))]
pub fn listing(alloc: Global, insts: &[Inst]) -> Result<Text, NoMemory>
    ensures { IfOk result (λ text. text ≡ listing insts.now) }
{
    let mut text = Vec::new(alloc);
    for inst in insts {
        push_inst(alloc, &mut text, inst)?;
    }
    Ok(Text::from_vec(text))
}
