//! Where a shown frame stands.
ghost use Rattle.std.specs.Prelude.{◌≡◌, ◌++◌, OnErr, OnOk};
ghost use Rattle.spv_source.specs.Frames.{frame_line, line_or_word, name_text, place_text, shown_byte, shown_bytes};

use spv_base::NoMemory;
use spv_dbg::ShownFrame;
use spv_line::push_number;
use std::alloc::Global;

/// How a byte of a name or a file is shown.
fn shown_byte(byte: u8) -> u8
    ensures { result ≡ shown_byte byte }
{
    if byte < 32 || byte == 127 { b'?' } else { byte }
}

/// Appends a name or a file as it is shown. After want of memory a part of it may have been appended.
pub fn push_shown(text: &mut Vec<u8>, bytes: &[u8]) -> Result<(), NoMemory>
    ensures { OnOk result (text.new.items ≡ text.old.items ++ shown_bytes bytes.now) }
{
    for byte in bytes {
        text.push(shown_byte(*byte))?;
    }
    Ok(())
}

/// Appends the name of a frame, or `%ID` of its real function.
fn push_name(alloc: Global, text: &mut Vec<u8>, frame: &ShownFrame) -> Result<(), NoMemory>
    ensures { OnOk result (text.new.items ≡ text.old.items ++ name_text frame.now) }
{
    let name = frame.name.as_slice();
    if name.is_empty() {
        text.extend_from_slice(b"%")?;
        return push_number(alloc, text, u64::from(frame.function));
    }
    push_shown(text, name)
}

/// Appends the file and line of a frame, or its word where there is no line.
fn push_line_or_word(alloc: Global, text: &mut Vec<u8>, frame: &ShownFrame) -> Result<(), NoMemory>
    ensures { OnOk result (text.new.items ≡ text.old.items ++ line_or_word frame.now) }
{
    if frame.line == 0 {
        text.extend_from_slice(b"word ")?;
        return push_number(alloc, text, u64::from(frame.word));
    }
    push_shown(text, frame.file.as_slice())?;
    text.extend_from_slice(b":")?;
    push_number(alloc, text, u64::from(frame.line))
}

/// Appends where a frame stands.
fn push_place(alloc: Global, text: &mut Vec<u8>, frame: &ShownFrame) -> Result<(), NoMemory>
    ensures { OnOk result (text.new.items ≡ text.old.items ++ place_text frame.now) }
{
    push_name(alloc, text, frame)?;
    text.extend_from_slice(b" ")?;
    push_line_or_word(alloc, text, frame)
}

/// Appends the line of the shown frame with a number, as `frame_line` does. After want of memory a part of it may have been appended.
pub fn push_frame(
    alloc: Global,
    text: &mut Vec<u8>,
    number: u32,
    frame: &ShownFrame,
) -> Result<(), NoMemory>
    ensures { OnOk result (text.new.items ≡ text.old.items ++ frame_line number frame.now) }
{
    text.extend_from_slice(b"#")?;
    push_number(alloc, text, u64::from(number))?;
    text.extend_from_slice(b" ")?;
    push_place(alloc, text, frame)?;
    text.extend_from_slice(b"\n")?;
    Ok(())
}

/// Appends where a frame stands: `NAME FILE:LINE`, or `NAME word W` where it has no line. After want of memory nothing was appended.
pub fn place_text(alloc: Global, frame: &ShownFrame, out: &mut Vec<u8>) -> Result<(), NoMemory>
    ensures ok { OnOk result (out.new.items ≡ out.old.items ++ place_text frame.now) }
    ensures err { OnErr result (out.new.items ≡ out.old.items) }
{
    let mut text = Vec::new(alloc);
    push_place(alloc, &mut text, frame)?;
    out.extend_from_slice(&text)?;
    Ok(())
}

/// Appends the line of the shown frame with a number: `#K `, where it stands, and LF. After want of memory nothing was appended.
pub fn frame_line(
    alloc: Global,
    number: u32,
    frame: &ShownFrame,
    out: &mut Vec<u8>,
) -> Result<(), NoMemory>
    ensures ok { OnOk result (out.new.items ≡ out.old.items ++ frame_line number frame.now) }
    ensures err { OnErr result (out.new.items ≡ out.old.items) }
{
    let mut text = Vec::new(alloc);
    push_frame(alloc, &mut text, number, frame)?;
    out.extend_from_slice(&text)?;
    Ok(())
}
