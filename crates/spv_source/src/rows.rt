//! Lines as they are shown around a line.
ghost use Rattle.std.specs.Prelude.{◌≡◌, ◌++◌, if◌then◌else◌, OnOk, [], replicate};
ghost use Rattle.spv_source.specs.Windows.{is_near, mark, right_aligned, row_text};

use spv_base::NoMemory;
use std::alloc::Global;

/// Whether a line is the one around which lines are shown, or at most two before or after it.
pub(crate) fn is_near(line: u32, n: u64) -> bool
    ensures { result ≡ is_near line n }
{
    let line = u64::from(line);
    n <= line + 2 && line <= n.saturating_add(2)
}

/// Appends spaces.
fn push_spaces(text: &mut Vec<u8>, count: usize) -> Result<(), NoMemory>
    ensures { OnOk result (text.new.items ≡ text.old.items ++ replicate count 32) }
{
    for _ in 0..count {
        text.push(b' ')?;
    }
    Ok(())
}

/// Appends a number, right-aligned.
fn push_aligned(alloc: Global, text: &mut Vec<u8>, n: u64) -> Result<(), NoMemory>
    ensures { OnOk result (text.new.items ≡ text.old.items ++ right_aligned n) }
{
    let digits = n.to_string(alloc)?;
    let digits = digits.as_bytes();
    push_spaces(text, 6usize.saturating_sub(digits.len()))?;
    text.extend_from_slice(digits)?;
    Ok(())
}

/// The mark of a line.
fn mark(line: u32, n: u64) -> &'static [u8]
    ensures { result.now ≡ mark line n }
{
    if n == u64::from(line) { b">" } else { b" " }
}

/// Appends a line as it is shown.
fn push_row(
    alloc: Global,
    text: &mut Vec<u8>,
    line: u32,
    n: u64,
    content: &[u8],
) -> Result<(), NoMemory>
    ensures { OnOk result (text.new.items ≡ text.old.items ++ row_text line (n, content.now)) }
{
    push_aligned(alloc, text, n)?;
    text.extend_from_slice(mark(line, n))?;
    text.extend_from_slice(b" ")?;
    text.extend_from_slice(content)?;
    text.extend_from_slice(b"\n")?;
    Ok(())
}

/// Appends a line as it is shown, where it is near.
pub(crate) fn push_if_near(
    alloc: Global,
    text: &mut Vec<u8>,
    line: u32,
    n: u64,
    content: &[u8],
) -> Result<(), NoMemory>
    ensures { OnOk result (text.new.items ≡ text.old.items ++ (if is_near line n then row_text line (n, content.now) else [])) }
{
    if is_near(line, n) {
        push_row(alloc, text, line, n, content)?;
    }
    Ok(())
}
