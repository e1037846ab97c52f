//! The bits of a variable of which no event told yet, as ranges.
ghost use Rattle.std.specs.Prelude.{◌≡◌, ◌&&◌, ◌||◌, ℕ, IfOk, OnOk, nat_le, not, false, true};
ghost use Rattle.spv_expr.specs.Kept.{is_in, is_in_any};

use crate::ranges::Range;
use spv_base::NoMemory;
use std::alloc::Global;

/// The bits that two ranges have in common.
pub(crate) fn common(a: Range, b: Range) -> Range
    ensures { (j : ℕ) → is_in j result ≡ is_in j a && is_in j b }
{
    Range {
        start: a.start.max(b.start),
        end: a.end.min(b.end),
    }
}

/// Whether a range has no bits.
pub(crate) fn is_empty(range: Range) -> bool
    ensures { result ≡ nat_le range.end range.start }
{
    range.end <= range.start
}

/// Whether a range has bits in common with some others.
pub(crate) fn meets(gaps: &[Range], range: Range) -> bool
    ensures { result ≡ false → (j : ℕ) → is_in_any j gaps.now ≡ true → is_in j range ≡ false }
{
    for span in gaps {
        if !is_empty(common(*span, range)) {
            return true;
        }
    }
    false
}

/// Whether a range has all bits of another one.
pub(crate) fn has_all(range: Range, span: Range) -> bool
    ensures { result ≡ true → (j : ℕ) → is_in j span ≡ true → is_in j range ≡ true }
{
    range.start <= span.start && span.end <= range.end
}

/// Adds a range, if it has bits.
fn push(spans: &mut Vec<Range>, range: Range) -> Result<(), NoMemory>
    ensures { OnOk result ((j : ℕ) → is_in_any j spans.new.items ≡ is_in_any j spans.old.items || is_in j range) }
{
    if !is_empty(range) {
        spans.push(range)?;
    }
    Ok(())
}

/// Adds what is left of a range without the bits of another one.
fn push_rest(spans: &mut Vec<Range>, span: Range, range: Range) -> Result<(), NoMemory>
    ensures { OnOk result ((j : ℕ) → is_in_any j spans.new.items ≡ is_in_any j spans.old.items || (is_in j span && not (is_in j range))) }
{
    push(
        spans,
        Range {
            start: span.start,
            end: span.end.min(range.start),
        },
    )?;
    push(
        spans,
        Range {
            start: span.start.max(range.end),
            end: span.end,
        },
    )
}

/// What is left of some ranges without the bits of another one.
pub(crate) fn without(alloc: Global, gaps: &[Range], range: Range) -> Result<Vec<Range>, NoMemory>
    ensures { IfOk result (λ spans. (j : ℕ) → is_in_any j spans.items ≡ is_in_any j gaps.now && not (is_in j range)) }
{
    let mut spans = Vec::new(alloc);
    for span in gaps {
        push_rest(&mut spans, *span, range)?;
    }
    Ok(spans)
}
