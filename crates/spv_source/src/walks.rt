//! Walks through the text of a source file, piece by piece.
ghost use Rattle.std.specs.Prelude.{◌≡◌, ◌+◌, ◌<◌, ◌≤◌, ◌∷◌, ◌++◌, nat_lt, length, get_or, ℕ, List, [], IfOk, OnOk};
ghost use Rattle.std.specs.Char.{is_newline};
ghost use Rattle.std.specs.List.{concat, count_by};
ghost use Rattle.std.specs.Str.Lines.{lines};
ghost use Rattle.spv_source.specs.Walks.{shown_after, shown_from};

use crate::lines::without_return;
use crate::rows::{is_near, push_if_near};
use spv_base::NoMemory;
use spv_dbg::SourceText;
use std::alloc::Global;

/// Where a walk stands.
#[derive(Drop)]
pub(crate) struct Walk {
    /// The line around which lines are shown.
    pub(crate) line: u32,
    /// The number of the line that the walk is in.
    pub(crate) number: u64,
    /// The bytes of it that were passed, which are kept where it is near.
    pub(crate) begun: Vec<u8>,
    /// What is shown of the lines before it.
    pub(crate) rows: Vec<u8>,
}

impl Walk {
    /// A walk at the front of a text.
    pub(crate) fn new(alloc: Global, line: u32) -> Walk
        ensures { (left : List ℕ) → shown_after result left ≡ shown_from line 1 (lines left) }
    {
        Walk {
            line,
            number: 1,
            begun: Vec::new(alloc),
            rows: Vec::new(alloc),
        }
    }

    /// Whether no line is shown any more.
    fn is_past(&self) -> bool
        ensures { result ≡ nat_lt (self.now.line + 2) self.now.number }
    {
        self.number > u64::from(self.line) + 2
    }

    /// Whether the line so many lines on comes before those that are shown.
    fn is_before(&self, ends: u64) -> bool
        ensures { result ≡ nat_lt (self.now.number + ends + 2) self.now.line }
    {
        self.number.saturating_add(ends).saturating_add(2) < u64::from(self.line)
    }

    /// Passes the end of a line.
    fn end_line(&mut self, alloc: Global) -> Result<(), NoMemory>
        requires { self.old.number ≤ self.old.line + 2 }
        ensures { OnOk result ((left : List ℕ) → shown_after self.new left ≡ shown_after self.old (10 ∷ left)) }
    {
        let content = without_return(self.begun.as_slice());
        push_if_near(alloc, &mut self.rows, self.line, self.number, content)?;
        self.begun.clear();
        self.number += 1;
        Ok(())
    }

    /// Passes a byte.
    fn read_byte(&mut self, alloc: Global, byte: u8) -> Result<(), NoMemory>
        requires { self.old.number ≤ self.old.line + 2 }
        ensures { OnOk result ((left : List ℕ) → shown_after self.new left ≡ shown_after self.old (byte ∷ left)) }
    {
        if byte == b'\n' {
            return self.end_line(alloc);
        }
        if is_near(self.line, self.number) {
            self.begun.push(byte)?;
        }
        Ok(())
    }

    /// Passes these bytes, and reads them as far as lines are shown.
    fn read(&mut self, alloc: Global, bytes: &[u8]) -> Result<(), NoMemory>
        ensures { OnOk result ((left : List ℕ) → shown_after self.new left ≡ shown_after self.old (bytes.now ++ left)) }
    {
        for byte in bytes {
            if self.is_past() {
                return Ok(());
            }
            self.read_byte(alloc, *byte)?;
        }
        Ok(())
    }

    /// Passes bytes of which only this is known, that so many lines end in them.
    fn go_by(&mut self, ends: u64)
        requires { self.old.number + ends + 2 < self.old.line }
        ensures { (bytes left : List ℕ) → count_by is_newline bytes ≡ ends → shown_after self.new left ≡ shown_after self.old (bytes ++ left) }
    {
        self.number += ends;
        self.begun.clear();
    }

    /// Passes the piece of a text with a number, and reads it only where a line of it may be shown.
    fn pass(&mut self, alloc: Global, text: &SourceText<'_>, n: usize) -> Result<(), NoMemory>
        requires { n < length text.now }
        ensures { OnOk result ((left : List ℕ) → shown_after self.new left ≡ shown_after self.old (get_or text.now n [] ++ left)) }
    {
        let ends = text.ends(n);
        if self.is_before(ends) {
            self.go_by(ends);
            return Ok(());
        }
        self.read(alloc, text.piece(n))
    }

    /// Passes a text.
    pub(crate) fn pass_all(&mut self, alloc: Global, text: &SourceText<'_>) -> Result<(), NoMemory>
        ensures { OnOk result ((left : List ℕ) → shown_after self.new left ≡ shown_after self.old (concat text.now ++ left)) }
    {
        for n in 0..text.len() {
            if self.is_past() {
                return Ok(());
            }
            self.pass(alloc, text, n)?;
        }
        Ok(())
    }

    /// What is shown, where nothing of the text is left.
    pub(crate) fn finish(self, alloc: Global) -> Result<Vec<u8>, NoMemory>
        ensures { IfOk result (λ rows. rows.items ≡ shown_after self []) }
    {
        let Walk {
            line,
            number,
            begun,
            mut rows,
        } = self;
        if !begun.is_empty() {
            push_if_near(alloc, &mut rows, line, number, begun.as_slice())?;
        }
        Ok(rows)
    }
}
