//! Texts whose line ends are counted.
ghost use Rattle.std.specs.Prelude.{◌≡◌, IfOk};
ghost use Rattle.std.specs.Char.{is_newline};
ghost use Rattle.std.specs.List.{count_by};

use spv_base::{Bytes, NoMemory};
use std::alloc::Global;
use std::marker::Model;

/// The bytes of a text. Contracts see these alone.
#[derive(Drop)]
pub(crate) struct Text {
    bytes: Bytes,
    /// How many LF are among them: counted once, so that a text that is named again and again need not be read each time.
    ends: u64,
}

impl Model for Text {
    ghost use Rattle.std.specs.Prelude.{◌≡◌, ℕ, List};
    ghost use Rattle.std.specs.Char.{is_newline};
    ghost use Rattle.std.specs.List.{count_by};

    ghost Value = { List ℕ };

    ghost view = { λ t. t.bytes };

    ghost invariant = { λ t. t.ends ≡ count_by is_newline t.bytes };
}

/// How many LF are among these bytes.
fn ends_in(bytes: &[u8]) -> u64
    ensures { result ≡ count_by is_newline bytes.now }
{
    bytes.iter().filter(|byte| **byte == b'\n').count() as u64
}

impl Text {
    /// The text of these bytes.
    pub(crate) fn of(bytes: Bytes) -> Text
        ensures { result ≡ bytes }
    {
        let ends = ends_in(bytes.as_slice());
        Text { bytes, ends }
    }

    /// A text with these bytes.
    pub(crate) fn from_slice(alloc: Global, bytes: &[u8]) -> Result<Text, NoMemory>
        ensures { IfOk result (λ text. text ≡ bytes.now) }
    {
        Ok(Text::of(Bytes::from_slice(alloc, bytes)?))
    }

    /// The bytes.
    pub(crate) fn bytes(&self) -> &[u8]
        ensures { result.now ≡ self.now }
    {
        self.bytes.as_slice()
    }

    /// How many LF are among the bytes. In constant time.
    pub(crate) fn ends(&self) -> u64
        ensures { result ≡ count_by is_newline self.now }
    {
        self.ends
    }
}
