//! The texts of source files, in pieces.
ghost use Rattle.std.specs.Prelude.{◌≡◌, ◌<◌, Some, length, option_map, slice_get};
ghost use Rattle.std.specs.Char.{is_newline};
ghost use Rattle.std.specs.List.{count_by};
ghost use Rattle.spv_dbg.specs.Seen as spec;
ghost use Rattle.spv_dbg.specs.Sources.{text_of};

use crate::texts::Text;
use spv_base::Items;
use spv_index::Keyed;
use std::marker::Model;

/// A piece of a text. Many may name one long OpString, so it isn't copied.
#[derive(Drop)]
pub(crate) enum Piece {
    /// The bytes of the OpString with an id.
    Named(u32),
    /// Bytes of no OpString.
    Own(Text),
}

/// The pieces of a text.
pub(crate) type Pieces = Items<Piece>;

/// The bytes of an OpString, and none where there is no such string.
fn text_of(strings: &Keyed<Text>, id: u32) -> &[u8]
    ensures { result.now ≡ text_of strings.now id }
{
    match strings.get(id) {
        Some(text) => text.bytes(),
        None => &[],
    }
}

/// How many LF an OpString has, and 0 where there is no such string.
fn ends_of(strings: &Keyed<Text>, id: u32) -> u64
    ensures { result ≡ count_by is_newline (text_of strings.now id) }
{
    match strings.get(id) {
        Some(text) => text.ends(),
        None => 0,
    }
}

/// The bytes of a piece.
fn bytes_in<'a>(strings: &'a Keyed<Text>, piece: &'a Piece) -> &'a [u8]
    ensures { result.now ≡ spec.piece_in strings.now piece.now }
{
    match piece {
        Piece::Named(id) => text_of(strings, *id),
        Piece::Own(text) => text.bytes(),
    }
}

/// How many LF a piece has.
fn ends_in(strings: &Keyed<Text>, piece: &Piece) -> u64
    ensures { result ≡ count_by is_newline (spec.piece_in strings.now piece.now) }
{
    match piece {
        Piece::Named(id) => ends_of(strings, *id),
        Piece::Own(text) => text.ends(),
    }
}

/// The text of a source file, lent. It isn't joined: a module may name one long string again and again. Contracts see the list of
/// its pieces, which are the text one after the other.
#[derive(Drop)]
pub struct SourceText<'a> {
    strings: &'a Keyed<Text>,
    pieces: &'a [Piece],
}

impl<'a> Model for SourceText<'a> {
    ghost use Rattle.std.specs.Prelude.{ℕ, List};
    ghost use Rattle.spv_dbg.specs.Seen.{pieces_in};

    ghost Value = { List (List ℕ) };

    ghost view = { λ t. pieces_in t.strings.now t.pieces.now };
}

impl<'a> SourceText<'a> {
    /// The text of these pieces.
    pub(crate) fn of(strings: &'a Keyed<Text>, pieces: &'a [Piece]) -> SourceText<'a>
        ensures { result ≡ spec.pieces_in strings.now pieces.now }
    {
        SourceText { strings, pieces }
    }

    /// How many pieces there are.
    pub fn len(&self) -> usize
        ensures { result ≡ length self.now }
    {
        self.pieces.len()
    }

    /// The bytes of the piece with a number.
    pub fn piece(&self, n: usize) -> &'a [u8]
        requires { n < length self.now }
        ensures { slice_get self.now n ≡ Some result.now }
    {
        bytes_in(self.strings, &self.pieces[n])
    }

    /// How many LF the piece with a number has. In constant time.
    pub fn ends(&self, n: usize) -> u64
        requires { n < length self.now }
        ensures { option_map (count_by is_newline) (slice_get self.now n) ≡ Some result }
    {
        ends_in(self.strings, &self.pieces[n])
    }
}
