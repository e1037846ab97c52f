//! A module's words, and its bytes in either order.
ghost use Rattle.std.specs.Prelude.{◌≡◌, ◌*◌, ◌%◌, ◌≤◌, true, length, slice_index, IfOk};
ghost use Rattle.spv_base.specs.Answers.{Answers};
ghost use Rattle.spv_words.specs.Header.{is_size, breaches, accepted_unless, HasHeader};
ghost use Rattle.spv_words.specs.Words.{group_words, words_of};

use byteorder::{BigEndian, ByteOrder, LittleEndian};
use spv_base::{Fail, NoMemory, Refusal};
use std::alloc::Global;
use std::marker::Model;

/// A module's first word, which shows the byte order.
const MAGIC: u32 = 0x0723_0203;

/// The largest bound of ids.
const MAX_BOUND: u32 = 1_048_576;

/// The most bytes of a module.
const MAX_BYTES: usize = 4_194_304;

/// The bytes of five words, a module's header.
const HEADER_BYTES: usize = 20;

/// Fewer bytes than a header has, more than 4 MiB, or no whole words.
const WRONG_SIZE: Refusal = Refusal { code: 1, word: 0 };

/// The first word is the magic number in neither byte order.
const WRONG_MAGIC: Refusal = Refusal { code: 2, word: 0 };

/// The version is not 1.3, 1.4, 1.5 or 1.6.
const WRONG_VERSION: Refusal = Refusal { code: 3, word: 1 };

/// The bound is 0, or larger than ids may be.
const WRONG_BOUND: Refusal = Refusal { code: 4, word: 3 };

/// A module's words, in which no rule of its size and header is broken.
#[derive(Drop)]
pub struct WordList {
    big: bool,
    items: Vec<u32>,
}

impl Model for WordList {
    ghost use Rattle.spv_words.specs.Words.{ModuleWords};
    ghost use Rattle.spv_words.specs.Header.{HasHeader};

    ghost Value = { ModuleWords };

    ghost view = { λ list. record { big = list.big; items = list.items.items } };

    ghost invariant = { λ list. HasHeader list.items.items };
}

impl WordList {
    /// The words, of which the first five are the header.
    pub fn items(&self) -> &[u32]
        ensures words { result.now ≡ self.now.items }
        ensures header { HasHeader result.now }
    {
        self.items.as_slice()
    }

    /// Whether the bytes of each word stand highest first.
    pub fn big(&self) -> bool
        ensures { result ≡ self.now.big }
    {
        self.big
    }

    /// The bound: every id is below it. It is from 1 to 1,048,576.
    pub fn bound(&self) -> u32
        ensures value { result ≡ slice_index self.now.items 3 }
        ensures low { 1 ≤ result }
        ensures high { result ≤ 1048576 }
    {
        self.items[3]
    }
}

/// The words of a module's bytes, in the byte order that the magic number shows (SPIR-V 1.6 section 2.3).
///
/// The first broken rule is refused: code 1 at word 0 for fewer than 20 bytes, more than 4 MiB or no whole words; 2 at word 0
/// for no magic number; 3 at word 1 for a version other than 1.3 to 1.6; 4 at word 3 for a bound of 0 or over 1,048,576.
pub fn words(alloc: Global, bytes: &[u8]) -> Result<WordList, Fail<Refusal>>
    ensures { Answers (words_of bytes.now) result }
{
    if !has_module_size(bytes) {
        return Err(Fail::Refused(WRONG_SIZE));
    }
    let big = BigEndian::read_u32(bytes) == MAGIC;
    let items = read_words(alloc, bytes, big)?;
    Ok(with_header(big, items)?)
}

/// Whether a module may have as many bytes.
fn has_module_size(bytes: &[u8]) -> bool
    ensures { result ≡ is_size (length bytes.now) }
{
    bytes.len() >= HEADER_BYTES && bytes.len() % 4 == 0 && bytes.len() <= MAX_BYTES
}

/// The words of these bytes in one order, the highest byte first or the lowest.
fn read_words(alloc: Global, bytes: &[u8], big: bool) -> Result<Vec<u32>, NoMemory>
    requires { length bytes.now % 4 ≡ 0 }
    ensures { IfOk result (λ items. (group_words big bytes.now ≡ items.items) × (length bytes.now ≡ 4 * length items.items)) }
{
    let mut items = vec![in alloc; 0u32; bytes.len() / 4]?;
    read_into(&mut items, bytes, big);
    Ok(items)
}

/// Puts the words of these bytes in place of as many.
fn read_into(items: &mut [u32], bytes: &[u8], big: bool)
    requires { length bytes.now ≡ 4 * length items.old }
    ensures { group_words big bytes.now ≡ items.new }
{
    if big {
        BigEndian::read_u32_into(bytes, items);
    } else {
        LittleEndian::read_u32_into(bytes, items);
    }
}

/// These words, if no rule of the header is broken.
fn with_header(big: bool, items: Vec<u32>) -> Result<WordList, Refusal>
    requires { is_size (4 * length items.items) ≡ true }
    ensures { result ≡ accepted_unless (breaches (4 * length items.items) items.items) (record { big = big; items = items.items }) }
{
    if items[0] != MAGIC {
        return Err(WRONG_MAGIC);
    }
    if !matches!(
        items[1],
        0x0001_0300 | 0x0001_0400 | 0x0001_0500 | 0x0001_0600
    ) {
        return Err(WRONG_VERSION);
    }
    if items[3] == 0 || items[3] > MAX_BOUND {
        return Err(WRONG_BOUND);
    }
    Ok(WordList { big, items })
}

/// The bytes of a module's words, in its own order. `words` gives the same words of them.
pub fn bytes_of(alloc: Global, list: &WordList) -> Result<Vec<u8>, NoMemory>
    ensures { IfOk result (λ bytes. words_of bytes.items ≡ Ok list.now) }
{
    let items = list.items();
    let mut bytes = vec![in alloc; 0u8; 4 * items.len()]?;
    write_into(&mut bytes, items, list.big());
    Ok(bytes)
}

/// Puts the bytes of these words in place of as many.
fn write_into(bytes: &mut [u8], items: &[u32], big: bool)
    requires header { HasHeader items.now }
    requires room { length bytes.old ≡ 4 * length items.now }
    ensures { words_of bytes.new ≡ Ok (record { big = big; items = items.now }) }
{
    if big {
        BigEndian::write_u32_into(items, bytes);
    } else {
        LittleEndian::write_u32_into(items, bytes);
    }
}
