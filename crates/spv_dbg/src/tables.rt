//! The tables of a module's debug instructions.
ghost use Rattle.std.specs.Prelude.{◌≡◌, ◌<◌, ◌++◌, ℕ, List, IfOk, IfSome, length, map, option_copied, option_map, slice_get};
ghost use Rattle.std.specs.List.{concat};
ghost use Rattle.std.specs.Option.{option_and_then};
ghost use Rattle.spv_base.specs.Entries.{reads};
ghost use Rattle.spv_dbg.specs.Names.{number_from, number_under};
ghost use Rattle.spv_index.specs.Places.{keys_of, places_from};
ghost use Rattle.spv_dbg.specs.Records.{AreRecords};
ghost use Rattle.spv_dbg.specs.Seen.{seen};
ghost use Rattle.spv_dbg.specs.Sources.{debug_sources, has_name, op_sources_in};
ghost use Rattle.spv_dbg.specs.Tables as spec;

use crate::constants::{Constant, constants_of};
use crate::inlined::inlined_of;
use crate::insts::DebugInst;
use crate::laws::records_are_whole_in_their_tables;
use crate::marks::{Mark, kept_in};
use crate::names::{Names, names_of, text_with};
use crate::pieces::SourceText;
use crate::records::{Records, records_of};
use crate::scalars::scalars_of;
use crate::sources::{Source, sources_of};
use crate::strings::strings_of;
use crate::texts::Text;
use spv_base::{Inst, NoMemory};
use spv_consts::table::Row;
use spv_index::{Keyed, Table, places_of};
use spv_valid::Module;
use std::alloc::Global;
use std::marker::Model;

/// The well-formed debug instructions of a module, and what their operands stand for. Contracts see lists.
pub struct DebugTables {
    insts: Vec<DebugInst>,
    /// What is kept of each of them.
    marks: Vec<Mark>,
    /// By id and by word, the number of the debug instruction.
    by_id: Table<usize>,
    by_word: Table<usize>,
    ignored: u64,
    strings: Keyed<Text>,
    constants: Keyed<Constant>,
    /// By word, whether the second operand of the debug instruction there is the id of a scalar.
    scalars: Table<bool>,
    /// By word, the InlinedAt that holds at the instruction there, or 0.
    inlined: Table<u32>,
    sources: Vec<Source>,
    names: Names,
}

// Written out, so that it is proved once: a derived drop is proved again in each function that lets go of such a value.
impl Drop for DebugTables {
    fn drop(self) {
        let DebugTables {
            insts,
            marks,
            by_id,
            by_word,
            ignored: _,
            strings,
            constants,
            scalars,
            inlined,
            sources,
            names,
        } = self;
        drop(insts);
        drop(marks);
        drop(by_id);
        drop(by_word);
        drop(strings);
        drop(constants);
        drop(scalars);
        drop(inlined);
        drop(sources);
        drop(names);
    }
}

impl Model for DebugTables {
    ghost use Rattle.spv_dbg.specs.Tables.{Tables};
    ghost use Rattle.spv_dbg.specs.Inside.{AreTables, view_of};

    ghost Value = { Tables };

    ghost view = { view_of };

    ghost invariant = { AreTables };
}

fn ids_of(alloc: Global, insts: &[DebugInst]) -> Result<Vec<u32>, NoMemory>
    ensures { IfOk result (λ ids. ids.items ≡ map (λ d. d.id) insts.now) }
{
    Ok(insts.iter().map(|debug| debug.id).collect(alloc)?)
}

fn words_of(alloc: Global, insts: &[DebugInst]) -> Result<Vec<u32>, NoMemory>
    ensures { IfOk result (λ words. words.items ≡ map (λ d. d.word) insts.now) }
{
    Ok(insts.iter().map(|debug| debug.word).collect(alloc)?)
}

/// The numbers of debug instructions by their ids, and by their words.
#[derive(Drop)]
struct Numbers {
    by_id: Table<usize>,
    by_word: Table<usize>,
}

fn numbers_of(alloc: Global, insts: &[DebugInst]) -> Result<Numbers, NoMemory>
    ensures by_id { IfOk result (λ numbers. numbers.by_id ≡ places_from 0 (map (λ d. d.id) insts.now)) }
    ensures by_word { IfOk result (λ numbers. numbers.by_word ≡ places_from 0 (map (λ d. d.word) insts.now)) }
{
    let ids = ids_of(alloc, insts)?;
    let by_id = places_of(alloc, ids.as_slice())?;
    let words = words_of(alloc, insts)?;
    let by_word = places_of(alloc, words.as_slice())?;
    Ok(Numbers { by_id, by_word })
}

/// The strings of a module, the texts of its source files, and their numbers by the names of the files.
#[derive(Drop)]
struct Texts {
    strings: Keyed<Text>,
    sources: Vec<Source>,
    names: Names,
}

fn texts_of(alloc: Global, debug: &[DebugInst], insts: &[Inst]) -> Result<Texts, NoMemory>
    ensures strings { IfOk result (λ texts. texts.strings ≡ spec.strings_of insts.now) }
    ensures sources { IfOk result (λ texts. map (seen texts.strings) texts.sources.items ≡ debug_sources texts.strings debug.now ++ op_sources_in insts.now) }
    ensures names { IfOk result (λ texts. (file : List ℕ) → number_under texts.names file ≡ number_from 0 (has_name texts.strings file) (keys_of texts.sources.items)) }
{
    let strings = strings_of(alloc, insts)?;
    let sources = sources_of(alloc, debug, insts)?;
    let names = names_of(alloc, &strings, sources.as_slice())?;
    Ok(Texts {
        strings,
        sources,
        names,
    })
}

/// The debug instruction with a number.
fn inst_with(insts: &[DebugInst], number: Option<usize>) -> Option<&DebugInst>
    ensures { option_copied result ≡ option_and_then (slice_get insts.now) number }
{
    insts.get(number?)
}

/// What is kept of the debug instruction with a number.
fn mark_with(marks: &[Mark], number: Option<usize>) -> Option<Mark>
    ensures { result ≡ option_and_then (slice_get marks.now) number }
{
    marks.get(number?).copied()
}

fn bits_in(mark: Option<Mark>) -> Option<u64>
    ensures { result ≡ option_map (λ k. k.bits) mark }
{
    Some(mark?.bits)
}

impl DebugTables {
    /// The tables of a module. In time n log n.
    #[tactic(auto, unfolding(crate::specs::Tables::tables_of))]
    pub fn build(alloc: Global, module: &Module) -> Result<DebugTables, NoMemory>
        ensures { IfOk result (λ tables. tables ≡ spec.tables_of module.now) }
    {
        records_are_whole_in_their_tables();
        let Records {
            marks,
            insts,
            ignored,
        } = records_of(alloc, module)?;
        let inlined = inlined_of(alloc, module, marks.as_slice())?;
        let marks = kept_in(alloc, marks.as_slice())?;
        let Numbers { by_id, by_word } = numbers_of(alloc, insts.as_slice())?;
        let constants = constants_of(alloc, module)?;
        let scalars = scalars_of(alloc, module, insts.as_slice())?;
        let Texts {
            strings,
            sources,
            names,
        } = texts_of(alloc, insts.as_slice(), module.insts())?;
        Ok(DebugTables {
            insts,
            marks,
            by_id,
            by_word,
            ignored,
            strings,
            constants,
            scalars,
            inlined,
            sources,
            names,
        })
    }

    /// A law, with nothing to run: these are the tables of an accepted module, so each record is whole in them.
    pub fn records_are_whole(&self)
        ensures { ∥ AreRecords self.now ∥₁ }
    {
        // What is so of each such value is known where a field is used.
        let _ = &self.insts;
    }

    /// How many debug instructions are malformed.
    pub fn ignored(&self) -> u64
        ensures { result ≡ self.now.ignored }
    {
        self.ignored
    }

    /// The well-formed debug instructions, in the order of the module.
    pub fn insts(&self) -> &[DebugInst]
        ensures { result.now ≡ self.now.insts }
    {
        self.insts.as_slice()
    }

    /// The well-formed debug instruction with an id.
    pub fn get(&self, id: u32) -> Option<&DebugInst>
        ensures { option_copied result ≡ spec.with_id self.now id }
    {
        inst_with(self.insts.as_slice(), self.by_id.get(id))
    }

    /// The number of the well-formed debug instruction with an id among all of them.
    pub fn number(&self, id: u32) -> Option<usize>
        ensures number { result ≡ spec.number_in self.now id }
        ensures within { IfSome result (λ n. n < length self.now.insts) }
    {
        self.by_id.get(id)
    }

    /// How many bits the values of the well-formed type with an id have, or those of the Type of the TypeMember with it. It is 0
    /// for other debug instructions.
    pub fn bits(&self, id: u32) -> Option<u64>
        ensures { result ≡ spec.bits_in self.now id }
    {
        bits_in(mark_with(self.marks.as_slice(), self.by_id.get(id)))
    }

    /// The well-formed debug instruction at a word.
    pub fn at(&self, word: u32) -> Option<&DebugInst>
        ensures { option_copied result ≡ spec.at_word self.now word }
    {
        inst_with(self.insts.as_slice(), self.by_word.get(word))
    }

    /// The bytes of the OpString with an id.
    pub fn string(&self, id: u32) -> Option<&[u8]>
        ensures { option_copied result ≡ reads id self.now.strings }
    {
        Some(self.strings.get(id)?.bytes())
    }

    /// The row of the constant with an id: its type, and the leaves of its value in order.
    pub fn constant(&self, id: u32) -> Option<Row<'_>>
        ensures { option_map (λ r. record { ty = r.ty; cells = r.cells.now }) result ≡ option_map spec.row_in (reads id self.now.constants) }
    {
        let constant = self.constants.get(id)?;
        Some(Row {
            ty: constant.ty,
            cells: constant.cells.as_slice(),
        })
    }

    /// The number of the 32-bit integer constant with an id, read as unsigned. It is 0 where the constant is undefined.
    pub fn number_of(&self, id: u32) -> Option<u32>
        ensures { result ≡ spec.number_of self.now id }
    {
        self.constants.get(id)?.number
    }

    /// Whether the second operand of the well-formed debug instruction at a word is the id of a scalar: of a Declare or a Value,
    /// whether what it captures is one.
    pub fn names_scalar(&self, word: u32) -> bool
        ensures { result ≡ spec.names_scalar self.now word }
    {
        self.scalars.get(word).unwrap_or(false)
    }

    /// The InlinedAt that holds at the instruction at a word, and 0 where there is none.
    pub fn inlined_at(&self, word: u32) -> u32
        ensures { result ≡ spec.inlined_at self.now word }
    {
        self.inlined.get(word).unwrap_or(0)
    }

    /// The text of the file with a name: that of the first Source with this name and a Text, with what its SourceContinued add,
    /// and where there is none the same of OpSource and OpSourceContinued. In logarithmic time.
    pub fn source(&self, file: &[u8]) -> Option<SourceText<'_>>
        ensures { option_map (λ text. concat text) result ≡ spec.text_of_file self.now file.now }
    {
        let number = self.names.get(file).copied();
        text_with(&self.strings, self.sources.as_slice(), number)
    }
}
