//! Line heads: the executables at which a line of the source begins.
ghost use Rattle.std.specs.Prelude.{◌≡◌, ◌++◌, ◌<◌, [], ◌∷◌, not, false, List, IfOk, IfSome, OnOk, if◌then◌else◌, length, option_map};
ghost use Rattle.std.specs.Option.{option_map_or};
ghost use Rattle.spv_index.specs.Positions.{Stand as Stood};
ghost use Rattle.spv_scopes.specs.Files.{AreFiles, Grows};
ghost use Rattle.spv_dbg.specs.Tables.{Tables};
ghost use Rattle.spv_scopes.specs.Found.{AreKept, IsFound, begun, entry_of, found_heads, put_at};
ghost use Rattle.spv_scopes.specs.Heads as spec;
ghost use Rattle.spv_scopes.specs.Spots.{Spots};
ghost use Rattle.spv_scopes.specs.Numbered.{NumberedLine, is_line, named_key, same_number, words_under, words_with};

use crate::files::{Files, Names};
use crate::places::Place;
use crate::spot_table::SpotTable;
use spv_base::{Bytes, NoMemory, Places};
use spv_dbg::DebugTables;
use spv_index::Table;
use spv_index::stands::Stand;
use spv_valid::Module;
use std::alloc::Global;
use std::collections::BTreeMap;
use std::marker::Model;

/// What tells executables apart: the number of the file, the line and the InlinedAt.
#[derive(Clone, Copy)]
pub struct Key {
    pub file: usize,
    pub line: u32,
    pub inlined: u32,
}

/// The words of heads by the numbers of their files and their lines.
type Words = BTreeMap<(usize, u32), Vec<u32>>;

/// The line heads of a module. Contracts see the word of each with its line.
#[derive(Drop)]
pub(crate) struct Heads {
    table: Table<(usize, u32)>,
    files: Vec<Bytes>,
    names: Names,
    lines: Words,
}

impl Model for Heads {
    ghost use Rattle.spv_scopes.specs.Heads.{Heads};
    ghost use Rattle.spv_scopes.specs.Spots.{Spots};
    ghost use Rattle.spv_scopes.specs.Numbered.{AreHeads, view_of};

    ghost Value = { Heads };

    ghost view = { view_of };

    ghost invariant = { AreHeads };
}

/// The heads that were found, with the files that were met, and the executable before in the block.
#[derive(Drop)]
pub(crate) struct Found {
    pub(crate) entries: Vec<(u32, (usize, u32))>,
    pub(crate) files: Files,
    pub(crate) lines: Words,
    pub(crate) before: Option<Key>,
}

/// What tells an executable at a place apart, where it has a line.
fn key_of(
    files: &mut Files,
    alloc: Global,
    tables: &DebugTables,
    place: Place,
) -> Result<Option<Key>, NoMemory>
    requires { AreFiles tables.now files.old }
    ensures files { OnOk result (AreFiles tables.now files.new) }
    ensures grows { OnOk result (Grows files.old.list.items files.new.list.items) }
    ensures key { IfOk result (λ key. option_map (named_key files.new.list.items) key ≡ spec.key_of tables.now place) }
    ensures within { IfOk result (λ key. IfSome key (λ k. k.file < length files.new.list.items)) }
{
    if place.line == 0 {
        return Ok(None);
    }
    Ok(Some(Key {
        file: files.number(alloc, tables, place.file)?,
        line: place.line,
        inlined: place.inlined,
    }))
}

/// Whether a line begins at an executable, where one stands before it in the block or none.
fn begins(before: Option<Key>, key: Key) -> bool
    ensures { result ≡ not (option_map_or (λ k. same_number k key) before false) }
{
    match before {
        Some(k) => k.file != key.file || k.line != key.line || k.inlined != key.inlined,
        None => true,
    }
}

/// Puts a word behind those of its line.
fn push_word(
    lines: &mut Words,
    alloc: Global,
    line: (usize, u32),
    word: u32,
) -> Result<(), NoMemory>
    ensures { OnOk result ((other : NumberedLine) → words_under lines.new other ≡ words_under lines.old other ++ (if is_line other (word, line) then word ∷ [] else [])) }
{
    let mut words = match lines.remove(&line) {
        Some(words) => words,
        None => Vec::new(alloc),
    };
    words.push(word)?;
    lines.insert(line, words)?;
    Ok(())
}

impl Found {
    /// Nothing was found.
    fn new(alloc: Global) -> Found
        ensures found { (t : Tables) (spots : Spots) → IsFound t spots [] result }
        ensures heads { found_heads result ≡ [] }
    {
        Found {
            entries: Vec::new(alloc),
            files: Files::new(alloc),
            lines: BTreeMap::new(alloc),
            before: None,
        }
    }

    /// Adds the executable at a word, if a line begins there.
    fn add_head(&mut self, alloc: Global, word: u32, key: Option<Key>) -> Result<(), NoMemory>
        ensures files { OnOk result (self.new.files ≡ self.old.files) }
        ensures before { OnOk result (self.new.before ≡ self.old.before) }
        ensures entries { OnOk result (self.new.entries.items ≡ self.old.entries.items ++ entry_of word (begun self.old.before key)) }
        ensures lines { OnOk result ((line : NumberedLine) → words_under self.new.lines line ≡ words_under self.old.lines line ++ words_with (entry_of word (begun self.old.before key)) line) }
    {
        let Some(key) = key else {
            return Ok(());
        };
        if begins(self.before, key) {
            let line = (key.file, key.line);
            self.entries.push((word, line))?;
            push_word(&mut self.lines, alloc, line, word)?;
        }
        Ok(())
    }

    /// Adds the executable, if a run stops there and a line begins.
    fn add_stop(
        &mut self,
        alloc: Global,
        stand: &Stand<'_>,
        key: Option<Key>,
    ) -> Result<(), NoMemory>
        ensures files { OnOk result (self.new.files ≡ self.old.files) }
        ensures before { OnOk result (self.new.before ≡ self.old.before) }
        ensures entries { OnOk result (self.new.entries.items ≡ self.old.entries.items ++ put_at (record { position = stand.now.position; class = stand.now.class; inst = stand.now.inst.now }) self.old.before key) }
        ensures lines { OnOk result ((line : NumberedLine) → words_under self.new.lines line ≡ words_under self.old.lines line ++ words_with (put_at (record { position = stand.now.position; class = stand.now.class; inst = stand.now.inst.now }) self.old.before key) line) }
    {
        if !stand.is_stop() {
            return Ok(());
        }
        self.add_head(alloc, stand.inst.word, key)
    }

    /// Goes past an instruction.
    fn add(
        &mut self,
        alloc: Global,
        tables: &DebugTables,
        spots: &SpotTable,
        stand: &Stand<'_>,
    ) -> Result<(), NoMemory>
        requires { AreFiles tables.now self.old.files }
        ensures found { OnOk result ((passed : List Stood) → IsFound tables.now spots.now passed self.old → IsFound tables.now spots.now (record { position = stand.now.position; class = stand.now.class; inst = stand.now.inst.now } ∷ passed) self.new) }
        ensures heads { OnOk result ((passed : List Stood) → IsFound tables.now spots.now passed self.old → found_heads self.new ≡ found_heads self.old ++ spec.head_at tables.now spots.now passed (record { position = stand.now.position; class = stand.now.class; inst = stand.now.inst.now })) }
    {
        if stand.class.is_label() {
            self.before = None;
            return Ok(());
        }
        if !stand.class.is_executable() {
            return Ok(());
        }
        let place = spots.place(stand.inst.word);
        let key = key_of(&mut self.files, alloc, tables, place)?;
        self.add_stop(alloc, stand, key)?;
        self.before = key;
        Ok(())
    }
}

/// The line heads of a module.
#[tactic(auto, unfolding(crate::specs::Heads::heads_of))]
pub(crate) fn heads_of(
    alloc: Global,
    module: &Module,
    tables: &DebugTables,
    spots: &SpotTable,
) -> Result<Heads, NoMemory>
    ensures { IfOk result (λ heads. heads ≡ spec.heads_of module.now tables.now spots.now) }
{
    let stands = module.index().stands();
    let mut found = Found::new(alloc);
    for n in 0..stands.len() {
        let stand = stands.at(n);
        found.add(alloc, tables, spots, &stand)?;
    }
    Heads::of(alloc, found)
}

impl Heads {
    /// The heads that were found.
    fn of(alloc: Global, found: Found) -> Result<Heads, NoMemory>
        requires { AreKept found }
        ensures { IfOk result (λ heads. heads ≡ found_heads found) }
    {
        let Found {
            entries,
            files,
            lines,
            before: _,
        } = found;
        let Files {
            list,
            names,
            ids: _,
        } = files;
        let table = Table::new(alloc, entries)?;
        Ok(Heads {
            table,
            files: list,
            names,
            lines,
        })
    }

    /// Whether a line begins at the instruction at a word.
    pub(crate) fn is_head(&self, word: u32) -> bool
        ensures { result ≡ spec.is_head self.now word }
    {
        self.table.get(word).is_some()
    }

    /// The number of the line that begins at the instruction at a word, and 0 where none does.
    pub(crate) fn line_begun(&self, word: u32) -> u32
        ensures { result ≡ spec.line_begun self.now word }
    {
        match self.table.get(word) {
            Some((_, line)) => line,
            None => 0,
        }
    }

    /// The words of the heads of a line of the file with a name.
    pub(crate) fn with(&self, alloc: Global, file: &[u8], line: u32) -> Result<Places, NoMemory>
        ensures { IfOk result (λ words. words ≡ spec.heads_with self.now (file.now, line)) }
    {
        let Some(number) = self.names.get(file) else {
            return Ok(Places::new(alloc));
        };
        match self.lines.get(&(*number, line)) {
            Some(words) => Places::from_slice(alloc, words.as_slice()),
            None => Ok(Places::new(alloc)),
        }
    }
}
