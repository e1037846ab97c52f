//! The index of a module, built once: who defines an id, what stands at a word, and what the module says of ids.
ghost use Rattle.std.specs.Prelude.{◌≡◌, ◌<◌, ◌≤◌, ℕ, true, find, IfOk, IfSome, length, map, take, option_copied, slice_get};
ghost use Rattle.std.specs.List.{AllByRecursion};
ghost use Rattle.std.specs.Option.{is_some, option_and_then, option_map};
ghost use Rattle.spv_ops.specs.Module.{IsDecoded};
ghost use Rattle.spv_index.specs.Contents as contents;
ghost use Rattle.spv_index.specs.Definitions as spec;
ghost use Rattle.spv_index.specs.Firsts.{slot};
ghost use Rattle.spv_index.specs.Classes.{sets_of};
ghost use Rattle.spv_index.specs.Positions.{stand_of, standing, stands_of};

use crate::classes::sets_of;
use crate::decorations::{decorations_of, member_decorations_of};
use crate::firsts::{Firsts, first_numbers};
use crate::operands::{id_operand, literal_operand, text_operand};
use crate::positions::{Standing, standings_of};
use crate::stands::Stands;
use crate::table::Table;
use spv_base::{Inst, NoMemory};
use spv_ops::{DecodedModule, op};
use std::alloc::Global;
use std::collections::BTreeMap;
use std::marker::Model;

/// Ids are below this number, the greatest Bound.
const ID_LIMIT: u32 = 1_048_576;

/// A module with what it says of ids and words. Contracts see the module.
pub struct Index {
    module: DecodedModule,
    /// By id, the number of the instruction that defines it.
    definitions: Firsts<u32>,
    /// By word, the number of the instruction that begins there.
    words: Firsts<u32>,
    /// By id, the number of the OpName for it.
    names: Firsts<u32>,
    /// By target and decoration, the number of the OpDecorate.
    decorations: BTreeMap<(u32, u32), u32>,
    /// By structure type, member and decoration, the number of the OpMemberDecorate.
    member_decorations: BTreeMap<(u32, u32, u32), u32>,
    functions_start: usize,
    /// The imported sets, each with whether it has no meaning at run time.
    sets: Table<bool>,
    /// Where each instruction stands, and what it is there.
    standings: Vec<Standing>,
}

// Written out, so that it is proved once: a derived drop is proved again in each function that lets go of such a value.
impl Drop for Index {
    fn drop(self) {
        let Index {
            module,
            definitions,
            words,
            names,
            decorations,
            member_decorations,
            functions_start: _,
            sets,
            standings,
        } = self;
        drop(module);
        drop(definitions);
        drop(words);
        drop(names);
        drop(decorations);
        drop(member_decorations);
        drop(sets);
        drop(standings);
    }
}

impl Model for Index {
    ghost use Rattle.std.specs.BTreeMap.{get};
    ghost use Rattle.spv_ops.specs.Module.{Decoded};
    ghost use Rattle.spv_index.specs.Contents.{IsIndex};
    ghost use Rattle.spv_index.specs.Keys.{pair_cmp, triple_cmp};

    ghost Value = { Decoded };

    ghost view = { λ x. x.module };

    ghost invariant = { λ x. IsIndex x.module x.definitions x.words x.names (λ id kind. get pair_cmp x.decorations (id, kind))
        (λ id member kind. get triple_cmp x.member_decorations (id, member, kind)) x.functions_start x.sets x.standings.items };
}

/// Whether a number may be an id.
fn is_id(id: u32) -> bool
    ensures { result ≡ spec.is_id id }
{
    0 < id && id < ID_LIMIT
}

/// The results of the instructions, and 0 for those without one.
fn results_of(alloc: Global, insts: &[Inst]) -> Result<Vec<u32>, NoMemory>
    ensures { IfOk result (λ ids. ids.items ≡ map (λ i. i.id) insts.now) }
{
    Ok(insts.iter().map(|inst| inst.id).collect(alloc)?)
}

/// The words at which the instructions begin.
fn words_of(alloc: Global, insts: &[Inst]) -> Result<Vec<u32>, NoMemory>
    ensures { IfOk result (λ words. words.items ≡ map (λ i. i.word) insts.now) }
{
    Ok(insts.iter().map(|inst| inst.word).collect(alloc)?)
}

/// By id, the number of the instruction that defines it.
fn numbers_by_result(alloc: Global, insts: &[Inst]) -> Result<Firsts<u32>, NoMemory>
    requires { length insts.now ≤ 1048576 }
    ensures { IfOk result (λ numbers. (id : ℕ) → id < 1048576 → slot numbers id ≡ spec.number_from 0 (spec.has_result id) insts.now) }
{
    let ids = results_of(alloc, insts)?;
    let numbers = first_numbers(alloc, ids.as_slice())?;
    Ok(numbers)
}

/// By word, the number of the instruction that begins there.
fn numbers_by_word(alloc: Global, insts: &[Inst]) -> Result<Firsts<u32>, NoMemory>
    requires few { length insts.now ≤ 1048576 }
    requires words { AllByRecursion (λ i. i.word < 1048576) insts.now }
    ensures { IfOk result (λ numbers. (word : ℕ) → slot numbers word ≡ spec.number_from 0 (spec.stands_at word) insts.now) }
{
    let words = words_of(alloc, insts)?;
    let numbers = first_numbers(alloc, words.as_slice())?;
    Ok(numbers)
}

/// The id that an OpName names, and 0 for other instructions.
fn name_target(inst: &Inst) -> u32
    ensures { result ≡ contents.name_target inst.now }
{
    if inst.op == op::NAME {
        id_operand(inst, 0).unwrap_or(0)
    } else {
        0
    }
}

/// The ids that OpNames name, and 0 for other instructions.
fn named_ids(alloc: Global, insts: &[Inst]) -> Result<Vec<u32>, NoMemory>
    ensures { IfOk result (λ ids. ids.items ≡ map contents.name_target insts.now) }
{
    Ok(insts.iter().map(|inst| name_target(inst)).collect(alloc)?)
}

/// By id, the number of the OpName for it.
fn numbers_by_name(alloc: Global, insts: &[Inst]) -> Result<Firsts<u32>, NoMemory>
    requires { length insts.now ≤ 1048576 }
    ensures { IfOk result (λ numbers. (id : ℕ) → 0 < id → id < 1048576 → slot numbers id ≡ spec.number_from 0 (spec.names_it id) insts.now) }
{
    let ids = named_ids(alloc, insts)?;
    let numbers = first_numbers(alloc, ids.as_slice())?;
    Ok(numbers)
}

/// How many instructions stand before the functions.
fn functions_start(insts: &[Inst]) -> usize
    ensures within { result ≤ length insts.now }
    ensures before { take result insts.now ≡ spec.before_functions insts.now }
{
    for (n, inst) in insts.iter().enumerate() {
        if inst.op == op::FUNCTION {
            return n;
        }
    }
    insts.len()
}

/// The type of an instruction's result, where it has one.
pub fn type_in(inst: &Inst) -> Option<u32>
    ensures { result ≡ spec.type_in inst.now }
{
    if inst.ty == 0 { None } else { Some(inst.ty) }
}

/// The instruction with a number.
fn inst_with(insts: &[Inst], number: Option<u32>) -> Option<&Inst>
    ensures { option_copied result ≡ option_and_then (slice_get insts.now) number }
{
    insts.get(number? as usize)
}

/// The standing with a number.
fn standing_with(standings: &[Standing], number: Option<usize>) -> Option<Standing>
    ensures { result ≡ option_and_then (slice_get standings.now) number }
{
    standings.get(number?).copied()
}

impl Index {
    /// The index of a module.
    pub fn of(alloc: Global, decoded: DecodedModule) -> Result<Index, NoMemory>
        ensures { IfOk result (λ index. index ≡ decoded) }
    {
        let insts = decoded.insts();
        let definitions = numbers_by_result(alloc, insts)?;
        let words = numbers_by_word(alloc, insts)?;
        let names = numbers_by_name(alloc, insts)?;
        let decorations = decorations_of(alloc, insts)?;
        let member_decorations = member_decorations_of(alloc, insts)?;
        let functions_start = functions_start(insts);
        let sets = sets_of(alloc, insts)?;
        let standings = standings_of(alloc, &sets, insts)?;
        Ok(Index {
            module: decoded,
            definitions,
            words,
            names,
            decorations,
            member_decorations,
            functions_start,
            sets,
            standings,
        })
    }

    /// The instructions, in their order.
    pub fn insts(&self) -> &[Inst]
        ensures insts { result.now ≡ self.now.insts }
        ensures decoded { IsDecoded self.now }
        ensures few { length result.now ≤ 1048576 }
    {
        self.module.insts()
    }

    /// The Bound. It is at most 1,048,576.
    pub fn bound(&self) -> u32
        ensures bound { result ≡ self.now.bound }
        ensures limit { result ≤ 1048576 }
    {
        self.module.bound()
    }

    /// How many instructions stand before the functions.
    pub fn functions_start(&self) -> usize
        ensures within { result ≤ length self.now.insts }
        ensures before { take result self.now.insts ≡ spec.before_functions self.now.insts }
    {
        self.functions_start
    }

    /// The imported sets, each with whether it has no meaning at run time.
    pub fn sets(&self) -> &Table<bool>
        ensures { result.now ≡ sets_of self.now.insts }
    {
        &self.sets
    }

    /// Where each instruction stands and what it is there, by their numbers.
    pub fn standings(&self) -> &[Standing]
        ensures standings { result.now ≡ map standing (stands_of self.now.insts) }
        ensures len { length result.now ≡ length self.now.insts }
    {
        &self.standings
    }

    /// The instructions with their standings.
    pub fn stands(&self) -> Stands<'_>
        ensures { result ≡ stands_of self.now.insts }
    {
        Stands::of(self.insts(), self.standings())
    }

    /// Where the instruction that defines an id stands, and what it is there.
    pub fn standing(&self, id: u32) -> Option<Standing>
        ensures { result ≡ option_map standing (stand_of self.now.insts id) }
    {
        standing_with(&self.standings, self.number_of(id))
    }

    /// The number of the instruction that defines an id.
    pub fn number_of(&self, id: u32) -> Option<usize>
        ensures number { result ≡ spec.number_of self.now.insts id }
        ensures within { IfSome result (λ n. n < length self.now.insts) }
    {
        if !is_id(id) {
            return None;
        }
        Some(self.definitions.get(id)? as usize)
    }

    /// The instruction that defines an id.
    pub fn defining(&self, id: u32) -> Option<&Inst>
        ensures { option_copied result ≡ spec.defining self.now.insts id }
    {
        if !is_id(id) {
            return None;
        }
        inst_with(self.module.insts(), self.definitions.get(id))
    }

    /// The type of the result with an id, where it has one.
    pub fn result_type(&self, id: u32) -> Option<u32>
        ensures { result ≡ spec.result_type self.now.insts id }
    {
        type_in(self.defining(id)?)
    }

    /// The number of the instruction that begins at a word.
    pub fn number_at(&self, word: u32) -> Option<usize>
        ensures number { result ≡ spec.number_at self.now.insts word }
        ensures within { IfSome result (λ n. n < length self.now.insts) }
    {
        Some(self.words.get(word)? as usize)
    }

    /// The instruction that begins at a word.
    pub fn at(&self, word: u32) -> Option<&Inst>
        ensures { option_copied result ≡ spec.at self.now.insts word }
    {
        inst_with(self.module.insts(), self.words.get(word))
    }

    /// The OpName for an id.
    fn naming(&self, id: u32) -> Option<&Inst>
        requires { spec.is_id id ≡ true }
        ensures { option_copied result ≡ find (spec.names_it id) self.now.insts }
    {
        inst_with(self.module.insts(), self.names.get(id))
    }

    /// The name that an OpName gives an id.
    #[tactic(auto, unfolding(crate::specs::Definitions::name_of))]
    pub fn name(&self, id: u32) -> Option<&[u8]>
        ensures { option_copied result ≡ spec.name_of self.now.insts id }
    {
        if !is_id(id) {
            return None;
        }
        text_operand(self.naming(id)?, 1)
    }

    /// The instruction that puts a decoration on an id.
    fn decorating(&self, id: u32, kind: u32) -> Option<&Inst>
        ensures { option_copied result ≡ spec.decorating self.now.insts id kind }
    {
        inst_with(
            self.module.insts(),
            self.decorations.get(&(id, kind)).copied(),
        )
    }

    /// Whether an id has a decoration. In logarithmic time.
    pub fn is_decorated(&self, id: u32, kind: u32) -> bool
        ensures { result ≡ is_some (spec.decorating self.now.insts id kind) }
    {
        self.decorating(id, kind).is_some()
    }

    /// The first literal behind a decoration of an id. In logarithmic time.
    pub fn decoration(&self, id: u32, kind: u32) -> Option<u32>
        ensures { result ≡ spec.decoration self.now.insts id kind }
    {
        literal_operand(self.decorating(id, kind)?, 2)
    }

    /// The instruction that puts a decoration on a member of a structure type.
    fn member_decorating(&self, id: u32, member: u32, kind: u32) -> Option<&Inst>
        ensures { option_copied result ≡ spec.member_decorating self.now.insts id member kind }
    {
        inst_with(
            self.module.insts(),
            self.member_decorations.get(&(id, member, kind)).copied(),
        )
    }

    /// The first literal behind a decoration of a member of a structure type. In logarithmic time.
    pub fn member_decoration(&self, id: u32, member: u32, kind: u32) -> Option<u32>
        ensures { result ≡ spec.member_decoration self.now.insts id member kind }
    {
        literal_operand(self.member_decorating(id, member, kind)?, 3)
    }
}
