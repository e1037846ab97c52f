//! Which function calls which, and which chains of calls are too long.
ghost use Rattle.std.specs.Prelude.{◌≡◌, ◌<◌, ℕ, IfOk, IfSome, length, slice_index};
ghost use Rattle.std.specs.List.{All, flat_map};
ghost use Rattle.spv_base.specs.Entries.{reads};
ghost use Rattle.spv_base.specs.Lowest.{lowest};
ghost use Rattle.spv_base.specs.Saturation.{saturated};
ghost use Rattle.spv_cfg.specs.Calls as spec;
ghost use Rattle.spv_cfg.specs.Chains as chains;

use crate::chains::{most_called, sums};
use spv_base::{Inst, NoMemory, lower};
use spv_index::stands::Stands;
use spv_index::{Index, Table, id_operand};
use spv_ops::op;
use std::alloc::Global;
use std::marker::Model;

/// The functions of a module in their order, and the calls among them.
#[derive(Drop)]
pub struct Calls {
    /// The id and the word of each OpFunction.
    functions: Vec<(u32, u32)>,
    /// By the id of a function, its number.
    numbers: Table<usize>,
    /// Each call by the number of the function that it stands in and the number of the one that it names.
    list: Vec<(usize, usize)>,
}

impl Model for Calls {
    ghost use Rattle.std.specs.Prelude.{◌≡◌, ◌<◌, length};
    ghost use Rattle.std.specs.List.{All};
    ghost use Rattle.spv_cfg.specs.Calls as spec;

    ghost Value = { spec.Calls };

    ghost view = { λ c. record { functions = c.functions.items; list = c.list.items } };

    ghost invariant = { λ c. (c.numbers ≡ spec.numbered 0 c.functions.items)
        × All (λ call. (call.0 < length c.functions.items) × (call.1 < length c.functions.items)) c.list.items };
}

/// The functions: the id and the word of each OpFunction.
fn functions_of(alloc: Global, insts: &[Inst]) -> Result<Vec<(u32, u32)>, NoMemory>
    ensures { IfOk result (λ functions. functions.items ≡ spec.functions_of insts.now) }
{
    let mut functions = Vec::new(alloc);
    for inst in insts {
        if inst.op == op::FUNCTION {
            functions.push((inst.id, inst.word))?;
        }
    }
    Ok(functions)
}

/// The numbers of the functions by their ids.
fn numbers_by_id(alloc: Global, functions: &[(u32, u32)]) -> Result<Table<usize>, NoMemory>
    ensures { IfOk result (λ numbers. numbers ≡ spec.numbered 0 functions.now) }
{
    let mut numbers = Vec::new(alloc);
    for k in 0..functions.len() {
        numbers.push((functions[k].0, k))?;
    }
    Table::new(alloc, numbers)
}

/// The number of the function that an OpFunctionCall names.
fn callee_of(numbers: &Table<usize>, inst: &Inst) -> Option<usize>
    ensures { result ≡ spec.callee_of numbers.now inst.now }
{
    numbers.get(id_operand(inst, 0)?)
}

/// The calls among instructions, each by the number of the function that it stands in and the number of the one that it
/// names.
fn calls_among(
    alloc: Global,
    numbers: &Table<usize>,
    stands: &Stands,
) -> Result<Vec<(usize, usize)>, NoMemory>
    ensures { IfOk result (λ calls. calls.items ≡ flat_map (spec.call_of numbers.now) stands.now) }
{
    let mut calls = Vec::new(alloc);
    for n in 0..stands.len() {
        let stand = stands.at(n);
        if stand.inst.op == op::FUNCTION_CALL && stand.position.stage.in_function() {
            if let Some(caller) = numbers.get(stand.position.function) {
                if let Some(callee) = callee_of(numbers, stand.inst) {
                    calls.push((caller, callee))?;
                }
            }
        }
    }
    Ok(calls)
}

impl Calls {
    /// The functions of a module, and the calls among them.
    pub fn of(alloc: Global, index: &Index) -> Result<Calls, NoMemory>
        ensures { IfOk result (λ calls. calls ≡ spec.calls_in index.now.insts) }
    {
        let functions = functions_of(alloc, index.insts())?;
        let numbers = numbers_by_id(alloc, functions.as_slice())?;
        let list = calls_among(alloc, &numbers, &index.stands())?;
        Ok(Calls {
            functions,
            numbers,
            list,
        })
    }

    /// How many functions there are.
    pub fn count(&self) -> usize
        ensures count { result ≡ length self.now.functions }
        ensures numbers { (id : ℕ) → IfSome (reads id (spec.numbered 0 self.now.functions)) (λ number. number < result) }
    {
        self.functions.len()
    }

    /// The functions: the id of each, and the word of its OpFunction.
    pub fn functions(&self) -> &[(u32, u32)]
        ensures { result.now ≡ self.now.functions }
    {
        self.functions.as_slice()
    }

    /// The number of the function with an id, counted from 0 in the order of the module.
    pub fn number(&self, function: u32) -> Option<usize>
        ensures number { result ≡ reads function (spec.numbered 0 self.now.functions) }
        ensures within { IfSome result (λ number. number < length self.now.functions) }
    {
        self.numbers.get(function)
    }

    /// The calls, each by the number of the function that it stands in and the number of the one that it names.
    pub fn list(&self) -> &[(usize, usize)]
        ensures list { result.now ≡ self.now.list }
        ensures within { All (λ call. (call.0 < length self.now.functions) × (call.1 < length self.now.functions)) result.now }
    {
        self.list.as_slice()
    }

    /// For each function the weight of the heaviest chain of calls from it, of the chains of at most 65 functions, where
    /// each function has a weight. Weights stop at the greatest u64.
    pub fn heaviest(&self, alloc: Global, weights: &[u64]) -> Result<Vec<u64>, NoMemory>
        requires { length weights.now ≡ length self.now.functions }
        ensures len { IfOk result (λ heaviest. length heaviest.items ≡ length self.now.functions) }
        ensures heaviest { (weigh : ℕ → ℕ) → ((f : ℕ) → f < length weights.now → slice_index weights.now f ≡ saturated (weigh f))
            → IfOk result (λ heaviest. (f : ℕ) → f < length weights.now → slice_index heaviest.items f ≡ saturated (chains.heaviest chains.limit weigh self.now.list f)) }
    {
        let calls = self.list();
        let mut heaviest: Vec<u64> = vec![in alloc; 0; weights.len()]?;
        let mut most: u32 = 0;
        'heavier: while most < 65 {
            let called = most_called(alloc, calls, heaviest.as_slice())?;
            let heavier = sums(alloc, weights, called.as_slice())?;
            heaviest = heavier;
            most += 1;
        }
        Ok(heaviest)
    }

    /// For each function the length of the longest chain of calls from it, of the chains of at most 65 functions: its
    /// weight where each function weighs 1.
    pub fn lengths(&self, alloc: Global) -> Result<Vec<u32>, NoMemory>
        ensures lengths { IfOk result (λ lengths. lengths.items ≡ chains.lengths self.now.list 0 (length self.now.functions)) }
        ensures len { IfOk result (λ lengths. length lengths.items ≡ length self.now.functions) }
    {
        let ones: Vec<u64> = vec![in alloc; 1; self.count()]?;
        let heaviest = self.heaviest(alloc, ones.as_slice())?;
        let mut lengths = Vec::new(alloc);
        for length in heaviest.as_slice() {
            lengths.push(*length as u32)?;
        }
        Ok(lengths)
    }
}

/// The functions, each with its depth.
pub fn depths_of(
    alloc: Global,
    functions: &[(u32, u32)],
    lengths: &[u32],
) -> Result<Table<u32>, NoMemory>
    requires { length lengths.now ≡ length functions.now }
    ensures { IfOk result (λ depths. depths ≡ spec.depths functions.now lengths.now) }
{
    let mut depths = Vec::new(alloc);
    for k in 0..functions.len() {
        depths.push((functions[k].0, lengths[k]))?;
    }
    Table::new(alloc, depths)
}

/// The word, where so many functions are too many.
fn over(word: u32, length: u32) -> Option<u32>
    ensures { result ≡ lowest (spec.over word length) }
{
    if length > 64 { Some(word) } else { None }
}

/// The lowest word of a function from which a chain of more than 64 functions starts.
pub fn call_breach(functions: &[(u32, u32)], lengths: &[u32]) -> Option<u32>
    requires { length lengths.now ≡ length functions.now }
    ensures { result ≡ lowest (spec.too_deep functions.now lengths.now) }
{
    let mut least = None;
    for k in 0..functions.len() {
        let next = over(functions[k].1, lengths[k]);
        least = lower(least, next);
    }
    least
}
