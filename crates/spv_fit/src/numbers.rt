//! Numbers for SpecIds (SPIR-V 1.6 section 2.9).
ghost use Rattle.std.specs.Prelude.{◌≡◌, ℕ};
ghost use Rattle.std.specs.BTreeMap.{get};
ghost use Rattle.std.specs.Ordering.{nat_cmp};
ghost use Rattle.std.specs.Option.{is_some};
ghost use Rattle.spv_base.specs.Answers.{Answers};
ghost use Rattle.spv_consts.specs.Overrides as spec;
ghost use Rattle.spv_fit.specs.Numbers as due;

use spv_base::{Fail, Overrides, SetupRefusal};
use spv_consts::{known_spec_ids, misfits};
use spv_index::{Index, Table};
use spv_types::TypeTable;
use std::alloc::Global;
use std::collections::BTreeMap;

/// The lowest line of a number whose SpecId no constant has, or that does not fit.
fn unfit_line(
    index: &Index,
    types: &TypeTable,
    over: &Table<i128>,
    known: &BTreeMap<u32, ()>,
    misfits: &BTreeMap<u32, ()>,
    numbers: &[(u32, i128)],
    lines: &[u32],
) -> Option<u32>
    requires known { (id : ℕ) → is_some (get nat_cmp known.now id) ≡ spec.is_known index.now.insts index.now.insts id }
    requires misfits { (id : ℕ) → is_some (get nat_cmp misfits.now id) ≡ spec.has_misfit index.now.insts types.now over.now index.now.insts id }
    ensures { result ≡ due.unfit_line index.now.insts types.now over.now numbers.now lines.now }
{
    let mut numbers = numbers;
    let mut lines = lines;
    'each: while let Some((number, more)) = numbers.split_first() {
        let (line, rest) = lines.split_first()?;
        if !known.contains_key(&number.0) || misfits.contains_key(&number.0) {
            return Some(*line);
        }
        numbers = more;
        lines = rest;
    }
    None
}

/// Looks whether each number is for a SpecId that a constant has, and fits the type of each constant that has it. Else S8 at
/// the lowest line of one that isn't. Each number has a line.
pub fn check_numbers(
    alloc: Global,
    index: &Index,
    types: &TypeTable,
    over: &Overrides,
    lines: &[u32],
) -> Result<(), Fail<SetupRefusal>>
    ensures { Answers (due.check_numbers index.now.insts types.now over.now lines.now) result }
{
    let table = Table::new(alloc, over.copy(alloc)?.into_vec())?;
    let misfits = misfits(alloc, index, types, &table, index.insts())?;
    let known = known_spec_ids(alloc, index, index.insts())?;
    match unfit_line(
        index,
        types,
        &table,
        &known,
        &misfits,
        over.as_slice(),
        lines,
    ) {
        None => Ok(()),
        Some(line) => Err(Fail::Refused(SetupRefusal { code: 8, line })),
    }
}
