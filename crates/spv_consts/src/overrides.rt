//! Overrides of specialization constants.
ghost use Rattle.std.specs.Prelude.{◌≡◌, ◌||◌, ℕ, IfOk, OnOk};
ghost use Rattle.std.specs.BTreeMap.{get};
ghost use Rattle.std.specs.Ordering.{nat_cmp};
ghost use Rattle.std.specs.Option.{is_some};
ghost use Rattle.spv_base.specs.Options.{holds};
ghost use Rattle.spv_types.specs.Types.{form_of};
ghost use Rattle.spv_consts.specs.Overrides as spec;

use spv_base::{Cell, Inst, Items, NoMemory};
use spv_index::{Index, Table};
use spv_ops::{decoration, op};
use spv_types::{Form, TypeTable};
use std::alloc::Global;
use std::collections::BTreeMap;

/// Whether constants of an opcode have a SpecId.
pub(crate) fn is_specializable(opcode: u16) -> bool
    ensures { result ≡ spec.is_specializable opcode }
{
    matches!(
        opcode,
        op::SPEC_CONSTANT_TRUE | op::SPEC_CONSTANT_FALSE | op::SPEC_CONSTANT
    )
}

/// The SpecId of a constant.
pub(crate) fn spec_id_of(index: &Index, inst: &Inst) -> Option<u32>
    ensures { result ≡ spec.spec_id_of index.now.insts inst.now }
{
    if is_specializable(inst.op) {
        index.decoration(inst.id, decoration::SPEC_ID)
    } else {
        None
    }
}

fn is_between(least: i128, greatest: i128, n: i128) -> bool
    ensures { result ≡ spec.is_between least greatest n }
{
    least <= n && n <= greatest
}

/// Whether a number fits a type: 0 and 1 fit a Boolean, and -2^(w-1) to 2^w - 1 an integer of width w.
fn fits(types: &TypeTable, ty: u32, n: i128) -> bool
    ensures { result ≡ spec.fits_form (form_of types.now ty) n }
{
    match types.form(ty) {
        Some(Form::Bool) => is_between(0, 1, n),
        Some(Form::Int { width: 8, .. }) => is_between(-128, 255, n),
        Some(Form::Int { width: 16, .. }) => is_between(-32_768, 65_535, n),
        Some(Form::Int { width: 32, .. }) => is_between(-2_147_483_648, 4_294_967_295, n),
        Some(Form::Int { width: 64, .. }) => is_between(
            -9_223_372_036_854_775_808,
            18_446_744_073_709_551_615,
            n,
        ),
        _ => false,
    }
}

/// The SpecId of a constant whose type the number for it does not fit.
fn misfit(index: &Index, types: &TypeTable, over: &Table<i128>, inst: &Inst) -> Option<u32>
    ensures { (id : ℕ) → holds id result ≡ spec.is_misfit index.now.insts types.now over.now id inst.now }
{
    let id = spec_id_of(index, inst)?;
    let number = over.get(id)?;
    if fits(types, inst.ty, number) {
        None
    } else {
        Some(id)
    }
}

/// Adds a number to a set.
fn note(set: &mut BTreeMap<u32, ()>, number: Option<u32>) -> Result<(), NoMemory>
    ensures { OnOk result ((id : ℕ) → is_some (get nat_cmp set.new id) ≡ (is_some (get nat_cmp set.old id) || holds id number)) }
{
    if let Some(number) = number {
        set.insert(number, ())?;
    }
    Ok(())
}

/// The SpecIds whose numbers do not fit some constant among these instructions (SPIR-V 1.6 section 2.9).
pub fn misfits(
    alloc: Global,
    index: &Index,
    types: &TypeTable,
    over: &Table<i128>,
    insts: &[Inst],
) -> Result<BTreeMap<u32, ()>, NoMemory>
    ensures { IfOk result (λ set. (id : ℕ) → is_some (get nat_cmp set id) ≡ spec.has_misfit index.now.insts types.now over.now insts.now id) }
{
    let mut set = BTreeMap::new(alloc);
    for inst in insts {
        note(&mut set, misfit(index, types, over, inst))?;
    }
    Ok(set)
}

/// The SpecIds that constants among these instructions have (SPIR-V 1.6 section 2.9).
pub fn known_spec_ids(
    alloc: Global,
    index: &Index,
    insts: &[Inst],
) -> Result<BTreeMap<u32, ()>, NoMemory>
    ensures { IfOk result (λ set. (id : ℕ) → is_some (get nat_cmp set id) ≡ spec.is_known index.now.insts insts.now id) }
{
    let mut set = BTreeMap::new(alloc);
    for inst in insts {
        note(&mut set, spec_id_of(index, inst))?;
    }
    Ok(set)
}

/// The overrides whose SpecIds are not in a set.
fn without(
    alloc: Global,
    index: &Index,
    types: &TypeTable,
    over: &Table<i128>,
    set: &BTreeMap<u32, ()>,
    numbers: &[(u32, i128)],
) -> Result<Vec<(u32, i128)>, NoMemory>
    requires { (id : ℕ) → is_some (get nat_cmp set.now id) ≡ spec.has_misfit index.now.insts types.now over.now index.now.insts id }
    ensures { IfOk result (λ held. held.items ≡ spec.fitting_overrides index.now.insts types.now over.now numbers.now) }
{
    let mut held = Vec::new(alloc);
    for number in numbers {
        if set.contains_key(&number.0) {
            continue;
        }
        held.push(*number)?;
    }
    Ok(held)
}

/// The overrides that hold: those that fit all the constants of their SpecId.
pub(crate) fn fitting_overrides(
    alloc: Global,
    index: &Index,
    types: &TypeTable,
    over: &Items<(u32, i128)>,
) -> Result<Table<i128>, NoMemory>
    ensures { IfOk result (λ held. held ≡ spec.fitting_overrides index.now.insts types.now over.now over.now) }
{
    let table = Table::new(alloc, over.copy(alloc)?.into_vec())?;
    let set = misfits(alloc, index, types, &table, index.insts())?;
    let held = without(alloc, index, types, &table, &set, over.as_slice())?;
    Table::new(alloc, held)
}

/// A constant's lane, or the low-order bits of the number that overrides it.
pub(crate) fn overridden(cell: Cell, number: Option<i128>) -> Cell
    ensures { result ≡ spec.overridden cell number }
{
    match number {
        Some(n) => Cell {
            bits: n.rem_euclid(1 << cell.width) as u64,
            width: cell.width,
            defined: true,
        },
        None => cell,
    }
}
