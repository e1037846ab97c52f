//! The cells of a run: the leaves of its variables, and those of the frames.
ghost use Rattle.std.specs.Prelude.{◌≡◌, ℕ, ◌∷◌, ◌-◌, ◌==◌, ◌&&◌, [], length, option_copied, slice_get, unwrap_or};
ghost use Rattle.std.specs.BTreeMap.{get};
ghost use Rattle.std.specs.Option.{option_map_or};
ghost use Rattle.spv_base.specs.Answers.{Answers};
ghost use Rattle.spv_index.specs.Keys.{pair_cmp};
ghost use Rattle.spv_index.specs.Operands.{literal_operand};
ghost use Rattle.spv_base.specs.Saturation.{saturated};
ghost use Rattle.spv_base.specs.Options.{holds};
ghost use Rattle.spv_types.specs.Leaves.{leaf_of};
ghost use Rattle.spv_types.specs.Types.{form_of};
ghost use Rattle.spv_fit.specs.Given as bytes;
ghost use Rattle.spv_fit.specs.Cells as due;

use crate::bytes::given_to;
use crate::given::Given;
use spv_base::{Fail, Inst, SetupRefusal};
use spv_index::{Index, literal_operand};
use spv_ops::{op, storage_class};
use spv_setup::Setup;
use spv_types::places::elements_in;
use spv_types::{Form, Member, TypeTable, is_block_variable};
use std::collections::BTreeMap;

/// The most cells of a run.
const MOST_CELLS: u64 = 4_194_304;

/// There are more than 4,194,304 cells.
const TOO_MANY_CELLS: Fail<SetupRefusal> = Fail::Refused(SetupRefusal { code: 10, line: 0 });

/// The leaves of a type that has a number of them, or the greatest u64 where there are more.
#[tactic(auto, using(crate::proofs::CellLemmas::saturated_or_none))]
fn leaves_of(types: &TypeTable, ty: u32) -> u64
    ensures { result ≡ saturated (due.leaves_of types.now ty) }
{
    types.cells(ty).unwrap_or(0)
}

/// The leaves of a runtime array that begins at a place of so many bytes, or the greatest u64.
#[tactic(auto, using(crate::proofs::CellLemmas::saturated_times))]
fn array_cells(types: &TypeTable, size: u64, at: u32, form: Option<&Form>) -> u64
    ensures { result ≡ saturated (due.array_cells types.now size at (option_copied form.entry)) }
{
    match form {
        Some(Form::Runtime { element, stride }) => {
            leaves_of(types, *element).saturating_mul(elements_in(size, u128::from(at), *stride))
        }
        _ => 0,
    }
}

/// The leaves before a member, or the greatest u64.
#[tactic(auto, using(crate::proofs::CellLemmas::saturated_or_none))]
fn leaves_before(types: &TypeTable, ty: u32, n: usize) -> u64
    ensures { result ≡ saturated (unwrap_or (leaf_of types.now ty (n ∷ [])) 0) }
{
    types.leaf(ty, &[n as u64]).unwrap_or(0)
}

/// The leaves of members of which number `n` is the last and a runtime array, or the greatest u64.
#[tactic(auto, using(crate::proofs::CellLemmas::saturated_plus))]
fn last_cells(types: &TypeTable, size: u64, ty: u32, n: usize, last: &Member) -> u64
    ensures { result ≡ saturated (due.last_cells types.now size ty n last.now) }
{
    let own = array_cells(types, size, last.offset.unwrap_or(0), types.form(last.ty));
    leaves_before(types, ty, n).saturating_add(own)
}

/// The leaves of a struct that ends with a runtime array, or the greatest u64.
fn open_cells(types: &TypeTable, size: u64, ty: u32, members: &[Member]) -> u64
    ensures { result ≡ saturated (option_map_or (due.last_cells types.now size ty (length members.now - 1)) (slice_get members.now (length members.now - 1)) 0) }
{
    match members.last() {
        Some(last) => last_cells(types, size, ty, members.len().saturating_sub(1), last),
        None => 0,
    }
}

/// The leaves of a struct of a type that has no number of them, or the greatest u64.
fn struct_cells(types: &TypeTable, size: u64, ty: u32) -> u64
    ensures { result ≡ saturated (due.open_cells types.now size ty (form_of types.now ty)) }
{
    match types.form(ty) {
        Some(Form::Struct { members, .. }) => open_cells(types, size, ty, members.as_slice()),
        _ => 0,
    }
}

/// The leaves of a block of a type with so many bytes, or the greatest u64.
#[tactic(auto, using(crate::proofs::CellLemmas::saturated_some, crate::proofs::CellLemmas::saturated_none))]
fn block_cells(types: &TypeTable, size: u64, ty: u32) -> u64
    ensures { result ≡ saturated (due.block_cells types.now size ty) }
{
    match types.cells(ty) {
        Some(cells) => cells,
        None => struct_cells(types, size, ty),
    }
}

/// The leaves of what a pointer type points to, or the greatest u64.
fn target_cells(types: &TypeTable, form: Option<&Form>) -> u64
    ensures { result ≡ saturated (due.target_cells types.now (option_copied form.entry)) }
{
    match form {
        Some(Form::Pointer { target, .. }) => leaves_of(types, *target),
        _ => 0,
    }
}

/// The leaves of the block that a pointer type points to, of bytes that are given, or the greatest u64.
fn given_cells(types: &TypeTable, form: Option<&Form>, given: Option<Given>) -> u64
    ensures { result ≡ saturated (due.given_cells types.now (option_copied form.entry) given) }
{
    match (form, given) {
        (Some(Form::Pointer { target, .. }), Some(given)) => block_cells(
            types,
            given.bytes,
            *target,
        ),
        _ => 0,
    }
}

/// Whether an instruction is a variable of a storage class.
fn is_variable_of(inst: &Inst, class: u32) -> bool
    ensures { result ≡ (inst.now.op == 59 && holds class (literal_operand inst.now 0)) }
{
    inst.op == op::VARIABLE && literal_operand(inst, 0) == Some(class)
}

/// The leaves of a variable that all invocations share, or the greatest u64.
fn shared_cells(
    index: &Index,
    types: &TypeTable,
    setup: &Setup,
    pairs: &BTreeMap<(u32, u32), Given>,
    inst: &Inst,
) -> u64
    requires { (set binding : ℕ) → get pair_cmp pairs.now (set, binding) ≡ bytes.given_at setup.now.buffers set binding }
    ensures { result ≡ saturated (due.shared_cells index.now.insts types.now setup.now inst.now) }
{
    if is_block_variable(inst) {
        given_cells(
            types,
            types.form(inst.ty),
            given_to(index, setup, pairs, inst),
        )
    } else if is_variable_of(inst, storage_class::WORKGROUP) {
        target_cells(types, types.form(inst.ty))
    } else {
        0
    }
}

/// The leaves of a variable that each invocation has, or the greatest u64.
fn own_cells(types: &TypeTable, inst: &Inst) -> u64
    ensures { result ≡ saturated (due.own_cells types.now inst.now) }
{
    if is_variable_of(inst, storage_class::INPUT) || is_variable_of(inst, storage_class::PRIVATE) {
        target_cells(types, types.form(inst.ty))
    } else {
        0
    }
}

/// The leaves of the variables that all invocations share, of some instructions, or the greatest u64.
fn all_shared(
    index: &Index,
    types: &TypeTable,
    setup: &Setup,
    pairs: &BTreeMap<(u32, u32), Given>,
    insts: &[Inst],
) -> u64
    requires { (set binding : ℕ) → get pair_cmp pairs.now (set, binding) ≡ bytes.given_at setup.now.buffers set binding }
    ensures { result ≡ saturated (due.all_shared index.now.insts types.now setup.now insts.now) }
{
    let mut cells: u64 = 0;
    for inst in insts {
        cells = cells.saturating_add(shared_cells(index, types, setup, pairs, inst));
    }
    cells
}

/// The leaves of the variables that each invocation has, of some instructions, or the greatest u64.
fn all_own(types: &TypeTable, insts: &[Inst]) -> u64
    ensures { result ≡ saturated (due.all_own types.now insts.now) }
{
    let mut cells: u64 = 0;
    for inst in insts {
        cells = cells.saturating_add(own_cells(types, inst));
    }
    cells
}

/// The cells of so many invocations, of which the frames of one have so many at most, or the greatest u64.
#[tactic(auto, using(crate::proofs::CellLemmas::saturated_plus, crate::proofs::CellLemmas::saturated_times))]
fn cells_in(
    index: &Index,
    types: &TypeTable,
    setup: &Setup,
    pairs: &BTreeMap<(u32, u32), Given>,
    invocations: u32,
    frames: u64,
) -> u64
    requires { (set binding : ℕ) → get pair_cmp pairs.now (set, binding) ≡ bytes.given_at setup.now.buffers set binding }
    ensures { result ≡ saturated (due.cells_in index.now.insts types.now setup.now invocations frames) }
{
    let each = all_own(types, index.insts()).saturating_add(frames);
    let shared = all_shared(index, types, setup, pairs, index.insts());
    shared.saturating_add(each.saturating_mul(u64::from(invocations)))
}

/// Looks whether the variables and frames of so many invocations have at most 4,194,304 cells, where the frames of one have so
/// many at most. Else S10 at line 0.
pub fn check_cells(
    index: &Index,
    types: &TypeTable,
    setup: &Setup,
    pairs: &BTreeMap<(u32, u32), Given>,
    invocations: u32,
    frames: u64,
) -> Result<(), Fail<SetupRefusal>>
    requires { (set binding : ℕ) → get pair_cmp pairs.now (set, binding) ≡ bytes.given_at setup.now.buffers set binding }
    ensures { Answers (due.check_cells index.now.insts types.now setup.now invocations frames) result }
{
    if cells_in(index, types, setup, pairs, invocations, frames) > MOST_CELLS {
        Err(TOO_MANY_CELLS)
    } else {
        Ok(())
    }
}
