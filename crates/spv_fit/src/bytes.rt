//! The bytes of the blocks of variables, which a setup gives.
ghost use Rattle.std.specs.Prelude.{◌≡◌, ℕ, false, length};
ghost use Rattle.std.specs.BTreeMap.{get};
ghost use Rattle.spv_base.specs.Answers.{Answers};
ghost use Rattle.spv_base.specs.Options.{holds};
ghost use Rattle.spv_index.specs.Keys.{pair_cmp};
ghost use Rattle.spv_types.specs.Types.{form_of};
ghost use Rattle.spv_index.specs.Operands.{literal_operand};
ghost use Rattle.spv_types.specs.Measured.{AreSizes};
ghost use Rattle.spv_fit.specs.Given as due;

use crate::given::Given;
use spv_base::{Fail, Inst, SetupRefusal, lower};
use spv_index::{Index, literal_operand};
use spv_ops::{decoration, storage_class};
use spv_setup::Setup;
use spv_types::layout::{sizes, whole_size};
use spv_types::{Form, TypeTable, is_block_variable};
use std::alloc::Global;
use std::collections::BTreeMap;

/// A variable of a block has no bytes.
const NO_BYTES: Fail<SetupRefusal> = Fail::Refused(SetupRefusal { code: 6, line: 0 });

/// Whether an instruction has the storage class PushConstant as its first operand.
fn is_push(inst: &Inst) -> bool
    ensures { result ≡ holds 9 (literal_operand inst.now 0) }
{
    literal_operand(inst, 0) == Some(storage_class::PUSH_CONSTANT)
}

/// The size of the block that a pointer type points to.
fn block_size(types: &TypeTable, sizes: &[u64], ty: u32) -> u64
    requires sizes { AreSizes types.now sizes.now }
    requires all { length sizes.now ≡ length types.now }
    ensures { result ≡ due.block_size types.now (form_of types.now ty) }
{
    match types.form(ty) {
        Some(Form::Pointer { target, .. }) => whole_size(types, sizes, *target),
        _ => 0,
    }
}

/// The bytes of a variable of a block.
pub fn given_to(
    index: &Index,
    setup: &Setup,
    pairs: &BTreeMap<(u32, u32), Given>,
    inst: &Inst,
) -> Option<Given>
    requires { (set binding : ℕ) → get pair_cmp pairs.now (set, binding) ≡ due.given_at setup.now.buffers set binding }
    ensures { result ≡ due.given_to index.now.insts setup.now inst.now }
{
    if is_push(inst) {
        return match setup.push() {
            None => None,
            Some(push) => Some(Given::of_push(push)),
        };
    }
    let set = index.decoration(inst.id, decoration::DESCRIPTOR_SET)?;
    let binding = index.decoration(inst.id, decoration::BINDING)?;
    pairs.get(&(set, binding)).copied()
}

/// Whether a variable of a block has no bytes.
fn lacks_bytes(
    index: &Index,
    setup: &Setup,
    pairs: &BTreeMap<(u32, u32), Given>,
    inst: &Inst,
) -> bool
    requires { (set binding : ℕ) → get pair_cmp pairs.now (set, binding) ≡ due.given_at setup.now.buffers set binding }
    ensures { result ≡ due.lacks_bytes index.now.insts setup.now inst.now }
{
    is_block_variable(inst) && given_to(index, setup, pairs, inst).is_none()
}

/// Whether one of some instructions is a variable of a block that has no bytes.
#[tactic(auto, unfolding(crate::specs::Given::some_lack))]
fn some_lack(
    index: &Index,
    setup: &Setup,
    pairs: &BTreeMap<(u32, u32), Given>,
    insts: &[Inst],
) -> bool
    requires { (set binding : ℕ) → get pair_cmp pairs.now (set, binding) ≡ due.given_at setup.now.buffers set binding }
    ensures { result ≡ due.some_lack index.now.insts setup.now insts.now }
{
    insts
        .iter()
        .any(|inst| lacks_bytes(index, setup, pairs, inst))
}

/// The line of bytes that are fewer than a size.
fn short_line(size: u64, given: Option<Given>) -> Option<u32>
    ensures { result ≡ due.short_line size given }
{
    let given = given?;
    if given.bytes < size {
        Some(given.line)
    } else {
        None
    }
}

/// The line of bytes that are fewer than the fixed part of a variable's block.
fn short_for(
    index: &Index,
    types: &TypeTable,
    sizes: &[u64],
    setup: &Setup,
    pairs: &BTreeMap<(u32, u32), Given>,
    inst: &Inst,
) -> Option<u32>
    requires pairs { (set binding : ℕ) → get pair_cmp pairs.now (set, binding) ≡ due.given_at setup.now.buffers set binding }
    requires sizes { AreSizes types.now sizes.now }
    requires all { length sizes.now ≡ length types.now }
    ensures { result ≡ due.short_for index.now.insts types.now setup.now inst.now }
{
    if !is_block_variable(inst) {
        return None;
    }
    let size = block_size(types, sizes, inst.ty);
    short_line(size, given_to(index, setup, pairs, inst))
}

/// The lowest line of bytes that are too few for one of some instructions.
fn lowest_short(
    index: &Index,
    types: &TypeTable,
    sizes: &[u64],
    setup: &Setup,
    pairs: &BTreeMap<(u32, u32), Given>,
    insts: &[Inst],
) -> Option<u32>
    requires pairs { (set binding : ℕ) → get pair_cmp pairs.now (set, binding) ≡ due.given_at setup.now.buffers set binding }
    requires sizes { AreSizes types.now sizes.now }
    requires all { length sizes.now ≡ length types.now }
    ensures { result ≡ due.lowest_short index.now.insts types.now setup.now insts.now }
{
    let mut lowest = None;
    let mut n = insts.len();
    'back: while n > 0 {
        n -= 1;
        lowest = lower(
            short_for(index, types, sizes, setup, pairs, &insts[n]),
            lowest,
        );
    }
    lowest
}

/// Looks whether each variable of a block has bytes, and no fewer than the fixed part of its block. Else S6 at line 0 where one
/// has none, or S7 at the lowest line of bytes that are too few.
pub fn check_bytes(
    alloc: Global,
    index: &Index,
    types: &TypeTable,
    setup: &Setup,
    pairs: &BTreeMap<(u32, u32), Given>,
) -> Result<(), Fail<SetupRefusal>>
    requires { (set binding : ℕ) → get pair_cmp pairs.now (set, binding) ≡ due.given_at setup.now.buffers set binding }
    ensures { Answers (due.check_bytes index.now.insts types.now setup.now) result }
{
    if some_lack(index, setup, pairs, index.insts()) {
        return Err(NO_BYTES);
    }
    let sizes = sizes(alloc, types)?;
    match lowest_short(index, types, &sizes, setup, pairs, index.insts()) {
        None => Ok(()),
        Some(line) => Err(Fail::Refused(SetupRefusal { code: 7, line })),
    }
}
