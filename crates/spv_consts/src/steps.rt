//! One instruction after another.
ghost use Rattle.std.specs.Prelude.{◌≡◌, IfOk};
ghost use Rattle.spv_base.specs.Answers.{Answers};
ghost use Rattle.spv_types.specs.Build.{unless_refused};
ghost use Rattle.spv_consts.specs.Steps as spec;

use crate::context::Context;
use crate::evaluation::cells_of;
use crate::lengths::lengthened;
use crate::numbers::{LIMITS_CODE, MOST_CELLS, MOST_NESTING, RULES_CODE};
use crate::rules::keeps_rules;
use crate::walk::Walk;
use spv_base::{Fail, Inst, NoMemory, Refusal};
use spv_ops::op;
use spv_types::Limit;
use spv_types::constants::is_constant;
use spv_types::limits::form_limit;
use std::alloc::Global;

fn breach(code: u8, inst: &Inst) -> Refusal
    ensures { result ≡ record { code = code; word = inst.now.word } }
{
    Refusal {
        code,
        word: inst.word,
    }
}

/// Whether a type is nested too deep or has too many cells.
fn is_great(limit: Limit) -> bool
    ensures { result ≡ spec.is_great limit }
{
    limit.nesting > MOST_NESTING || limit.cells > MOST_CELLS
}

/// Whether the type with an id is nested too deep or has too many cells, by the types that were passed.
fn is_great_type(walk: &Walk, id: u32) -> bool
    ensures { result ≡ spec.is_great_type walk.now id }
{
    match walk.types.form(id) {
        Some(form) => is_great(form_limit(&walk.types, walk.limits.as_slice(), form)),
        None => false,
    }
}

/// Whether an instruction passes a limit.
fn passes_limit(walk: &Walk, inst: &Inst) -> bool
    ensures { result ≡ spec.passes_limit walk.now inst.now }
{
    if walk.is_next(inst.id) {
        return is_great_type(walk, inst.id);
    }
    is_constant(inst.op) && walk.cells_with(inst.ty) > MOST_CELLS
}

/// Adds a constant.
fn with_constant(
    alloc: Global,
    walk: Walk,
    context: &Context,
    inst: &Inst,
) -> Result<Walk, NoMemory>
    ensures { IfOk result (λ after. after ≡ spec.with_constant context.now walk inst.now) }
{
    if inst.op == op::CONSTANT_NULL {
        return walk.with_null(inst);
    }
    let row = cells_of(alloc, &walk, context, inst)?;
    walk.with_row(inst, row.as_slice())
}

/// Passes an instruction that breaks nothing.
fn with_entry(alloc: Global, walk: Walk, context: &Context, inst: &Inst) -> Result<Walk, NoMemory>
    ensures { IfOk result (λ after. after ≡ spec.with_entry context.now walk inst.now) }
{
    if walk.is_next(inst.id) {
        return walk.pass_type(inst.id);
    }
    if is_constant(inst.op) {
        return with_constant(alloc, walk, context, inst);
    }
    Ok(walk)
}

/// Passes an instruction, unless it breaks a rule or a limit.
#[tactic(auto, unfolding(crate::specs::Steps::after_one, crate::specs::Steps::breaches_at))]
fn after_one(
    alloc: Global,
    walk: Walk,
    context: &Context,
    inst: &Inst,
) -> Result<Walk, Fail<Refusal>>
    ensures { Answers (unless_refused (spec.after_one context.now walk inst.now) (spec.breaches_at context.now walk inst.now)) result }
{
    if !keeps_rules(&walk, context, inst) {
        return Err(Fail::Refused(breach(RULES_CODE, inst)));
    }
    let Some(longer) = lengthened(walk, context, inst) else {
        return Err(Fail::Refused(breach(LIMITS_CODE, inst)));
    };
    if passes_limit(&longer, inst) {
        return Err(Fail::Refused(breach(LIMITS_CODE, inst)));
    }
    Ok(with_entry(alloc, longer, context, inst)?)
}

/// Passes some instructions, up to the first breach.
pub(crate) fn after_all(
    alloc: Global,
    walk: Walk,
    context: &Context,
    insts: &[Inst],
) -> Result<Walk, Fail<Refusal>>
    ensures { Answers (unless_refused (spec.after_all context.now walk insts.now) (spec.breaches_from context.now walk insts.now)) result }
{
    let mut walk = walk;
    for inst in insts {
        walk = after_one(alloc, walk, context, inst)?;
    }
    Ok(walk)
}
