//! The typing rules of function bodies.
ghost use Rattle.std.specs.Prelude.{◌≡◌, IfOk};
ghost use Rattle.spv_base.specs.Answers.{Answers};
ghost use Rattle.spv_types.specs.Build.{unless_refused};
ghost use Rattle.spv_types.specs.InterfaceBlocks.{nothing};
ghost use Rattle.spv_bodies.specs.Bodies as spec;
ghost use Rattle.spv_bodies.specs.Places.{nowhere, place, placed_from};

use crate::atomics::{
    keeps_atomic_compare, keeps_atomic_read, keeps_atomic_store, keeps_atomic_update,
    keeps_control_barrier, keeps_memory_barrier,
};
use crate::calls::{keeps_call, keeps_function, keeps_parameter};
use crate::chains::keeps_chain;
use crate::composites::{
    keeps_construct, keeps_copy_object, keeps_extract, keeps_extract_dynamic, keeps_insert,
    keeps_insert_dynamic, keeps_shuffle,
};
use crate::context::Context;
use crate::control::{keeps_branch, keeps_phi, keeps_return, keeps_return_value, keeps_switch};
use crate::lanes::{keeps_extended, keeps_lanes};
use crate::matching::{Matching, keeps_copy_logical};
use crate::memory::{
    keeps_array_length, keeps_copy_memory, keeps_load, keeps_store, keeps_undef, keeps_variable,
};
use crate::pointers::{keeps_ptr_chain, keeps_ptr_equal, keeps_select};
use crate::rules::{AtomicRule, CompositeRule, ControlRule, MemoryRule, Rule, rule_of};
use crate::within::Within;
use spv_base::{Fail, Inst, NoMemory, Refusal};
use spv_consts::ConstTable;
use spv_index::Index;
use spv_types::TypeTable;
use std::alloc::Global;

/// The code of the rules of types.
const TYPE_CODE: u8 = 12;

fn keeps_memory(context: &Context, inst: &Inst, rule: MemoryRule) -> bool
    ensures { result ≡ spec.keeps_memory context.now inst.now rule }
{
    match rule {
        MemoryRule::Undef => keeps_undef(context, inst),
        MemoryRule::Variable => keeps_variable(context, inst),
        MemoryRule::Load => keeps_load(context, inst),
        MemoryRule::Store => keeps_store(context, inst),
        MemoryRule::CopyMemory => keeps_copy_memory(context, inst),
        MemoryRule::ArrayLength => keeps_array_length(context, inst),
        MemoryRule::Chain => keeps_chain(context, inst),
        MemoryRule::PtrChain => keeps_ptr_chain(context, inst),
        MemoryRule::PtrEqual => keeps_ptr_equal(context, inst),
    }
}

fn keeps_atomic(context: &Context, inst: &Inst, rule: AtomicRule) -> bool
    ensures { result ≡ spec.keeps_atomic context.now inst.now rule }
{
    match rule {
        AtomicRule::Read => keeps_atomic_read(context, inst),
        AtomicRule::Store => keeps_atomic_store(context, inst),
        AtomicRule::Update => keeps_atomic_update(context, inst),
        AtomicRule::Compare => keeps_atomic_compare(context, inst),
        AtomicRule::ControlBarrier => keeps_control_barrier(context, inst),
        AtomicRule::MemoryBarrier => keeps_memory_barrier(context, inst),
    }
}

fn keeps_composite(
    context: &Context,
    matching: &mut Matching,
    inst: &Inst,
    rule: CompositeRule,
) -> Result<bool, NoMemory>
    requires { matching.old ≡ context.now.types }
    ensures same { matching.new ≡ matching.old }
    ensures kept { IfOk result (λ kept. kept ≡ spec.keeps_composite context.now inst.now rule) }
{
    match rule {
        CompositeRule::ExtractDynamic => Ok(keeps_extract_dynamic(context, inst)),
        CompositeRule::InsertDynamic => Ok(keeps_insert_dynamic(context, inst)),
        CompositeRule::Shuffle => Ok(keeps_shuffle(context, inst)),
        CompositeRule::Construct => Ok(keeps_construct(context, inst)),
        CompositeRule::Extract => Ok(keeps_extract(context, inst)),
        CompositeRule::Insert => Ok(keeps_insert(context, inst)),
        CompositeRule::CopyObject => Ok(keeps_copy_object(context, inst)),
        CompositeRule::CopyLogical => keeps_copy_logical(context, matching, inst),
    }
}

/// Whether a rule is kept in the function at hand and before the rest of the instructions.
fn keeps_control(
    context: &Context,
    within: Within,
    inst: &Inst,
    rest: &[Inst],
    rule: ControlRule,
) -> bool
    ensures { result ≡ spec.keeps_control context.now (place inst.now within rest.now) rule }
{
    match rule {
        ControlRule::Phi => keeps_phi(context, inst),
        ControlRule::Branch => keeps_branch(context, inst),
        ControlRule::Switch => keeps_switch(context, inst),
        ControlRule::Return => keeps_return(context, within.returns),
        ControlRule::ReturnValue => keeps_return_value(context, within.returns, inst),
        ControlRule::Function => keeps_function(context, inst, rest),
        ControlRule::Parameter => keeps_parameter(context, within.ty, within.parameters, inst),
        ControlRule::Call => keeps_call(context, inst),
    }
}

/// Whether an instruction keeps a rule, in the function at hand and before the rest of the instructions.
fn keeps(
    context: &Context,
    matching: &mut Matching,
    within: Within,
    inst: &Inst,
    rest: &[Inst],
    rule: Rule,
) -> Result<bool, NoMemory>
    requires { matching.old ≡ context.now.types }
    ensures same { matching.new ≡ matching.old }
    ensures kept { IfOk result (λ kept. kept ≡ spec.keeps context.now (place inst.now within rest.now) rule) }
{
    match rule {
        Rule::Free => Ok(true),
        Rule::Lanes => Ok(keeps_lanes(context, inst)),
        Rule::Select => Ok(keeps_select(context, inst)),
        Rule::Extended => Ok(keeps_extended(context, inst)),
        Rule::Memory(rule) => Ok(keeps_memory(context, inst, rule)),
        Rule::Atomic(rule) => Ok(keeps_atomic(context, inst, rule)),
        Rule::Composite(rule) => keeps_composite(context, matching, inst, rule),
        Rule::Control(rule) => Ok(keeps_control(context, within, inst, rest, rule)),
    }
}

/// Whether an instruction's result has no runtime array, and its opcode's rule is kept.
#[tactic(auto, unfolding(crate::specs::Bodies::keeps_body))]
fn keeps_body(
    context: &Context,
    matching: &mut Matching,
    within: Within,
    inst: &Inst,
    rest: &[Inst],
) -> Result<bool, NoMemory>
    requires { matching.old ≡ context.now.types }
    ensures same { matching.new ≡ matching.old }
    ensures kept { IfOk result (λ kept. kept ≡ spec.keeps_body context.now (place inst.now within rest.now)) }
{
    if context.types().has_runtime(inst.ty) {
        return Ok(false);
    }
    keeps(context, matching, within, inst, rest, rule_of(inst.op))
}

/// Refuses the first instruction that breaks a rule.
fn check_all(alloc: Global, context: &Context, insts: &[Inst]) -> Result<(), Fail<Refusal>>
    ensures { Answers (unless_refused nothing (spec.body_breaches context.now (placed_from nowhere insts.now))) result }
{
    let mut matching = Matching::of(alloc, context.types());
    let mut within = Within::nowhere();
    for (n, inst) in insts.iter().enumerate() {
        if !keeps_body(context, &mut matching, within, inst, &insts[n + 1..])? {
            return Err(Fail::Refused(Refusal {
                code: TYPE_CODE,
                word: inst.word,
            }));
        }
        within = within.after(inst);
    }
    Ok(())
}

/// Refuses M12, at the first instruction in a function that breaks a typing rule: the types of operands and results, access
/// chains, the parts of composites, constants where they are asked for, and calls and returns as declared.
///
/// Every instruction from the first OpFunction on is looked at, in a time that grows with the number of words.
pub fn check_bodies(
    alloc: Global,
    types: &TypeTable,
    consts: &ConstTable,
    index: &Index,
) -> Result<(), Fail<Refusal>>
    ensures { Answers (spec.bodies_of types.now consts.now index.now.insts) result }
{
    let context = Context::of(types, consts, index);
    check_all(alloc, &context, &index.insts()[index.functions_start()..])
}
