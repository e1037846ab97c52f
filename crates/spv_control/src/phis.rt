//! The phis of a block, and the values that they take where control comes from another block (SPIR-V 1.6 section 3.42.17, OpPhi).
ghost use Rattle.std.specs.Prelude.{◌≡◌, IfOk, filter, map};
ghost use Rattle.std.specs.List.{All};
ghost use Rattle.std.specs.Result.{result_map_both};
ghost use Rattle.spv_base.specs.Options.{holds};
ghost use Rattle.spv_index.specs.Operands as operands;
ghost use Rattle.spv_state.specs.State.{depth_of};
ghost use Rattle.spv_sites.specs.Phis as spec;
ghost use Rattle.spv_sites.specs.Planned.{IsPlain, phi_value};
ghost use Rattle.spv_sites.specs.Sites.{Finds};

use spv_base::{Fail, Inst, Operand};
use spv_index::classes::{Class, class_of};
use spv_index::{Table, id_in};
use spv_ops::op;
use spv_sites::{Cause, PhiValue, Site};
use spv_valid::Module;

/// Whether an instruction of a class may stand among the first of a block: a phi or a line.
fn comes_first(class: Class) -> bool
    ensures { result ≡ spec.comes_first class }
{
    matches!(class, Class::Line | Class::Phi)
}

/// The first of some instructions, so far as they are phis and lines.
fn first_ones<'a>(sets: &Table<bool>, insts: &'a [Inst]) -> &'a [Inst]
    ensures { result.now ≡ spec.first_ones sets.now insts.now }
{
    for (n, inst) in insts.iter().enumerate() {
        if !comes_first(class_of(sets, inst)) {
            return &insts[..n];
        }
    }
    insts
}

/// The instructions behind the OpLabel of a block.
fn behind_label(accepted: &Module, label: u32) -> &[Inst]
    ensures { result.now ≡ spec.behind_label accepted.now.insts label }
{
    match accepted.index().number_of(label) {
        Some(n) => &accepted.insts()[n + 1..],
        None => &[],
    }
}

/// The label of the block in which the instruction at a word stands.
fn block_at(accepted: &Module, word: u32) -> u32
    ensures { result ≡ spec.block_at accepted.now.insts word }
{
    let index = accepted.index();
    match index.number_at(word) {
        Some(n) => index.standings()[n].position.label,
        None => 0,
    }
}

/// Whether an operand is an id.
fn is_id(operand: &Operand, id: u32) -> bool
    ensures { result ≡ holds id (operands.id_in operand.now) }
{
    match id_in(operand) {
        Some(other) => other == id,
        None => false,
    }
}

/// The id that stands beside the label of a block.
fn source_among(operands: &[Operand], from: u32) -> Option<u32>
    ensures { result ≡ spec.source_among operands.now from }
{
    let mut rest = operands;
    'pairs: while let [id, parent, more @ ..] = rest {
        if is_id(parent, from) {
            return id_in(id);
        }
        rest = more;
    }
    None
}

/// What a phi's id takes where control comes from a block: a value, or a pointer. F4 where it has none.
fn value_of(site: &Site, phi: &Inst, from: u32) -> Result<PhiValue, Fail<Cause>>
    ensures value { Finds (spec.phi_value site.now.program.accepted site.now.frame (depth_of site.now.state site.now.inv) from phi.now) (result_map_both phi_value (λ e. e) result) }
    ensures plain { IfOk result (λ p. IsPlain p.value) }
{
    let Some(id) = source_among(phi.operands.as_slice(), from) else {
        return Err(Fail::Refused(Cause::NoValue));
    };
    let operand = site.operand_with(id)?;
    let value = site.taken(&operand)?;
    Ok(PhiValue { id: phi.id, value })
}

/// The same of the phis among some instructions.
fn values_of(site: &Site, insts: &[Inst], from: u32) -> Result<Vec<PhiValue>, Fail<Cause>>
    ensures value { Finds (spec.phi_values site.now.program.accepted site.now.frame (depth_of site.now.state site.now.inv) from (filter spec.is_phi insts.now)) (result_map_both (λ vs. map phi_value vs.items) (λ e. e) result) }
    ensures plain { IfOk result (λ vs. All (λ p. IsPlain p.value) vs.items) }
{
    let mut values = Vec::new(site.alloc());
    for inst in insts {
        if inst.op == op::PHI {
            values.push(value_of(site, inst, from)?)?;
        }
    }
    Ok(values)
}

/// What the phis of a block take where the instruction goes there. F4 where one has no value.
pub(crate) fn phi_values(site: &Site, block: u32) -> Result<Vec<PhiValue>, Fail<Cause>>
    ensures value { Finds (spec.phi_values site.now.program.accepted site.now.frame (depth_of site.now.state site.now.inv) (spec.block_at site.now.program.accepted.insts site.now.inst.word) (spec.phis_of site.now.program.accepted.insts block)) (result_map_both (λ vs. map phi_value vs.items) (λ e. e) result) }
    ensures plain { IfOk result (λ vs. All (λ p. IsPlain p.value) vs.items) }
{
    let accepted = site.accepted();
    let from = block_at(accepted, site.inst().word);
    let insts = first_ones(accepted.index().sets(), behind_label(accepted, block));
    values_of(site, insts, from)
}
