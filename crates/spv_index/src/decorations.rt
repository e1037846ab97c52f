//! The decorations of ids and of members, in maps to the first instruction of each (SPIR-V 1.6 section 3.42.3).
ghost use Rattle.std.specs.Prelude.{◌≡◌, ◌≤◌, ℕ, IfOk, length};
ghost use Rattle.std.specs.BTreeMap.{get};
ghost use Rattle.spv_index.specs.Definitions.{decorates, decorates_member, number_from};
ghost use Rattle.spv_index.specs.Keys.{is_pair, is_triple, pair_cmp, triple_cmp};

use crate::operands::{id_operand, literal_operand};
use spv_base::{Inst, NoMemory};
use spv_ops::op;
use std::alloc::Global;
use std::collections::BTreeMap;

/// The target and the decoration of an OpDecorate.
fn decoration_key(inst: &Inst) -> Option<(u32, u32)>
    ensures { (id kind : ℕ) → decorates id kind inst.now ≡ is_pair id kind result }
{
    if inst.op != op::DECORATE {
        return None;
    }
    Some((id_operand(inst, 0)?, literal_operand(inst, 1)?))
}

/// The structure type, the member and the decoration of an OpMemberDecorate.
fn decorated_member(inst: &Inst) -> Option<(u32, u32, u32)>
    ensures { (id member kind : ℕ) → decorates_member id member kind inst.now ≡ is_triple id member kind result }
{
    if inst.op != op::MEMBER_DECORATE {
        return None;
    }
    Some((
        id_operand(inst, 0)?,
        literal_operand(inst, 1)?,
        literal_operand(inst, 2)?,
    ))
}

/// By id and decoration, the number of the first instruction that puts it there.
pub(crate) fn decorations_of(
    alloc: Global,
    insts: &[Inst],
) -> Result<BTreeMap<(u32, u32), u32>, NoMemory>
    requires { length insts.now ≤ 1048576 }
    ensures { IfOk result (λ map. (id kind : ℕ) → get pair_cmp map (id, kind) ≡ number_from 0 (decorates id kind) insts.now) }
{
    let mut map = BTreeMap::new(alloc);
    let mut n = insts.len();
    'back: while n > 0 {
        n -= 1;
        if let Some(key) = decoration_key(&insts[n]) {
            map.insert(key, n as u32)?;
        }
    }
    Ok(map)
}

/// By structure type, member and decoration, the number of the first instruction that puts it there.
pub(crate) fn member_decorations_of(
    alloc: Global,
    insts: &[Inst],
) -> Result<BTreeMap<(u32, u32, u32), u32>, NoMemory>
    requires { length insts.now ≤ 1048576 }
    ensures { IfOk result (λ map. (id member kind : ℕ) → get triple_cmp map (id, member, kind) ≡ number_from 0 (decorates_member id member kind) insts.now) }
{
    let mut map = BTreeMap::new(alloc);
    let mut n = insts.len();
    'back: while n > 0 {
        n -= 1;
        if let Some(key) = decorated_member(&insts[n]) {
            map.insert(key, n as u32)?;
        }
    }
    Ok(map)
}
