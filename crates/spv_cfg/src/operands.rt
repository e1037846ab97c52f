//! The ids and the literal words among some operands.
ghost use Rattle.std.specs.Prelude.{◌≡◌, IfOk};
ghost use Rattle.std.specs.List.{list_all};
ghost use Rattle.spv_index.specs.Operands.{ids_in};
ghost use Rattle.spv_cfg.specs.Operands as spec;

use spv_base::{NoMemory, Operand};
use spv_index::{id_in, literal_in};
use std::alloc::Global;

/// Whether all are ids.
pub fn are_ids(operands: &[Operand]) -> bool
    ensures { result ≡ list_all spec.is_name operands.now }
{
    operands.iter().all(|operand| id_in(operand).is_some())
}

/// Whether all are literal words.
pub fn are_literals(operands: &[Operand]) -> bool
    ensures { result ≡ list_all spec.is_literal operands.now }
{
    operands.iter().all(|operand| literal_in(operand).is_some())
}

/// The ids among them.
pub fn ids_in(alloc: Global, operands: &[Operand]) -> Result<Vec<u32>, NoMemory>
    ensures { IfOk result (λ ids. ids.items ≡ ids_in operands.now) }
{
    let mut ids = Vec::new(alloc);
    for operand in operands {
        if let Some(id) = id_in(operand) {
            ids.push(id)?;
        }
    }
    Ok(ids)
}

/// The literal words among them.
pub fn literals_in(alloc: Global, operands: &[Operand]) -> Result<Vec<u32>, NoMemory>
    ensures { IfOk result (λ words. words.items ≡ spec.literals_in operands.now) }
{
    let mut words = Vec::new(alloc);
    for operand in operands {
        if let Some(word) = literal_in(operand) {
            words.push(word)?;
        }
    }
    Ok(words)
}
