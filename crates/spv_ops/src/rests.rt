//! The words after the parts of a grammar, up to the end of the instruction.
ghost use Rattle.std.specs.Prelude.{◌≡◌, ◌++◌, map, OnOk};
ghost use Rattle.spv_base.specs.declared.instructions.Operand.TheVariants.{Id, Lit};
ghost use Rattle.spv_ops.specs.Rests.{has_one_literal, is_decorated_by, is_rest, rest_operands};

use crate::grammar::Rest;
use crate::{decoration, execution_mode};
use spv_base::{NoMemory, Operand, Operands};

// A loop control has the bits below this one; from 8 on each has a literal (SPIR-V 1.6 section 3, Loop Control).
const LOOP_CONTROLS: u32 = 512;

fn has_one_literal(decoration: u32) -> bool
    ensures { result ≡ has_one_literal decoration }
{
    decoration == decoration::SPEC_ID
        || decoration == decoration::ARRAY_STRIDE
        || decoration == decoration::BUILT_IN
        || decoration == decoration::BINDING
        || decoration == decoration::DESCRIPTOR_SET
        || decoration == decoration::OFFSET
}

fn is_decorated_by(decoration: u32, count: usize) -> bool
    ensures { result ≡ is_decorated_by decoration count }
{
    if decoration == decoration::BLOCK {
        count == 0
    } else if has_one_literal(decoration) {
        count == 1
    } else {
        true
    }
}

/// Whether these words may stand there.
pub fn is_rest(rest: Rest, words: &[u32]) -> bool
    ensures { result ≡ is_rest rest words.now }
{
    match (rest, words) {
        (Rest::Nothing, _) => words.is_empty(),
        (Rest::Ids | Rest::Literals, _) => true,
        (Rest::IdPairs, _) => words.len() % 2 == 0,
        (Rest::LoopControl, [mask, literals @ ..]) => {
            *mask < LOOP_CONTROLS && literals.len() == (*mask / 8).count_ones() as usize
        }
        (Rest::Decoration, [decoration, literals @ ..]) => {
            is_decorated_by(*decoration, literals.len())
        }
        (Rest::ExecutionMode, [mode, literals @ ..]) => *mode != execution_mode::LOCAL_SIZE
            || literals.len() == 3,
        (Rest::ExecutionModeIds, [mode, ids @ ..]) => *mode != execution_mode::LOCAL_SIZE_ID
            || ids.len() == 3,
        (_, []) => false,
    }
}

fn push_ids(operands: &mut Operands, words: &[u32]) -> Result<(), NoMemory>
    ensures { OnOk result (operands.new ≡ operands.old ++ map Id words.now) }
{
    for word in words {
        operands.push(Operand::Id(*word))?;
    }
    Ok(())
}

fn push_literals(operands: &mut Operands, words: &[u32]) -> Result<(), NoMemory>
    ensures { OnOk result (operands.new ≡ operands.old ++ map Lit words.now) }
{
    for word in words {
        operands.push(Operand::Lit(*word))?;
    }
    Ok(())
}

/// Adds these words as operands.
pub fn push_rest(operands: &mut Operands, rest: Rest, words: &[u32]) -> Result<(), NoMemory>
    ensures { OnOk result (operands.new ≡ operands.old ++ rest_operands rest words.now) }
{
    match (rest, words) {
        (Rest::Ids | Rest::IdPairs, _) => push_ids(operands, words),
        (Rest::ExecutionModeIds, []) => Ok(()),
        (Rest::ExecutionModeIds, [mode, ids @ ..]) => {
            operands.push(Operand::Lit(*mode))?;
            push_ids(operands, ids)
        }
        (
            Rest::Nothing
            | Rest::Literals
            | Rest::LoopControl
            | Rest::Decoration
            | Rest::ExecutionMode,
            _,
        ) => push_literals(operands, words),
    }
}
