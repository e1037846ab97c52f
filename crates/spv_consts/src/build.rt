//! What the constants of a module, and its types with the lengths of arrays, are built of.
ghost use Rattle.std.specs.Prelude.{◌≡◌, IfOk, Result};
ghost use Rattle.spv_base.specs.declared.causes.Refusal.{Refusal as Breach};
ghost use Rattle.spv_types.specs.Build.{unless_refused};
ghost use Rattle.spv_types.specs.Types.{Types};
ghost use Rattle.spv_base.specs.Answers.{Answers};
ghost use Rattle.spv_consts.specs.Table.{Constants};
ghost use Rattle.spv_consts.specs.Build.{context_of, known_of, unless_earlier};
ghost use Rattle.spv_consts.specs.Steps.{breaches_from, after_all};

use crate::context::Context;
use crate::numbers::RULES_CODE;
use crate::overrides::fitting_overrides;
use crate::steps::after_all;
use crate::table::ConstTable;
use crate::walk::Walk;
use spv_base::{Fail, Inst, NoMemory, Overrides, Refusal};
use spv_index::Index;
use spv_types::TypeTable;
use std::alloc::Global;

/// What the constants of a module are read by.
pub(crate) fn context_of<'a>(
    alloc: Global,
    types: &TypeTable,
    index: &'a Index,
    over: &Overrides,
) -> Result<Context<'a>, NoMemory>
    ensures { IfOk result (λ context. context ≡ context_of types.now index.now.insts over.now) }
{
    let held = fitting_overrides(alloc, index, types, over)?;
    Ok(Context { index, held })
}

/// A result, or a breach of the rules of SpecId at a word, where that is not after a refusal.
pub(crate) fn unless_earlier(
    word: Option<u32>,
    outcome: Result<(TypeTable, ConstTable), Fail<Refusal>>,
) -> Result<(TypeTable, ConstTable), Fail<Refusal>>
    ensures { (due : Result (Types × Constants) Breach) → Answers due outcome → Answers (unless_earlier word due) result }
{
    let Some(word) = word else {
        return outcome;
    };
    let earlier = Fail::Refused(Refusal {
        code: RULES_CODE,
        word,
    });
    match outcome {
        Ok(_) => Err(earlier),
        Err(Fail::NoMemory) => Err(Fail::NoMemory),
        Err(Fail::Refused(refusal)) => {
            if word <= refusal.word {
                Err(earlier)
            } else {
                Err(Fail::Refused(refusal))
            }
        }
    }
}

/// The types and the constants after some instructions.
pub(crate) fn known_after(
    alloc: Global,
    walk: Walk,
    context: &Context,
    insts: &[Inst],
) -> Result<(TypeTable, ConstTable), Fail<Refusal>>
    ensures { Answers (unless_refused (known_of (after_all context.now walk insts.now)) (breaches_from context.now walk insts.now)) result }
{
    let Walk {
        mut types,
        values,
        ..
    } = after_all(alloc, walk, context, insts)?;
    types.count(alloc)?;
    Ok((types, values))
}
