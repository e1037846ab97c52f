//! The acceptance of modules.
ghost use Rattle.std.specs.Prelude.{◌≡◌, ℕ, IfOk, List, Ok, option_copied};
ghost use Rattle.spv_base.specs.Answers.{Answers};
ghost use Rattle.spv_base.specs.Order.{Ascend};
ghost use Rattle.spv_base.specs.declared.instructions.Inst.{Inst};
ghost use Rattle.spv_base.specs.declared.instructions.RawInst.{RawInst};
ghost use Rattle.spv_ops.specs.Reading.{insts_of};
ghost use Rattle.spv_words.specs.Cuts.{raw_of};
ghost use Rattle.spv_words.specs.Words.{Fit32};
ghost use Rattle.spv_valid.specs.Validity.{IsValid};
ghost use Rattle.spv_app.specs.Acceptance.{accepted_as, accepted_of, decoded_of};

use spv_base::{Fail, Overrides, Refusal};
use spv_ops::{DecodedModule, decode_all, instructions_stand_at_their_words};
use spv_valid::{Module, accept};
use spv_words::{WordList, instructions_are_cut, raw};
use std::alloc::Global;

/// The instructions of these words, with the Bound; or the first rule that is broken. Rules of a later pass are looked at only
/// where the one before finds nothing: the cuts, the instructions.
#[tactic(auto, unfolding(crate::specs::Acceptance::decoded_of))]
fn decoded(alloc: Global, list: &WordList) -> Result<DecodedModule, Fail<Refusal>>
    ensures { Answers (decoded_of list.now) result }
{
    // There are at most 1,048,576 words.
    let _words = list.items();
    let raws = raw(alloc, list)?;
    let insts = decode_all(alloc, &raws)?;
    match DecodedModule::of(insts, list.bound()) {
        Some(decoded) => Ok(decoded),
        None => unreachable!(),
    }
}

/// The module with these words, for its entry point of a name or the first one, and with values for SpecIds; or the first rule
/// that is broken. Rules of a later pass are looked at only where the one before finds nothing: the cuts, the instructions, the
/// passes of acceptance.
#[tactic(auto, unfolding(crate::specs::Acceptance::accepted_as))]
pub fn accepted_as(
    alloc: Global,
    list: &WordList,
    name: Option<&[u8]>,
    over: &Overrides,
) -> Result<Module, Fail<Refusal>>
    ensures due { Answers (accepted_as (option_copied name.entry) over.now list.now) result }
    // The module gives all that a run over it needs.
    ensures valid { IfOk result IsValid }
{
    accept(alloc, decoded(alloc, list)?, name, over)
}

/// The same for the first entry point and with no values for SpecIds.
#[tactic(auto, unfolding(crate::specs::Acceptance::accepted_of))]
pub fn accepted(alloc: Global, list: &WordList) -> Result<Module, Fail<Refusal>>
    ensures due { Answers (accepted_of list.now) result }
    ensures valid { IfOk result IsValid }
{
    accepted_as(alloc, list, None, &Overrides::new(alloc))
}

/// A law, with nothing to run: the words of the instructions that are decoded from a module's words ascend.
pub fn decoded_words_ascend()
    ensures { (words : List ℕ) (raws : List RawInst) (insts : List Inst) → Fit32 words → raw_of words ≡ Ok raws → insts_of raws ≡ Ok insts
        → Ascend 0 insts }
{
    instructions_are_cut();
    instructions_stand_at_their_words();
}
