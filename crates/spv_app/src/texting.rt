//! The listing of a module.
ghost use Rattle.std.specs.Prelude.{◌≡◌, ◌≤◌, ℕ, List, Ok, drop, length};
ghost use Rattle.std.specs.List.{flat_map};
ghost use Rattle.spv_base.specs.Answers.{Answers};
ghost use Rattle.spv_base.specs.declared.instructions.Inst.{Inst};
ghost use Rattle.spv_base.specs.declared.instructions.RawInst.{RawInst};
ghost use Rattle.spv_ops.specs.Encoding.{encoding};
ghost use Rattle.spv_ops.specs.Reading.{insts_of};
ghost use Rattle.spv_text.specs.Listing.{listing};
ghost use Rattle.spv_text.specs.Reading.{IsRead};
ghost use Rattle.spv_words.specs.Cuts.{raw_of};
ghost use Rattle.spv_words.specs.Words.{Fit32};
ghost use Rattle.spv_app.specs.Texting.{texting};

use crate::acceptance::accepted;
use spv_base::{Fail, Refusal, Text};
use spv_ops::one_reading;
use spv_text::listing;
use spv_words::{instructions_are_cut, words};
use std::alloc::Global;

/// The listing of the module of these bytes, or the first rule that is broken.
#[tactic(auto, unfolding(crate::specs::Texting::texting))]
pub fn text_of_bytes(alloc: Global, bytes: &[u8]) -> Result<Text, Fail<Refusal>>
    ensures { Answers (texting bytes.now) result }
{
    let list = words(alloc, bytes)?;
    let module = accepted(alloc, &list)?;
    Ok(listing(alloc, module.insts())?)
}

/// A law, with nothing to run: the instructions that are decoded from a module's words have those words from word 5 on, and
/// their listing is read as them.
pub fn decoded_listings_are_read()
    ensures { (words : List ℕ) (raws : List RawInst) (insts : List Inst) → Fit32 words → length words ≤ 1048576 → raw_of words ≡ Ok raws → insts_of raws ≡ Ok insts
        → IsRead (listing insts) (Ok insts) × (flat_map encoding insts ≡ drop 5 words) }
{
    instructions_are_cut();
    one_reading();
}
