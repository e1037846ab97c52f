//! Laws of registers that are put back.
ghost use Rattle.std.specs.Prelude.{◌≡◌, ℕ, List, Option, Some, map};
ghost use Rattle.std.specs.List.{AllZip};
ghost use Rattle.spv_base.specs.Entries.{reads};
ghost use Rattle.spv_base.specs.declared.values.Pointer.{Pointer};
ghost use Rattle.spv_base.specs.declared.values.Value.{Value};
ghost use Rattle.spv_frame.specs.declared.contents.Source.{Source};
ghost use Rattle.spv_frame.specs.declared.slots.Slot.{Slot};
ghost use Rattle.spv_frame.specs.Contents.{Differ, held, with_contents};
ghost use Rattle.spv_frame.specs.Frames.{Held, with_pointer_under, with_value_under};
ghost use Rattle.spv_frame.specs.Phis.{IsPhi, with_phis};

/// A law, with nothing to run: an exchange of a value made twice leaves the frame as it was.
#[tactic(auto, using(crate::proofs::RegisterLemmas::put_back))]
pub fn exchange_twice()
    ensures { (f : Held) (id : ℕ) (old new : Option Value) → reads id f.values ≡ Some old → with_value_under id old (with_value_under id new f) ≡ f }
{}

/// A law, with nothing to run: an exchange of a pointer made twice leaves the frame as it was.
#[tactic(auto, using(crate::proofs::RegisterLemmas::put_back))]
pub fn exchange_pointer_twice()
    ensures { (f : Held) (id : ℕ) (old new : Option Pointer) → reads id f.pointers ≡ Some old
        → with_pointer_under id old (with_pointer_under id new f) ≡ f }
{}

/// A law, with nothing to run: what registers of phis held, put back after they were set, leaves the frame as it was.
pub fn phis_put_back()
    ensures { (f : Held) (slots : List Slot) (sources : List Source) → Differ slots → AllZip (IsPhi f.plan.values) slots sources
        → with_contents slots (map (held f) slots) (with_phis slots sources f) ≡ f }
{}
