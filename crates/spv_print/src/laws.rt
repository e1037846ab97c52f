//! Laws of texts.
ghost use Rattle.std.specs.Prelude.{◌≡◌, ◌+◌, ◌≤◌, ℕ, Some, true};
ghost use Rattle.spv_dbg.specs.Records.{AreRecords};
ghost use Rattle.spv_dbg.specs.Tables.{Tables, with_id};
ghost use Rattle.spv_dbg.specs.declared.insts.DebugInst.{DebugInst as Record};
ghost use Rattle.spv_parts.specs.Parts.{TypePart, whole};
ghost use Rattle.spv_print.specs.Layouts.{blank, layout_of, put_part};
ghost use Rattle.spv_print.specs.Nesting.{nesting};

/// A law, with nothing to run: in tables whose records are whole, no type is nested deeper than the levels that a text goes down, and
/// the text of a part that isn't would be the same with more of them.
pub fn texts_reach_each_level()
    ensures types { (t : Tables) → AreRecords t → (id : ℕ) (d : Record) → with_id t id ≡ Some d → nesting t (whole id) ≤ 64 }
    ensures parts { (t : Tables) → AreRecords t → (size more : ℕ) (p : TypePart) → nesting t p ≤ 64 → (put_part t size (more + 64) true p blank).pieces ≡ layout_of t p size }
{}
