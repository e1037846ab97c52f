//! What modules give whose ids are in order.
ghost use Rattle.std.specs.Prelude.{◌≡◌, ◌↔◌, ◌⊎◌, Some, Ok};
ghost use Rattle.std.specs.List.{AllByRecursion};
ghost use Rattle.spv_ops.specs.Module.{Decoded, IsDecoded};
ghost use Rattle.spv_index.specs.Definitions.{defining};
ghost use Rattle.spv_types.specs.InterfaceBlocks.{nothing};
ghost use Rattle.spv_types.specs.Laws.{AreNamed};
ghost use Rattle.spv_sections.specs.Ids.{ids_of};
ghost use Rattle.spv_sections.specs.Laws.{AreInOrder};

/// The ids of a module pass exactly where those of each instruction are at least 1 and below the Bound, nothing before it
/// defines its result, and the ids in its operands are defined where it can name them, and stand for what the operands ask.
pub fn ids_stand_for_what_is_asked()
    ensures { (decoded : Decoded) → (ids_of decoded ≡ Ok nothing) ↔ AreInOrder decoded }
{}

/// In a decoded module whose ids pass no id is the result of two instructions, the types and constants have ids, the type of
/// a constant comes before it, and the instruction that defines a result is the one that has it.
pub fn results_are_defined_once()
    ensures named { (decoded : Decoded) → IsDecoded decoded → ids_of decoded ≡ Ok nothing → AreNamed decoded.insts }
    ensures defining { (decoded : Decoded) → IsDecoded decoded → ids_of decoded ≡ Ok nothing
        → AllByRecursion (λ i. (i.id ≡ 0) ⊎ (defining decoded.insts i.id ≡ Some i)) decoded.insts }
{}
