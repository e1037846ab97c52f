//! Where registers lie in a frame.
ghost use Rattle.std.specs.Prelude.{◌≡◌, ◌∷◌, [], Some};
ghost use Rattle.spv_base.specs.Parts.{part_at};
ghost use Rattle.spv_values.specs.Places.{IsRowAt};

use spv_base::{Ghost, Path};
use spv_values::trees::part_by;
use spv_values::{Part, Row};

/// Where a register of a value lies in the row of a frame: its number among the registers of values, the cells before it, and its
/// own cells.
#[derive(Clone, Copy)]
pub struct Slot {
    pub id: u32,
    pub number: usize,
    pub start: usize,
    pub len: usize,
}

/// Where a register of a pointer lies: its number among the registers of pointers.
#[derive(Clone, Copy)]
pub struct PointerSlot {
    pub id: u32,
    pub number: usize,
}

/// Where a register lies: its number among the registers of values, or among those of pointers.
#[derive(Clone, Copy)]
pub enum Place {
    Value(usize),
    Pointer(usize),
}

/// The path in the row of a frame that leads to the register with a number, for proofs.
pub(crate) fn path_to(number: usize) -> Ghost<Path>
    ensures { result.value ≡ number ∷ [] }
{
    let none = Ghost::of();
    path_by(&none, number)
}

fn path_by(none: &Ghost<Path>, number: usize) -> Ghost<Path>
    ensures { result.value ≡ number ∷ [] }
{
    none.by(&number, none)
}

/// What lies in a slot of the row of a frame, lent.
pub(crate) fn lent<'a>(row: &'a Row, slot: &Slot) -> Part<'a>
    requires { IsRowAt row.now (slot.now.number ∷ []) slot.now.start slot.now.len }
    ensures { part_at row.now (slot.now.number ∷ []) ≡ Some result }
{
    let whole = row.as_part();
    let cells = &whole.cells()[slot.start..slot.start + slot.len];
    Part::with_tree(cells, part_by(&whole.tree(), &path_to(slot.number)))
}
