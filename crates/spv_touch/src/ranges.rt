//! Where the parts that pointers name lie among the leaves of shared variables.
ghost use Rattle.std.specs.Prelude.{◌≡◌, ◌+◌, IfOk};
ghost use Rattle.spv_touch.specs.Ranges.{leaves_at};

use spv_base::{NoMemory, Pointer, Root};
use spv_mem::Memory;
use spv_mem::places::Place;
use spv_order::Leaves;
use std::alloc::Global;

/// The leaves at a place. There is no memory for a variable of 2 ^ 32 leaves.
fn range(root: u32, at: Place) -> Result<Leaves, NoMemory>
    ensures { IfOk result (λ r. r ≡ record { root = root; first = at.start; end = at.start + at.len }) }
{
    let end = at.start.checked_add(at.len).ok_or(NoMemory)?;
    match (u32::try_from(at.start), u32::try_from(end)) {
        (Ok(first), Ok(end)) => Ok(Leaves { root, first, end }),
        _ => Err(NoMemory),
    }
}

/// The leaves of the part that a pointer of an invocation names in a shared variable: one range. There are none where it names no part,
/// or one of the invocation's own variables.
#[tactic(auto, using(crate::proofs::PlaceLemmas::listed_at, crate::proofs::PlaceLemmas::unlisted_at, crate::proofs::PlaceLemmas::own_private, crate::proofs::PlaceLemmas::own_local))]
pub fn leaves_at(
    alloc: Global,
    memory: &Memory,
    inv: u32,
    p: &Pointer,
) -> Result<Vec<Leaves>, NoMemory>
    ensures { IfOk result (λ ranges. ranges.items ≡ leaves_at memory.now p.now) }
{
    let mut ranges = Vec::new(alloc);
    match p.root {
        Root::Shared(id) => {
            if let Some(at) = memory.place(inv, p) {
                ranges.push(range(id, at)?)?;
            }
        }
        _ => (),
    }
    Ok(ranges)
}
