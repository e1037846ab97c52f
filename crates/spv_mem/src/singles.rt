//! Leaves of variables, exchanged by where they lie, as a journal keeps them. It takes no memory, and the same call undoes it.
ghost use Rattle.std.specs.Prelude.{◌≡◌};
ghost use Rattle.spv_base.specs.Variables.{root_id};
ghost use Rattle.spv_mem.specs.Levels.{ExchangesAt, ExchangesLevel};
ghost use Rattle.spv_mem.specs.Singles.{LeafAt, LeafLevel};

use crate::entries::Locals;
use crate::levels::Levels;
use crate::targets::Targets;
use spv_base::{Ghost, Path, Root};
use spv_values::Single;

/// A leaf of a variable: its id, where it stood last in its list, and how many leaves are before this one.
#[derive(Clone, Copy)]
pub(crate) struct Spot {
    pub(crate) id: u32,
    pub(crate) place: usize,
    pub(crate) leaf: usize,
}

/// A leaf of the variable that a root names.
pub(crate) fn spot_of(targets: &Targets, root: Root, leaf: usize) -> Spot
    ensures id { result.id ≡ root_id root }
    ensures leaf { result.leaf ≡ leaf }
{
    let id = root.id();
    Spot {
        id,
        place: targets.place(id),
        leaf,
    }
}

/// Exchanges a leaf of the variable with an id of one of some lists, and says whether there is one.
pub(crate) fn exchange_single_at(
    lists: &mut [Locals],
    k: usize,
    spot: Spot,
    path: &Ghost<Path>,
    other: &mut Single,
) -> bool
    requires { ∥ LeafAt spot.id lists.old k spot.leaf path.now.value other.old ∥₁ }
    ensures { ExchangesAt lists.old k spot.id path.now.value other.old lists.new other.new result }
{
    if k < lists.len() {
        lists[k].exchange_single(spot, path, other)
    } else {
        false
    }
}

/// Exchanges a leaf of the variable with an id of a depth of an invocation, and says whether there is one.
pub(crate) fn exchange_single_level(
    levels: &mut [Levels],
    k: usize,
    depth: u32,
    spot: Spot,
    path: &Ghost<Path>,
    other: &mut Single,
) -> bool
    requires { ∥ LeafLevel spot.id levels.old k depth spot.leaf path.now.value other.old ∥₁ }
    ensures { ExchangesLevel levels.old k depth spot.id path.now.value other.old levels.new other.new result }
{
    if k < levels.len() {
        levels[k].exchange_single(depth, spot, path, other)
    } else {
        false
    }
}
