//! What the operations on lanes share: the types of an accepted module, and the lanes of a type.
ghost use Rattle.std.specs.Prelude.{◌≡◌, ◌≤◌};
ghost use Rattle.spv_types.specs.Laws.{AreSound};
ghost use Rattle.spv_typing.specs.Lanes.{width_of};
ghost use Rattle.spv_results.specs.Results as spec;

use spv_typing::{Element, lanes_of};
use spv_valid::Module;

/// A fact, with nothing to run: the types of an accepted module are sound.
pub(crate) fn types_are_sound(accepted: &Module)
    ensures { AreSound accepted.now.types }
{
    let _insts = accepted.insts();
}

/// How many lanes a type has.
pub(crate) fn lane_count(accepted: &Module, ty: u32) -> u32
    ensures { result ≡ spec.lane_count accepted.now.types ty }
{
    match lanes_of(accepted.types(), ty) {
        Some(lanes) => lanes.count,
        None => 0,
    }
}

/// The bits of each lane of a type.
pub(crate) fn lane_width(accepted: &Module, ty: u32) -> u8
    ensures { result ≡ spec.lane_width accepted.now.types ty }
{
    types_are_sound(accepted);
    match lanes_of(accepted.types(), ty) {
        Some(lanes) => width_of(lanes.element),
        None => 0,
    }
}

/// The bits of a lane.
fn width_of(element: Element) -> u8
    requires { width_of element ≤ 64 }
    ensures { result ≡ width_of element }
{
    match element {
        Element::Bool => 1,
        Element::Int { width } => width as u8,
    }
}
