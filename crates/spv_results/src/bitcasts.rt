//! OpBitcast.
ghost use Rattle.std.specs.Prelude.{◌≡◌, OnOk};
ghost use Rattle.spv_valid.specs.Below.spv_bodies.specs.Lanes.{KeepsLanes};
ghost use Rattle.spv_effects.specs.Bitcasts.{bitcast_value};
ghost use Rattle.spv_results.specs.Operands.{IsOperand, IsResult, known};
ghost use Rattle.spv_results.specs.Results as spec;

use crate::lanes::{lane_count, lane_width, types_are_sound};
use spv_base::{Inst, NoMemory};
use spv_effects::resize;
use spv_valid::Module;
use spv_values::{Part, Row};

/// The bits of the operand as lanes of the result's width. `into` is resized: it takes memory only where it never had room for
/// as many cells.
pub fn bitcast(accepted: &Module, inst: &Inst, a: &Part, into: &mut Row) -> Result<(), NoMemory>
    requires operation { inst.now.op ≡ 124 }
    requires rule { KeepsLanes (known accepted.now) inst.now }
    requires a { IsOperand accepted.now inst.now 0 a.now }
    ensures value { OnOk result (into.new ≡ bitcast_value (spec.lane_count accepted.now.types inst.now.ty) (spec.lane_width accepted.now.types inst.now.ty) a.now) }
    ensures shape { OnOk result (IsResult accepted.now inst.now into.new) }
{
    types_are_sound(accepted);
    let count = lane_count(accepted, inst.ty);
    let width = lane_width(accepted, inst.ty);
    resize(into, count as usize)?;
    spv_effects::bitcast(count, width, a, into);
    Ok(())
}
