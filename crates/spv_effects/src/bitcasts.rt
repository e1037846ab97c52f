//! OpBitcast: the bits of a scalar or a vector as lanes of another width (SPIR-V 1.6, section "Conversion Instructions").
ghost use Rattle.std.specs.Prelude.{◌≡◌, length, map};
ghost use Rattle.std.specs.List.{range_with_len};
ghost use Rattle.spv_alu.specs.Vectors.{bitcast_of};
ghost use Rattle.spv_effects.specs.Bitcasts.{MayCast, bitcast_value};
ghost use Rattle.spv_types.specs.Rows.{leaves};

use crate::lanes::of_lanes;
use spv_base::Cell;
use spv_values::{Part, Row};

/// The bits of an operand as so many lanes of a width in bits: the lower-order bits of a wider lane are the lower-numbered
/// narrower ones. A lane is defined where each lane that its bits are from is. It takes no memory.
pub fn bitcast(count: u32, width: u8, a: &Part, into: &mut Row)
    requires bits { MayCast count width (leaves a.now) }
    requires room { length (leaves into.old) ≡ count }
    ensures value { into.new ≡ bitcast_value count width a.now }
    ensures room { length (leaves into.new) ≡ length (leaves into.old) }
{
    let mut cells = into.take_cells();
    bitcast_cells(count, width, a.cells(), cells.as_mut_slice());
    *into = of_lanes(cells);
}

/// The same on rows.
#[tactic(auto, using(crate::proofs::ListLemmas::lane_within))]
fn bitcast_cells(count: u32, width: u8, a: &[Cell], into: &mut [Cell])
    requires bits { MayCast count width a.now }
    requires room { length into.old ≡ count }
    ensures { into.new ≡ map (bitcast_of a.now width) (range_with_len 0 count) }
{
    for index in 0..count {
        into[index as usize] = spv_alu::bitcast(a, width, index);
    }
}
