//! The bits of a vector as components of another width.
ghost use Rattle.std.specs.Prelude.{◌≡◌, ◌+◌, ◌*◌, ◌≤◌, ◌<◌, length};
ghost use Rattle.spv_alu.specs.Integers.{IsWidth};
ghost use Rattle.spv_alu.specs.Vectors.{component_width, component_at, joined_bit, bitcast_of};

use crate::results::{defined_if, integer};
use spv_base::Cell;

/// One component of OpBitcast: that of this width and number. The lower-order bits of a wider component are the
/// lower-numbered narrower components.
#[tactic(auto, unfolding(crate::specs::Integers::number_of_bits, crate::specs::Vectors::all_below, crate::specs::Vectors::bitcast_of))]
pub fn bitcast(from: &[Cell], width: u8, index: u32) -> Cell
    requires source { IsWidth (component_width from.now) }
    requires width { IsWidth width }
    requires within { index * width + width ≤ length from.now * component_width from.now }
    ensures lane { result ≡ bitcast_of from.now width index }
    ensures width { result.width ≡ width }
{
    let first = index as usize * width as usize;
    let mut bits = 0;
    let mut defined = true;
    for i in 0..width {
        let (bit, is_defined) = joined_bit(from, first + i as usize);
        bits += bit << i;
        defined &= is_defined;
    }
    defined_if(defined, integer(bits, width))
}

/// A bit of all components joined, the first the lowest, and whether its component is defined.
fn joined_bit(from: &[Cell], place: usize) -> (u64, bool)
    requires source { IsWidth (component_width from.now) }
    requires within { place < length from.now * component_width from.now }
    ensures bit { result.0 ≡ joined_bit from.now place }
    ensures defined { result.1 ≡ (component_at from.now place).defined }
{
    let lowest = from[0];
    let width = lowest.width as usize;
    let component = from[place / width];
    (component.bits >> (place % width) & 1, component.defined)
}
