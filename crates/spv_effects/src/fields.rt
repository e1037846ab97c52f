//! Fields of bits in each lane: OpBitFieldInsert, OpBitFieldSExtract and OpBitFieldUExtract (SPIR-V 1.6, section "Bit
//! Instructions").
ghost use Rattle.std.specs.Prelude.{◌≡◌, length};
ghost use Rattle.std.specs.Simd.Lanes.{zip2};
ghost use Rattle.spv_alu.specs.Fields.{field_lane};
ghost use Rattle.spv_effects.specs.Fields.{HaveFields, field_value};
ghost use Rattle.spv_types.specs.Rows.{leaves};

use crate::lanes::{lane_of, of_lanes};
use spv_alu::FieldOp;
use spv_base::Cell;
use spv_values::{Part, Row};

/// An operation on the field of bits at an offset and of a count in each lane of the base. An extraction doesn't look at
/// `insert`, and is given its base there again. It takes no memory.
pub fn field(
    operation: FieldOp,
    base: &Part,
    insert: &Part,
    offset: &Part,
    count: &Part,
    into: &mut Row,
)
    requires lanes { HaveFields (leaves base.now) (leaves insert.now) (length (leaves into.old)) }
    requires offset { length (leaves offset.now) ≡ 1 }
    requires count { length (leaves count.now) ≡ 1 }
    ensures value { into.new ≡ field_value operation base.now insert.now offset.now count.now }
    ensures room { length (leaves into.new) ≡ length (leaves into.old) }
{
    let offset = lane_of(offset);
    let count = lane_of(count);
    let mut cells = into.take_cells();
    field_cells(
        operation,
        base.cells(),
        insert.cells(),
        offset,
        count,
        cells.as_mut_slice(),
    );
    *into = of_lanes(cells);
}

/// The same on rows.
fn field_cells(
    operation: FieldOp,
    base: &[Cell],
    insert: &[Cell],
    offset: Cell,
    count: Cell,
    into: &mut [Cell],
)
    requires { HaveFields base.now insert.now (length into.old) }
    ensures { into.new ≡ zip2 (λ b i. field_lane operation b i offset count) base.now insert.now }
{
    for k in 0..into.len() {
        into[k] = operation.apply(base[k], insert[k], offset, count);
    }
}
