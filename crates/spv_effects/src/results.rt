//! Rows that take results.
ghost use Rattle.std.specs.Prelude.{◌≡◌, ◌≤◌, [], IfOk, IsOk, OnErr, OnOk, length};
ghost use Rattle.spv_types.specs.Rows.{leaves};

use crate::lanes::of_lanes;
use spv_alu::results::undefined;
use spv_base::NoMemory;
use spv_values::Row;
use std::alloc::Global;

/// A row without cells, with room for so many: `resize` takes no memory up to that number.
pub fn reserved(alloc: Global, room: usize) -> Result<Row, NoMemory>
    ensures { IfOk result (λ row. leaves row ≡ []) }
{
    Ok(of_lanes(Vec::with_capacity(alloc, room)?))
}

/// Gives a row so many cells, for a result; what they hold is not told. It takes memory only where the row never had room for
/// as many, and where there is none the row's cells stay.
pub fn resize(row: &mut Row, len: usize) -> Result<(), NoMemory>
    ensures ok { OnOk result (length (leaves row.new) ≡ len) }
    ensures err { OnErr result (leaves row.new ≡ leaves row.old) }
    ensures within { len ≤ length (leaves row.old) → IsOk result }
{
    if row.len() == len {
        return Ok(());
    }
    let mut cells = row.take_cells();
    let resized = cells.resize(len, undefined(1));
    *row = of_lanes(cells);
    resized?;
    Ok(())
}
