//! OpSelect: by one condition for all leaves, or by a condition for each lane (SPIR-V 1.6, section "Relational and Logical
//! Instructions").
ghost use Rattle.std.specs.Prelude.{◌≡◌, length};
ghost use Rattle.std.specs.Simd.Lanes.{zip2};
ghost use Rattle.spv_alu.specs.Select.{select_of, selected};
ghost use Rattle.spv_alu.specs.Lanes.{zip3};
ghost use Rattle.spv_effects.specs.Forms.{with_leaves};
ghost use Rattle.spv_effects.specs.Selects.{AreAlike, MaySelect, select_value};
ghost use Rattle.spv_types.specs.Rows.{leaves};

use spv_base::{Cell, Ghost, Value};
use spv_values::{Part, Row};

/// For each leaf the first object's where its condition is true, else the second's; not defined where one of the three isn't.
/// It takes no memory.
pub fn select(condition: &Part, a: &Part, b: &Part, into: &mut Row)
    requires { MaySelect (leaves condition.now) (leaves a.now) (leaves b.now) (length (leaves into.old)) }
    ensures value { into.new ≡ select_value condition.now a.now b.now }
    ensures room { length (leaves into.new) ≡ length (leaves into.old) }
{
    let mut cells = into.take_cells();
    select_cells(
        condition.cells(),
        a.cells(),
        b.cells(),
        cells.as_mut_slice(),
    );
    *into = filled_row(a, cells);
}

/// The row of the form of an operand with other leaves.
fn filled_row(like: &Part, cells: Vec<Cell>) -> Row
    requires { length cells.items ≡ length (leaves like.now) }
    ensures value { result ≡ with_leaves like.now cells.items }
    ensures row { leaves result ≡ cells.items }
{
    let tree = filled_tree(like, &cells);
    Row::with_tree(cells, tree)
}

/// The tree of the form of an operand with other leaves.
fn filled_tree(like: &Part, cells: &Vec<Cell>) -> Ghost<Value>
    ensures { result.value ≡ with_leaves like.now cells.now.items }
{
    let tree = like.tree();
    tree.by(cells, cells)
}

/// The same on rows.
#[tactic(auto, using(crate::proofs::SelectLemmas::one_condition, crate::proofs::SelectLemmas::many_conditions))]
fn select_cells(condition: &[Cell], a: &[Cell], b: &[Cell], into: &mut [Cell])
    requires { MaySelect condition.now a.now b.now (length into.old) }
    ensures { into.new ≡ selected condition.now a.now b.now }
{
    if condition.len() == 1 {
        select_all(condition[0], a, b, into);
    } else {
        select_each(condition, a, b, into);
    }
}

/// The leaves by one condition.
fn select_all(condition: Cell, a: &[Cell], b: &[Cell], into: &mut [Cell])
    requires { AreAlike a.now b.now (length into.old) }
    ensures { into.new ≡ zip2 (select_of condition) a.now b.now }
{
    for i in 0..into.len() {
        into[i] = spv_alu::select(condition, a[i], b[i]);
    }
}

/// The leaves by a condition for each.
fn select_each(condition: &[Cell], a: &[Cell], b: &[Cell], into: &mut [Cell])
    requires conditions { length condition.now ≡ length into.old }
    requires objects { AreAlike a.now b.now (length into.old) }
    ensures { into.new ≡ zip3 select_of condition.now a.now b.now }
{
    for i in 0..into.len() {
        into[i] = spv_alu::select(condition[i], a[i], b[i]);
    }
}
