//! The primitive changes of a state, each recorded. Where memory runs out nothing changes.
ghost use Rattle.std.specs.Prelude.{◌≡◌, ◌<◌, IfSome, IsSome, None, Some, length};
ghost use Rattle.std.specs.Option.{IsSomeAnd};
ghost use Rattle.spv_frame.specs.Numbers.{HasPointer, with_pointer};
ghost use Rattle.spv_mem.specs.Memory.{MayStore, load_of};
ghost use Rattle.spv_mem.specs.Singles.{NamesRow};
ghost use Rattle.spv_state.specs.State as state;
ghost use Rattle.spv_types.specs.Rows.{leaves};

use spv_base::{Ghost, Pointer};
use spv_state::Whole;
use spv_values::trees::shadow;
use spv_values::{Row, Single};

/// Puts a pointer in a register of the top frame of an invocation, by its number.
pub(crate) fn put_pointer(whole: &mut Whole, i: u32, number: usize, pointer: Pointer)
    requires inv { i < length whole.old.stacks }
    requires register { IsSomeAnd (state.top_of whole.old i) (HasPointer number) }
    ensures { whole.new ≡ state.on_frame i (with_pointer number (Some pointer)) whole.old }
{
    let mut taken = Some(pointer);
    whole.exchange_pointer(i, number, &mut taken);
}

/// How many leaves lie before the one that a pointer of an invocation names, if a row of one cell is stored there and an entry can hold the
/// number.
pub(crate) fn named_leaf(whole: &Whole, i: u32, pointer: &Pointer, row: &Row) -> Option<u32>
    ensures one { IfSome result (λ n. length (leaves row.now) ≡ 1) }
    ensures names { IfSome result (λ n. NamesRow whole.now.memory i pointer.now n 1) }
{
    if row.len() == 1
        && let Some(place) = whole.memory().place(i, pointer)
        && place.len == 1
        && let Ok(leaf) = u32::try_from(place.start)
    {
        return Some(leaf);
    }
    None
}

/// Exchanges a row of one cell with the leaf that a pointer of an invocation names, which lies behind so many others.
#[inline(always)]
pub(crate) fn exchange_leaf(whole: &mut Whole, i: u32, pointer: &Pointer, leaf: u32, row: &mut Row)
    requires one { length (leaves row.old) ≡ 1 }
    requires there { IsSome (load_of whole.old.memory i pointer.now) }
    requires names { ∥ NamesRow whole.old.memory i pointer.now leaf 1 ∥₁ }
    requires may { ∥ MayStore whole.old.memory i pointer.now row.old ∥₁ }
    ensures after { whole.new ≡ state.put_store i (Some (pointer.now, row.old)) whole.old }
    ensures handed { load_of whole.old.memory i pointer.now ≡ Some row.new }
    ensures one { length (leaves row.new) ≡ 1 }
{
    let path = shadow(&pointer.path);
    let mut single = Single::of_part(&row.as_part());
    whole.exchange_single(i, pointer.root, leaf as usize, &path, &mut single);
    let _cell = single.cell();
    let all = Ghost::of();
    row.exchange_single(&all, 0, &mut single);
}
