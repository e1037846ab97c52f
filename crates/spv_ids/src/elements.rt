//! How many elements the runtime array has that a pointer leads to, or that ends the block which it leads to.
ghost use Rattle.std.specs.Prelude.{◌≡◌, ◌≢◌, ◌++◌, ◌∷◌, [], ℕ, IfOk, IsSome, List, Some, option_map};
ghost use Rattle.spv_base.specs.declared.values.Value.{Value};
ghost use Rattle.spv_types.specs.Rows.{no_roots};
ghost use Rattle.spv_types.specs.Shapes.{HasShape, LeadsTo};
ghost use Rattle.spv_mem.specs.Memory.{NamesArray, load_of, member_of};
ghost use Rattle.spv_mem.specs.Targets.{count_in};
ghost use Rattle.spv_show.specs.Elements.{with_elements};
ghost use Rattle.spv_state.specs.Sound.{IsSound};
ghost use Rattle.spv_ids.specs.Typed.{variable_type};

use spv_base::{NoMemory, Path, Pointer};
use spv_mem::Memory;
use spv_state::laws::values_have_their_shapes;
use spv_state::{Runnable, Whole};
use spv_types::Form;
use std::alloc::Global;

/// How many elements the runtime array has that is a member of the block which a pointer names. A struct has less than 2 ^ 32 members, as
/// many as an instruction has operands at most.
fn length_of(memory: &Memory, block: &Pointer, member: u64) -> Result<u32, NoMemory>
    requires { ∥ NamesArray memory.now block.now member ∥₁ }
    ensures { IfOk result (λ n. (i : ℕ) → option_map count_in (load_of memory.now i (member_of block.now member)) ≡ Some n) }
{
    match u32::try_from(member) {
        Ok(member) => Ok(memory.array_length(block, member)),
        Err(_) => Err(NoMemory),
    }
}

/// How many elements the runtime array has that a pointer names.
fn of_array(alloc: Global, memory: &Memory, pointer: &Pointer) -> Result<u32, NoMemory>
    requires some { pointer.now.path ≢ [] }
    requires names { (front : List ℕ) (member : ℕ) → pointer.now.path ≡ front ++ member ∷ []
        → ∥ NamesArray memory.now (record { root = pointer.now.root; path = front }) member ∥₁ }
    ensures { IfOk result (λ n. (i : ℕ) → option_map count_in (load_of memory.now i pointer.now) ≡ Some n) }
{
    let Some((member, front)) = pointer.path.as_slice().split_last() else {
        unreachable!();
    };
    let block = Pointer {
        root: pointer.root,
        path: Path::from_slice(alloc, front)?,
    };
    length_of(memory, &block, *member)
}

/// How many elements the runtime array has in what a pointer names, which is of a type.
pub(crate) fn elements(
    alloc: Global,
    m: &Runnable,
    state: &Whole,
    inv: u32,
    target: u32,
    pointer: &Pointer,
) -> Result<u32, NoMemory>
    requires sound { IsSound m.now state.now }
    requires leads { LeadsTo m.now.accepted.types (variable_type m.now.accepted) pointer.now target }
    requires there { IsSome (load_of state.now.memory inv pointer.now) }
    ensures { IfOk result (λ n. (v : Value) → load_of state.now.memory inv pointer.now ≡ Some v → HasShape (with_elements n m.now.accepted.types) no_roots target v) }
{
    values_have_their_shapes();
    let accepted = m.accepted();
    let _insts = accepted.insts();
    let types = accepted.types();
    if types.is_sized_data(target) {
        return Ok(0);
    }
    let Some(form) = types.form(target) else {
        unreachable!();
    };
    match form {
        Form::Runtime { .. } => of_array(alloc, state.memory(), pointer),
        Form::Struct { members, .. } => {
            let last = (members.as_slice().len() as u64).saturating_sub(1);
            length_of(state.memory(), pointer, last)
        }
        _ => unreachable!(),
    }
}
