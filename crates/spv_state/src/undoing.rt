//! Changes by which what a journal keeps is put back, and copies. None but the copies and the appending takes memory.
ghost use Rattle.std.specs.Prelude.{◌≡◌, ◌<◌, IfOk};

use spv_base::NoMemory;
use spv_frame::{Plans, Stack};
use std::alloc::Global;
use std::rc::Rc;

/// Equal plans.
pub(crate) fn plans_copied(alloc: Global, plans: &Plans) -> Result<Plans, NoMemory>
    ensures { IfOk result (λ copies. copies ≡ plans.now) }
{
    let list = plans.list();
    let mut copies = Vec::with_capacity(alloc, list.len())?;
    for plan in list {
        copies.push(Rc::clone(plan)?)?;
    }
    Plans::new(alloc, copies)
}

/// Equal stacks.
pub(crate) fn stacks_copied(alloc: Global, stacks: &[Stack]) -> Result<Vec<Stack>, NoMemory>
    ensures { IfOk result (λ copies. copies.items ≡ stacks.now) }
{
    let mut copies = Vec::with_capacity(alloc, stacks.len())?;
    for stack in stacks {
        copies.push(stack.copy(alloc)?)?;
    }
    Ok(copies)
}
