//! The memory that a run starts with.
ghost use Rattle.std.specs.Prelude.{◌≡◌, ◌<◌, IfOk};
ghost use Rattle.spv_valid.specs.Acceptance.{invocations};
ghost use Rattle.spv_mem.specs.Memory.{empty};
ghost use Rattle.spv_initial.specs.Start as spec;
ghost use Rattle.spv_initial.specs.Variables.{AreDeclared, targets_of};

use crate::values::{Opening, buffer_numbers};
use crate::variables::{Declared, declared_in, targets_of};
use spv_base::NoMemory;
use spv_mem::Memory;
use spv_setup::Setup;
use spv_valid::Module;
use std::alloc::Global;
use std::rc::Rc;

/// A memory for the invocations of a module, with room for their frames, in which no variable stands yet.
pub(crate) fn without_variables(
    alloc: Global,
    accepted: &Module,
    list: &[Declared],
) -> Result<Memory, NoMemory>
    requires { ∥ AreDeclared accepted.now.types list.now ∥₁ }
    ensures { IfOk result (λ memory. memory ≡ empty accepted.now.types (targets_of list.now) (invocations accepted.now) accepted.now.depth) }
{
    let _insts = accepted.insts();
    let targets = targets_of(alloc, list)?;
    let types = Rc::new(alloc, accepted.types().copy(alloc)?)?;
    Memory::new(
        alloc,
        types,
        &targets,
        accepted.invocations(),
        accepted.depth(),
    )
}

/// The memory that a run starts with, of a module and a setup: each variable with the value that it begins with, and no frame entered
/// yet. A buffer of zeros takes no more memory than its cells.
#[tactic(auto, unfolding(crate::specs::Start::starting))]
pub fn starting(alloc: Global, accepted: &Module, setup: &Setup) -> Result<Memory, NoMemory>
    ensures { IfOk result (λ memory. memory ≡ spec.starting accepted.now setup.now) }
{
    let types = accepted.types();
    let insts = accepted.insts();
    let list = declared_in(alloc, types, insts)?;
    let numbers = buffer_numbers(alloc, setup.buffers().as_slice())?;
    let opening = Opening {
        accepted,
        setup,
        numbers: &numbers,
    };
    opening.memory(alloc, list.as_slice())
}
