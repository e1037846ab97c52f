//! What is kept of each well-formed debug instruction.
ghost use Rattle.std.specs.Prelude.{◌≡◌, IfOk};
ghost use Rattle.spv_dbg.specs.Marks as spec;
ghost use Rattle.spv_dbg.specs.Tables.{kept_in};

use spv_base::NoMemory;
use spv_valid::Module;
use std::alloc::Global;

/// The number of a well-formed debug instruction, and the bits and the nesting of the type that it is or that it has as a
/// member. They are 0 where it is no type.
#[derive(Clone, Copy)]
pub struct Mark {
    pub number: u32,
    pub bits: u64,
    pub nesting: u64,
}

/// The mark of the instruction that defines an id, where it is among these.
#[tactic(auto, unfolding(crate::specs::Marks::known))]
pub(crate) fn known(module: &Module, marks: &[Option<Mark>], id: u32) -> Option<Mark>
    ensures { result ≡ spec.known module.now marks.now id }
{
    let number = module.index().number_of(id)?;
    *marks.get(number)?
}

/// Those of the well-formed debug instructions.
pub(crate) fn kept_in(alloc: Global, marks: &[Option<Mark>]) -> Result<Vec<Mark>, NoMemory>
    ensures { IfOk result (λ kept. kept.items ≡ kept_in marks.now) }
{
    let mut kept = Vec::new(alloc);
    for mark in marks {
        if let Some(mark) = *mark {
            kept.push(mark)?;
        }
    }
    Ok(kept)
}
