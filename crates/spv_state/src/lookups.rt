//! What is read off a module once, so that no event has to look for it.
ghost use Rattle.std.specs.Prelude.{◌≡◌, ℕ, IfOk};
ghost use Rattle.spv_state.specs.Events as events;
ghost use Rattle.spv_state.specs.Predecoded.{ArePredecoded};
ghost use Rattle.spv_state.specs.Variables.{under, variables_of};

use crate::captures::{Capture, captures_of};
use crate::predecoded::{Predecoded, predecode};
use crate::variables::by_function;
use spv_base::NoMemory;
use spv_index::Keyed;
use spv_initial::Declared;
use spv_valid::Module;
use std::alloc::Global;
use std::collections::BTreeMap;

/// What is read off an accepted module before it runs.
#[derive(Drop)]
pub(crate) struct Lookups {
    /// The variables of each function, by its id.
    pub(crate) variables: BTreeMap<u32, Vec<Declared>>,
    /// The debug instructions that a run passes, by the executables before which they stand.
    pub(crate) captures: Keyed<Vec<Capture>>,
    /// The instructions on values of one cell, by their numbers in the module.
    pub(crate) predecoded: Vec<Option<Predecoded>>,
}

impl Lookups {
    /// Those of a module. It is lent, not taken: where memory runs out, dropping it too is the caller's part.
    pub(crate) fn of(alloc: Global, accepted: &Module) -> Result<Lookups, NoMemory>
        ensures variables { IfOk result (λ l. (function : ℕ) → under l.variables function ≡ variables_of accepted.now function) }
        ensures captures { IfOk result (λ l. (pc : ℕ) → events.under l.captures pc ≡ events.captures_before accepted.now pc) }
        ensures predecoded { IfOk result (λ l. ArePredecoded accepted.now l.predecoded.items) }
    {
        let variables = by_function(alloc, accepted)?;
        let captures = captures_of(alloc, accepted)?;
        let predecoded = predecode(alloc, accepted, &captures)?;
        Ok(Lookups {
            variables,
            captures,
            predecoded,
        })
    }
}
