//! The fit of a setup to a module.
ghost use Rattle.std.specs.Prelude.{◌≡◌, ◌<◌, IfOk};
ghost use Rattle.spv_base.specs.Answers.{Answers};
ghost use Rattle.spv_fit.specs.Fit.{fitted};

use crate::bytes::check_bytes;
use crate::cells::check_cells;
use crate::given::given_by_pairs;
use crate::numbers::check_numbers;
use spv_base::{Fail, SetupRefusal};
use spv_index::Index;
use spv_setup::{Schedule, Setup};
use spv_types::TypeTable;
use std::alloc::Global;

/// The schedule of a setup for a module of so many invocations, at least 1.
///
/// Refuses, in this order: a `move` of an invocation that doesn't exist (S5), a number for a SpecId that no constant has or that
/// doesn't fit (S8), more than 4,194,304 entries (S9), a variable of a block that has no bytes (S6), bytes that are fewer than the
/// fixed part of a block (S7), and more than 4,194,304 cells (S10): those of the variables and of all frames, where the frames of
/// an invocation have at most `frames`.
#[tactic(auto, using(crate::proofs::FitLemmas::schedule_counts), unfolding(crate::specs::Fit::fitted))]
pub fn fit(
    alloc: Global,
    index: &Index,
    types: &TypeTable,
    invocations: u32,
    frames: u64,
    setup: &Setup,
) -> Result<Schedule, Fail<SetupRefusal>>
    requires { 0 < invocations }
    ensures due { Answers (fitted index.now.insts types.now invocations frames setup.now) result }
    ensures invocations { IfOk result (λ schedule. schedule.invocations ≡ invocations) }
{
    setup.check_moves(invocations)?;
    check_numbers(
        alloc,
        index,
        types,
        setup.overrides(),
        setup.override_lines().as_slice(),
    )?;
    let schedule = setup.schedule(alloc, invocations)?;
    let pairs = given_by_pairs(alloc, setup.buffers().as_slice())?;
    check_bytes(alloc, index, types, setup, &pairs)?;
    check_cells(index, types, setup, &pairs, invocations, frames)?;
    Ok(schedule)
}
