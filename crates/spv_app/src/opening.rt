//! The opening of a pair of a module and a setup.
ghost use Rattle.std.specs.Prelude.{◌≡◌, ◌≤◌, ◌<◌, All, IfOk, Some, length, map, vec_len};
ghost use Rattle.spv_base.specs.Answers.{Answers};
ghost use Rattle.spv_setup.specs.Settings.{settings_of};
ghost use Rattle.spv_valid.specs.Validity.{IsValid};
ghost use Rattle.spv_valid.specs.Acceptance.{invocations};
ghost use Rattle.spv_app.specs.Limits.{setup_limit};
ghost use Rattle.spv_app.specs.Opening.{opening, accepted_in, journaled, started, of_setup, of_module, viewed};
ghost use Rattle.spv_loop.specs.Sessions.{IsKitOf, tests_of};
ghost use Rattle.spv_ops.specs.Steps.{seen};
ghost use Rattle.spv_state.specs.Program.{schedule_for};

use crate::acceptance::accepted_as;
use crate::debugging::Debugging;
use spv_base::{Fail, Probe, Refusal, SetupRefusal};
use spv_fit::fit;
use spv_loop::{Group, LIMIT};
use spv_setup::{Schedule, Setup};
use spv_state::Runnable;
use spv_valid::Module;
use spv_words::words;
use std::alloc::Global;
use std::fmt;

/// Why a pair of a module and a setup is refused.
#[derive(Clone, Copy)]
pub enum OpeningRefusal {
    /// A rule of modules is broken.
    Module(Refusal),
    /// A rule of setups is broken.
    Setup(SetupRefusal),
}

impl fmt::Display for OpeningRefusal {
    ghost use Rattle.std.specs.Prelude.{Some};
    ghost use Rattle.spv_app.specs.Opening.{refusal_text};

    ghost output = { λ refusal. Some (refusal_text refusal) };

    fn fmt<W: fmt::Write>(&self, f: &mut fmt::Formatter<W>) -> fmt::Result {
        match *self {
            OpeningRefusal::Module(Refusal { code, word }) => {
                write!(f, "module refused: M{code} at word {word}")
            }
            OpeningRefusal::Setup(SetupRefusal { code, line }) => {
                write!(f, "setup refused: S{code} at line {line}")
            }
        }
    }
}

/// The setup of this text.
fn parse_setup(alloc: Global, text: &[u8]) -> Result<Setup, Fail<OpeningRefusal>>
    requires { length text.now ≤ setup_limit }
    ensures { Answers (of_setup (settings_of text.now)) result }
{
    match Setup::parse(alloc, text) {
        Ok(setup) => Ok(setup),
        Err(Fail::Refused(refusal)) => Err(Fail::Refused(OpeningRefusal::Setup(refusal))),
        Err(Fail::NoMemory) => Err(Fail::NoMemory),
    }
}

/// The module of these bytes, for the setup's entry point and with its numbers for SpecIds; or the first rule that is broken.
/// Rules of a later pass are looked at only where the one before finds nothing: the header, the passes of acceptance.
fn accepted_in(alloc: Global, bytes: &[u8], setup: &Setup) -> Result<Module, Fail<Refusal>>
    ensures due { Answers (accepted_in bytes.now setup.now) result }
    ensures valid { IfOk result IsValid }
{
    let list = words(alloc, bytes)?;
    accepted_as(alloc, &list, setup.entry(), setup.overrides())
}

/// The same, refused as a pair is.
fn read_module(alloc: Global, bytes: &[u8], setup: &Setup) -> Result<Module, Fail<OpeningRefusal>>
    ensures due { Answers (of_module (accepted_in bytes.now setup.now)) result }
    ensures valid { IfOk result IsValid }
{
    match accepted_in(alloc, bytes, setup) {
        Ok(accepted) => Ok(accepted),
        Err(Fail::Refused(refusal)) => Err(Fail::Refused(OpeningRefusal::Module(refusal))),
        Err(Fail::NoMemory) => Err(Fail::NoMemory),
    }
}

/// The schedule of a setup that fits the module; or the first rule of the fit that is broken.
fn schedule_for(
    alloc: Global,
    accepted: &Module,
    setup: &Setup,
) -> Result<Schedule, Fail<SetupRefusal>>
    requires { IsValid accepted.now }
    ensures due { Answers (schedule_for accepted.now setup.now) result }
    ensures count { IfOk result (λ schedule. schedule.invocations ≡ invocations accepted.now) }
{
    let invocations = accepted.invocations();
    let frames = accepted.stack_cells();
    fit(
        alloc,
        accepted.index(),
        accepted.types(),
        invocations,
        frames,
        setup,
    )
}

/// The same, refused as a pair is.
fn fit_setup(
    alloc: Global,
    accepted: &Module,
    setup: &Setup,
) -> Result<Schedule, Fail<OpeningRefusal>>
    requires { IsValid accepted.now }
    ensures due { Answers (of_setup (schedule_for accepted.now setup.now)) result }
    ensures count { IfOk result (λ schedule. schedule.invocations ≡ invocations accepted.now) }
{
    match schedule_for(alloc, accepted, setup) {
        Ok(schedule) => Ok(schedule),
        Err(Fail::Refused(refusal)) => Err(Fail::Refused(OpeningRefusal::Setup(refusal))),
        Err(Fail::NoMemory) => Err(Fail::NoMemory),
    }
}

/// The group of a module and a setup, at the first position, where the setup fits the module. It keeps at most so many marks and entries of
/// events.
fn start(
    alloc: Global,
    accepted: Module,
    setup: Setup,
    limit: usize,
) -> Result<Group, Fail<OpeningRefusal>>
    requires valid { IsValid accepted }
    requires limit { 1 ≤ limit }
    ensures view { Answers (journaled limit (started setup accepted)) result }
    ensures start { IfOk result (λ group. group.group.position ≡ 0) }
{
    let schedule = fit_setup(alloc, &accepted, &setup)?;
    let program = Runnable::of(alloc, accepted, setup)?;
    Ok(Group::open_limited(alloc, program, schedule, limit)?)
}

/// Opens a pair: the setup's text is looked at first, then the module, and then whether the setup fits it. The group stands at the first
/// position, and keeps at most 1,048,576 marks and entries of events.
pub fn open(alloc: Global, binary: Vec<u8>, setup: Vec<u8>) -> Result<Group, Fail<OpeningRefusal>>
    requires { length setup.items ≤ setup_limit }
    ensures opening { Answers (journaled 1048576 (opening binary.items setup.items)) result }
    ensures start { IfOk result (λ group. group.group.position ≡ 0) }
{
    open_limited(alloc, binary, setup, LIMIT)
}

/// The same, with a group that keeps at most so many marks and entries of events.
#[tactic(auto, unfolding(crate::specs::Opening::opening))]
pub fn open_limited(
    alloc: Global,
    binary: Vec<u8>,
    setup: Vec<u8>,
    limit: usize,
) -> Result<Group, Fail<OpeningRefusal>>
    requires setup { length setup.items ≤ setup_limit }
    requires limit { 1 ≤ limit }
    ensures opening { Answers (journaled limit (opening binary.items setup.items)) result }
    ensures start { IfOk result (λ group. group.group.position ≡ 0) }
{
    let setup = parse_setup(alloc, &setup)?;
    let accepted = read_module(alloc, &binary, &setup)?;
    start(alloc, accepted, setup, limit)
}

/// A session over a pair, at its first view, with the probes of the kit.
#[tactic(auto, using(crate::proofs::Openings::viewed_as, crate::proofs::Openings::unviewed_as))]
pub fn open_session(
    alloc: Global,
    binary: Vec<u8>,
    setup: Vec<u8>,
    kit: Vec<Box<dyn Probe>>,
) -> Result<Debugging, Fail<OpeningRefusal>>
    requires fits { length setup.items ≤ setup_limit }
    requires few { vec_len kit ≤ 16 }
    requires unused { All (λ p. tally p ≡ 0) kit.items }
    ensures due { Answers (viewed 1048576 (opening binary.items setup.items)) (seen (λ it. it.session.core) result) }
    ensures tests { IfOk result (λ it. tests_of (λ p. test p) it.session.kit.boxes.items ≡ map (λ p. Some (test p)) kit.items) }
    ensures kit { IfOk result (λ it. IsKitOf (λ p. tally p) (λ p. test p) (tests_of (λ p. test p) it.session.kit.boxes.items) it.session.core.view it.session.kit.boxes.items) }
{
    let group = open(alloc, binary, setup)?;
    Ok(Debugging::open(alloc, group, kit)?)
}
