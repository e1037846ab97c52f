//! What is told of a run of made inputs.
ghost use Rattle.std.specs.Prelude.{◌≡◌, ◌≤◌, ◌%◌, ◌^◌, length};
ghost use Rattle.std.specs.List.{sum};
ghost use Rattle.spv_base.specs.Answers.{Answers};
ghost use Rattle.spv_ops.specs.Steps.{seen};
ghost use Rattle.spv_app.specs.Limits.{setup_limit};
ghost use Rattle.spv_app.specs.Making.{making, running};

use crate::opening::{OpeningRefusal, open_session};
use spv_base::{Fail, MemorySink, MemorySource, Steps};
use spv_loop::{Status, run};
use spv_make::{Made, make};
use std::alloc::Global;
use std::fmt;
use std::sync::ledger::Ledger;

/// How many bytes made inputs and the transcript of their run have.
#[derive(Clone, Copy)]
pub struct MadeReport {
    /// The number that they are made for.
    pub number: u32,
    pub module: usize,
    pub setup: usize,
    pub commands: usize,
    pub transcript: usize,
    /// The sum of the transcript's bytes, modulo 2^64.
    pub sum: u64,
}

impl fmt::Display for MadeReport {
    ghost use Rattle.std.specs.Prelude.{Some};
    ghost use Rattle.spv_app.specs.Making.{made_text};

    ghost output = { λ report. Some (made_text report) };

    fn fmt<W: fmt::Write>(&self, f: &mut fmt::Formatter<W>) -> fmt::Result {
        let MadeReport {
            number,
            module,
            setup,
            commands,
            transcript,
            sum,
        } = *self;
        write!(
            f,
            "make {number}: module {module}, setup {setup}, commands {commands}, transcript {transcript}, sum {sum}"
        )
    }
}

/// The sum of bytes, modulo 2^64.
fn sum_of(bytes: &[u8]) -> u64
    ensures { result ≡ sum bytes.now % 2 ^ 64 }
{
    let mut total: u64 = 0;
    for byte in bytes {
        total = total.wrapping_add(u64::from(*byte));
    }
    total
}

/// The transcript of a run in memory, with no probes.
#[tactic(auto, unfolding(crate::specs::Making::running))]
fn transcript_of<L: Ledger>(
    alloc: Global,
    binary: Vec<u8>,
    setup: Vec<u8>,
    commands: Vec<u8>,
    steps: &mut Steps<L>,
) -> Result<Vec<u8>, Fail<OpeningRefusal>>
    requires fits { length setup.items ≤ setup_limit }
    ensures due { Answers (running binary.items setup.items commands.items) (seen (λ text. text.items) result) }
    ensures counted { steps.old ≤ steps.new }
{
    let mut debugging = open_session(alloc, binary, setup, Vec::new(alloc))?;
    let mut input = MemorySource::new(commands);
    let mut out = MemorySink::new(alloc);
    match run(alloc, &mut debugging, &mut input, &mut out, steps) {
        Status::Done => Ok(out.bytes),
        // In memory nothing else fails, and the commands are short.
        _ => Err(Fail::NoMemory),
    }
}

/// How long the inputs for a number are, and the transcript of their run; or why they are refused.
#[tactic(auto, unfolding(crate::specs::Making::making))]
pub fn making<L: Ledger>(
    alloc: Global,
    number: u32,
    steps: &mut Steps<L>,
) -> Result<MadeReport, Fail<OpeningRefusal>>
    requires low { 1 ≤ number }
    requires high { number ≤ 64 }
    ensures due { Answers (making number) result }
    ensures counted { steps.old ≤ steps.new }
{
    let Made {
        module,
        setup,
        commands,
    } = make(alloc, number)?;
    let (module_len, setup_len, commands_len) = (module.len(), setup.len(), commands.len());
    let text = transcript_of(
        alloc,
        module.into_vec(),
        setup.into_vec(),
        commands.into_vec(),
        steps,
    )?;
    Ok(MadeReport {
        number,
        module: module_len,
        setup: setup_len,
        commands: commands_len,
        transcript: text.len(),
        sum: sum_of(&text),
    })
}
