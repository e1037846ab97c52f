//! Why a motion stopped.
ghost use Rattle.std.specs.Prelude.{◌≡◌, ◌++◌, OnOk, drop};
ghost use Rattle.std.specs.List.{flat_map};
ghost use Rattle.spv_session.specs.Motions.{no_hit};
ghost use Rattle.spv_session.specs.Texts.{behind_comma, cause_text, hit_causes, numbered_text, place_causes, stop_line};

use spv_base::{EndCause, NoMemory, Places};
use spv_line::push_number;
use std::alloc::Global;

/// What a motion stops for: the numbers of the breaks, of the watches and of the probes whose halts hit.
#[derive(Drop)]
pub(crate) struct Hit {
    pub(crate) breaks: Places,
    pub(crate) watches: Places,
    pub(crate) halts: Places,
}

impl Hit {
    /// Nothing.
    pub(crate) fn none(alloc: Global) -> Hit
        ensures { result ≡ no_hit }
    {
        Hit {
            breaks: Places::new(alloc),
            watches: Places::new(alloc),
            halts: Places::new(alloc),
        }
    }
}

/// Appends why the run ends.
fn push_cause(alloc: Global, text: &mut Vec<u8>, cause: EndCause) -> Result<(), NoMemory>
    ensures { OnOk result (text.new.items ≡ text.old.items ++ cause_text cause) }
{
    match cause {
        EndCause::Finished => text.extend_from_slice(b"all finished")?,
        EndCause::Stuck => text.extend_from_slice(b"stuck")?,
        EndCause::Schedule => text.extend_from_slice(b"schedule ended")?,
        EndCause::Fault(fault) => {
            text.extend_from_slice(b"fault F")?;
            push_number(alloc, text, fault.code as u64)?;
            text.extend_from_slice(b" i=")?;
            push_number(alloc, text, fault.inv as u64)?;
            text.extend_from_slice(b" word ")?;
            push_number(alloc, text, fault.word as u64)?;
        }
    }
    Ok(())
}

/// Appends a word with each of some numbers, each behind a comma.
fn push_numbered(
    alloc: Global,
    text: &mut Vec<u8>,
    word: &[u8],
    numbers: &[u32],
) -> Result<(), NoMemory>
    ensures { OnOk result (text.new.items ≡ text.old.items ++ flat_map (λ k. behind_comma (numbered_text word.now k)) numbers.now) }
{
    for number in numbers {
        text.extend_from_slice(b", ")?;
        text.extend_from_slice(word)?;
        push_number(alloc, text, u64::from(*number))?;
    }
    Ok(())
}

/// Appends what hit, each cause behind a comma.
fn push_hit(alloc: Global, text: &mut Vec<u8>, hit: &Hit) -> Result<(), NoMemory>
    ensures { OnOk result (text.new.items ≡ text.old.items ++ flat_map behind_comma (hit_causes hit.now.breaks hit.now.watches hit.now.halts)) }
{
    push_numbered(alloc, text, b"break ", hit.breaks.as_slice())?;
    push_numbered(alloc, text, b"watch ", hit.watches.as_slice())?;
    push_numbered(alloc, text, b"halt ", hit.halts.as_slice())
}

/// Appends what else holds where a motion stopped, each cause behind a comma.
fn push_place_causes(
    alloc: Global,
    text: &mut Vec<u8>,
    done: bool,
    start: bool,
    cause: Option<EndCause>,
) -> Result<(), NoMemory>
    ensures { OnOk result (text.new.items ≡ text.old.items ++ flat_map behind_comma (place_causes done start cause)) }
{
    if done {
        text.extend_from_slice(b", done")?;
    }
    if start {
        text.extend_from_slice(b", start")?;
    }
    if let Some(cause) = cause {
        text.extend_from_slice(b", ")?;
        push_cause(alloc, text, cause)?;
    }
    Ok(())
}

/// What stands behind the first comma, if there is one.
#[tactic(auto, using(crate::proofs::CauseLemmas::drop_short))]
fn behind_first(causes: &[u8]) -> &[u8]
    ensures { result.now ≡ drop 2 causes.now }
{
    if causes.len() < 2 {
        return &[];
    }
    &causes[2..]
}

/// Appends why a motion stopped: what hit, that what was asked for is done, the start, and why the run ends there.
pub(crate) fn push_stop(
    alloc: Global,
    text: &mut Vec<u8>,
    hit: &Hit,
    done: bool,
    start: bool,
    cause: Option<EndCause>,
) -> Result<(), NoMemory>
    ensures { OnOk result (text.new.items ≡ text.old.items ++ stop_line hit.now.breaks hit.now.watches hit.now.halts done start cause) }
{
    let mut causes = Vec::new(alloc);
    push_hit(alloc, &mut causes, hit)?;
    push_place_causes(alloc, &mut causes, done, start, cause)?;
    text.extend_from_slice(b"stop: ")?;
    text.extend_from_slice(behind_first(&causes))?;
    text.extend_from_slice(b"\n")?;
    Ok(())
}
