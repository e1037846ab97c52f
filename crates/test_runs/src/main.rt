//! Calls the program as a user would, and says what it writes and how it ends: blocks of instructions of each group that computes,
//! calls that stand in files with their words, setups and commands, and inputs that are made from a number; and what a group keeps
//! whose journal has little room, alone and in sessions with probes. What is due is worked out by `bench/runs.py`.
#![tactic(auto)]

mod calls;
mod followed;
mod limited;
mod made;
mod own;

use crate::calls::{files_of, report};
use crate::followed::report_followed;
use crate::limited::report_limited;
use crate::made::{report_made, report_undone};
use crate::own::report_own;
use spv_base::Fail;
use spv_cmd::{parse, print};
use std::io::Write;
use std::{fs, io, rt};

/// Groups of instructions: modules of data/ with the commands that they are debugged by, in the order of the output. The last one
/// has lines of one byte.
const GROUPS: [(&str, &str, &str); 9] = [
    ("unary", "unary.spv", "unary.commands"),
    ("binary", "binary.spv", "binary.commands"),
    ("extended", "extended.spv", "extended.commands"),
    ("glsl", "glsl.spv", "glsl.commands"),
    ("fields", "fields.spv", "fields.commands"),
    ("selections", "selections.spv", "selections.commands"),
    ("composites", "composites.spv", "composites.commands"),
    ("atomics", "atomics.spv", "atomics.commands"),
    ("bytes", "first.spv", "bytes.commands"),
];

/// The file of sessions that ask what probes have counted.
const PROBES: &str = "probes.runs";

/// The files of calls, in the order of the output.
const CALLS: [&str; 14] = [
    "commands.runs",
    "words.runs",
    "setups.runs",
    "values.runs",
    "invocations.runs",
    "memory.runs",
    "flow.runs",
    "group.runs",
    "pointers.runs",
    "source.runs",
    "traces.runs",
    "variables.runs",
    PROBES,
    "order.runs",
];

/// Says what `debug` writes for a module and some commands, and how it ends.
fn report_group<R: rt::Files + Print + AllocGlobal>(
    rt: &R,
    name: &str,
    module: &str,
    commands: &str,
) -> io::Result<()> {
    println!(rt; "{name}")?;
    let mut files = files_of(rt.alloc(), fs::read(rt, module)?, fs::read(rt, "setup")?)?;
    report(
        rt,
        "spvdbg debug module setup",
        &mut files,
        fs::read(rt, commands)?,
    )
}

/// Says what the call of a line `WHAT: MODULE: WORDS` writes, and how it ends.
fn report_call<R: rt::Files + Print + AllocGlobal>(
    rt: &R,
    line: &str,
    setup: &str,
    commands: &str,
) -> io::Result<()> {
    println!(rt; "{line}")?;
    if let Some((_, rest)) = line.split_once(": ") {
        if let Some((module, words)) = rest.split_once(": ") {
            let setup = Vec::from_slice(rt.alloc(), setup.as_bytes())?;
            let mut files = files_of(rt.alloc(), fs::read(rt, module)?, setup)?;
            let commands = Vec::from_slice(rt.alloc(), commands.as_bytes())?;
            report(rt, words, &mut files, commands)?;
        }
    }
    Ok(())
}

/// Says what each call of a file writes, and how it ends.
fn report_calls<R: rt::Files + Print + AllocGlobal>(rt: &R, file: &str) -> io::Result<()> {
    println!(rt; "{file}")?;
    let text = fs::read_to_string(rt, file)?;
    for part in text.split("== ") {
        if let Some((line, rest)) = part.split_once('\n') {
            if let Some((setup, commands)) = rest.split_once("-- commands\n") {
                report_call(rt, line, setup, commands)?;
            }
        }
    }
    Ok(())
}

/// Says what command a line is, as its canonical line, or with which code it is refused.
fn report_line<R: Print + AllocGlobal>(rt: &R, line: &str) -> io::Result<()> {
    match parse(rt.alloc(), line.as_bytes()) {
        Ok(command) => {
            let Ok(text) = print(rt.alloc(), &command) else {
                return println!(rt; "out of memory");
            };
            io::writer(rt).write_all(text.as_slice())?;
            println!(rt; "")
        }
        Err(Fail::Refused(refusal)) => println!(rt; "C{}", refusal.code),
        Err(Fail::NoMemory) => println!(rt; "out of memory"),
    }
}

fn main(rt: HostRuntime) -> io::Result<()> {
    for (name, module, commands) in GROUPS {
        report_group(&rt, name, module, commands)?;
    }
    for file in CALLS {
        report_calls(&rt, file)?;
    }
    report_made(&rt, 1)?;
    report_made(&rt, 64)?;
    report_undone(&rt, 64)?;
    report_limited(&rt, "first.spv")?;
    report_followed(&rt, PROBES)?;
    report_own(&rt, "source-exchange.spv")?;
    println!(rt; "lines")?;
    let lines = fs::read_to_string(&rt, "lines")?;
    for line in lines.split_terminator('\n') {
        report_line(&rt, line)?;
    }
    Ok(())
}
