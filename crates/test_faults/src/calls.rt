//! Calls of the program, each on a counter of its own.
ghost use Rattle.std.specs.Prelude.{◌≡◌, ◌<◌};

use crate::fakes::{Lengths, Watched};
use crate::rows::{files, input, output};
use spv_app::{Status, debug_main};
use spv_base::{FailingFiles, Probe, Steps};
use std::alloc::Global;
use std::io::Write;
use std::marker::Brand;
use std::sync::ledger::{Blank, Ledger};
use std::{fs, io, rt};

/// The words of a line, split at its spaces.
fn words_of(alloc: Global, line: &str) -> io::Result<Vec<String>> {
    let mut words = Vec::new(alloc);
    for word in line.split(' ') {
        words.push(String::from_str(alloc, word)?)?;
    }
    Ok(words)
}

/// Does what the words say, with no probes.
fn call_counted<L: Ledger>(
    alloc: Global,
    blank: Blank,
    words: &[String],
    files: &mut FailingFiles,
    input: &mut Watched,
    out: &mut Lengths,
) -> Status
    requires files { files.old.held.faults ≡ 0 }
    requires input { input.old.held.faults ≡ 0 }
    requires out { out.old.held.held.faults ≡ 0 }
    requires name { blank.name ≡ L.name }
    requires parts { blank.parts ≡ L.parts }
    requires some { 0 < blank.parts }
{
    let kit: Vec<Box<dyn Probe>> = Vec::new(alloc);
    let mut steps = Steps::<L>::new(blank);
    debug_main(alloc, words, files, input, out, kit, &mut steps)
}

/// Does what the words say.
fn call(
    alloc: Global,
    words: &[String],
    files: &mut FailingFiles,
    input: &mut Watched,
    out: &mut Lengths,
) -> Status
    requires files { files.old.held.faults ≡ 0 }
    requires input { input.old.held.faults ≡ 0 }
    requires out { out.old.held.held.faults ≡ 0 }
{
    call_counted::<Brand>(alloc, Blank::new(1), words, files, input, out)
}

/// Says what a call has written, how it ended, and what it asked for.
fn report_end<R: Print>(
    rt: &R,
    status: Status,
    files: &FailingFiles,
    input: &Watched,
    out: &Lengths,
) -> io::Result<()> {
    io::writer(rt).write_all(&out.held.held.bytes)?;
    print!(rt;
        "-- status {}, file [{}]",
        status as u8, files.held.failed_name
    )?;
    let (reads, taken) = (input.held.calls, input.held.held.at);
    print!(rt;
        ", reads {reads}, longest {}, taken {taken}, pieces",
        input.longest
    )?;
    for length in &out.lengths {
        print!(rt; " {length}")?;
    }
    println!(rt; "")
}

/// Says what a call over the outside of a row writes, and how it ends.
fn report_row<R: rt::Files + Print + AllocGlobal>(
    rt: &R,
    words: &str,
    row: &str,
    setup: &str,
    commands: &str,
) -> io::Result<()> {
    let alloc = rt.alloc();
    let words = words_of(alloc, words)?;
    let mut out = output(alloc, row)?;
    let mut input = input(alloc, row, commands)?;
    let mut files = files(alloc, row, fs::read(rt, "first.spv")?, setup)?;
    let status = call(alloc, &words, &mut files, &mut input, &mut out);
    report_end(rt, status, &files, &input, &out)
}

/// Says what the call of a row `WHAT: WORDS` writes, and how it ends.
pub fn report_call<R: rt::Files + Print + AllocGlobal>(rt: &R, row: &str) -> io::Result<()> {
    if let Some((line, rest)) = row.split_once('\n') {
        println!(rt; "{line}")?;
        if let (Some((_, words)), Some((numbers, rest))) = (
            line.split_once(": "),
            rest.split_once("-- setup\n"),
        ) {
            if let Some((setup, commands)) = rest.split_once("-- commands\n") {
                report_row(rt, words, numbers, setup, commands)?;
            }
        }
    }
    Ok(())
}
