//! Calls of the program, each on a counter of its own, and what they write.
ghost use Rattle.std.specs.Prelude.{◌≡◌, ◌<◌, IfOk};

use crate::followed::kit_of;
use spv_app::{Status, debug_main};
use spv_base::{MemoryFiles, MemorySink, MemorySource, Steps};
use spv_probe::{Barriers, Lines, Stores};
use std::alloc::Global;
use std::collections::BTreeMap;
use std::io::Write;
use std::marker::Brand;
use std::sync::ledger::{Blank, Ledger};
use std::{io, rt};

/// The files `module` and `setup`.
pub fn files_of(alloc: Global, module: Vec<u8>, setup: Vec<u8>) -> io::Result<MemoryFiles>
    ensures { IfOk result (λ files. files.faults ≡ 0) }
{
    let mut held = BTreeMap::new(alloc);
    held.insert(String::from_str(alloc, "module")?, module)?;
    held.insert(String::from_str(alloc, "setup")?, setup)?;
    Ok(MemoryFiles::new(alloc, held))
}

/// The words of a line, split at its spaces.
pub fn words_of(alloc: Global, line: &str) -> io::Result<Vec<String>> {
    let mut words = Vec::new(alloc);
    for word in line.split(' ') {
        words.push(String::from_str(alloc, word)?)?;
    }
    Ok(words)
}

/// Does what the words say, with the three probes of the program.
fn call_counted<L: Ledger>(
    alloc: Global,
    blank: Blank,
    words: &[String],
    files: &mut MemoryFiles,
    commands: Vec<u8>,
    out: &mut MemorySink,
) -> Status
    requires files { files.old.faults ≡ 0 }
    requires out { out.old.faults ≡ 0 }
    requires name { blank.name ≡ L.name }
    requires parts { blank.parts ≡ L.parts }
    requires some { 0 < blank.parts }
{
    let Ok(stores) = Box::new(alloc, Stores::new(None)) else {
        return Status::NoMemory;
    };
    let Ok(lines) = Box::new(alloc, Lines::new(None)) else {
        return Status::NoMemory;
    };
    let Ok(barriers) = Box::new(alloc, Barriers::new()) else {
        return Status::NoMemory;
    };
    let Ok(kit) = kit_of(alloc, stores, lines, barriers) else {
        return Status::NoMemory;
    };
    let mut input = MemorySource::new(commands);
    let mut steps = Steps::<L>::new(blank);
    debug_main(alloc, words, files, &mut input, out, kit, &mut steps)
}

/// How a call over these files and commands ends, and what it writes.
pub fn call(
    alloc: Global,
    words: &[String],
    files: &mut MemoryFiles,
    commands: Vec<u8>,
) -> (Status, Vec<u8>)
    requires { files.old.faults ≡ 0 }
{
    let mut out = MemorySink::new(alloc);
    let status = call_counted::<Brand>(alloc, Blank::new(1), words, files, commands, &mut out);
    (status, out.bytes)
}

/// Says what a call writes, and how it ends.
pub fn report<R: rt::Files + Print + AllocGlobal>(
    rt: &R,
    line: &str,
    files: &mut MemoryFiles,
    commands: Vec<u8>,
) -> io::Result<()>
    requires { files.old.faults ≡ 0 }
{
    let alloc = rt.alloc();
    let (status, written) = call(alloc, &words_of(alloc, line)?, files, commands);
    io::writer(rt).write_all(&written)?;
    println!(rt; "status {}", status as u8)
}
