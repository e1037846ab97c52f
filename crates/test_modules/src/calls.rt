//! One call of the program, on a counter of its own.
ghost use Rattle.std.specs.Prelude.{◌≡◌, ◌<◌, ◌-◌};

use spv_app::{Status, debug_main};
use spv_base::{Files, MemoryFiles, MemorySink, MemorySource, Probe, Steps};
use std::alloc::Global;
use std::collections::BTreeMap;
use std::io;
use std::marker::Brand;
use std::sync::ledger::{Blank, Ledger};

/// The words of a command line that checks a module.
fn words_for(alloc: Global, name: &str) -> io::Result<Vec<String>> {
    let mut words = Vec::new(alloc);
    for word in ["spvdbg", "check", name] {
        words.push(String::from_str(alloc, word)?)?;
    }
    Ok(words)
}

/// Does what the words say, with no input and no probes.
fn call<F: Files, L: Ledger>(
    alloc: Global,
    blank: Blank,
    words: &[String],
    files: &mut F,
    out: &mut MemorySink,
) -> Status
    requires files { F.faults files.old ≡ 0 }
    requires out { out.old.faults ≡ 0 }
    requires name { blank.name ≡ L.name }
    requires parts { blank.parts ≡ L.parts }
    requires some { 0 < blank.parts }
{
    let kit: Vec<Box<dyn Probe>> = Vec::new(alloc);
    let mut input = MemorySource::new(Vec::new(alloc));
    let mut steps = Steps::<L>::new(blank);
    debug_main(alloc, words, files, &mut input, out, kit, &mut steps)
}

/// The status of `check` for a module of these files, and what it writes.
pub fn check_in<F: Files>(alloc: Global, name: &str, files: &mut F) -> io::Result<(Status, Vec<u8>)>
    requires files { F.faults files.old ≡ 0 }
{
    let words = words_for(alloc, name)?;
    let mut out = MemorySink::new(alloc);
    let status = call::<F, Brand>(alloc, Blank::new(1), &words, files, &mut out);
    Ok((status, out.bytes))
}

/// The status of `check` for a module of these bytes, and what it writes.
pub fn check(alloc: Global, module: Vec<u8>) -> io::Result<(Status, Vec<u8>)> {
    let mut held = BTreeMap::new(alloc);
    held.insert(String::from_str(alloc, "module")?, module)?;
    check_in(alloc, "module", &mut MemoryFiles::new(alloc, held))
}
