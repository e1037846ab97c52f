//! Sessions over a group with a journal that keeps few marks and entries, with the three probes of the program.
ghost use Rattle.std.specs.Prelude.{◌≡◌, ◌<◌, ◌≤◌, All, IfOk, vec_len};

use crate::limited::LIMIT;
use spv_app::limits::SETUP_LIMIT;
use spv_app::opening::open_limited;
use spv_app::{Debugging, Group, run};
use spv_base::{MemorySink, MemorySource, NoMemory, Probe, Steps};
use spv_probe::{Barriers, Lines, Stores};
use std::alloc::Global;
use std::io::Write;
use std::marker::Brand;
use std::sync::ledger::{Blank, Ledger};
use std::{fs, io, rt};

/// A kit of three probes that have counted nothing.
pub fn kit_of(
    alloc: Global,
    first: Box<dyn Probe>,
    second: Box<dyn Probe>,
    third: Box<dyn Probe>,
) -> Result<Vec<Box<dyn Probe>>, NoMemory>
    requires first { tally first ≡ 0 }
    requires second { tally second ≡ 0 }
    requires third { tally third ≡ 0 }
    ensures few { IfOk result (λ kit. vec_len kit ≤ 16) }
    ensures unused { IfOk result (λ kit. All (λ p. tally p ≡ 0) kit.items) }
{
    let mut kit = Vec::with_capacity(alloc, 3)?;
    kit.push(first)?;
    kit.push(second)?;
    kit.push(third)?;
    Ok(kit)
}

/// What a session over a group at its start replies to commands.
fn replies<L: Ledger>(
    alloc: Global,
    blank: Blank,
    group: Group,
    commands: Vec<u8>,
) -> Result<Vec<u8>, NoMemory>
    requires start { group.group.position ≡ 0 }
    requires name { blank.name ≡ L.name }
    requires parts { blank.parts ≡ L.parts }
    requires some { 0 < blank.parts }
{
    let stores = Box::new(alloc, Stores::new(None))?;
    let lines = Box::new(alloc, Lines::new(None))?;
    let barriers = Box::new(alloc, Barriers::new())?;
    let kit = kit_of(alloc, stores, lines, barriers)?;
    let mut debugging = Debugging::open(alloc, group, kit)?;
    let mut input = MemorySource::new(commands);
    let mut out = MemorySink::new(alloc);
    let mut steps = Steps::<L>::new(blank);
    let _status = run(alloc, &mut debugging, &mut input, &mut out, &mut steps);
    Ok(out.bytes)
}

/// The same of a module and a setup, which has no more bytes than the program reads of one.
fn replies_of(
    alloc: Global,
    module: Vec<u8>,
    setup: Vec<u8>,
    commands: Vec<u8>,
) -> Option<Vec<u8>> {
    if setup.len() as u64 > SETUP_LIMIT {
        return None;
    }
    match open_limited(alloc, module, setup, LIMIT) {
        Ok(group) => replies::<Brand>(alloc, Blank::new(1), group, commands).ok(),
        Err(_) => None,
    }
}

/// Says what is replied to the commands of a line `WHAT: MODULE: WORDS`.
fn report_one<R: rt::Files + Print + AllocGlobal>(
    rt: &R,
    line: &str,
    setup: &str,
    commands: &str,
) -> io::Result<()> {
    if let Some((what, rest)) = line.split_once(": ") {
        println!(rt; "{what}")?;
        if let Some((module, _)) = rest.split_once(": ") {
            let setup = Vec::from_slice(rt.alloc(), setup.as_bytes())?;
            let commands = Vec::from_slice(rt.alloc(), commands.as_bytes())?;
            match replies_of(rt.alloc(), fs::read(rt, module)?, setup, commands) {
                Some(text) => io::writer(rt).write_all(&text)?,
                None => println!(rt; "out of memory")?,
            }
        }
    }
    Ok(())
}

/// Says what is replied to the commands of each call of a file.
pub fn report_followed<R: rt::Files + Print + AllocGlobal>(rt: &R, file: &str) -> io::Result<()> {
    println!(rt; "followed")?;
    let text = fs::read_to_string(rt, file)?;
    for part in text.split("== ") {
        if let Some((line, rest)) = part.split_once('\n') {
            if let Some((setup, commands)) = rest.split_once("-- commands\n") {
                report_one(rt, line, setup, commands)?;
            }
        }
    }
    Ok(())
}
