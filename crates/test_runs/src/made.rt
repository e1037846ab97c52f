//! Inputs that are made from a number.
ghost use Rattle.std.specs.Prelude.{◌≤◌};

use crate::calls::{call, files_of, report, words_of};
use spv_make::{Made, make};
use std::alloc::Global;
use std::io::Write;
use std::{io, rt, str};

/// Says what is made for a number: how many bytes each input has, the texts, and the listing of the module, which is accepted.
pub fn report_made<R: rt::Files + Print + AllocGlobal>(rt: &R, n: u32) -> io::Result<()>
    requires low { 1 ≤ n }
    requires high { n ≤ 64 }
{
    let Ok(made) = make(rt.alloc(), n) else {
        return println!(rt; "out of memory");
    };
    let Made {
        module,
        setup,
        commands,
    } = made;
    let (module_len, setup_len, commands_len) = (module.len(), setup.len(), commands.len());
    println!(rt; "make {n}: module {module_len}, setup {setup_len}, commands {commands_len}")?;
    io::writer(rt).write_all(setup.as_slice())?;
    io::writer(rt).write_all(commands.as_slice())?;
    let mut files = files_of(rt.alloc(), module.into_vec(), setup.into_vec())?;
    report(rt, "spvdbg text module", &mut files, Vec::new(rt.alloc()))
}

/// How many steps back are made.
const STEPS_BACK: usize = 100_000;

/// The commands that go to a position, and so many steps back.
fn there_and_back(alloc: Global, position: u32, steps: usize) -> io::Result<Vec<u8>> {
    let back = "back 1\n".repeat(alloc, steps)?;
    let commands = format!(in alloc; "goto {position}\n{back}")?;
    Ok(commands.into_bytes())
}

/// Says how many lines a text has, and the first two and the last two of them.
fn report_ends<R: Print + AllocGlobal>(rt: &R, text: &str) -> io::Result<()> {
    let mut lines = Vec::new(rt.alloc());
    for line in text.split_terminator('\n') {
        lines.push(line)?;
    }
    println!(rt; "lines {}", lines.len())?;
    for line in lines.iter().take(2) {
        println!(rt; "{line}")?;
    }
    for line in &lines[lines.len().saturating_sub(2)..] {
        println!(rt; "{line}")?;
    }
    Ok(())
}

/// Says what is written where the run by the inputs of a number goes to its end, and then step by step back.
pub fn report_undone<R: rt::Files + Print + AllocGlobal>(rt: &R, n: u32) -> io::Result<()>
    requires low { 1 ≤ n }
    requires high { n ≤ 64 }
{
    let alloc = rt.alloc();
    println!(rt; "undone {n}")?;
    let Ok(made) = make(alloc, n) else {
        return println!(rt; "out of memory");
    };
    let mut files = files_of(alloc, made.module.into_vec(), made.setup.into_vec())?;
    let commands = there_and_back(alloc, 64 * (9 + 56 * n), STEPS_BACK)?;
    let words = words_of(alloc, "spvdbg debug module setup")?;
    let (status, written) = call(alloc, &words, &mut files, commands);
    if let Ok(text) = str::from_utf8(&written) {
        report_ends(rt, text)?;
    }
    println!(rt; "status {}", status as u8)
}
