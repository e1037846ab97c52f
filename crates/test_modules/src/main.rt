//! Runs `check` on each module of data/, as a user would, and says what it writes and how it ends: shaders as compilers
//! and the optimizer give them, whose sources stand in examples/check, modules with one word changed, and modules with one
//! rule broken; lists single instructions; and reads the debug records of modules, as they are and with one operand exchanged, with
//! the lines and frames that they give and the texts of values of their types. Each module that is checked and decoded is also read back from its listing. What is due is worked out by bench/modules.py.
//!
//! No record of a compiler is malformed but those that `spirv-opt -O` puts behind the end of a block, where none has a meaning: a
//! NoScope in shared, structs and widths, and a NoLine in structs.
#![tactic(auto)]

mod calls;
mod changes;
mod lines;
mod read_back;
mod records;
mod rules;
mod values;

use crate::calls::{check, check_in};
use crate::changes::Change;
use crate::lines::Shown;
use crate::read_back::{is_read_back, listing_of};
use crate::records::{Counts, read_of};
use crate::rules::{module_of, module_of_words};
use crate::values::Values;
use spv_base::{Fail, RealFiles, Refusal};
use std::alloc::Global;
use std::io::Write;
use std::{fs, io, rt};

/// The files of modules as listings, in the order of the output.
const RULES: [&str; 10] = [
    "sections.rules",
    "ids.rules",
    "capabilities.rules",
    "types.rules",
    "layouts.rules",
    "operations.rules",
    "bodies.rules",
    "blocks.rules",
    "entry.rules",
    "texts.rules",
];

/// What is told of a module's listing.
fn of_listing(alloc: Global, bytes: &[u8]) -> &'static str {
    match is_read_back(alloc, bytes) {
        Ok(true) => "read back",
        Ok(false) => "read otherwise",
        Err(Fail::Refused(_)) => "not listed",
        Err(Fail::NoMemory) => "out of memory",
    }
}

/// Says what `check` writes for a module and how it ends, and whether the module is read back from its listing.
fn report<R: rt::Files + Print + AllocGlobal>(rt: &R, name: &str) -> io::Result<()> {
    let alloc = rt.alloc();
    let (status, written) = check_in(alloc, name, &mut RealFiles::new(alloc, rt))?;
    let listed = of_listing(alloc, &fs::read(rt, name)?);
    print!(rt; "{name}: status {}, {listed}, ", status as u8)?;
    io::writer(rt).write_all(&written)
}

/// The module of a line `NAME CHANGE`, or of a line `NAME` as it is.
fn module_in<R: rt::Files + AllocGlobal>(rt: &R, line: &str) -> io::Result<Vec<u8>> {
    let (name, numbers) = line.split_once(' ').unwrap_or((line, ""));
    let mut module = fs::read(rt, name)?;
    if let Some(change) = Change::of(numbers) {
        change.apply(&mut module);
    }
    Ok(module)
}

/// Says what `check` writes for a module with each change of a list, and how it ends.
fn report_changes<R: rt::Files + Print + AllocGlobal>(rt: &R, list: &str) -> io::Result<()> {
    let text = fs::read_to_string(rt, list)?;
    for line in text.lines() {
        let module = module_in(rt, line)?;
        let listed = of_listing(rt.alloc(), &module);
        let (status, written) = check(rt.alloc(), module)?;
        print!(rt; "{line}: status {}, {listed}, ", status as u8)?;
        io::writer(rt).write_all(&written)?;
    }
    Ok(())
}

/// Says what `check` writes for the module of a listing.
fn report_rule<R: rt::Files + Print + AllocGlobal>(
    rt: &R,
    what: &str,
    listing: &str,
) -> io::Result<()> {
    print!(rt; "{what}: ")?;
    match module_of(rt.alloc(), listing.as_bytes()) {
        Ok(module) => {
            let (_, written) = check(rt.alloc(), module)?;
            io::writer(rt).write_all(&written)
        }
        Err(Fail::Refused(Refusal { code, word })) => println!(rt; "X{code} at line {word}"),
        Err(Fail::NoMemory) => println!(rt; "out of memory"),
    }
}

/// Says what `check` writes for each module of a file of listings.
fn report_rules<R: rt::Files + Print + AllocGlobal>(rt: &R, file: &str) -> io::Result<()> {
    let text = fs::read_to_string(rt, file)?;
    println!(rt; "{file}")?;
    for rule in text.split("== ") {
        if let Some((what, listing)) = rule.split_once('\n') {
            report_rule(rt, what, listing)?;
        }
    }
    Ok(())
}

/// Says how the instruction with these words is listed, or with which code it is refused.
fn report_instruction<R: Print + AllocGlobal>(rt: &R, line: &str) -> io::Result<()> {
    let Ok(module) = module_of_words(rt.alloc(), line) else {
        return println!(rt; "out of memory");
    };
    match listing_of(rt.alloc(), &module) {
        Ok(text) => io::writer(rt).write_all(text.as_slice()),
        Err(Fail::Refused(Refusal { code, word })) => println!(rt; "M{code} at word {word}"),
        Err(Fail::NoMemory) => println!(rt; "out of memory"),
    }
}

/// Says what is counted.
fn print_counts<R: Print>(rt: &R, counts: &Counts) -> io::Result<()> {
    let (records, found, ignored) = (counts.records, counts.found, counts.ignored);
    print!(rt; "records {records}, found {found}, ignored {ignored}")?;
    print!(rt; ", strings {}, numbers {}", counts.strings, counts.numbers)?;
    print!(rt; ", inlined {}, text {}", counts.inlined, counts.text)
}

/// Says where instructions stand.
fn print_shown<R: Print>(rt: &R, shown: &Shown) -> io::Result<()> {
    print!(rt; ", lines {} of sum {}", shown.lines, shown.numbers)?;
    print!(rt; ", heads {} and {}", shown.heads, shown.same)?;
    let (frames, outer, names) = (shown.frames, shown.outer, shown.names);
    print!(rt; ", frames {frames} of sum {outer} and {names} bytes")
}

/// Says how values of the debug types are written.
fn print_values<R: Print>(rt: &R, values: &Values) -> io::Result<()> {
    let (types, bytes, sum, same) = (values.types, values.bytes, values.sum, values.same);
    println!(rt; ", values {types} of {bytes} bytes and sum {sum}, {same} alike")
}

/// Says what the debug records of each module of a list hold, what the look-ups give, and where the instructions stand in the source.
fn report_records<R: rt::Files + Print + AllocGlobal>(rt: &R, list: &str) -> io::Result<()> {
    println!(rt; "{list}")?;
    let text = fs::read_to_string(rt, list)?;
    for line in text.lines() {
        print!(rt; "{line}: ")?;
        let module = module_in(rt, line)?;
        match read_of(rt.alloc(), &module) {
            Ok(read) => {
                print_counts(rt, &read.counts)?;
                print_shown(rt, &read.shown)?;
                print_values(rt, &read.values)?;
            }
            Err(_) => println!(rt; "refused")?,
        }
    }
    Ok(())
}

fn main(rt: HostRuntime) -> io::Result<()> {
    let names = fs::read_to_string(&rt, "modules")?;
    for name in names.lines() {
        report(&rt, name)?;
    }
    report_changes(&rt, "changes")?;
    for file in RULES {
        report_rules(&rt, file)?;
    }
    println!(rt; "instructions")?;
    let instructions = fs::read_to_string(&rt, "instructions")?;
    for line in instructions.lines() {
        report_instruction(&rt, line)?;
    }
    report_records(&rt, "records")
}
