//! What stands in a row of data/calls: lines with numbers, the setup and the commands.
ghost use Rattle.std.specs.Prelude.{◌≡◌, IfOk};

use crate::fakes::{Lengths, Watched};
use spv_base::{FailingFiles, FailingSink, FailingSource};
use std::alloc::Global;
use std::collections::BTreeMap;
use std::io;

/// One more byte than the input may have.
const TOO_LONG: usize = 16_777_217;

/// The numbers of the line that begins so.
fn numbers(alloc: Global, row: &str, name: &str) -> io::Result<Vec<u64>> {
    let mut numbers = Vec::new(alloc);
    for line in row.lines() {
        if let Some(rest) = line.strip_prefix(name) {
            for word in rest.split(' ') {
                if let Ok(number) = word.parse() {
                    numbers.push(number)?;
                }
            }
        }
    }
    Ok(numbers)
}

/// The number of the line that begins so, and else 4,096.
fn most(alloc: Global, row: &str, name: &str) -> io::Result<usize> {
    match numbers(alloc, row, name)?.first() {
        Some(number) => Ok(*number as usize),
        None => Ok(4096),
    }
}

/// A file with as many bytes as the row's line of this name says, zeros behind its own ones.
fn filled(alloc: Global, row: &str, name: &str, mut bytes: Vec<u8>) -> io::Result<Vec<u8>> {
    if let Some(count) = numbers(alloc, row, name)?.first() {
        bytes.resize(*count as usize, 0)?;
    }
    Ok(bytes)
}

/// The files of a row: a module, and the row's setup.
pub fn files(alloc: Global, row: &str, module: Vec<u8>, setup: &str) -> io::Result<FailingFiles>
    ensures { IfOk result (λ files. files.held.faults ≡ 0) }
{
    let mut held = BTreeMap::new(alloc);
    let module = filled(alloc, row, "bytes of the module:", module)?;
    held.insert(String::from_str(alloc, "module.spv")?, module)?;
    let setup = Vec::from_slice(alloc, setup.as_bytes())?;
    let setup = filled(alloc, row, "bytes of the setup:", setup)?;
    held.insert(String::from_str(alloc, "module.setup")?, setup)?;
    let fails = numbers(alloc, row, "readings that fail:")?;
    Ok(FailingFiles::new(alloc, held, fails))
}

/// The commands of a row. What stands behind `-- on and on` is repeated, up to one more byte than the input may have.
fn commands(alloc: Global, text: &str) -> io::Result<Vec<u8>> {
    let Some((first, rest)) = text.split_once("-- on and on\n") else {
        return Ok(Vec::from_slice(alloc, text.as_bytes())?);
    };
    let mut bytes = Vec::from_slice(alloc, first.as_bytes())?;
    let more = rest.strip_suffix('\n').unwrap_or(rest);
    for _byte in 0..TOO_LONG {
        if bytes.len() < TOO_LONG {
            bytes.extend_from_slice(more.as_bytes())?;
        }
    }
    bytes.truncate(TOO_LONG);
    Ok(bytes)
}

/// The input of a row.
pub fn input(alloc: Global, row: &str, text: &str) -> io::Result<Watched>
    ensures { IfOk result (λ input. input.held.faults ≡ 0) }
{
    let most = most(alloc, row, "bytes of a read:")?;
    let fails = numbers(alloc, row, "reads that fail:")?;
    let bytes = commands(alloc, text)?;
    Ok(Watched {
        held: FailingSource::new(bytes, most.max(1), fails),
        longest: 0,
    })
}

/// The output of a row.
pub fn output(alloc: Global, row: &str) -> io::Result<Lengths>
    ensures { IfOk result (λ out. out.held.held.faults ≡ 0) }
{
    let most = most(alloc, row, "bytes of a write:")?;
    let fails = numbers(alloc, row, "writes that fail:")?;
    Ok(Lengths {
        held: FailingSink::new(alloc, most.max(1), fails),
        lengths: Vec::new(alloc),
    })
}
