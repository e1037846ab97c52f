//! A run with what the system gives.
ghost use Rattle.std.specs.Prelude.{◌≡◌, ◌<◌};

use crate::complaints::{Complaint, complaint_at, names_in};
use crate::ending::{end, exit_code};
use spv_app::Status;
use spv_base::{FromRead, NoMemory, RealFiles, Steps, ToWrite};
use std::process::ExitCode;
use std::rt::Env;
use std::sync::ledger::{Blank, Ledger};
use std::{env, io, rt};

/// The words of the command line, the program's name first. Where one is not UTF-8 there are none, which is no command line.
fn words<R: Env + AllocGlobal>(rt: &R) -> Result<Vec<String>, NoMemory> {
    let mut words = Vec::new(rt.alloc());
    match env::args(rt) {
        Ok(args) => {
            for word in args {
                words.push(word)?;
            }
        }
        Err(error) if error.kind() == io::ErrorKind::OutOfMemory => return Err(NoMemory),
        Err(_) => {}
    }
    Ok(words)
}

/// Says on standard error why the program gave up. Where that can't be written either, the status alone tells it.
fn complain<R: Eprint>(rt: &R, complaint: Complaint) {
    let _ = eprintln!(rt; "{complaint}");
}

/// Runs with what the system gives, and with a count of steps from 0.
pub fn run<L: Ledger, R: rt::Files + Input + Print + Eprint + Env + AllocGlobal>(
    blank: Blank,
    rt: &R,
) -> ExitCode
    requires name { blank.name ≡ L.name }
    requires parts { blank.parts ≡ L.parts }
    requires some { 0 < blank.parts }
{
    let alloc = rt.alloc();
    let Ok(words) = words(rt) else {
        complain(rt, Complaint::NoMemory);
        return exit_code(Status::NoMemory);
    };
    let mut files = RealFiles::new(alloc, rt);
    let mut input = FromRead::new(rt.reader());
    let mut out = ToWrite::new(io::writer(rt));
    let mut steps = Steps::<L>::new(blank);
    let ending = end(alloc, &words, &mut files, &mut input, &mut out, &mut steps);
    if let Some(complaint) = complaint_at(
        ending.status,
        names_in(alloc, &words),
        files.failed_name(),
        files.taken(),
    ) {
        complain(rt, complaint);
    }
    ending.code
}
