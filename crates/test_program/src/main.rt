//! The debugger, run for a module that isn't there: it ends with the number of that status, and writes nothing.
#![tactic(auto)]

use spv_program::run;
use std::marker::Brand;
use std::process::ExitCode;
use std::sync::ledger::Blank;

fn main(rt: HostRuntime) -> ExitCode {
    run::<Brand, _>(Blank::new(1), &rt)
}
