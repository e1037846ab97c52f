//! The debugger as a program: `spvdbg debug MODULE SETUP` answers the commands of standard input on standard output,
//! `spvdbg check MODULE` tells whether a module is accepted, `spvdbg text MODULE` lists it, and `spvdbg make N` runs made inputs. Where it
//! gives up, a line on standard error says why.
#![tactic(auto)]

use spv_program::run;
use std::marker::Brand;
use std::process::ExitCode;
use std::sync::ledger::Blank;

fn main(rt: HostRuntime) -> ExitCode {
    run::<Brand, _>(Blank::new(1), &rt)
}
