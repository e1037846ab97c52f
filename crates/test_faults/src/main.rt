//! Calls the program over files, input and output that fail, or give and take little at a call, and says what it writes, how it
//! ends, and what it asked for; and reads and writes at the edge: files of the system, and a reader and a writer that fail. The
//! rows stand in data/; what is due is worked out by hand.
#![tactic(auto)]

mod calls;
mod edge;
mod fakes;
mod rows;

use crate::calls::report_call;
use crate::edge::{report_files, report_reads, report_writes};
use std::{fs, io};

fn main(rt: HostRuntime) -> io::Result<()> {
    let rows = fs::read_to_string(&rt, "calls")?;
    for row in rows.split("== ") {
        report_call(&rt, row)?;
    }
    report_files(&rt)?;
    report_reads(&rt)?;
    report_writes(&rt)
}
