//! A probe of one's own: how often an invocation stored to one shared variable. docs/PROBES.md has it.
ghost use Rattle.std.specs.Prelude.{◌≡◌, ◌<◌, ◌≤◌, ◌==◌, ◌&&◌, All, IfOk, vec_len};
ghost use Rattle.spv_probe.specs.Tests.{writes};

use crate::calls::{files_of, words_of};
use spv_app::{Status, debug_main};
use spv_base::{Happening, Kind, MemoryFiles, MemorySink, MemorySource, NoMemory, Probe, Steps};
use std::alloc::Global;
use std::io::Write;
use std::marker::Brand;
use std::sync::ledger::{Blank, Ledger};
use std::{fs, io, rt};

/// Counts how often an invocation stored to the shared variable with an id.
#[derive(Drop)]
pub struct StoresOf {
    inv: u32,
    root: u32,
    count: u64,
}

impl StoresOf {
    /// A probe that has counted nothing.
    pub fn new(inv: u32, root: u32) -> StoresOf
        ensures { ⟦<StoresOf as Probe>⟧.tally result ≡ 0 }
    {
        StoresOf {
            inv,
            root,
            count: 0,
        }
    }
}

impl Probe for StoresOf {
    ghost tally = { λ it. it.count };

    ghost test = { λ it h. writes h.kind && (h.inv == it.inv && h.root == it.root) };

    fn count(&self) -> u64 {
        self.count
    }

    fn hits(&self, h: &Happening) -> bool {
        matches!(h.kind, Kind::Write) && h.inv == self.inv && h.root == self.root
    }

    fn forth(&mut self, h: &Happening) {
        if self.hits(h) {
            self.count += 1;
        }
    }

    fn back(&mut self, h: &Happening) {
        if self.hits(h) {
            self.count -= 1;
        }
    }
}

/// The id of the Workgroup variable of the shader of 64, and the invocation that is looked at.
const ROOT: u32 = 46;

const INVOCATION: u32 = 5;

const SETUP: &str = "spvdbg-setup 1\nbuffer 0 0 zero 256\nrounds 30\n";

/// How often it stored at the end, where it did, and before that.
const COMMANDS: &[u8] = b"goto 1408\ntally\nhalt 1 1\nrcontinue\ntally\nback 1\ntally\n";

/// Debugs a module in memory with this probe alone.
fn debug_with_own<L: Ledger>(
    alloc: Global,
    blank: Blank,
    words: &[String],
    files: &mut MemoryFiles,
    out: &mut MemorySink,
) -> Status
    requires files { files.old.faults ≡ 0 }
    requires out { out.old.faults ≡ 0 }
    requires name { blank.name ≡ L.name }
    requires parts { blank.parts ≡ L.parts }
    requires some { 0 < blank.parts }
{
    let Ok(commands) = Vec::from_slice(alloc, COMMANDS) else {
        return Status::NoMemory;
    };
    let Ok(probe) = Box::new(alloc, StoresOf::new(INVOCATION, ROOT)) else {
        return Status::NoMemory;
    };
    let Ok(kit) = only(alloc, probe) else {
        return Status::NoMemory;
    };
    let mut input = MemorySource::new(commands);
    let mut steps = Steps::<L>::new(blank);
    debug_main(alloc, words, files, &mut input, out, kit, &mut steps)
}

/// A kit of one probe that has counted nothing.
fn only(alloc: Global, probe: Box<dyn Probe>) -> Result<Vec<Box<dyn Probe>>, NoMemory>
    requires { tally probe ≡ 0 }
    ensures few { IfOk result (λ kit. vec_len kit ≤ 16) }
    ensures unused { IfOk result (λ kit. All (λ p. tally p ≡ 0) kit.items) }
{
    let mut kit = Vec::with_capacity(alloc, 1)?;
    kit.push(probe)?;
    Ok(kit)
}

/// Says what is written with a probe of one's own, and how the call ends.
pub fn report_own<R: rt::Files + Print + AllocGlobal>(rt: &R, module: &str) -> io::Result<()> {
    let alloc = rt.alloc();
    println!(rt; "own")?;
    let setup = Vec::from_slice(alloc, SETUP.as_bytes())?;
    let mut files = files_of(alloc, fs::read(rt, module)?, setup)?;
    let words = words_of(alloc, "spvdbg debug module setup")?;
    let mut out = MemorySink::new(alloc);
    let status = debug_with_own::<Brand>(alloc, Blank::new(1), &words, &mut files, &mut out);
    io::writer(rt).write_all(&out.bytes)?;
    println!(rt; "status {}", status as u8)
}
