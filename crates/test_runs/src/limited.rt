//! A group with a journal that keeps few marks and entries, moved event by event.
ghost use Rattle.std.specs.Prelude.{◌≡◌, ◌<◌};

use spv_app::Group;
use spv_app::opening::open_limited;
use spv_base::{NoMemory, Steps};
use std::alloc::Global;
use std::marker::Brand;
use std::sync::ledger::{Blank, Ledger};
use std::{fs, io, rt};

/// How many marks and entries the journal keeps at most.
pub const LIMIT: usize = 10;

/// How many events are made, and then taken back.
const EVENTS: usize = 4;

const SETUP: &str = "spvdbg-setup 1\nrounds 10\n";

/// Where a group stands, and the least position from which on its events are kept.
#[derive(Clone, Copy)]
struct Stand {
    position: u64,
    kept: u64,
}

/// Where a group stands.
fn stand_of(group: &Group) -> Stand {
    Stand {
        position: group.position(),
        kept: group.first_kept(),
    }
}

/// Makes events.
fn go_forth<L: Ledger>(group: &mut Group, steps: &mut Steps<L>) -> Result<(), NoMemory> {
    for _event in 0..EVENTS {
        let _motion = group.forth(steps)?;
    }
    Ok(())
}

/// Takes events back.
fn go_back<L: Ledger>(group: &mut Group, steps: &mut Steps<L>) -> Result<(), NoMemory> {
    for _event in 0..EVENTS {
        let _motion = group.back(steps)?;
    }
    Ok(())
}

/// Where a group stands after some events, and after as many are taken back.
fn stands<L: Ledger>(group: &mut Group, blank: Blank) -> Result<(Stand, Stand), NoMemory>
    requires name { blank.name ≡ L.name }
    requires parts { blank.parts ≡ L.parts }
    requires some { 0 < blank.parts }
{
    let mut steps = Steps::<L>::new(blank);
    go_forth(group, &mut steps)?;
    let far = stand_of(group);
    go_back(group, &mut steps)?;
    Ok((far, stand_of(group)))
}

/// The same of the group of a module.
fn stands_of(alloc: Global, module: Vec<u8>) -> Option<(Stand, Stand)> {
    let setup = Vec::from_slice(alloc, SETUP.as_bytes()).ok()?;
    match open_limited(alloc, module, setup, LIMIT) {
        Ok(mut group) => stands::<Brand>(&mut group, Blank::new(1)).ok(),
        Err(_) => None,
    }
}

/// Says where a group stands, and what it keeps.
fn report_stand<R: Print>(rt: &R, stand: Stand) -> io::Result<()> {
    println!(rt; "@{} kept {}", stand.position, stand.kept)
}

/// Says where the group of a module's file stands after some events, and after as many are taken back, and what it keeps there.
pub fn report_limited<R: rt::Files + Print + AllocGlobal>(rt: &R, module: &str) -> io::Result<()> {
    println!(rt; "limit {LIMIT}")?;
    match stands_of(rt.alloc(), fs::read(rt, module)?) {
        Some((far, back)) => {
            report_stand(rt, far)?;
            report_stand(rt, back)
        }
        None => println!(rt; "out of memory"),
    }
}
