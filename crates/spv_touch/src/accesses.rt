//! What the instructions that access memory, wait at a barrier or leave a function read and write, and whether they arrive at a barrier.
ghost use Rattle.std.specs.Prelude.{◌≡◌, ◌&&◌, IfOk};
ghost use Rattle.std.specs.Option.{is_some, option_map};
ghost use Rattle.spv_sites.specs.Sites.{values};
ghost use Rattle.spv_state.specs.Actions.{action_of};
ghost use Rattle.spv_touch.specs.Seen as spec;
ghost use Rattle.spv_touch.specs.Seen.{Tells, ends, seen};
ghost use Rattle.spv_touch.specs.Touching.{leaves_below, read_pointer};

use crate::parts::{has_value, operand_part, target_leaves};
use spv_accesses::atomics::atomic;
use spv_base::{Cell, Fail, NoMemory};
use spv_order::{Event, Leaves};
use spv_sites::{Effect, Site};
use spv_state::{Action, AtomicOp};
use spv_values::Row;
use std::alloc::Global;

/// An event that touches nothing.
pub(crate) fn untouching(alloc: Global, inv: u32, arrives: bool) -> Event
    ensures { Tells inv (spec.untouching arrives) result }
{
    Event {
        invocation: inv,
        arrives,
        reads: Vec::new(alloc),
        writes: Vec::new(alloc),
    }
}

/// An event that reads and writes these leaves. It faults, and touches nothing, where one of the two parts isn't there.
fn accessing(site: &Site, reads: Option<Vec<Leaves>>, writes: Option<Vec<Leaves>>) -> Event
    ensures { Tells site.now.inv (spec.accessing (option_map (λ r. r.items) reads) (option_map (λ r. r.items) writes)) result }
{
    match (reads, writes) {
        (Some(reads), Some(writes)) => Event {
            invocation: site.inv(),
            arrives: false,
            reads,
            writes,
        },
        _ => untouching(site.alloc(), site.inv(), false),
    }
}

/// OpLoad reads through its pointer.
fn load(site: &Site) -> Result<Event, NoMemory>
    requires { action_of site.now.inst ≡ Action.Load }
    ensures { IfOk result (Tells site.now.inv (seen site.now)) }
{
    let reads = operand_part(site, 0)?;
    let writes = Some(Vec::new(site.alloc()));
    Ok(accessing(site, reads, writes))
}

/// OpStore writes through its pointer, where the object has a value.
fn store(site: &Site) -> Result<Event, NoMemory>
    requires { action_of site.now.inst ≡ Action.Store }
    ensures { IfOk result (Tells site.now.inv (seen site.now)) }
{
    let reads = has_value(site, 1)?.then_some(Vec::new(site.alloc()));
    let writes = operand_part(site, 0)?;
    Ok(accessing(site, reads, writes))
}

/// OpCopyMemory reads through its source and writes through its target.
fn copy_memory(site: &Site) -> Result<Event, NoMemory>
    requires { action_of site.now.inst ≡ Action.CopyMemory }
    ensures { IfOk result (Tells site.now.inv (seen site.now)) }
{
    let reads = operand_part(site, 1)?;
    let writes = operand_part(site, 0)?;
    Ok(accessing(site, reads, writes))
}

/// The leaves that an atomic reads: each but OpAtomicStore reads through its pointer.
fn atomic_reads(site: &Site, operation: AtomicOp) -> Result<Vec<Leaves>, NoMemory>
    requires { action_of site.now.inst ≡ Action.Atomic operation }
    ensures { IfOk result (λ r. r.items ≡ leaves_below site.now.state (read_pointer site.now.program site.now.state site.now.inv site.now.frame site.now.inst)) }
{
    if let AtomicOp::Store = operation {
        return Ok(Vec::new(site.alloc()));
    }
    match operand_part(site, 0)? {
        Some(reads) => Ok(reads),
        None => Ok(Vec::new(site.alloc())),
    }
}

/// A row of one scalar.
fn scalar_row(alloc: Global) -> Result<Row, NoMemory> {
    let blank = Cell {
        bits: 0,
        width: 1,
        defined: false,
    };
    Row::of_cell(alloc, blank)
}

/// An atomic writes where it stores.
fn exchange(site: &Site, operation: AtomicOp) -> Result<Event, NoMemory>
    requires { action_of site.now.inst ≡ Action.Atomic operation }
    ensures { IfOk result (Tells site.now.inv (seen site.now)) }
{
    let reads = atomic_reads(site, operation)?;
    let mut row = scalar_row(site.alloc())?;
    match atomic(site, operation, &mut row) {
        Ok(Effect { store, .. }) => {
            let writes = target_leaves(site, store)?;
            Ok(Event {
                invocation: site.inv(),
                arrives: false,
                reads,
                writes,
            })
        }
        Err(Fail::Refused(_cause)) => Ok(untouching(site.alloc(), site.inv(), false)),
        Err(Fail::NoMemory) => Err(NoMemory),
    }
}

/// Whether the three operands of an OpControlBarrier have values.
fn has_three(site: &Site) -> Result<bool, NoMemory>
    ensures { IfOk result (λ has. has ≡ (is_some (values site.now 0) && is_some (values site.now 1) && is_some (values site.now 2))) }
{
    if !has_value(site, 0)? || !has_value(site, 1)? {
        return Ok(false);
    }
    has_value(site, 2)
}

/// OpControlBarrier arrives.
fn control_barrier(site: &Site) -> Result<Event, NoMemory>
    requires { action_of site.now.inst ≡ Action.ControlBarrier }
    ensures { IfOk result (Tells site.now.inv (seen site.now)) }
{
    let arrives = has_three(site)?;
    Ok(untouching(site.alloc(), site.inv(), arrives))
}

/// Whether an OpReturnValue arrives, as an OpReturn does, where its value is there.
fn arrives_with_value(site: &Site, ending: bool) -> Result<bool, NoMemory>
    ensures { IfOk result (λ arrives. arrives ≡ (is_some (values site.now 0) && ending)) }
{
    if !has_value(site, 0)? {
        return Ok(false);
    }
    Ok(ending)
}

/// OpReturnValue.
fn return_value(site: &Site, ending: bool) -> Result<Event, NoMemory>
    requires action { action_of site.now.inst ≡ Action.ReturnValue }
    requires ending { ending ≡ ends site.now.program site.now.state site.now.inv }
    ensures { IfOk result (Tells site.now.inv (seen site.now)) }
{
    let arrives = arrives_with_value(site, ending)?;
    Ok(untouching(site.alloc(), site.inv(), arrives))
}

/// The event that is due at an instruction; `ending` says whether one arrives that leaves its function.
pub(crate) fn event_at(site: &Site, ending: bool) -> Result<Event, NoMemory>
    requires { ending ≡ ends site.now.program site.now.state site.now.inv }
    ensures { IfOk result (Tells site.now.inv (seen site.now)) }
{
    match Action::of(site.inst()) {
        Action::Load => load(site),
        Action::Store => store(site),
        Action::CopyMemory => copy_memory(site),
        Action::Atomic(operation) => exchange(site, operation),
        Action::ControlBarrier => control_barrier(site),
        Action::Return => Ok(untouching(site.alloc(), site.inv(), ending)),
        Action::ReturnValue => return_value(site, ending),
        Action::Compute
        | Action::Select
        | Action::Chain
        | Action::PtrChain
        | Action::PtrEqual
        | Action::PtrNotEqual
        | Action::ArrayLength
        | Action::Branch
        | Action::BranchConditional
        | Action::Switch
        | Action::Call
        | Action::Unreachable
        | Action::MemoryBarrier => Ok(untouching(site.alloc(), site.inv(), false)),
    }
}
