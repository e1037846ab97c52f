//! The parts of memory that the operands of an instruction name.
ghost use Rattle.std.specs.Prelude.{◌≡◌, IfOk};
ghost use Rattle.std.specs.Option.{is_some, option_map};
ghost use Rattle.spv_sites.specs.Sites.{values};
ghost use Rattle.spv_touch.specs.Seen.{operand_leaves, part_leaves};
ghost use Rattle.spv_touch.specs.Touching.{leaves_below};

use crate::ranges::leaves_at;
use spv_base::{Fail, NoMemory, Pointer};
use spv_order::Leaves;
use spv_sites::{Place, Site, Target};

/// The leaves of the part that a pointer names, if it names one.
fn part(site: &Site, p: &Pointer) -> Result<Option<Vec<Leaves>>, NoMemory>
    ensures { IfOk result (λ part. option_map (λ ranges. ranges.items) part ≡ part_leaves site.now p.now) }
{
    let memory = site.memory();
    match memory.place(site.inv(), p) {
        Some(_place) => {
            let ranges = leaves_at(site.alloc(), memory, site.inv(), p)?;
            Ok(Some(ranges))
        }
        None => Ok(None),
    }
}

/// The leaves of the part that the operand with a number names, if it names one.
pub(crate) fn operand_part(site: &Site, n: usize) -> Result<Option<Vec<Leaves>>, NoMemory>
    ensures { IfOk result (λ part. option_map (λ ranges. ranges.items) part ≡ operand_leaves site.now n) }
{
    match site.operand(n) {
        Ok(operand) => match operand.pointer(site.alloc()) {
            Some(reference) => part(site, reference.pointer()),
            None => Ok(None),
        },
        Err(Fail::Refused(_cause)) => Ok(None),
        Err(Fail::NoMemory) => Err(NoMemory),
    }
}

/// Whether the operand with a number has a value.
pub(crate) fn has_value(site: &Site, n: usize) -> Result<bool, NoMemory>
    ensures { IfOk result (λ has. has ≡ is_some (values site.now n)) }
{
    match site.ask(n) {
        Ok(()) => Ok(true),
        Err(Fail::Refused(_cause)) => Ok(false),
        Err(Fail::NoMemory) => Err(NoMemory),
    }
}

/// The leaves where a store goes.
pub(crate) fn target_leaves(site: &Site, target: Option<Target>) -> Result<Vec<Leaves>, NoMemory>
    ensures { IfOk result (λ ranges. ranges.items ≡ leaves_below site.now.state target) }
{
    let alloc = site.alloc();
    match target {
        Some(
            Target {
                place: Place::Whole(root),
            },
        ) => leaves_at(
            alloc,
            site.memory(),
            site.inv(),
            &Pointer::whole(alloc, root),
        ),
        Some(
            Target {
                place: Place::Part(pointer),
            },
        ) => leaves_at(alloc, site.memory(), site.inv(), &pointer),
        None => Ok(Vec::new(alloc)),
    }
}
