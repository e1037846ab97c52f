//! The places of a kit.
ghost use Rattle.std.specs.Prelude.{◌≡◌, ◌-◌, ◌^◌, ◌<◌, Some, IsTrue, IfOk, IfSome, is_some, option_map, map};
ghost use Rattle.std.specs.List.{list_any};
ghost use Rattle.spv_base.specs.Counting.{Counts, Uncounts};
ghost use Rattle.spv_probe.specs.Kits.{place, Alike};

use spv_base::{Happening, NoMemory, Probe};
use std::alloc::Global;

/// Counts an event, where a probe is there.
pub(crate) fn forth(slot: &mut Option<Box<dyn Probe>>, h: &Happening)
    requires { IfSome slot.old (λ p. tally p < 2 ^ 64 - 1) }
    ensures { Alike (Counts (λ p. tally p) (λ p. test p) h.now) slot.old slot.new }
{
    if let Some(probe) = slot {
        probe.forth(h);
    }
}

/// Takes an event back, where a probe is there.
pub(crate) fn back(slot: &mut Option<Box<dyn Probe>>, h: &Happening)
    requires { IfSome slot.old (λ p. IsTrue (test p h.now) → 0 < tally p) }
    ensures { Alike (Uncounts (λ p. tally p) (λ p. test p) h.now) slot.old slot.new }
{
    if let Some(probe) = slot {
        probe.back(h);
    }
}

/// Whether a probe is there.
pub(crate) fn any(slots: &[Option<Box<dyn Probe>>]) -> bool
    ensures { result ≡ list_any is_some slots.now }
{
    for slot in slots {
        if slot.is_some() {
            return true;
        }
    }
    false
}

/// The count of the probe with this number, if one is there.
pub(crate) fn count(slots: &[Option<Box<dyn Probe>>], k: u32) -> Option<u64>
    ensures { result ≡ option_map (λ p. tally p) (place slots.now k) }
{
    if k == 0 || k as usize > slots.len() {
        return None;
    }
    match &slots[k as usize - 1] {
        Some(probe) => Some(probe.count()),
        None => None,
    }
}

/// Whether the probe with this number hits the event, if one is there.
pub(crate) fn hits(slots: &[Option<Box<dyn Probe>>], k: u32, h: &Happening) -> Option<bool>
    ensures { result ≡ option_map (λ p. test p h.now) (place slots.now k) }
{
    if k == 0 || k as usize > slots.len() {
        return None;
    }
    match &slots[k as usize - 1] {
        Some(probe) => Some(probe.hits(h)),
        None => None,
    }
}

/// A place for each probe, in their order.
pub(crate) fn filled(
    alloc: Global,
    probes: Vec<Box<dyn Probe>>,
) -> Result<Vec<Option<Box<dyn Probe>>>, NoMemory>
    ensures { IfOk result (λ slots. slots.items ≡ map Some probes.items) }
{
    let mut slots = Vec::with_capacity(alloc, probes.len())?;
    for probe in probes {
        slots.push(Some(probe))?;
    }
    Ok(slots)
}
