//! Where the halts of probes that follow a run hit.
ghost use Rattle.std.specs.Prelude.{◌≡◌, ◌≤◌, List, Option, Some, IfOk};
ghost use Rattle.spv_base.specs.declared.happenings.Happening.{Happening as AnyHappening};
ghost use Rattle.spv_dbg.specs.Tables.{tables_of};
ghost use Rattle.spv_group.specs.Group.{entries_in};
ghost use Rattle.spv_group.specs.Run.{happening_before};
ghost use Rattle.spv_hits.specs.Halts.{halt_numbers, halts_at, halts_behind, told_before};
ghost use Rattle.spv_hits.specs.Hits.{has_some};
ghost use Rattle.spv_probe.specs.Kits.{AllBelow, Follows, tests_of};
ghost use Rattle.spv_scopes.specs.Lines.{lines_of};
ghost use Rattle.spv_search.specs.Told.{Test};

use crate::happenings::lined;
use spv_base::{Happening, NoMemory, Places, Probe};
use spv_group::Group;
use spv_probe::Kit;
use spv_scopes::Lines;
use spv_stops::Halts;
use std::alloc::Global;

/// Whether the halt of the probe with this number hits behind an event. So many events that it hits aren't counted yet.
fn is_halted(kit: &Kit, halts: &Halts, k: u32, more: u64, told: &Happening) -> bool
    requires few { AllBelow (λ p. (⟦<dyn Probe as Probe>⟧ p.vtable).tally p.value) kit.now.boxes.items }
    requires more { more ≤ 1 }
    ensures { (tests : List (Option Test)) (events : List AnyHappening)
        → Follows (λ p. (⟦<dyn Probe as Probe>⟧ p.vtable).tally p.value) (λ p. (⟦<dyn Probe as Probe>⟧ p.vtable).test p.value) tests events kit.now.boxes.items
        → result ≡ halts_at halts.now tests events more told.now k }
{
    match kit.hits(k, told) {
        Some(hits) => match kit.count(k) {
            Some(count) => halts.hit(k, hits, count + more),
            None => false,
        },
        None => false,
    }
}

/// Whether the halt of a probe hits behind an event, told with its line. So many events that it hits aren't counted yet.
pub fn any_halted(kit: &Kit, halts: &Halts, more: u64, told: &Happening) -> bool
    requires few { AllBelow (λ p. (⟦<dyn Probe as Probe>⟧ p.vtable).tally p.value) kit.now.boxes.items }
    requires more { more ≤ 1 }
    ensures { (tests : List (Option Test)) (events : List AnyHappening)
        → Follows (λ p. (⟦<dyn Probe as Probe>⟧ p.vtable).tally p.value) (λ p. (⟦<dyn Probe as Probe>⟧ p.vtable).test p.value) tests events kit.now.boxes.items
        → result ≡ has_some (halts_behind halts.now tests events more told.now) }
{
    for place in 0..kit.boxes.len() {
        if is_halted(kit, halts, place as u32 + 1, more, told) {
            return true;
        }
    }
    false
}

/// The numbers of the probes whose halts hit behind an event, ascending.
fn all_halted(alloc: Global, kit: &Kit, halts: &Halts, told: &Happening) -> Result<Places, NoMemory>
    requires { AllBelow (λ p. (⟦<dyn Probe as Probe>⟧ p.vtable).tally p.value) kit.now.boxes.items }
    ensures { (tests : List (Option Test)) (events : List AnyHappening)
        → Follows (λ p. (⟦<dyn Probe as Probe>⟧ p.vtable).tally p.value) (λ p. (⟦<dyn Probe as Probe>⟧ p.vtable).test p.value) tests events kit.now.boxes.items
        → IfOk result (λ numbers. numbers ≡ halts_behind halts.now tests events 0 told.now) }
{
    let mut numbers = Places::new(alloc);
    for place in 0..kit.boxes.len() {
        let k = place as u32 + 1;
        if is_halted(kit, halts, k, 0, told) {
            numbers.push(k)?;
        }
    }
    Ok(numbers)
}

/// The numbers of the probes whose halts hit at the position of a group, ascending, by the event before it.
pub fn halt_numbers(
    alloc: Global,
    kit: &Kit,
    halts: &Halts,
    lines: &Lines,
    group: &Group,
    happening: &Happening,
) -> Result<Places, NoMemory>
    requires lines { lines.now ≡ lines_of group.now.group.program.accepted (tables_of group.now.group.program.accepted) }
    requires event { happening_before group.now.group.program (entries_in group.now.group) group.now.group.position ≡ Some happening.now }
    requires follows { Follows (λ p. (⟦<dyn Probe as Probe>⟧ p.vtable).tally p.value) (λ p. (⟦<dyn Probe as Probe>⟧ p.vtable).test p.value)
        (tests_of (λ p. (⟦<dyn Probe as Probe>⟧ p.vtable).test p.value) kit.now.boxes.items) (told_before group.now.group) kit.now.boxes.items }
    ensures { IfOk result (λ numbers. numbers ≡ halt_numbers halts.now (tests_of (λ p. (⟦<dyn Probe as Probe>⟧ p.vtable).test p.value) kit.now.boxes.items) group.now.group) }
{
    let _position = group.position();
    if halts.is_empty() {
        return Ok(Places::new(alloc));
    }
    let told = lined(group.module().accepted(), lines, *happening);
    all_halted(alloc, kit, halts, &told)
}
