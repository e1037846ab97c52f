//! The replies to the commands on probes.
ghost use Rattle.std.specs.Prelude.{◌≡◌, ◌++◌, ℕ, OnOk, OnErr, Some, is_some};
ghost use Rattle.spv_hits.specs.Halts.{told_before};
ghost use Rattle.spv_probe.specs.Kits.{Follows, place, tests_of};
ghost use Rattle.spv_session.specs.Reply.{drop_told, halt_told, tally_reply, tally_told, told_refusal, told_reply};
ghost use Rattle.spv_session.specs.View.{IsKitOf, Settings, View};

use crate::session::Core;
use crate::texts::{push_dropped, push_halt, push_tally, refusal_line};
use spv_base::{CmdRefusal, NoMemory, Probe};
use spv_cmd::Count;
use spv_probe::Kit;
use std::alloc::Global;

/// The command names a probe that isn't there.
const NO_SUCH_NUMBER: CmdRefusal = CmdRefusal { code: 7 };

/// Whether the probe with this number is there.
fn is_there(kit: &Kit, number: u32) -> bool
    ensures { result ≡ is_some (place (tests_of (λ p. (⟦<dyn Probe as Probe>⟧ p.vtable).test p.value) kit.now.boxes.items) number) }
{
    kit.count(number).is_some()
}

/// Appends how many events a probe hit, where it is there.
fn push_tally_of(alloc: Global, text: &mut Vec<u8>, kit: &Kit, number: u32) -> Result<(), NoMemory>
    ensures { (v : View) → Follows (λ p. (⟦<dyn Probe as Probe>⟧ p.vtable).tally p.value) (λ p. (⟦<dyn Probe as Probe>⟧ p.vtable).test p.value) (tests_of (λ p. (⟦<dyn Probe as Probe>⟧ p.vtable).test p.value) kit.now.boxes.items) (told_before v.group) kit.now.boxes.items
        → OnOk result (text.new.items ≡ text.old.items ++ tally_reply (tests_of (λ p. (⟦<dyn Probe as Probe>⟧ p.vtable).test p.value) kit.now.boxes.items) v number) }
{
    match kit.count(number) {
        Some(count) => push_tally(alloc, text, number, count),
        None => Ok(()),
    }
}

impl Core {
    /// Appends how many events each probe hit, in the order of their numbers.
    pub(crate) fn push_tallies(&self, kit: &Kit, text: &mut Vec<u8>) -> Result<(), NoMemory>
        requires { Follows (λ p. (⟦<dyn Probe as Probe>⟧ p.vtable).tally p.value) (λ p. (⟦<dyn Probe as Probe>⟧ p.vtable).test p.value) (tests_of (λ p. (⟦<dyn Probe as Probe>⟧ p.vtable).test p.value) kit.now.boxes.items) (told_before self.now.view.group) kit.now.boxes.items }
        ensures { OnOk result (text.new.items ≡ text.old.items ++ (told_reply self.now.view (tally_told (tests_of (λ p. (⟦<dyn Probe as Probe>⟧ p.vtable).test p.value) kit.now.boxes.items) self.now.view)).0) }
    {
        for place in 0..kit.boxes.len() {
            push_tally_of(self.alloc, text, kit, place as u32 + 1)?;
        }
        Ok(())
    }

    /// Drops a probe and its halt, and appends that it is dropped; or a refusal, where there is none with this number.
    pub(crate) fn drop_probe(
        &mut self,
        kit: &mut Kit,
        number: u32,
        text: &mut Vec<u8>,
    ) -> Result<(), NoMemory>
        requires { (settings : Settings) × IsKitOf (λ p. (⟦<dyn Probe as Probe>⟧ p.vtable).tally p.value) (λ p. (⟦<dyn Probe as Probe>⟧ p.vtable).test p.value) settings self.old.view kit.old.boxes.items }
        ensures text { OnOk result (text.new.items ≡ text.old.items ++ (told_reply self.old.view (drop_told number (tests_of (λ p. (⟦<dyn Probe as Probe>⟧ p.vtable).test p.value) kit.old.boxes.items) self.old.view)).0) }
        ensures view { OnOk result (self.new.view ≡ (told_reply self.old.view (drop_told number (tests_of (λ p. (⟦<dyn Probe as Probe>⟧ p.vtable).test p.value) kit.old.boxes.items) self.old.view)).1) }
        ensures err { OnErr result (self.new ≡ self.old) }
        ensures group { self.new.view.group ≡ self.old.view.group }
        ensures kept { self.new.kept ≡ self.old.kept }
        ensures limit { self.new.limit ≡ self.old.limit }
        ensures kit { (settings : Settings) → IsKitOf (λ p. (⟦<dyn Probe as Probe>⟧ p.vtable).tally p.value) (λ p. (⟦<dyn Probe as Probe>⟧ p.vtable).test p.value) settings self.old.view kit.old.boxes.items
            → IsKitOf (λ p. (⟦<dyn Probe as Probe>⟧ p.vtable).tally p.value) (λ p. (⟦<dyn Probe as Probe>⟧ p.vtable).test p.value) settings self.new.view kit.new.boxes.items }
        ensures refused { (code : ℕ) → told_refusal (drop_told number (tests_of (λ p. (⟦<dyn Probe as Probe>⟧ p.vtable).test p.value) kit.old.boxes.items) self.old.view) ≡ Some code → (self.new ≡ self.old) × (kit.new.boxes.items ≡ kit.old.boxes.items) }
    {
        if !is_there(kit, number) {
            text.extend_from_slice(refusal_line(NO_SUCH_NUMBER))?;
            return Ok(());
        }
        push_dropped(self.alloc, text, number)?;
        self.dropped.push(number)?;
        self.halts.unset(number);
        let _dropped = kit.drop_one(number);
        Ok(())
    }

    /// Sets the halt of a probe, and appends it; or a refusal, where there is no probe with this number.
    pub(crate) fn set_halt(
        &mut self,
        kit: &Kit,
        number: u32,
        every: Count,
        text: &mut Vec<u8>,
    ) -> Result<(), NoMemory>
        ensures text { OnOk result (text.new.items ≡ text.old.items ++ (told_reply self.old.view (halt_told number every (tests_of (λ p. (⟦<dyn Probe as Probe>⟧ p.vtable).test p.value) kit.now.boxes.items) self.old.view)).0) }
        ensures view { OnOk result (self.new.view ≡ (told_reply self.old.view (halt_told number every (tests_of (λ p. (⟦<dyn Probe as Probe>⟧ p.vtable).test p.value) kit.now.boxes.items) self.old.view)).1) }
        ensures err { OnErr result (self.new ≡ self.old) }
        ensures group { self.new.view.group ≡ self.old.view.group }
        ensures kept { self.new.kept ≡ self.old.kept }
        ensures limit { self.new.limit ≡ self.old.limit }
        ensures dropped { self.new.view.dropped ≡ self.old.view.dropped }
        ensures refused { (code : ℕ) → told_refusal (halt_told number every (tests_of (λ p. (⟦<dyn Probe as Probe>⟧ p.vtable).test p.value) kit.now.boxes.items) self.old.view) ≡ Some code → self.new ≡ self.old }
    {
        if !is_there(kit, number) {
            text.extend_from_slice(refusal_line(NO_SUCH_NUMBER))?;
            return Ok(());
        }
        push_halt(self.alloc, text, number, every.get())?;
        self.halts.set(number, every.get())
    }
}
