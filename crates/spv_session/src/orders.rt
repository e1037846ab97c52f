//! What the order of some events of the run is worth.
ghost use Rattle.std.specs.Prelude.{◌≡◌, ◌≤◌, ◌<◌, ◌+◌, ◌++◌, IfOk, OnOk, max};
ghost use Rattle.spv_dbg.specs.Tables.{tables_of};
ghost use Rattle.spv_group.specs.Group.{end_in, group_at, window_in};
ghost use Rattle.spv_hits.specs.Halts.{told_before};
ghost use Rattle.spv_ids.specs.Texts.{target_of};
ghost use Rattle.spv_probe.specs.Kits.{Follows, tests_of};
ghost use Rattle.spv_races.specs.Answers.{IsOrderOf};
ghost use Rattle.spv_races.specs.Costs.{order_cost, top_of, window_at};
ghost use Rattle.spv_scopes.specs.Lines.{lines_of};
ghost use Rattle.spv_search.specs.Told.{has_probe};
ghost use Rattle.spv_session.specs.Costs.{act_cost, kept_by};
ghost use Rattle.spv_session.specs.OrderTexts.{answer_text, leaf_text, order_line};
ghost use Rattle.spv_session.specs.Orders.{IsAmong, behind};
ghost use Rattle.spv_session.specs.Reply.{order_told, told_reply};
ghost use Rattle.spv_session.specs.Reply.Act.{orders};
ghost use Rattle.spv_session.specs.View.{undoing_in, view_at};

use crate::following::WithProbes;
use crate::session::Core;
use crate::texts::refusal_line;
use spv_base::{CmdRefusal, NoMemory, Pointer, Probe, Root, Steps};
use spv_cmd::Stretch;
use spv_group::Group;
use spv_ids::target_of;
use spv_leaves::leaf_path;
use spv_line::push_number;
use spv_order::Answer;
use spv_probe::Kit;
use spv_races::order_of;
use spv_scopes::Lines;
use spv_search::Never;
use spv_show::pointer_text;
use spv_stops::Halts;
use spv_valid::Module;
use std::alloc::Global;
use std::marker::PhantomData;
use std::mem;
use std::sync::ledger::Ledger;

/// The run ends before the events.
const PAST_THE_END: CmdRefusal = CmdRefusal { code: 13 };

/// What the order is worth of the events from `from` on, before `to`, where a kit follows the group; nothing where the run ends before. The
/// group goes to the events and comes back. Events are counted from `from`.
fn order_with<L: Ledger>(
    alloc: Global,
    group: &mut Group,
    kit: &mut Kit,
    halts: &Halts,
    lines: &Lines,
    from: u64,
    to: u64,
    steps: &mut Steps<L>,
) -> Result<Option<Answer>, NoMemory>
    requires stretch { from < to }
    requires lines { lines.now ≡ lines_of group.old.group.program.accepted (tables_of group.old.group.program.accepted) }
    requires follows { Follows (λ p. (⟦<dyn Probe as Probe>⟧ p.vtable).tally p.value) (λ p. (⟦<dyn Probe as Probe>⟧ p.vtable).test p.value) (tests_of (λ p. (⟦<dyn Probe as Probe>⟧ p.vtable).test p.value) kit.old.boxes.items) (told_before group.old.group) kit.old.boxes.items }
    ensures answer { IfOk result (λ answer. IsOrderOf group.old.group from to answer) }
    ensures position { OnOk result (group.new.group.position ≡ group.old.group.position) }
    ensures same { group.new.group ≡ group_at group.new.group.position group.old.group }
    ensures limit { group.new.limit ≡ group.old.limit }
    ensures within { group.new.group.position ≤ end_in group.old.group }
    ensures kept { group.new.kept ≤ max (max group.old.kept (window_at group.old (top_of group.old to))) (window_in group.new) }
    ensures tests { tests_of (λ p. (⟦<dyn Probe as Probe>⟧ p.vtable).test p.value) kit.new.boxes.items ≡ tests_of (λ p. (⟦<dyn Probe as Probe>⟧ p.vtable).test p.value) kit.old.boxes.items }
    ensures follows { Follows (λ p. (⟦<dyn Probe as Probe>⟧ p.vtable).tally p.value) (λ p. (⟦<dyn Probe as Probe>⟧ p.vtable).test p.value) (tests_of (λ p. (⟦<dyn Probe as Probe>⟧ p.vtable).test p.value) kit.new.boxes.items) (told_before group.new.group) kit.new.boxes.items }
    ensures counted { steps.old ≤ steps.new }
    ensures cost { steps.new ≤ steps.old + order_cost (has_probe (tests_of (λ p. (⟦<dyn Probe as Probe>⟧ p.vtable).test p.value) kit.old.boxes.items)) group.old.kept (window_at group.old (top_of group.old to)) group.old.group.position from to }
{
    let mut probes = WithProbes {
        hits: Never,
        kit: mem::replace(kit, Kit::empty(alloc)),
        halts,
        lines,
        of: PhantomData,
    };
    let answer = order_of(alloc, group, &mut probes, from, to, steps);
    *kit = probes.kit;
    answer
}

/// Appends the leaf of a shared variable with a number.
fn push_leaf(
    alloc: Global,
    text: &mut Vec<u8>,
    module: &Module,
    root: u32,
    leaf: u32,
) -> Result<(), NoMemory>
    ensures { OnOk result (text.new.items ≡ text.old.items ++ leaf_text module.now (root, leaf)) }
{
    let path = leaf_path(alloc, module.types(), target_of(module, root), leaf)?;
    let pointer = Pointer {
        root: Root::Shared(root),
        path,
    };
    pointer_text(alloc, &pointer, text)
}

/// Appends what the order of events is worth, which are counted from the one with this number.
fn push_answer(
    alloc: Global,
    text: &mut Vec<u8>,
    module: &Module,
    from: u32,
    answer: &Answer,
) -> Result<(), NoMemory>
    requires { IsAmong 4294967296 answer.now }
    ensures { OnOk result (text.new.items ≡ text.old.items ++ answer_text module.now (behind from answer.now)) }
{
    match answer {
        Answer::Free => text.extend_from_slice(b"free")?,
        Answer::Barrier(event) => {
            text.extend_from_slice(b"event ")?;
            push_number(alloc, text, u64::from(from) + *event as u64)?;
            text.extend_from_slice(b" arrives at a barrier")?;
        }
        Answer::Conflict {
            first,
            second,
            root,
            leaf,
        } => {
            text.extend_from_slice(b"events ")?;
            push_number(alloc, text, u64::from(from) + *first as u64)?;
            text.extend_from_slice(b" and ")?;
            push_number(alloc, text, u64::from(from) + *second as u64)?;
            text.extend_from_slice(b" on ")?;
            push_leaf(alloc, text, module, *root, *leaf)?;
        }
    }
    Ok(())
}

/// Appends the line that tells it.
fn push_line(
    alloc: Global,
    text: &mut Vec<u8>,
    module: &Module,
    from: u32,
    to: u32,
    answer: &Answer,
) -> Result<(), NoMemory>
    requires { IsAmong 4294967296 answer.now }
    ensures { OnOk result (text.new.items ≡ text.old.items ++ order_line module.now from to (behind from answer.now)) }
{
    text.extend_from_slice(b"order ")?;
    push_number(alloc, text, u64::from(from))?;
    text.extend_from_slice(b" ")?;
    push_number(alloc, text, u64::from(to))?;
    text.extend_from_slice(b": ")?;
    push_answer(alloc, text, module, from, answer)?;
    text.extend_from_slice(b"\n")?;
    Ok(())
}

impl Core {
    /// Appends what the order of the events of a stretch is worth; or a refusal, where the run ends before them. The group goes to them and
    /// comes back.
    #[tactic(auto, using(crate::proofs::OrderReplyLemmas::order_view, crate::proofs::CostLemmas::order_rises))]
    pub(crate) fn order<L: Ledger>(
        &mut self,
        kit: &mut Kit,
        stretch: Stretch,
        text: &mut Vec<u8>,
        steps: &mut Steps<L>,
    ) -> Result<(), NoMemory>
        requires { Follows (λ p. (⟦<dyn Probe as Probe>⟧ p.vtable).tally p.value) (λ p. (⟦<dyn Probe as Probe>⟧ p.vtable).test p.value) (tests_of (λ p. (⟦<dyn Probe as Probe>⟧ p.vtable).test p.value) kit.old.boxes.items) (told_before self.old.view.group) kit.old.boxes.items }
        ensures text { OnOk result (text.new.items ≡ text.old.items ++ (told_reply self.old.view (order_told stretch.0 stretch.1 self.old.view)).0) }
        ensures view { OnOk result (self.new.view ≡ (told_reply self.old.view (order_told stretch.0 stretch.1 self.old.view)).1) }
        ensures group { self.new.view.group ≡ group_at self.new.view.group.position self.old.view.group }
        ensures same { self.new.view ≡ view_at self.new.view.group.position self.old.view }
        ensures dropped { self.new.view.dropped ≡ self.old.view.dropped }
        ensures limit { self.new.limit ≡ self.old.limit }
        ensures kept { self.new.kept ≤ max (kept_by self.old (orders stretch.0 stretch.1)) (window_in (undoing_in self.new)) }
        ensures within { self.new.view.group.position ≤ end_in self.old.view.group }
        ensures tests { tests_of (λ p. (⟦<dyn Probe as Probe>⟧ p.vtable).test p.value) kit.new.boxes.items ≡ tests_of (λ p. (⟦<dyn Probe as Probe>⟧ p.vtable).test p.value) kit.old.boxes.items }
        ensures follows { Follows (λ p. (⟦<dyn Probe as Probe>⟧ p.vtable).tally p.value) (λ p. (⟦<dyn Probe as Probe>⟧ p.vtable).test p.value) (tests_of (λ p. (⟦<dyn Probe as Probe>⟧ p.vtable).test p.value) kit.new.boxes.items) (told_before self.new.view.group) kit.new.boxes.items }
        ensures counted { steps.old ≤ steps.new }
        ensures cost { steps.new ≤ steps.old + act_cost (tests_of (λ p. (⟦<dyn Probe as Probe>⟧ p.vtable).test p.value) kit.old.boxes.items) (kept_by self.old (orders stretch.0 stretch.1)) self.old.view (orders stretch.0 stretch.1) }
    {
        let from = stretch.start();
        let to = stretch.end();
        let lines = &self.info.lines;
        let found = order_with(
            self.alloc,
            &mut self.group,
            kit,
            &self.halts,
            lines,
            u64::from(from),
            u64::from(to),
            steps,
        )?;
        self.push_order(text, from, to, found)
    }

    /// Appends what was found, or a refusal.
    #[tactic(auto, using(crate::proofs::OrderReplyLemmas::past_told, crate::proofs::OrderReplyLemmas::found_told, crate::proofs::OrderReplyLemmas::found_among))]
    fn push_order(
        &self,
        text: &mut Vec<u8>,
        from: u32,
        to: u32,
        found: Option<Answer>,
    ) -> Result<(), NoMemory>
        requires stretch { from < to }
        requires found { IsOrderOf self.now.view.group from to found }
        ensures { OnOk result (text.new.items ≡ text.old.items ++ (told_reply self.now.view (order_told from to self.now.view)).0) }
    {
        match found {
            None => text.extend_from_slice(refusal_line(PAST_THE_END))?,
            Some(answer) => {
                let module = self.group.module().accepted();
                push_line(self.alloc, text, module, from, to, &answer)?;
            }
        }
        Ok(())
    }
}
