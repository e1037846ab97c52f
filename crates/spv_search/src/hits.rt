//! What searches stop at beside what their commands ask for.
ghost use Rattle.std.specs.Prelude.{◌≡◌, ◌<◌, ◌+◌, ◌-◌, ◌||◌, ℕ, List, [], Bool, Option, Some, IfOk, OnOk, if◌then◌else◌, false};
ghost use Rattle.spv_group.specs.Group.{Held, entries_in, group_at};
ghost use Rattle.spv_group.specs.Run.{happening_at, happening_before};
ghost use Rattle.spv_search.specs.Told.{IsEvent, Test, has_probe};
ghost use Rattle.spv_state.specs.Program.{Program};

use spv_base::{Happening, NoMemory};
use spv_group::Group;
use spv_valid::Module;

/// Tests of positions. Whether one hits at a position is asked when the events before and behind are known: it is told of one of the two
/// positions, and asked at the other, so that no state is made for it alone. Where nothing hits, the position that was asked at is noted
/// without being told again, so that a run past many positions reads at each only what the event between changed.
///
/// Beside them stand probes, which follow the run: each event that is made or taken back is told.
pub trait Hits {
    /// Whether one hits at the position of a group.
    ghost hits: { Self → Held → Bool };

    /// The numbers of the breaks, of the watches and of the halts that hit at the position of a group.
    ghost told: { Self → Held → List ℕ × List ℕ × List ℕ };

    /// It was made for runs of a program.
    ghost suits: { Self → Program → Type 0 };

    /// The position of a group was noted.
    ghost noted: { Self → Held → Type 0 };

    /// The event before a noted position was looked at, so that it can be taken back.
    ghost left: { Self → Held → Type 0 };

    /// The test of each probe, at its number; none where it was dropped.
    ghost tests: { Self → List (Option Test) };

    /// The probes have counted the events before the position of a group.
    ghost follows: { Self → Held → Type 0 };

    /// Whether a probe is told of events. Without one, any position is followed where one is.
    fn listens(&self) -> bool
        ensures some { result ≡ has_probe (tests self.now) }
        ensures none { result ≡ false → (g h : Held) → follows self.now g → follows self.now h };

    /// Tells the probes of the event at a position, which was made.
    fn forth(&mut self, module: &Module, happening: &Happening)
        requires { (g : Held) × IsEvent module.now happening.now g × suits self.old g.program × follows self.old g }
        ensures same { (g : Held) → hits self.new g ≡ hits self.old g }
        ensures told { (g : Held) → told self.new g ≡ told self.old g }
        ensures suits { (p : Program) → suits self.old p → suits self.new p }
        ensures tests { tests self.new ≡ tests self.old }
        ensures noted { (g : Held) → noted self.old g → noted self.new g }
        ensures follows { (g : Held) → IsEvent module.now happening.now g → suits self.old g.program → follows self.old g → follows self.new (group_at (g.position + 1) g) };

    /// Tells them of the event at a position, which was taken back.
    fn back(&mut self, module: &Module, happening: &Happening)
        requires { (g : Held) × IsEvent module.now happening.now g × suits self.old g.program × follows self.old (group_at (g.position + 1) g) }
        ensures same { (g : Held) → hits self.new g ≡ hits self.old g }
        ensures told { (g : Held) → told self.new g ≡ told self.old g }
        ensures suits { (p : Program) → suits self.old p → suits self.new p }
        ensures tests { tests self.new ≡ tests self.old }
        ensures left { (g : Held) → left self.old g → left self.new g }
        ensures follows { (g : Held) → IsEvent module.now happening.now g → suits self.old g.program → follows self.old (group_at (g.position + 1) g) → follows self.new g };

    /// Notes a position.
    fn note(&mut self, group: &Group) -> Result<(), NoMemory>
        requires suits { suits self.old group.now.group.program }
        ensures same { (g : Held) → hits self.new g ≡ hits self.old g }
        ensures told { (g : Held) → told self.new g ≡ told self.old g }
        ensures suits { (p : Program) → suits self.old p → suits self.new p }
        ensures tests { tests self.new ≡ tests self.old }
        ensures follows { (g : Held) → follows self.old g → follows self.new g }
        ensures noted { OnOk result (noted self.new group.now.group) };

    /// Whether one hits here, where the position before this event was noted. Where none does, this one is noted then, else that before
    /// still is.
    fn hits_here(&mut self, group: &Group, happening: &Happening) -> Result<bool, NoMemory>
        requires suits { suits self.old group.now.group.program }
        requires follows { follows self.old group.now.group }
        requires event { happening_before group.now.group.program (entries_in group.now.group) group.now.group.position ≡ Some happening.now }
        requires noted { noted self.old (group_at (group.now.group.position - 1) group.now.group) }
        ensures same { (g : Held) → hits self.new g ≡ hits self.old g }
        ensures told { (g : Held) → told self.new g ≡ told self.old g }
        ensures suits { (p : Program) → suits self.old p → suits self.new p }
        ensures tests { tests self.new ≡ tests self.old }
        ensures follows { (g : Held) → follows self.old g → follows self.new g }
        ensures hit { IfOk result (λ hit. hit ≡ hits self.old group.now.group) }
        ensures noted { IfOk result (λ hit. noted self.new (if hit then group_at (group.now.group.position - 1) group.now.group else group.now.group)) };

    /// Looks at the event before a noted position, before it is taken back.
    fn leave(&mut self, group: &Group) -> Result<(), NoMemory>
        requires suits { suits self.old group.now.group.program }
        requires noted { noted self.old group.now.group }
        requires some { 0 < group.now.group.position }
        ensures same { (g : Held) → hits self.new g ≡ hits self.old g }
        ensures told { (g : Held) → told self.new g ≡ told self.old g }
        ensures suits { (p : Program) → suits self.old p → suits self.new p }
        ensures tests { tests self.new ≡ tests self.old }
        ensures follows { (g : Held) → follows self.old g → follows self.new g }
        ensures left { OnOk result (left self.new group.now.group) };

    /// Whether one hits behind this event, which was taken back, where the position there was left. Where none does, this position is noted
    /// then.
    fn hits_behind(&mut self, group: &Group, happening: &Happening) -> Result<bool, NoMemory>
        requires suits { suits self.old group.now.group.program }
        requires follows { follows self.old group.now.group }
        requires event { happening_at group.now.group.program (entries_in group.now.group) group.now.group.position ≡ Some happening.now }
        requires left { left self.old (group_at (group.now.group.position + 1) group.now.group) }
        ensures same { (g : Held) → hits self.new g ≡ hits self.old g }
        ensures told { (g : Held) → told self.new g ≡ told self.old g }
        ensures suits { (p : Program) → suits self.old p → suits self.new p }
        ensures tests { tests self.new ≡ tests self.old }
        ensures follows { (g : Held) → follows self.old g → follows self.new g }
        ensures hit { IfOk result (λ hit. hit ≡ hits self.old (group_at (group.now.group.position + 1) group.now.group)) }
        ensures noted { IfOk result (λ hit. hit ≡ false → noted self.new group.now.group) };
}

/// No tests.
#[derive(Drop)]
pub struct Never;

impl Hits for Never {
    ghost hits = { λ it g. false };

    ghost told = { λ it g. ([], [], []) };

    ghost suits = { λ it p. Unit {0} };

    ghost noted = { λ it g. Unit {0} };

    ghost left = { λ it g. Unit {0} };

    ghost tests = { λ it. [] };

    ghost follows = { λ it g. Unit {0} };

    fn listens(&self) -> bool {
        false
    }

    fn forth(&mut self, _module: &Module, _happening: &Happening) {}

    fn back(&mut self, _module: &Module, _happening: &Happening) {}

    fn note(&mut self, _group: &Group) -> Result<(), NoMemory> {
        Ok(())
    }

    fn hits_here(&mut self, _group: &Group, _happening: &Happening) -> Result<bool, NoMemory> {
        Ok(false)
    }

    fn leave(&mut self, _group: &Group) -> Result<(), NoMemory> {
        Ok(())
    }

    fn hits_behind(&mut self, _group: &Group, _happening: &Happening) -> Result<bool, NoMemory> {
        Ok(false)
    }
}

/// What is known of a position that was looked at: whether something hits there or what the command asks for holds, and whether the latter does.
#[derive(Clone, Copy)]
pub struct Looked {
    pub passes: bool,
    pub done: bool,
}

/// Whether something is done here or hits, where the position before this event was noted. It is asked only where nothing is done, and this
/// position is noted then in any case.
pub(crate) fn passes_here<H: Hits>(
    hits: &mut H,
    group: &Group,
    done: bool,
    happening: &Happening,
) -> Result<bool, NoMemory>
    requires suits { H.suits hits.old group.now.group.program }
    requires follows { H.follows hits.old group.now.group }
    requires event { happening_before group.now.group.program (entries_in group.now.group) group.now.group.position ≡ Some happening.now }
    requires noted { H.noted hits.old (group_at (group.now.group.position - 1) group.now.group) }
    ensures passes { IfOk result (λ passes. passes ≡ (done || H.hits hits.old group.now.group)) }
    ensures noted { OnOk result (H.noted hits.new group.now.group) }
    ensures hits { (g : Held) → H.hits hits.new g ≡ H.hits hits.old g }
    ensures told { (g : Held) → H.told hits.new g ≡ H.told hits.old g }
    ensures suits { (p : Program) → H.suits hits.old p → H.suits hits.new p }
    ensures tests { H.tests hits.new ≡ H.tests hits.old }
    ensures follows { H.follows hits.new group.now.group }
{
    if done {
        hits.note(group)?;
        return Ok(true);
    }
    let hit = hits.hits_here(group, happening)?;
    if hit {
        hits.note(group)?;
    }
    Ok(hit)
}

/// The same of the position behind this event, which was left.
pub(crate) fn passes_behind<H: Hits>(
    hits: &mut H,
    group: &Group,
    done: bool,
    happening: &Happening,
) -> Result<bool, NoMemory>
    requires suits { H.suits hits.old group.now.group.program }
    requires follows { H.follows hits.old group.now.group }
    requires event { happening_at group.now.group.program (entries_in group.now.group) group.now.group.position ≡ Some happening.now }
    requires left { H.left hits.old (group_at (group.now.group.position + 1) group.now.group) }
    ensures passes { IfOk result (λ passes. passes ≡ (done || H.hits hits.old (group_at (group.now.group.position + 1) group.now.group))) }
    ensures noted { OnOk result (H.noted hits.new group.now.group) }
    ensures hits { (g : Held) → H.hits hits.new g ≡ H.hits hits.old g }
    ensures told { (g : Held) → H.told hits.new g ≡ H.told hits.old g }
    ensures suits { (p : Program) → H.suits hits.old p → H.suits hits.new p }
    ensures tests { H.tests hits.new ≡ H.tests hits.old }
    ensures follows { H.follows hits.new group.now.group }
{
    if done {
        hits.note(group)?;
        return Ok(true);
    }
    let hit = hits.hits_behind(group, happening)?;
    if hit {
        hits.note(group)?;
    }
    Ok(hit)
}
