//! Probes that follow a run, and their halts.
ghost use Rattle.std.specs.Prelude.{◌≡◌, ◌≤◌, ◌||◌, List, Option};
ghost use Rattle.spv_base.specs.declared.happenings.Happening.{Happening as AnyHappening};
ghost use Rattle.spv_dbg.specs.Tables.{tables_of};
ghost use Rattle.spv_group.specs.Group.{Held};
ghost use Rattle.spv_hits.specs.Halts.{halt_numbers, halts_behind, told_before};
ghost use Rattle.spv_hits.specs.Happenings.{lined};
ghost use Rattle.spv_hits.specs.Hits.{has_some};
ghost use Rattle.spv_probe.specs.Kits.{AllBelow, Follows, tests_of};
ghost use Rattle.spv_scopes.specs.Lines.{lines_of};
ghost use Rattle.spv_search.specs.Told.{Test};

use spv_base::{Happening, NoMemory, Probe};
use spv_group::Group;
use spv_hits::{any_halted, lined};
use spv_probe::Kit;
use spv_scopes::Lines;
use spv_search::Hits;
use spv_stops::Halts;
use spv_valid::Module;
use std::marker::PhantomData;

/// Tests of positions, and beside them the probes that follow the run, with their halts. The tests follow no run themselves.
#[derive(Drop)]
pub struct WithProbes<'a, H: Hits> {
    pub hits: H,
    pub kit: Kit,
    pub halts: &'a Halts,
    pub lines: &'a Lines,
    /// Nothing: it names the type of the kit's boxes, so that what is promised here can speak of their tallies.
    pub of: PhantomData<Box<dyn Probe>>,
}

impl<'a, H: Hits> WithProbes<'a, H> {
    /// Whether a halt hits behind an event of a run of the module. So many events that its probe hits aren't counted yet.
    #[inline(always)]
    fn halts(&self, module: &Module, more: u64, happening: &Happening) -> bool
        requires lines { self.now.lines.now ≡ lines_of module.now (tables_of module.now) }
        requires few { AllBelow (λ p. (⟦<dyn Probe as Probe>⟧ p.vtable).tally p.value) self.now.kit.boxes.items }
        requires more { more ≤ 1 }
        ensures { (tests : List (Option Test)) (events : List AnyHappening)
            → Follows (λ p. (⟦<dyn Probe as Probe>⟧ p.vtable).tally p.value) (λ p. (⟦<dyn Probe as Probe>⟧ p.vtable).test p.value) tests events self.now.kit.boxes.items
            → result ≡ has_some (halts_behind self.now.halts.now tests events more (lined module.now happening.now)) }
    {
        if self.halts.is_empty() {
            return false;
        }
        let told = lined(module, self.lines, *happening);
        any_halted(&self.kit, self.halts, more, &told)
    }
}

impl<'a, H: Hits> Hits for WithProbes<'a, H> {
    ghost hits = { λ s g. H.hits s.hits g || has_some (halt_numbers s.halts.now (tests_of (λ p. (Probe-box p).test p.value) s.kit.boxes.items) g) };

    ghost told = { λ s g. ((H.told s.hits g).0, (H.told s.hits g).1, halt_numbers s.halts.now (tests_of (λ p. (Probe-box p).test p.value) s.kit.boxes.items) g) };

    ghost suits = { λ s p. H.suits s.hits p × (s.lines.now ≡ lines_of p.accepted (tables_of p.accepted)) };

    ghost noted = { λ s g. H.noted s.hits g };

    ghost left = { λ s g. H.left s.hits g };

    ghost tests = { λ s. tests_of (λ p. (Probe-box p).test p.value) s.kit.boxes.items };

    ghost follows = { λ s g. ((x : Held) → H.follows s.hits x)
        × Follows (λ p. (Probe-box p).tally p.value) (λ p. (Probe-box p).test p.value) (tests_of (λ p. (Probe-box p).test p.value) s.kit.boxes.items) (told_before g) s.kit.boxes.items };

    fn listens(&self) -> bool {
        self.kit.has_one()
    }

    fn forth(&mut self, module: &Module, happening: &Happening) {
        if self.kit.boxes.is_empty() {
            return;
        }
        let told = lined(module, self.lines, *happening);
        self.kit.forth(&told);
    }

    fn back(&mut self, module: &Module, happening: &Happening) {
        if self.kit.boxes.is_empty() {
            return;
        }
        let told = lined(module, self.lines, *happening);
        self.kit.back(&told);
    }

    fn note(&mut self, group: &Group) -> Result<(), NoMemory> {
        self.hits.note(group)
    }

    fn hits_here(&mut self, group: &Group, happening: &Happening) -> Result<bool, NoMemory> {
        let _position = group.position();
        if self.halts(group.module().accepted(), 0, happening) {
            return Ok(true);
        }
        self.hits.hits_here(group, happening)
    }

    fn leave(&mut self, group: &Group) -> Result<(), NoMemory> {
        self.hits.leave(group)
    }

    fn hits_behind(&mut self, group: &Group, happening: &Happening) -> Result<bool, NoMemory> {
        let _position = group.position();
        // The event was taken back, and the tally at the position behind it has it.
        if self.halts(group.module().accepted(), 1, happening) {
            return Ok(true);
        }
        self.hits.hits_behind(group, happening)
    }
}
