//! Accepted modules, with the setups that they run with.
ghost use Rattle.std.specs.Prelude.{◌≡◌, IfOk, IfSome, Some, option_copied};
ghost use Rattle.spv_base.specs.declared.instructions.Inst.{Inst};
ghost use Rattle.spv_index.specs.Definitions.{at};
ghost use Rattle.spv_state.specs.Events.{captures_before};
ghost use Rattle.spv_state.specs.Predecoded.{IsPredecoded};
ghost use Rattle.spv_state.specs.Program as program;
ghost use Rattle.spv_state.specs.Variables.{variables_of};

use crate::captures::Capture;
use crate::lookups::Lookups;
use crate::predecoded::Predecoded;
use spv_base::NoMemory;
use spv_initial::Declared;
use spv_setup::Setup;
use spv_valid::Module;
use std::alloc::Global;
use std::marker::Model;

/// An accepted module, and a setup that fits it.
pub struct Runnable {
    accepted: Module,
    setup: Setup,
    lookups: Lookups,
}

// Written out, so that it is proved once: a derived drop is proved again in each function that lets go of such a value.
impl Drop for Runnable {
    fn drop(self) {
        let Runnable {
            accepted,
            setup,
            lookups,
        } = self;
        drop(accepted);
        drop(setup);
        drop(lookups);
    }
}

impl Model for Runnable {
    ghost use Rattle.std.specs.Prelude.{◌≡◌, ℕ};
    ghost use Rattle.spv_state.specs.Events as events;
    ghost use Rattle.spv_state.specs.Predecoded.{ArePredecoded};
    ghost use Rattle.spv_state.specs.Program.{IsFitting, Program};
    ghost use Rattle.spv_state.specs.Variables.{under, variables_of};

    ghost Value = { Program };

    ghost view = { λ r. record { accepted = r.accepted; setup = r.setup } };

    ghost invariant = { λ r. IsFitting r.accepted r.setup × ((function : ℕ) → under r.lookups.variables function ≡ variables_of r.accepted function)
        × ((pc : ℕ) → events.under r.lookups.captures pc ≡ events.captures_before r.accepted pc)
        × ArePredecoded r.accepted r.lookups.predecoded.items };
}

impl Runnable {
    /// This module with a setup that fits it.
    pub fn of(alloc: Global, accepted: Module, setup: Setup) -> Result<Runnable, NoMemory>
        requires fits { program.IsFitting accepted setup }
        ensures { IfOk result (λ program. program ≡ record { accepted = accepted; setup = setup }) }
    {
        let lookups = Lookups::of(alloc, &accepted)?;
        Ok(Runnable {
            accepted,
            setup,
            lookups,
        })
    }

    /// The module.
    pub fn accepted(&self) -> &Module
        ensures module { result.now ≡ self.now.accepted }
    {
        &self.accepted
    }

    /// The variables of a function, in the order of the module: none where it has none. The module isn't walked for them.
    pub fn variables(&self, function: u32) -> &[Declared]
        ensures { result.now ≡ variables_of self.now.accepted function }
    {
        match self.lookups.variables.get(&function) {
            Some(list) => list.as_slice(),
            None => &[],
        }
    }

    /// The debug instructions that a frame passes as it comes to the executable at a word, in their order.
    /// In constant time (measured, and said by no clause).
    pub fn captures(&self, pc: u32) -> &[Capture]
        ensures { result.now ≡ captures_before self.now.accepted pc }
    {
        match self.lookups.captures.get(pc) {
            Some(list) => list.as_slice(),
            None => &[],
        }
    }

    /// The instruction at a word, where it is one on values of one cell.
    /// In constant time (measured, and said by no clause). Inlined: it is called once an event.
    #[inline(always)]
    pub fn predecoded(&self, pc: u32) -> Option<&Predecoded>
        ensures { IfSome (option_copied result) (λ p. (d : Inst) → at self.now.accepted.insts pc ≡ Some d → ∥ IsPredecoded self.now.accepted d p ∥₁) }
    {
        let number = self.accepted.index().number_at(pc)?;
        match self.lookups.predecoded.get(number)? {
            Some(predecoded) => Some(predecoded),
            None => None,
        }
    }

    /// The setup. It fits the module.
    pub fn setup(&self) -> &Setup
        ensures setup { result.now ≡ self.now.setup }
        ensures fits { program.IsFitting self.now.accepted self.now.setup }
    {
        &self.setup
    }
}
