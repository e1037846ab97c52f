//! Laws of what instructions do.
ghost use Rattle.spv_valid.specs.Acceptance.{Accepted, IsAccepted};
ghost use Rattle.spv_computing.specs.Laws.{StopsAreActions};

use spv_valid::accepted_modules_are_valid;

/// A law, with nothing to run: each executable of an accepted module, reached or not, is one of the machine's actions. So every accepted
/// module can be run.
pub fn executables_are_actions()
    ensures { (a : Accepted) → IsAccepted a → StopsAreActions a.insts }
{
    accepted_modules_are_valid();
}
