//! An event that is being made, and what becomes of it.
ghost use Rattle.std.specs.Prelude.{◌≡◌, IsSome, None, OnErr, OnOk, Ok, Err};
ghost use Rattle.spv_journal.specs.Held.{sealed, unwound};
ghost use Rattle.spv_machine.specs.Step as spec;
ghost use Rattle.spv_machine.specs.World.{IsRecorded, seen};

use crate::execution::{Did, StepErr};
use spv_base::{Happening, Kind, NoMemory};
use spv_journal::Recorded;

/// Keeps an event whose changes are made, or undoes those that were made before memory ran out. Inlined: it is called at each event
/// that is not made at once.
#[inline(always)]
pub(crate) fn finished(
    recorded: &mut Recorded,
    happening: Happening,
    done: Result<(), NoMemory>,
) -> Result<Did, StepErr>
    requires { IsSome recorded.old.gathered }
    ensures ok { OnOk done ((result ≡ Ok (Did.Moved happening)) × (recorded.new ≡ sealed recorded.old)) }
    ensures err { OnErr done ((result ≡ Err StepErr.NoMemory) × (recorded.new ≡ unwound recorded.old)) }
{
    match done {
        Ok(()) => {
            recorded.seal();
            Ok(Did::Moved(happening))
        }
        Err(NoMemory) => {
            let _given_up = recorded.unwind();
            Err(StepErr::NoMemory)
        }
    }
}

/// The event of an invocation that waits or is finished: nothing changes.
pub(crate) fn idle(recorded: &mut Recorded, inv: u32) -> Result<(), NoMemory>
    requires { recorded.old.gathered ≡ None }
    ensures ok { OnOk result (IsRecorded (spec.idle inv) 4 (seen recorded.old) (seen recorded.new) × (recorded.new.state ≡ recorded.old.state) × (recorded.new.gathered ≡ None)) }
    ensures err { OnErr result (recorded.new ≡ recorded.old) }
{
    recorded.mark(Happening {
        inv,
        kind: Kind::Idle,
        word: 0,
        root: 0,
        line: 0,
    })?;
    recorded.seal();
    Ok(())
}
