//! What answers lines of input: a session with its probes.
ghost use Rattle.std.specs.Prelude.{◌≡◌, ◌≤◌, All, IfOk, Some, map, vec_len};
ghost use Rattle.spv_loop.specs.Sessions.{IsKitOf, first_viewing, tests_of};

use spv_base::{NoMemory, Probe, Steps};
use spv_loop::{Debugger, Group, Next, Session};
use std::alloc::Global;
use std::marker::PhantomData;
use std::sync::ledger::Ledger;

/// A session as a debugger. It stands in this crate, since the borrow checker takes no call with boxed probes at a type whose `impl` of a
/// trait stands in another crate and names them.
#[derive(Drop)]
pub struct Debugging {
    pub session: Session,
    /// Nothing: it names the type of the boxes, so that what is promised of a debugger can speak of their tallies.
    pub of: PhantomData<Box<dyn Probe>>,
}

impl Debugging {
    /// A session over a group at its start, with the probes that are handed in.
    pub fn open(
        alloc: Global,
        group: Group,
        kit: Vec<Box<dyn Probe>>,
    ) -> Result<Debugging, NoMemory>
        requires position { group.group.position ≡ 0 }
        requires few { vec_len kit ≤ 16 }
        requires unused { All (λ p. tally p ≡ 0) kit.items }
        ensures core { IfOk result (λ it. it.session.core ≡ first_viewing group) }
        ensures tests { IfOk result (λ it. tests_of (λ p. test p) it.session.kit.boxes.items ≡ map (λ p. Some (test p)) kit.items) }
        ensures kit { IfOk result (λ it. IsKitOf (λ p. tally p) (λ p. test p) (tests_of (λ p. test p) it.session.kit.boxes.items) it.session.core.view it.session.kit.boxes.items) }
    {
        Ok(Debugging {
            session: Session::open(alloc, group, kit)?,
            of: PhantomData,
        })
    }
}

impl Debugger for Debugging {
    ghost viewing = { λ it. it.session.core };

    ghost tests = { λ it. tests_of (λ p. (Probe-box p).test p.value) it.session.kit.boxes.items };

    ghost follows = { λ settings it. IsKitOf (λ p. (Probe-box p).tally p.value) (λ p. (Probe-box p).test p.value) settings it.session.core.view it.session.kit.boxes.items };

    fn command<L: Ledger>(
        &mut self,
        line: &[u8],
        out: &mut Vec<u8>,
        steps: &mut Steps<L>,
    ) -> Result<Next, NoMemory> {
        self.session.command(line, out, steps)
    }
}
