//! How far what was touched reaches, by invocations.
ghost use Rattle.std.specs.Prelude.{◌≡◌, ◌≤◌, ℕ, max};
ghost use Rattle.spv_order.specs.Reaches.{part_of, others_of};

/// The greatest end of some touches with its invocation, and the greatest end of those of the other invocations; 0 where there is none.
#[derive(Clone, Copy)]
pub(crate) struct Reach {
    pub(crate) most: u64,
    pub(crate) invocation: u32,
    pub(crate) next: u64,
}

/// The greatest end of the touches of other invocations than this.
pub(crate) fn others(reach: &Reach, invocation: u32) -> u64
    ensures { result ≡ others_of reach.now invocation }
{
    if reach.invocation == invocation {
        reach.next
    } else {
        reach.most
    }
}

/// With one touch more, of this invocation and end.
pub(crate) fn with(reach: &Reach, invocation: u32, stop: u64) -> Reach
    requires { reach.now.next ≤ reach.now.most }
    ensures others { (i : ℕ) → others_of result i ≡ max (others_of reach.now i) (part_of invocation stop i) }
    ensures ordered { result.next ≤ result.most }
{
    let Reach {
        most,
        invocation: of,
        next,
    } = *reach;
    if of == invocation {
        Reach {
            most: most.max(stop),
            invocation,
            next,
        }
    } else if most < stop {
        Reach {
            most: stop,
            invocation,
            next: most,
        }
    } else {
        Reach {
            most,
            invocation: of,
            next: next.max(stop),
        }
    }
}
