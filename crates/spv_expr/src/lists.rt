//! Passed events as they are walked.
ghost use Rattle.std.specs.Prelude.{◌≡◌, ◌<◌, length, slice_index_or};
ghost use Rattle.std.specs.List.{All};
ghost use Rattle.spv_expr.specs.Picks.{picked};

use spv_frame::DebugEvent;
use std::marker::Model;

/// Passed events, the oldest first: all of these, or those with some numbers.
#[derive(Drop)]
pub(crate) struct EventList<'a> {
    all: &'a [DebugEvent],
    numbers: Option<&'a [usize]>,
}

impl<'a> Model for EventList<'a> {
    ghost use Rattle.std.specs.Prelude.{List};
    ghost use Rattle.std.specs.Coded.{codes};
    ghost use Rattle.spv_base.specs.contracts.values.Value as value;
    ghost use Rattle.spv_base.specs.declared.values.PassedEvent.{PassedEvent};
    ghost use Rattle.spv_expr.specs.Picks.{AreNumbers, those};

    ghost Value = { List PassedEvent };

    ghost coded = { Prim.hlevel (codes, value.the_row.coded) };

    ghost view = { λ l. those l.all.now l.numbers };

    ghost invariant = { λ l. AreNumbers l.all.now l.numbers };
}

/// The number in a place.
fn number_in(numbers: &[usize], k: usize) -> usize
    requires { k < length numbers.now }
    ensures { result ≡ slice_index_or numbers.now k result }
{
    numbers[k]
}

impl<'a> EventList<'a> {
    /// All of these.
    pub(crate) fn all(events: &'a [DebugEvent]) -> EventList<'a>
        ensures { result ≡ events.now }
    {
        EventList {
            all: events,
            numbers: None,
        }
    }

    /// Those with some numbers.
    pub(crate) fn picked(events: &'a [DebugEvent], numbers: &'a [usize]) -> EventList<'a>
        requires { All (λ n. n < length events.now) numbers.now }
        ensures { result ≡ picked events.now numbers.now }
    {
        EventList {
            all: events,
            numbers: Some(numbers),
        }
    }

    /// How many there are.
    pub(crate) fn len(&self) -> usize
        ensures { result ≡ length self.now }
    {
        match self.numbers {
            Some(numbers) => numbers.len(),
            None => self.all.len(),
        }
    }

    /// The one with a number.
    pub(crate) fn at(&self, k: usize) -> &DebugEvent
        requires { k < length self.now }
        ensures { result.now ≡ slice_index_or self.now k result.now }
    {
        match self.numbers {
            Some(numbers) => &self.all[number_in(numbers, k)],
            None => &self.all[k],
        }
    }
}
