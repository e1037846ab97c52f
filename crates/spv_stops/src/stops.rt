//! What breaks and watches have in common: stops under numbers.
ghost use Rattle.std.specs.Prelude.{◌≡◌};
ghost use Rattle.std.specs.List.{position};
ghost use Rattle.spv_stops.specs.Stops.{has_number};

use spv_base::{CmdRefusal, Fail, NoMemory, Places};
use std::alloc::Global;
use std::marker::Model;

/// No stop has this number.
const NO_SUCH_NUMBER: CmdRefusal = CmdRefusal { code: 7 };

/// The list keeps as many stops as it may, or has no number left.
const LIST_FULL: Fail<CmdRefusal> = Fail::Refused(CmdRefusal { code: 9 });

/// At most `MOST` stops, each under a number that no other stop had before it.
#[derive(Drop)]
pub struct Stops<T, const MOST: usize> {
    kept: Vec<(u32, T)>,
    given: u32,
}

impl<T, const MOST: usize> Model for Stops<T, MOST> {
    ghost use Rattle.spv_stops.specs.Stops.{Stops as AnyStops, AreStops};

    ghost Value = { AnyStops T };

    ghost view = { λ s. (s.kept.items, s.given) };

    ghost invariant = { λ s. AreStops MOST (s.kept.items, s.given) };
}

/// The place of the stop with this number.
pub(crate) fn place_of<T>(stops: &[(u32, T)], number: u32) -> Option<usize>
    ensures { result ≡ position (has_number number) stops.now }
{
    stops.iter().position(|stop| stop.0 == number)
}

impl<T, const MOST: usize> Stops<T, MOST> {
    ghost use Rattle.std.specs.Prelude.{◌≡◌, [], map, Ok, Err, IfOk, OnOk, OnErr, if◌then◌else◌};
    ghost use Rattle.spv_base.specs.Answers.{Answers};
    ghost use Rattle.spv_stops.specs.Stops.{AreStops, number_of, is_kept, next_number, with_stop, without_stop};

    /// No stops; the first number is 1. Takes no memory.
    pub fn new(alloc: Global) -> Stops<T, MOST>
        ensures { result ≡ ([], 0) }
    {
        Stops {
            kept: Vec::new(alloc),
            given: 0,
        }
    }

    /// The stops that are kept, each after its number, ascending.
    pub fn list(&self) -> &[(u32, T)]
        ensures list { result.now ≡ self.now.0 }
        ensures ascending { AreStops MOST self.now }
    {
        &self.kept
    }

    /// Adds a stop, and gives its number. It is refused where as many are kept as may be, or the number 4,294,967,295 was
    /// given (C9).
    pub fn add(&mut self, stop: T) -> Result<u32, Fail<CmdRefusal>>
    where
        T: Drop,
        ensures answer { Answers (next_number MOST self.old) result }
        ensures ok { OnOk result (self.new ≡ with_stop stop self.old) }
        ensures err { OnErr result (self.new ≡ self.old) }
    {
        if self.kept.len() >= MOST || self.given == u32::MAX {
            return Err(LIST_FULL);
        }
        let number = self.given + 1;
        self.kept.push((number, stop))?;
        self.given = number;
        Ok(number)
    }

    /// Removes the stop with this number, which isn't used again. Where there is none it is refused (C7).
    pub fn remove(&mut self, number: u32) -> Result<(), CmdRefusal>
    where
        T: Drop,
        ensures answer { result ≡ (if is_kept number self.old then Ok tt else Err (record { code = 7 })) }
        ensures ok { OnOk result (self.new ≡ without_stop number self.old) }
        ensures err { OnErr result (self.new ≡ self.old) }
    {
        match place_of(&self.kept, number) {
            None => Err(NO_SUCH_NUMBER),
            Some(place) => {
                self.kept.remove(place);
                Ok(())
            }
        }
    }

    /// The numbers of the stops, ascending.
    pub fn numbers(&self, alloc: Global) -> Result<Places, NoMemory>
        ensures { IfOk result (λ numbers. numbers ≡ map number_of self.now.0) }
    {
        let mut numbers = Places::new(alloc);
        for stop in &self.kept {
            numbers.push(stop.0)?;
        }
        Ok(numbers)
    }
}
