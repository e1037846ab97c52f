//! Breaks at lines of source files.
ghost use Rattle.std.specs.Prelude.{◌≡◌, map, filter, IfOk};
ghost use Rattle.spv_stops.specs.Stops.{number_of};
ghost use Rattle.spv_stops.specs.Breaks.{has_head};

use crate::stops::Stops;
use spv_base::{Bytes, CmdRefusal, Fail, NoMemory, Places};
use std::alloc::Global;
use std::marker::Model;

/// A line of a source file, and the words of its heads: the instructions at which a break there hits.
#[derive(Drop)]
pub struct Breakpoint {
    pub file: Bytes,
    pub line: u32,
    pub heads: Places,
}

/// The line has no head.
const NO_CODE: Fail<CmdRefusal> = Fail::Refused(CmdRefusal { code: 8 });

/// At most 64 breaks.
#[derive(Drop)]
pub struct Breaks {
    alloc: Global,
    stops: Stops<Breakpoint, 64>,
}

impl Model for Breaks {
    ghost use Rattle.spv_stops.specs.Stops.{Stops as AnyStops};
    ghost use Rattle.spv_stops.specs.declared.breaks.Breakpoint.{Breakpoint};

    ghost Value = { AnyStops Breakpoint };

    ghost view = { λ b. b.stops };
}

impl Breaks {
    ghost use Rattle.std.specs.Prelude.{◌≡◌, [], Ok, Err, IfOk, OnOk, OnErr, if◌then◌else◌};
    ghost use Rattle.spv_base.specs.Answers.{Answers};
    ghost use Rattle.spv_stops.specs.Stops.{AreStops, is_kept, with_stop, without_stop};
    ghost use Rattle.spv_stops.specs.Breaks.{break_number, hits_at};

    /// No breaks; the first number is 1. Takes no memory.
    pub fn new(alloc: Global) -> Breaks
        ensures { result ≡ ([], 0) }
    {
        Breaks {
            alloc,
            stops: Stops::new(alloc),
        }
    }

    /// Adds a break, and gives its number. It is refused where the line has no head (C8), and then where 64 breaks are kept
    /// or the number 4,294,967,295 was given (C9).
    pub fn add(&mut self, file: &[u8], line: u32, heads: Places) -> Result<u32, Fail<CmdRefusal>>
        ensures answer { Answers (break_number heads self.old) result }
        ensures ok { OnOk result (self.new ≡ with_stop (record { file = file.now; line = line; heads = heads }) self.old) }
        ensures err { OnErr result (self.new ≡ self.old) }
    {
        if heads.len() == 0 {
            return Err(NO_CODE);
        }
        let file = Bytes::from_slice(self.alloc, file)?;
        self.stops.add(Breakpoint { file, line, heads })
    }

    /// Removes the break with this number, which isn't used again. Where there is none it is refused (C7).
    pub fn remove(&mut self, number: u32) -> Result<(), CmdRefusal>
        ensures answer { result ≡ (if is_kept number self.old then Ok tt else Err (record { code = 7 })) }
        ensures ok { OnOk result (self.new ≡ without_stop number self.old) }
        ensures err { OnErr result (self.new ≡ self.old) }
    {
        self.stops.remove(number)
    }

    /// The breaks that are kept, each after its number, ascending.
    pub fn list(&self) -> &[(u32, Breakpoint)]
        ensures list { result.now ≡ self.now.0 }
        ensures ascending { AreStops 64 self.now }
    {
        self.stops.list()
    }

    /// The numbers of the breaks with this head, ascending.
    pub fn hit(&self, alloc: Global, pc: u32) -> Result<Places, NoMemory>
        ensures hits { IfOk result (λ numbers. numbers ≡ hits_at pc self.now) }
        ensures ascending { AreStops 64 self.now }
    {
        hits(alloc, self.stops.list(), pc)
    }
}

/// The numbers of the breaks with this head.
fn hits(alloc: Global, breaks: &[(u32, Breakpoint)], pc: u32) -> Result<Places, NoMemory>
    ensures { IfOk result (λ numbers. numbers ≡ map number_of (filter (has_head pc) breaks.now)) }
{
    let mut numbers = Places::new(alloc);
    for stop in breaks {
        if stop.1.heads.as_slice().contains(&pc) {
            numbers.push(stop.0)?;
        }
    }
    Ok(numbers)
}
