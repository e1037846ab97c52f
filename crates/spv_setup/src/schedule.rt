//! The schedule of a run.
ghost use Rattle.std.specs.Prelude.{◌≡◌, ◌≤◌, ◌<◌, ◌+◌, ◌∷◌, [], IfSome, None, OnOk, length, slice_get, Ok, Err};
ghost use Rattle.spv_base.specs.Answers.{Answers};
ghost use Rattle.spv_setup.specs.Schedule.{check_moves, entries_in, schedule_of, stray_line};
ghost use Rattle.spv_setup.specs.Pieces.{ArePieces, Grows, IsPieceAt};

use crate::pieces::Piece;
use crate::settings::Run;
use spv_base::{Fail, SetupRefusal};
use std::alloc::Global;
use std::marker::Model;

/// The most entries of a schedule.
const MOST_ENTRIES: u64 = 4_194_304;

/// There are more than 4,194,304 entries.
const TOO_MANY_ENTRIES: Fail<SetupRefusal> = Fail::Refused(SetupRefusal { code: 9, line: 0 });

/// Whether each `move` names an invocation that exists. Else S5 at the lowest line that doesn't.
pub fn check_moves(invocations: u32, runs: &[Run]) -> Result<(), SetupRefusal>
    ensures due { result ≡ check_moves invocations runs.now }
    ensures exist { OnOk result (stray_line invocations runs.now ≡ None) }
{
    for run in runs {
        if let Run::Move {
            line,
            invocation,
            count: _,
        } = *run
        {
            if invocation >= invocations {
                return Err(SetupRefusal { code: 5, line });
            }
        }
    }
    Ok(())
}

/// The entries of a run, each the invocation that an event is of. They are kept as runs, and never written out.
#[derive(Drop)]
pub struct Schedule {
    invocations: u32,
    pieces: Vec<Piece>,
    len: u64,
}

impl Model for Schedule {
    ghost use Rattle.spv_setup.specs.Schedule.{Entries};
    ghost use Rattle.spv_setup.specs.Pieces.{ArePieces, pieces_entries};

    ghost Value = { Entries };

    ghost view = { λ s. record { invocations = s.invocations; list = pieces_entries s.invocations s.pieces.items } };

    ghost invariant = { λ s. ArePieces s.invocations s.pieces.items s.len };
}

impl Schedule {
    /// How many entries there are, at most 4,194,304.
    pub fn len(&self) -> u64
        ensures len { result ≡ length self.now.list }
        ensures most { result ≤ 4194304 }
    {
        self.len
    }
}

impl Schedule {
    /// No entries.
    fn new(alloc: Global, invocations: u32) -> Schedule
        requires { 0 < invocations }
        ensures { result ≡ record { invocations = invocations; list = [] } }
    {
        Schedule {
            invocations,
            pieces: Vec::new(alloc),
            len: 0,
        }
    }

    /// Adds the entries of a part, where there are at most 4,194,304 then. Nothing changes else.
    fn push(&mut self, run: Run) -> Result<(), Fail<SetupRefusal>>
        requires { stray_line self.old.invocations (run ∷ []) ≡ None }
        ensures { Grows self.old self.new (entries_in self.old.invocations run) result }
    {
        let piece = Piece::of(run, self.len as u32);
        let len = self.len.saturating_add(piece.len(self.invocations));
        if len > MOST_ENTRIES {
            return Err(TOO_MANY_ENTRIES);
        }
        self.pieces.push(piece)?;
        self.len = len;
        Ok(())
    }
}

/// The piece that a place is in: the last that starts at the place or before.
fn piece_of(invocations: u32, pieces: &[Piece], len: u64, n: u64) -> Piece
    requires pieces { ArePieces invocations pieces.now len }
    requires within { n < len }
    ensures { IsPieceAt invocations pieces.now n result }
{
    let mut low = 0;
    let mut high = pieces.len();
    'halves: while high - low > 1 {
        let middle = low + (high - low) / 2;
        if pieces[middle].start as u64 <= n {
            low = middle;
        } else {
            high = middle;
        }
    }
    pieces[low]
}

impl Schedule {
    /// The entry at a place, below the number of invocations; none exactly where the schedule ends before.
    pub fn at(&self, n: u64) -> Option<u32>
        ensures entry { result ≡ slice_get self.now.list n }
        ensures below { IfSome result (λ i. i < self.now.invocations) }
    {
        if n < self.len {
            let piece = piece_of(self.invocations, &self.pieces, self.len, n);
            Some(piece.at(self.invocations, n as u32 - piece.start))
        } else {
            None
        }
    }

    /// The schedule of the parts of a setup, which name invocations that exist. Refuses more than 4,194,304 entries (S9).
    #[tactic(auto, unfolding(crate::specs::Schedule::schedule_of))]
    pub fn of(alloc: Global, invocations: u32, runs: &[Run]) -> Result<Schedule, Fail<SetupRefusal>>
        requires some { 0 < invocations }
        requires exist { stray_line invocations runs.now ≡ None }
        ensures { Answers (schedule_of invocations runs.now) result }
    {
        let mut schedule = Schedule::new(alloc, invocations);
        for run in runs {
            schedule.push(*run)?;
        }
        Ok(schedule)
    }
}
