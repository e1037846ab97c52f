//! The pieces that a schedule is kept as.
ghost use Rattle.std.specs.Prelude.{◌≡◌, ◌<◌, ◌%◌, ◌∷◌, [], ℕ, Some, None, slice_get, length};
ghost use Rattle.spv_setup.specs.Pieces.{piece_entries, Exists, turns_of};
ghost use Rattle.spv_setup.specs.Schedule.{entries_in, stray_line};

use crate::settings::Run;

/// Whose turn it is.
#[derive(Clone, Copy)]
pub enum Turn {
    /// One invocation's.
    Of(u32),
    /// Each invocation's, from 0 to the last.
    Each,
}

/// A part of a schedule: from a place on, so many times the same turns.
#[derive(Clone, Copy)]
pub struct Piece {
    pub start: u32,
    pub count: u32,
    pub turn: Turn,
}

impl Turn {
    /// How many entries it has.
    pub fn len(self, invocations: u32) -> u32
        ensures { result ≡ length (turns_of invocations self) }
    {
        match self {
            Turn::Of(_) => 1,
            Turn::Each => invocations,
        }
    }
}

/// Whose turn it is at a place, where each invocation has one in turn. A division costs as much as a small event.
#[tactic(auto, using(crate::proofs::ScheduleLemmas::one_turn))]
fn turn_at(invocations: u32, place: u32) -> u32
    requires { 0 < invocations }
    ensures { result ≡ place % invocations }
{
    if invocations == 1 {
        0
    } else {
        place % invocations
    }
}

impl Piece {
    /// The entries of a part of a setup, from a place on.
    pub fn of(run: Run, start: u32) -> Piece
        ensures start { result.start ≡ start }
        ensures entries { (n : ℕ) → piece_entries n result ≡ entries_in n run }
        ensures exists { (n : ℕ) → stray_line n (run ∷ []) ≡ None → Exists n result.turn }
    {
        match run {
            Run::Move {
                line: _,
                invocation,
                count,
            } => Piece {
                start,
                count,
                turn: Turn::Of(invocation),
            },
            Run::Rounds(count) => Piece {
                start,
                count,
                turn: Turn::Each,
            },
        }
    }

    /// How many entries it has.
    pub fn len(self, invocations: u32) -> u64
        ensures { result ≡ length (piece_entries invocations self) }
    {
        self.count as u64 * self.turn.len(invocations) as u64
    }

    /// Its entry at a place.
    pub fn at(self, invocations: u32, place: u32) -> u32
        requires within { place < length (piece_entries invocations self) }
        requires some { 0 < invocations }
        requires exists { Exists invocations self.turn }
        ensures entry { slice_get (piece_entries invocations self) place ≡ Some result }
        ensures below { result < invocations }
    {
        match self.turn {
            Turn::Of(invocation) => invocation,
            Turn::Each => turn_at(invocations, place),
        }
    }
}
