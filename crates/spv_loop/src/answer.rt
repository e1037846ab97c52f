//! The answers to one line, and to the lines that end in one piece of input.
ghost use Rattle.std.specs.Prelude.{◌≡◌, ◌<◌, ◌≤◌, ◌-◌, ◌^◌, ◌∷◌, [], List, ℕ, Ok, IfOk, IfErr, OnOk, MatchResult};
ghost use Rattle.std.specs.Io.KnownBytes.{Appends};
ghost use Rattle.spv_base.specs.Offers.{Offers};
ghost use Rattle.spv_session.specs.Costs.{line_cost};
ghost use Rattle.spv_session.specs.View.{Settings};
ghost use Rattle.spv_session.specs.Reply.{reply, is_quit};
ghost use Rattle.spv_loop.specs.Lines.{complete_from, rest_from, ended_by, line_after};
ghost use Rattle.spv_loop.specs.Transcript.{text_of, view_of, transcript, replies, view_after, has_quit, Reaches, Spends};
ghost use Rattle.spv_loop.specs.Offers.{OffersAll, OffersFirst};
ghost use Rattle.spv_loop.specs.Stops.{next_of, StopSays, StopCounts};

use crate::debugger::Debugger;
use crate::status::Stop;
use spv_base::{Sink, Steps, write_all};
use spv_session::Next;
use std::alloc::Global;
use std::sync::ledger::Ledger;

const LF: u8 = b'\n';

/// Answers one line: its reply is offered as one piece.
pub fn answer<S: Debugger, K: Sink, L: Ledger>(
    alloc: Global,
    session: &mut S,
    line: &[u8],
    out: &mut K,
    steps: &mut Steps<L>,
) -> Result<Next, Stop>
    ghost settings: { Settings }
    requires out { K.faults out.old < 2 ^ 64 - 1 }
    requires kit { S.follows settings session.old }
    ensures next { IfOk result (λ next. next ≡ next_of (is_quit line.now)) }
    ensures written { OnOk result (Appends (K.taken out.old) (K.taken out.new) (text_of (reply settings) (S.viewing session.old).view line.now)) }
    ensures view { OnOk result ((S.viewing session.new).view ≡ view_of (reply settings) (S.viewing session.old).view line.now) }
    ensures offers { Offers (text_of (reply settings) (S.viewing session.old).view line.now) (K.offers out.old) (K.offers out.new) result }
    ensures stop { IfErr result (λ stop. (put : List ℕ) × Appends (K.taken out.old) (K.taken out.new) put × StopSays stop put (text_of (reply settings) (S.viewing session.old).view line.now)) }
    ensures count { MatchResult result (λ _. K.faults out.new ≡ K.faults out.old) (λ stop. StopCounts stop (K.faults out.old) (K.faults out.new)) }
    ensures kit { S.follows settings session.new }
    ensures counted { steps.old ≤ steps.new }
    ensures reach { result ≡ Ok Next.Go → Reaches (reply settings) (S.viewing session.old) (S.viewing session.new) (line.now ∷ []) }
    ensures cost { Spends (reply settings) (line_cost settings) (S.viewing session.old) (line.now ∷ []) steps.old steps.new }
{
    let mut text = Vec::new(alloc);
    let next = session.command(line, &mut text, steps)?;
    write_all(out, &text)?;
    Ok(next)
}

/// Takes one byte: a byte of a line, or the end of one, which is answered.
fn answer_byte<S: Debugger, K: Sink, L: Ledger>(
    alloc: Global,
    session: &mut S,
    line: &mut Vec<u8>,
    byte: u8,
    out: &mut K,
    steps: &mut Steps<L>,
) -> Result<Next, Stop>
    ghost settings: { Settings }
    requires out { K.faults out.old < 2 ^ 64 - 1 }
    requires kit { S.follows settings session.old }
    ensures next { IfOk result (λ next. next ≡ next_of (has_quit (ended_by line.old.items byte))) }
    ensures written { OnOk result (Appends (K.taken out.old) (K.taken out.new) (transcript (reply settings) (S.viewing session.old).view (ended_by line.old.items byte))) }
    ensures view { OnOk result ((S.viewing session.new).view ≡ view_after (reply settings) (S.viewing session.old).view (ended_by line.old.items byte)) }
    ensures offers { MatchResult result (λ _. OffersAll (replies (reply settings) (S.viewing session.old).view (ended_by line.old.items byte)) (K.offers out.old) (K.offers out.new))
        (λ _. OffersFirst (replies (reply settings) (S.viewing session.old).view (ended_by line.old.items byte)) (K.offers out.old) (K.offers out.new)) }
    ensures rest { OnOk result (line.new.items ≡ line_after line.old.items byte) }
    ensures stop { IfErr result (λ stop. (put : List ℕ) × Appends (K.taken out.old) (K.taken out.new) put
        × StopSays stop put (transcript (reply settings) (S.viewing session.old).view (ended_by line.old.items byte))) }
    ensures count { MatchResult result (λ _. K.faults out.new ≡ K.faults out.old) (λ stop. StopCounts stop (K.faults out.old) (K.faults out.new)) }
    ensures kit { S.follows settings session.new }
    ensures counted { steps.old ≤ steps.new }
    ensures reach { result ≡ Ok Next.Go → Reaches (reply settings) (S.viewing session.old) (S.viewing session.new) (ended_by line.old.items byte) }
    ensures cost { Spends (reply settings) (line_cost settings) (S.viewing session.old) (ended_by line.old.items byte) steps.old steps.new }
{
    if byte == LF {
        let next = answer(alloc, session, line, out, steps)?;
        line.clear();
        return Ok(next);
    }
    line.push(byte)?;
    Ok(Next::Go)
}

/// Answers the lines that end in a piece, where `line` has come of the first. It then has what has come of the next.
pub fn answer_piece<S: Debugger, K: Sink, L: Ledger>(
    alloc: Global,
    session: &mut S,
    line: &mut Vec<u8>,
    piece: &[u8],
    out: &mut K,
    steps: &mut Steps<L>,
) -> Result<Next, Stop>
    ghost settings: { Settings }
    requires out { K.faults out.old < 2 ^ 64 - 1 }
    requires kit { S.follows settings session.old }
    ensures next { IfOk result (λ next. next ≡ next_of (has_quit (complete_from line.old.items piece.now))) }
    ensures written { OnOk result (Appends (K.taken out.old) (K.taken out.new) (transcript (reply settings) (S.viewing session.old).view (complete_from line.old.items piece.now))) }
    ensures view { OnOk result ((S.viewing session.new).view ≡ view_after (reply settings) (S.viewing session.old).view (complete_from line.old.items piece.now)) }
    ensures offers { MatchResult result (λ _. OffersAll (replies (reply settings) (S.viewing session.old).view (complete_from line.old.items piece.now)) (K.offers out.old) (K.offers out.new))
        (λ _. OffersFirst (replies (reply settings) (S.viewing session.old).view (complete_from line.old.items piece.now)) (K.offers out.old) (K.offers out.new)) }
    ensures rest { result ≡ Ok Next.Go → line.new.items ≡ rest_from line.old.items piece.now }
    ensures stop { IfErr result (λ stop. (put : List ℕ) × Appends (K.taken out.old) (K.taken out.new) put
        × StopSays stop put (transcript (reply settings) (S.viewing session.old).view (complete_from line.old.items piece.now))) }
    ensures count { MatchResult result (λ _. K.faults out.new ≡ K.faults out.old) (λ stop. StopCounts stop (K.faults out.old) (K.faults out.new)) }
    ensures kit { S.follows settings session.new }
    ensures counted { steps.old ≤ steps.new }
    ensures reach { result ≡ Ok Next.Go → Reaches (reply settings) (S.viewing session.old) (S.viewing session.new) (complete_from line.old.items piece.now) }
    ensures cost { Spends (reply settings) (line_cost settings) (S.viewing session.old) (complete_from line.old.items piece.now) steps.old steps.new }
{
    for byte in piece {
        match answer_byte(alloc, session, line, *byte, out, steps)? {
            Next::Go => {}
            Next::Quit => return Ok(Next::Quit),
        }
    }
    Ok(Next::Go)
}
