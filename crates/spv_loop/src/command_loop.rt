//! The command loop: input is taken in pieces, and each line that ends in one is answered before more is taken.
ghost use Rattle.std.specs.Prelude.{◌≡◌, ◌↔◌, ◌<◌, ◌≤◌, ◌+◌, ◌-◌, ◌^◌, List, ℕ, length, min, take, IfOk, IfErr, OnOk, OnErr, MatchResult};
ghost use Rattle.std.specs.Io.KnownBytes.{Appends, Consumes, Keeps, IsAtEnd};
ghost use Rattle.spv_base.specs.Outside.{CountsFault};
ghost use Rattle.spv_session.specs.Costs.{line_cost};
ghost use Rattle.spv_session.specs.View.{Settings};
ghost use Rattle.spv_session.specs.Reply.{reply};
ghost use Rattle.spv_loop.specs.Lines.{last_line};
ghost use Rattle.spv_loop.specs.Transcript.{transcript, replies, Spends};
ghost use Rattle.spv_loop.specs.CommandLoop.{Ran};
ghost use Rattle.spv_loop.specs.Limits.{piece_limit};
ghost use Rattle.spv_loop.specs.Offers.{OffersAll, OffersFirst};
ghost use Rattle.spv_loop.specs.Stops.{StopSays, StopCounts};

use crate::answer::{answer, answer_piece};
use crate::debugger::Debugger;
use crate::limits::INPUT_LIMIT;
use crate::status::{Status, Stop};
use spv_base::{Failed, Sink, Source, Steps};
use spv_session::Next;
use std::alloc::Global;
use std::sync::ledger::Ledger;

/// The most bytes that one read takes.
const PIECE: usize = 4096;

/// Reads at most `room` bytes to the buffer's front.
fn read_piece<I: Source>(input: &mut I, buf: &mut [u8; PIECE], room: usize) -> Result<usize, Failed>
    requires faults { I.faults input.old < 2 ^ 64 - 1 }
    requires room { 0 < room }
    ensures bound { IfOk result (λ n. n ≤ min room piece_limit) }
    ensures count_is { IfOk result (λ n. length (take n buf.new) ≡ n) }
    ensures bytes { IfOk result (λ n. Consumes (I.left input.old) (I.left input.new) (take n buf.new)) }
    ensures end { IfOk result (λ n. n ≡ 0 → IsAtEnd (I.left input.new)) }
    ensures kept { OnErr result (Keeps (I.left input.old) (I.left input.new)) }
    ensures count { CountsFault (I.faults input.old) (I.faults input.new) result }
    ensures goes { IfOk result (λ n. 0 < n → I.ends input.new ≡ I.ends input.old) }
    ensures ends { I.ends input.new ≤ I.ends input.old + 1 }
{
    let want = room.min(PIECE);
    input.read(&mut buf[..want])
}

/// Answers a last line without LF.
fn answer_last<S: Debugger, K: Sink, L: Ledger>(
    alloc: Global,
    session: &mut S,
    line: &[u8],
    out: &mut K,
    steps: &mut Steps<L>,
) -> Result<(), Stop>
    ghost settings: { Settings }
    requires out { K.faults out.old < 2 ^ 64 - 1 }
    requires kit { S.follows settings session.old }
    ensures written { OnOk result (Appends (K.taken out.old) (K.taken out.new) (transcript (reply settings) (S.viewing session.old).view (last_line line.now))) }
    ensures offers { MatchResult result (λ _. OffersAll (replies (reply settings) (S.viewing session.old).view (last_line line.now)) (K.offers out.old) (K.offers out.new))
        (λ _. OffersFirst (replies (reply settings) (S.viewing session.old).view (last_line line.now)) (K.offers out.old) (K.offers out.new)) }
    ensures stop { IfErr result (λ stop. (put : List ℕ) × Appends (K.taken out.old) (K.taken out.new) put
        × StopSays stop put (transcript (reply settings) (S.viewing session.old).view (last_line line.now))) }
    ensures count { MatchResult result (λ _. K.faults out.new ≡ K.faults out.old) (λ stop. StopCounts stop (K.faults out.old) (K.faults out.new)) }
    ensures kit { S.follows settings session.new }
    ensures counted { steps.old ≤ steps.new }
    ensures cost { Spends (reply settings) (line_cost settings) (S.viewing session.old) (last_line line.now) steps.old steps.new }
{
    if line.is_empty() {
        return Ok(());
    }
    answer(alloc, session, line, out, steps)?;
    Ok(())
}

/// Takes lines from the input and answers each, by the settings that the probes were handed in with.
fn answer_input<S: Debugger, I: Source, K: Sink, L: Ledger>(
    alloc: Global,
    session: &mut S,
    input: &mut I,
    out: &mut K,
    steps: &mut Steps<L>,
) -> Status
    ghost settings: { Settings }
    requires input { I.faults input.old < 2 ^ 64 - 1 }
    requires out { K.faults out.old < 2 ^ 64 - 1 }
    requires kit { S.follows settings session.old }
    ensures ran { Ran (reply settings) (line_cost settings) (S.viewing session.old) (record { left = I.left input.old; held = K.taken out.old; offers = K.offers out.old; steps = steps.old })
        (record { left = I.left input.new; held = K.taken out.new; offers = K.offers out.new; steps = steps.new }) result }
    ensures read_fault { (result ≡ Status.ReadFault) ↔ (I.faults input.old < I.faults input.new) }
    ensures write_fault { (result ≡ Status.WriteFault) ↔ (K.faults out.old < K.faults out.new) }
    ensures kit { S.follows settings session.new }
    ensures reads_counted { I.faults input.old ≤ I.faults input.new }
    ensures writes_counted { K.faults out.old ≤ K.faults out.new }
    // The input isn't read again once its end was told.
    ensures ends { I.ends input.new ≤ I.ends input.old + 1 }
{
    let mut line = Vec::new(alloc);
    let mut buf = [0; PIECE];
    let mut taken = 0;
    loop {
        let count = match read_piece(input, &mut buf, INPUT_LIMIT + 1 - taken) {
            Ok(count) => count,
            Err(_) => return Status::ReadFault,
        };
        if count == 0 {
            return match answer_last(alloc, session, &line, out, steps) {
                Ok(()) => Status::Done,
                Err(stop) => Status::from(stop),
            };
        }
        taken += count;
        if taken > INPUT_LIMIT {
            return Status::InputTooLong;
        }
        match answer_piece(alloc, session, &mut line, &buf[..count], out, steps) {
            Ok(Next::Go) => {}
            Ok(Next::Quit) => return Status::Done,
            Err(stop) => return Status::from(stop),
        }
    }
}

/// Takes lines from the input and answers each, to the input's end or to `quit`. The settings of the probes are the tests of those
/// that are there at first.
pub fn run<S: Debugger, I: Source, K: Sink, L: Ledger>(
    alloc: Global,
    session: &mut S,
    input: &mut I,
    out: &mut K,
    steps: &mut Steps<L>,
) -> Status
    requires input { I.faults input.old < 2 ^ 64 - 1 }
    requires out { K.faults out.old < 2 ^ 64 - 1 }
    requires kit { S.follows (S.tests session.old) session.old }
    ensures ran { Ran (reply (S.tests session.old)) (line_cost (S.tests session.old)) (S.viewing session.old) (record { left = I.left input.old; held = K.taken out.old; offers = K.offers out.old; steps = steps.old })
        (record { left = I.left input.new; held = K.taken out.new; offers = K.offers out.new; steps = steps.new }) result }
    ensures read_fault { (result ≡ Status.ReadFault) ↔ (I.faults input.old < I.faults input.new) }
    ensures write_fault { (result ≡ Status.WriteFault) ↔ (K.faults out.old < K.faults out.new) }
    ensures kit { S.follows (S.tests session.old) session.new }
    ensures reads_counted { I.faults input.old ≤ I.faults input.new }
    ensures writes_counted { K.faults out.old ≤ K.faults out.new }
    // The input isn't read again once its end was told.
    ensures ends { I.ends input.new ≤ I.ends input.old + 1 }
{
    answer_input(alloc, session, input, out, steps)
}
