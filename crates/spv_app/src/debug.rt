//! The top call.
ghost use Rattle.std.specs.Prelude.{◌≡◌, ◌≢◌, ◌↔◌, ◌⊎◌, ◌<◌, ◌≤◌, ◌+◌, ◌-◌, ◌^◌, [], ◌∷◌, ◌++◌, false, true, List, ℕ, Option, Some, Ok, All, map, vec_len, length, IfOk, IfErr, IsOk, IsErrOf};
ghost use Rattle.std.specs.Io.KnownBytes.{Appends};
ghost use Rattle.spv_arguments.specs.Requests.{PairNames, are_taken, check_name, debug_names, make_number, text_name, texts_of, AreFaulty};
ghost use Rattle.spv_app.specs.CommandLine.{AskOne, usage_line};
ghost use Rattle.spv_app.specs.Making.{Made, making, make_line, make_status};
ghost use Rattle.spv_app.specs.Serving.{CanServe, Reads, Served};
ghost use Rattle.spv_app.specs.Untaken.{Untaken};
ghost use Rattle.spv_app.specs.Opening.{opening, refusal_line};
ghost use Rattle.spv_app.specs.Outside.{library};
ghost use Rattle.spv_app.specs.Debug.{Debugged, IsPair, IsOneOf, SaysLine, SaysUnopened, status_of_refusal, due_text, due_status};
ghost use Rattle.spv_base.specs.Outside.{AsksFor};
ghost use Rattle.spv_loop.specs.FileStatus.{status_of_file};
ghost use Rattle.spv_app.specs.Limits.{binary_limit, setup_limit};
ghost use Rattle.spv_loop.specs.Limits.{input_limit};
ghost use Rattle.spv_app.specs.Checking.{Checked, checking, check_line, check_status, report_line};
ghost use Rattle.spv_app.specs.Texting.{Texted, texting, text_line, text_status};

use crate::checking::{Report, check_bytes};
use crate::limits::{BINARY_LIMIT, SETUP_LIMIT};
use crate::making::{MadeReport, making};
use crate::opening::{OpeningRefusal, open_session};
use crate::texting::text_of_bytes;
use spv_arguments::{Request, read};
use spv_base::{Fail, Failed, FileErr, Files, Probe, Sink, Source, Steps, write_all};
use spv_loop::{Status, run};
use std::alloc::Global;
use std::sync::ledger::Ledger;

impl From<OpeningRefusal> for Status {
    ghost from_gives = { λ refusal status. status ≡ status_of_refusal refusal };

    fn from(refusal: OpeningRefusal) -> Status {
        match refusal {
            OpeningRefusal::Module(_) => Status::ModuleRefused,
            OpeningRefusal::Setup(_) => Status::SetupRefused,
        }
    }
}

/// Writes the line that is due with a status.
fn tell<K: Sink>(out: &mut K, line: &[u8], due: Status) -> Status
    requires count { K.faults out.old < 2 ^ 64 - 1 }
    requires due { due ≢ Status.WriteFault }
    ensures says { (put : List ℕ) × Appends (K.taken out.old) (K.taken out.new) put × SaysLine due line.now result put }
    ensures count { (result ≡ Status.WriteFault) ↔ (K.faults out.old < K.faults out.new) }
    ensures counted { K.faults out.old ≤ K.faults out.new }
{
    match write_all(out, line) {
        Ok(()) => due,
        Err(Failed) => Status::WriteFault,
    }
}

/// Writes the line that tells a refusal.
fn tell_refusal<K: Sink>(alloc: Global, refusal: OpeningRefusal, out: &mut K) -> Status
    requires { K.faults out.old < 2 ^ 64 - 1 }
    ensures says { (put : List ℕ) × Appends (K.taken out.old) (K.taken out.new) put × SaysLine (status_of_refusal refusal) (refusal_line refusal) result put }
    ensures count { (result ≡ Status.WriteFault) ↔ (K.faults out.old < K.faults out.new) }
    ensures counted { K.faults out.old ≤ K.faults out.new }
{
    match format!(in alloc; "{refusal}\n") {
        Ok(line) => tell(out, line.as_bytes(), Status::from(refusal)),
        Err(_) => Status::NoMemory,
    }
}

/// Reads the module, and then the setup.
fn read_pair<F: Files>(
    alloc: Global,
    files: &mut F,
    binary_name: &str,
    setup_name: &str,
) -> Result<(Vec<u8>, Vec<u8>), FileErr>
    requires { F.faults files.old < 2 ^ 64 - 1 }
    ensures pair { IfOk result (λ pair. IsPair (F.contents files.old) (record { binary = binary_name.now; setup = setup_name.now }) pair.0.items pair.1.items) }
    ensures asked { IsOk result → AsksFor (F.asked files.old) (F.asked files.new) (binary_name.now ∷ (setup_name.now ∷ [])) }
    ensures failed { IsErrOf result FileErr.Failed ↔ (F.faults files.old < F.faults files.new) }
    ensures counted { F.faults files.old ≤ F.faults files.new }
    ensures name { IsErrOf result FileErr.Failed → (F.failed_name files.new ≡ binary_name.now) ⊎ (F.failed_name files.new ≡ setup_name.now) }
    ensures says { IfErr result (λ error. SaysUnopened (record { binary = binary_name.now; setup = setup_name.now })
        (library F.contents F.asked F.taken F.failed_name files.old)
        (library F.contents F.asked F.taken F.failed_name files.new) (status_of_file error)) }
{
    let binary = files.read_all(alloc, binary_name, BINARY_LIMIT)?;
    let setup = files.read_all(alloc, setup_name, SETUP_LIMIT)?;
    Ok((binary, setup))
}

/// Reads a module and a setup, and answers the input's lines about them.
fn debug<F: Files, I: Source, K: Sink, L: Ledger>(
    alloc: Global,
    binary_name: &str,
    setup_name: &str,
    files: &mut F,
    input: &mut I,
    out: &mut K,
    kit: Vec<Box<dyn Probe>>,
    steps: &mut Steps<L>,
) -> Status
    requires few { vec_len kit ≤ 16 }
    requires unused { All (λ p. tally p ≡ 0) kit.items }
    requires files { F.faults files.old < 2 ^ 64 - 1 }
    requires input { I.faults input.old < 2 ^ 64 - 1 }
    requires out { K.faults out.old < 2 ^ 64 - 1 }
    ensures debugged { Debugged (map (λ p. Some (test p)) kit.items) (record { binary = binary_name.now; setup = setup_name.now })
        (record { files = library F.contents F.asked F.taken F.failed_name files.old; streams = record { left = I.left input.old; held = K.taken out.old; offers = K.offers out.old; steps = steps.old } })
        (record { files = library F.contents F.asked F.taken F.failed_name files.new; streams = record { left = I.left input.new; held = K.taken out.new; offers = K.offers out.new; steps = steps.new } }) (input.new ≡ input.old) result }
    ensures file_fault { (result ≡ Status.FileFault) ↔ (F.faults files.old < F.faults files.new) }
    ensures file_name { result ≡ Status.FileFault → (F.failed_name files.new ≡ binary_name.now) ⊎ (F.failed_name files.new ≡ setup_name.now) }
    ensures read_fault { (result ≡ Status.ReadFault) ↔ (I.faults input.old < I.faults input.new) }
    ensures write_fault { (result ≡ Status.WriteFault) ↔ (K.faults out.old < K.faults out.new) }
    ensures counted { (F.faults files.old ≤ F.faults files.new) × (I.faults input.old ≤ I.faults input.new) × (K.faults out.old ≤ K.faults out.new) }
    ensures ends { I.ends input.new ≤ I.ends input.old + 1 }
{
    let (binary, setup) = match read_pair(alloc, files, binary_name, setup_name) {
        Ok(pair) => pair,
        Err(error) => return Status::from(error),
    };
    match open_session(alloc, binary, setup, kit) {
        Ok(mut debugging) => run(alloc, &mut debugging, input, out, steps),
        Err(Fail::Refused(refusal)) => tell_refusal(alloc, refusal, out),
        Err(Fail::NoMemory) => Status::NoMemory,
    }
}

/// Writes the line that tells how much an accepted module holds.
fn tell_report<K: Sink>(alloc: Global, report: Report, out: &mut K) -> Status
    requires { K.faults out.old < 2 ^ 64 - 1 }
    ensures says { (put : List ℕ) × Appends (K.taken out.old) (K.taken out.new) put × SaysLine Status.Done (report_line report) result put }
    ensures count { (result ≡ Status.WriteFault) ↔ (K.faults out.old < K.faults out.new) }
    ensures counted { K.faults out.old ≤ K.faults out.new }
{
    match format!(in alloc; "{report}\n") {
        Ok(line) => tell(out, line.as_bytes(), Status::Done),
        Err(_) => Status::NoMemory,
    }
}

/// Reads a module, and tells whether it is accepted.
fn check<F: Files, K: Sink>(alloc: Global, binary_name: &str, files: &mut F, out: &mut K) -> Status
    requires files { F.faults files.old < 2 ^ 64 - 1 }
    requires out { K.faults out.old < 2 ^ 64 - 1 }
    ensures checked { Checked binary_name.now
        (library F.contents F.asked F.taken F.failed_name files.old)
        (library F.contents F.asked F.taken F.failed_name files.new) (K.taken out.old) (K.taken out.new) result }
    ensures file_fault { (result ≡ Status.FileFault) ↔ (F.faults files.old < F.faults files.new) }
    ensures file_name { result ≡ Status.FileFault → F.failed_name files.new ≡ binary_name.now }
    ensures no_read { result ≢ Status.ReadFault }
    ensures write_fault { (result ≡ Status.WriteFault) ↔ (K.faults out.old < K.faults out.new) }
    ensures counted { (F.faults files.old ≤ F.faults files.new) × (K.faults out.old ≤ K.faults out.new) }
{
    let binary = match files.read_all(alloc, binary_name, BINARY_LIMIT) {
        Ok(binary) => binary,
        Err(error) => return Status::from(error),
    };
    match check_bytes(alloc, &binary) {
        Ok(report) => tell_report(alloc, report, out),
        Err(Fail::Refused(refusal)) => tell_refusal(alloc, OpeningRefusal::Module(refusal), out),
        Err(Fail::NoMemory) => Status::NoMemory,
    }
}

/// Reads a module, and writes the listing of its instructions, or the line of its refusal.
fn text<F: Files, K: Sink>(alloc: Global, binary_name: &str, files: &mut F, out: &mut K) -> Status
    requires files { F.faults files.old < 2 ^ 64 - 1 }
    requires out { K.faults out.old < 2 ^ 64 - 1 }
    ensures texted { Texted binary_name.now
        (library F.contents F.asked F.taken F.failed_name files.old)
        (library F.contents F.asked F.taken F.failed_name files.new) (K.taken out.old) (K.taken out.new) result }
    ensures file_fault { (result ≡ Status.FileFault) ↔ (F.faults files.old < F.faults files.new) }
    ensures file_name { result ≡ Status.FileFault → F.failed_name files.new ≡ binary_name.now }
    ensures no_read { result ≢ Status.ReadFault }
    ensures write_fault { (result ≡ Status.WriteFault) ↔ (K.faults out.old < K.faults out.new) }
    ensures counted { (F.faults files.old ≤ F.faults files.new) × (K.faults out.old ≤ K.faults out.new) }
{
    let binary = match files.read_all(alloc, binary_name, BINARY_LIMIT) {
        Ok(binary) => binary,
        Err(error) => return Status::from(error),
    };
    match text_of_bytes(alloc, &binary) {
        Ok(text) => tell(out, text.as_slice(), Status::Done),
        Err(Fail::Refused(refusal)) => tell_refusal(alloc, OpeningRefusal::Module(refusal), out),
        Err(Fail::NoMemory) => Status::NoMemory,
    }
}

/// Writes the line that tells how long made inputs and the transcript of their run are.
fn tell_made<K: Sink>(alloc: Global, report: MadeReport, out: &mut K) -> Status
    requires { K.faults out.old < 2 ^ 64 - 1 }
    ensures says { (put : List ℕ) × Appends (K.taken out.old) (K.taken out.new) put × SaysLine Status.Done (make_line (Ok report)) result put }
    ensures count { (result ≡ Status.WriteFault) ↔ (K.faults out.old < K.faults out.new) }
    ensures counted { K.faults out.old ≤ K.faults out.new }
{
    match format!(in alloc; "{report}\n") {
        Ok(line) => tell(out, line.as_bytes(), Status::Done),
        Err(_) => Status::NoMemory,
    }
}

/// Runs the inputs that are made for a number in memory, with no probes, and tells how long they and the transcript are.
fn make<K: Sink, L: Ledger>(alloc: Global, number: u32, out: &mut K, steps: &mut Steps<L>) -> Status
    requires low { 1 ≤ number }
    requires high { number ≤ 64 }
    requires out { K.faults out.old < 2 ^ 64 - 1 }
    ensures made { Made number (K.taken out.old) (K.taken out.new) steps.old steps.new result }
    ensures no_file { result ≢ Status.FileFault }
    ensures no_read { result ≢ Status.ReadFault }
    ensures count { (result ≡ Status.WriteFault) ↔ (K.faults out.old < K.faults out.new) }
    ensures counted { K.faults out.old ≤ K.faults out.new }
{
    match making(alloc, number, steps) {
        Ok(report) => tell_made(alloc, report, out),
        Err(Fail::Refused(refusal)) => tell_refusal(alloc, refusal, out),
        Err(Fail::NoMemory) => Status::NoMemory,
    }
}

/// Writes the line that says which words there are.
fn tell_usage<K: Sink>(out: &mut K) -> Status
    requires { K.faults out.old < 2 ^ 64 - 1 }
    ensures says { (put : List ℕ) × Appends (K.taken out.old) (K.taken out.new) put × SaysLine Status.Usage usage_line result put }
    ensures count { (result ≡ Status.WriteFault) ↔ (K.faults out.old < K.faults out.new) }
    ensures counted { K.faults out.old ≤ K.faults out.new }
{
    let line = "usage: spvdbg debug MODULE SETUP | check MODULE | make N | text MODULE\n";
    tell(out, line.as_bytes(), Status::Usage)
}

/// Does what was asked for.
fn serve<F: Files, I: Source, K: Sink, L: Ledger>(
    alloc: Global,
    request: Request,
    files: &mut F,
    input: &mut I,
    out: &mut K,
    kit: Vec<Box<dyn Probe>>,
    steps: &mut Steps<L>,
) -> Status
    requires number { CanServe request }
    requires few { vec_len kit ≤ 16 }
    requires unused { All (λ p. tally p ≡ 0) kit.items }
    requires files { F.faults files.old < 2 ^ 64 - 1 }
    requires input { I.faults input.old < 2 ^ 64 - 1 }
    requires out { K.faults out.old < 2 ^ 64 - 1 }
    ensures served { Served (map (λ p. Some (test p)) kit.items) request.entry
        (record { files = library F.contents F.asked F.taken F.failed_name files.old; streams = record { left = I.left input.old; held = K.taken out.old; offers = K.offers out.old; steps = steps.old } })
        (record { files = library F.contents F.asked F.taken F.failed_name files.new; streams = record { left = I.left input.new; held = K.taken out.new; offers = K.offers out.new; steps = steps.new } }) (files.new ≡ files.old) (input.new ≡ input.old) result }
    ensures file_fault { (result ≡ Status.FileFault) ↔ (F.faults files.old < F.faults files.new) }
    ensures file_name { result ≡ Status.FileFault → Reads request.entry (F.failed_name files.new) }
    ensures read_fault { (result ≡ Status.ReadFault) ↔ (I.faults input.old < I.faults input.new) }
    ensures write_fault { (result ≡ Status.WriteFault) ↔ (K.faults out.old < K.faults out.new) }
    ensures counted { (F.faults files.old ≤ F.faults files.new) × (I.faults input.old ≤ I.faults input.new) × (K.faults out.old ≤ K.faults out.new) }
    ensures ends { I.ends input.new ≤ I.ends input.old + 1 }
{
    match request {
        Request::Debug { binary, setup } => {
            debug(alloc, binary, setup, files, input, out, kit, steps)
        }
        Request::Check { binary } => check(alloc, binary, files, out),
        Request::Make { number } => make(alloc, number, out, steps),
        Request::Text { binary } => text(alloc, binary, files, out),
        Request::Help { text } => tell(out, text.as_bytes(), Status::Done),
    }
}

/// Does what the words say: `debug MODULE SETUP` reads the module and the setup, opens the pair, and answers the lines of the
/// input, to its end or to `quit`, with the probes of the kit; `check MODULE` reads the module, and tells whether it is accepted; `make N` runs the inputs
/// that are made for the number, and tells how long they and the transcript are; `text MODULE` reads the module, and writes its
/// listing. The first word is the program's name. Each answer is named by its status.
pub fn debug_main<F: Files, I: Source, K: Sink, L: Ledger>(
    alloc: Global,
    words: &[String],
    files: &mut F,
    input: &mut I,
    out: &mut K,
    kit: Vec<Box<dyn Probe>>,
    steps: &mut Steps<L>,
) -> Status
    requires few { vec_len kit ≤ 16 }
    requires unused { All (λ p. tally p ≡ 0) kit.items }
    requires files { F.faults files.old < 2 ^ 64 - 1 }
    requires input { I.faults input.old < 2 ^ 64 - 1 }
    requires out { K.faults out.old < 2 ^ 64 - 1 }

    // The bytes written are those that are due: the line of the refusal, or the transcript of the whole input.
    ensures headline { (names : PairNames) (m : List ℕ → Option (List ℕ)) (binary setup xs before : List ℕ)
        → debug_names words.now ≡ Some names → F.contents files.old ≡ Some m → m names.binary ≡ Some binary → m names.setup ≡ Some setup
        → length binary ≤ binary_limit → length setup ≤ setup_limit
        → I.left input.old ≡ Some xs → length xs ≤ input_limit → K.taken out.old ≡ Some before
        → F.faults files.new ≡ F.faults files.old → I.faults input.new ≡ I.faults input.old → K.faults out.new ≡ K.faults out.old
        → result ≢ Status.NoMemory
        → (K.taken out.new ≡ Some (before ++ due_text (map (λ p. Some (test p)) kit.items) (opening binary setup) xs)) × (result ≡ due_status (opening binary setup)) }

    // For `check` they are the line that is due for the module: how much it holds, or its refusal.
    ensures check_headline { (name : List ℕ) (m : List ℕ → Option (List ℕ)) (binary before : List ℕ)
        → check_name words.now ≡ Some name → F.contents files.old ≡ Some m → m name ≡ Some binary → length binary ≤ binary_limit
        → K.taken out.old ≡ Some before
        → F.faults files.new ≡ F.faults files.old → K.faults out.new ≡ K.faults out.old → result ≢ Status.NoMemory
        → (K.taken out.new ≡ Some (before ++ check_line (checking binary))) × (result ≡ check_status (checking binary)) }

    // For `text` it is the listing of the module that is due, or its refusal.
    ensures text_headline { (name : List ℕ) (m : List ℕ → Option (List ℕ)) (binary before : List ℕ)
        → text_name words.now ≡ Some name → F.contents files.old ≡ Some m → m name ≡ Some binary → length binary ≤ binary_limit
        → K.taken out.old ≡ Some before
        → F.faults files.new ≡ F.faults files.old → K.faults out.new ≡ K.faults out.old → result ≢ Status.NoMemory
        → (K.taken out.new ≡ Some (before ++ text_line (texting binary))) × (result ≡ text_status (texting binary)) }

    // For `make` it is the line that is due for the number: how long its inputs and their transcript are, or their refusal.
    ensures make_headline { (n : ℕ) (before : List ℕ) → make_number words.now ≡ Some n → K.taken out.old ≡ Some before
        → K.faults out.new ≡ K.faults out.old → result ≢ Status.NoMemory
        → (K.taken out.new ≡ Some (before ++ make_line (making n))) × (result ≡ make_status (making n)) }

    // What each status says, whatever was told and whatever failed.
    ensures debugged { (names : PairNames) → debug_names words.now ≡ Some names
        → Debugged (map (λ p. Some (test p)) kit.items) names
        (record { files = library F.contents F.asked F.taken F.failed_name files.old; streams = record { left = I.left input.old; held = K.taken out.old; offers = K.offers out.old; steps = steps.old } })
        (record { files = library F.contents F.asked F.taken F.failed_name files.new; streams = record { left = I.left input.new; held = K.taken out.new; offers = K.offers out.new; steps = steps.new } }) (input.new ≡ input.old) result }
    ensures checked { (name : List ℕ) → check_name words.now ≡ Some name
        → (input.new ≡ input.old) × (steps.new ≡ steps.old)
        × Checked name
        (library F.contents F.asked F.taken F.failed_name files.old)
        (library F.contents F.asked F.taken F.failed_name files.new) (K.taken out.old) (K.taken out.new) result }
    ensures texted { (name : List ℕ) → text_name words.now ≡ Some name
        → (input.new ≡ input.old) × (steps.new ≡ steps.old)
        × Texted name
        (library F.contents F.asked F.taken F.failed_name files.old)
        (library F.contents F.asked F.taken F.failed_name files.new) (K.taken out.old) (K.taken out.new) result }
    ensures made { (n : ℕ) → make_number words.now ≡ Some n
        → (files.new ≡ files.old) × (input.new ≡ input.old)
        × Made n (K.taken out.old) (K.taken out.new) steps.old steps.new result }
    ensures untaken { are_taken (texts_of words.now) ≡ false
        → (files.new ≡ files.old) × (input.new ≡ input.old) × (steps.new ≡ steps.old)
        × Untaken words.now (K.taken out.old) (K.taken out.new) result }
    ensures usage { result ≡ Status.Usage → AreFaulty words.now }
    // So these are all words there are.
    ensures taken { are_taken (texts_of words.now) ≡ true → result ≢ Status.NoMemory → AskOne words.now }

    // Faults are told exactly where they were counted.
    ensures file_fault { (result ≡ Status.FileFault) ↔ (F.faults files.old < F.faults files.new) }
    ensures file_name { result ≡ Status.FileFault → IsOneOf (debug_names words.now) (F.failed_name files.new)
        ⊎ ((check_name words.now ≡ Some (F.failed_name files.new)) ⊎ (text_name words.now ≡ Some (F.failed_name files.new))) }
    ensures read_fault { (result ≡ Status.ReadFault) ↔ (I.faults input.old < I.faults input.new) }
    ensures write_fault { (result ≡ Status.WriteFault) ↔ (K.faults out.old < K.faults out.new) }
    ensures counted { (F.faults files.old ≤ F.faults files.new) × (I.faults input.old ≤ I.faults input.new) × (K.faults out.old ≤ K.faults out.new) }

    // The input isn't read again once its end was told.
    ensures ends { I.ends input.new ≤ I.ends input.old + 1 }
{
    match read(alloc, words) {
        Ok(request) => serve(alloc, request, files, input, out, kit, steps),
        Err(Fail::Refused(_)) => tell_usage(out),
        Err(Fail::NoMemory) => Status::NoMemory,
    }
}
