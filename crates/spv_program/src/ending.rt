//! How a call of the program ends.
ghost use Rattle.std.specs.Prelude.{◌≡◌, ◌≢◌, ◌↔◌, ◌<◌, ◌≤◌, ◌-◌, ◌^◌, All, IfOk, List, ℕ, Option, Some, length, vec_len};
ghost use Rattle.std.specs.Process.{exit_status};
ghost use Rattle.spv_app.specs.Checking.{checking, check_status};
ghost use Rattle.spv_arguments.specs.Requests.{PairNames, check_name, debug_names, make_number, text_name};
ghost use Rattle.spv_app.specs.Making.{make_status, making};
ghost use Rattle.spv_app.specs.Debug.{due_status};
ghost use Rattle.spv_app.specs.Limits.{binary_limit, setup_limit};
ghost use Rattle.spv_app.specs.Opening.{opening};
ghost use Rattle.spv_app.specs.Texting.{texting, text_status};
ghost use Rattle.spv_app.specs.Statuses.{input_limit, status_number};

use spv_app::{Status, debug_main};
use spv_base::{Files, NoMemory, Probe, Sink, Source, Steps};
use spv_probe::{Barriers, Lines, Stores};
use std::alloc::Global;
use std::process::ExitCode;
use std::sync::ledger::Ledger;

/// How a call ends: its status, and the code that the process ends with.
#[derive(Clone, Copy)]
pub struct Ending {
    pub status: Status,
    pub code: ExitCode,
}

/// The code for a status: its number.
pub fn exit_code(status: Status) -> ExitCode
    ensures { exit_status result ≡ status_number status }
{
    ExitCode::from(status.number())
}

/// A call for which there was no memory.
fn out_of_memory() -> Ending
    ensures status { result.status ≡ Status.NoMemory }
    ensures code { exit_status result.code ≡ 8 }
{
    let status = Status::NoMemory;
    Ending {
        status,
        code: exit_code(status),
    }
}

/// A kit of three probes that have counted nothing.
fn kit_of(
    alloc: Global,
    first: Box<dyn Probe>,
    second: Box<dyn Probe>,
    third: Box<dyn Probe>,
) -> Result<Vec<Box<dyn Probe>>, NoMemory>
    requires first { tally first ≡ 0 }
    requires second { tally second ≡ 0 }
    requires third { tally third ≡ 0 }
    ensures few { IfOk result (λ kit. vec_len kit ≤ 16) }
    ensures unused { IfOk result (λ kit. All (λ p. tally p ≡ 0) kit.items) }
{
    let mut kit = Vec::with_capacity(alloc, 3)?;
    kit.push(first)?;
    kit.push(second)?;
    kit.push(third)?;
    Ok(kit)
}

/// Does what the words say, with three probes: of stores, of lines and of barriers. The code tells how the call ended.
pub fn end<F: Files, I: Source, K: Sink, L: Ledger>(
    alloc: Global,
    words: &[String],
    files: &mut F,
    input: &mut I,
    out: &mut K,
    steps: &mut Steps<L>,
) -> Ending
    requires files { F.faults files.old < 2 ^ 64 - 1 }
    requires input { I.faults input.old < 2 ^ 64 - 1 }
    requires out { K.faults out.old < 2 ^ 64 - 1 }
    ensures code { exit_status result.code ≡ status_number result.status }

    // The numbers of FileFault, ReadFault and WriteFault come exactly where a file, the input or the output failed.
    ensures file_fault { (exit_status result.code ≡ 5) ↔ (F.faults files.old < F.faults files.new) }
    ensures read_fault { (exit_status result.code ≡ 6) ↔ (I.faults input.old < I.faults input.new) }
    ensures write_fault { (exit_status result.code ≡ 7) ↔ (K.faults out.old < K.faults out.new) }

    // Where nothing fails and memory suffices, the number is the one that is due for the files, or for the number.
    ensures debugged { (names : PairNames) (m : List ℕ → Option (List ℕ)) (binary setup xs before : List ℕ)
        → debug_names words.now ≡ Some names → F.contents files.old ≡ Some m → m names.binary ≡ Some binary → m names.setup ≡ Some setup
        → length binary ≤ binary_limit → length setup ≤ setup_limit
        → I.left input.old ≡ Some xs → length xs ≤ input_limit → K.taken out.old ≡ Some before
        → F.faults files.new ≡ F.faults files.old → I.faults input.new ≡ I.faults input.old → K.faults out.new ≡ K.faults out.old
        → result.status ≢ Status.NoMemory
        → exit_status result.code ≡ status_number (due_status (opening binary setup)) }
    ensures checked { (name : List ℕ) (m : List ℕ → Option (List ℕ)) (binary before : List ℕ)
        → check_name words.now ≡ Some name → F.contents files.old ≡ Some m → m name ≡ Some binary → length binary ≤ binary_limit
        → K.taken out.old ≡ Some before
        → F.faults files.new ≡ F.faults files.old → K.faults out.new ≡ K.faults out.old → result.status ≢ Status.NoMemory
        → exit_status result.code ≡ status_number (check_status (checking binary)) }
    ensures texted { (name : List ℕ) (m : List ℕ → Option (List ℕ)) (binary before : List ℕ)
        → text_name words.now ≡ Some name → F.contents files.old ≡ Some m → m name ≡ Some binary → length binary ≤ binary_limit
        → K.taken out.old ≡ Some before
        → F.faults files.new ≡ F.faults files.old → K.faults out.new ≡ K.faults out.old → result.status ≢ Status.NoMemory
        → exit_status result.code ≡ status_number (text_status (texting binary)) }
    ensures made { (n : ℕ) (before : List ℕ) → make_number words.now ≡ Some n → K.taken out.old ≡ Some before
        → K.faults out.new ≡ K.faults out.old → result.status ≢ Status.NoMemory
        → exit_status result.code ≡ status_number (make_status (making n)) }
{
    let no_memory = out_of_memory();
    let Ok(stores) = Box::new(alloc, Stores::new(None)) else {
        return no_memory;
    };
    let Ok(lines) = Box::new(alloc, Lines::new(None)) else {
        return no_memory;
    };
    let Ok(barriers) = Box::new(alloc, Barriers::new()) else {
        return no_memory;
    };
    let Ok(kit) = kit_of(alloc, stores, lines, barriers) else {
        return no_memory;
    };
    let status = debug_main(alloc, words, files, input, out, kit, steps);
    Ending {
        status,
        code: exit_code(status),
    }
}
