//! What stands after a command's word.
ghost use Rattle.std.specs.Prelude.{◌≤◌, length};
ghost use Rattle.spv_line.specs.Words.{words_in};
ghost use Rattle.spv_cmd.specs.Paths.{IsPath};
ghost use Rattle.spv_cmd.specs.Places.{IsPlace};
ghost use Rattle.spv_cmd.specs.Grammar.{IsOne, IsNumber, IsPositive, IsCount, IsStretch, Means};
ghost use Rattle.spv_cmd.specs.Grammar.Arguments.{none, numbers};
ghost use Rattle.spv_cmd.specs.declared.command.Command.TheVariants.{Halt};
ghost use Rattle.spv_cmd.specs.Answers.{Reads};

use crate::command::{BreakPlace, Command, Count, Stretch, ValuePath};
use crate::numbers;
use spv_base::{CmdRefusal, Fail};
use spv_line::{next_word, only_word};
use std::alloc::Global;

/// The arguments aren't the command's.
pub const WRONG_ARGUMENTS: Fail<CmdRefusal> = Fail::Refused(CmdRefusal { code: 2 });

/// A command that takes no arguments.
pub fn none(arguments: &[u8], command: Command) -> Result<Command, Fail<CmdRefusal>>
    ensures { Reads (Means (none command) (words_in arguments.now)) result }
{
    match next_word(arguments) {
        None => Ok(command),
        Some(_) => Err(WRONG_ARGUMENTS),
    }
}

/// A number.
#[tactic(auto, using(crate::proofs::GrammarLemmas::not_one, crate::proofs::GrammarLemmas::not_so))]
pub fn number(arguments: &[u8]) -> Result<u32, Fail<CmdRefusal>>
    ensures { Reads (IsNumber (words_in arguments.now)) result }
{
    match only_word(arguments) {
        None => Err(WRONG_ARGUMENTS),
        Some(word) => numbers::number(word).ok_or(WRONG_ARGUMENTS),
    }
}

/// A number of at least 1.
pub fn positive(arguments: &[u8]) -> Result<Count, Fail<CmdRefusal>>
    ensures { Reads (IsPositive (words_in arguments.now)) result }
{
    let number = number(arguments)?;
    if number == 0 {
        return Err(WRONG_ARGUMENTS);
    }
    Ok(Count::new(number))
}

/// A number of at least 1, or nothing, which means 1.
pub fn count(arguments: &[u8]) -> Result<Count, Fail<CmdRefusal>>
    ensures { Reads (IsCount (words_in arguments.now)) result }
{
    if next_word(arguments).is_none() {
        return Ok(Count::new(1));
    }
    positive(arguments)
}

/// The number of a probe, and one of at least 1: when it stops a run.
pub fn halt(arguments: &[u8]) -> Result<Command, Fail<CmdRefusal>>
    ensures { Reads (Means (numbers Halt) (words_in arguments.now)) result }
{
    let Some((word, rest)) = next_word(arguments) else {
        return Err(WRONG_ARGUMENTS);
    };
    let Some(k) = numbers::number(word) else {
        return Err(WRONG_ARGUMENTS);
    };
    let n = positive(rest)?;
    Ok(Command::Halt { k, n })
}

/// Two numbers, the first below the second.
pub fn stretch(arguments: &[u8]) -> Result<Stretch, Fail<CmdRefusal>>
    ensures { Reads (IsStretch (words_in arguments.now)) result }
{
    let Some((word, rest)) = next_word(arguments) else {
        return Err(WRONG_ARGUMENTS);
    };
    let Some(start) = numbers::number(word) else {
        return Err(WRONG_ARGUMENTS);
    };
    let end = number(rest)?;
    if start >= end {
        return Err(WRONG_ARGUMENTS);
    }
    Ok(Stretch::new(start, end))
}

/// A path.
#[tactic(auto, using(crate::proofs::GrammarLemmas::not_one, crate::proofs::GrammarLemmas::not_so))]
pub fn path(alloc: Global, arguments: &[u8]) -> Result<ValuePath, Fail<CmdRefusal>>
    requires { length arguments.now ≤ 4090 }
    ensures { Reads (λ path. IsOne (IsPath path) (words_in arguments.now)) result }
{
    match only_word(arguments) {
        None => Err(WRONG_ARGUMENTS),
        Some(word) => ValuePath::read(alloc, word),
    }
}

/// A line of a source file.
#[tactic(auto, using(crate::proofs::GrammarLemmas::not_one, crate::proofs::GrammarLemmas::not_so))]
pub fn place(alloc: Global, arguments: &[u8]) -> Result<BreakPlace, Fail<CmdRefusal>>
    requires { length arguments.now ≤ 4090 }
    ensures { Reads (λ place. IsOne (IsPlace place) (words_in arguments.now)) result }
{
    match only_word(arguments) {
        None => Err(WRONG_ARGUMENTS),
        Some(word) => BreakPlace::read(alloc, word),
    }
}
