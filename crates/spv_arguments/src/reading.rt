//! The words of the command line are read.
ghost use Rattle.std.specs.Prelude.{◌≡◌, ◌≢◌, IfOk, Err, MatchOption};
ghost use Rattle.clap.specs.Values.{kind_of};
ghost use Rattle.clap.specs.Words.{subcommand_rows_of};
ghost use Rattle.spv_base.specs.declared.causes.Fail.TheVariants.{Refused};
ghost use Rattle.spv_arguments.specs.Requests.{Ask, AreFaulty, IsFound, IsHelp, IsIn};

use crate::command::command;
use crate::request::{FaultyWords, Request};
use clap::ArgMatches;
use clap::error::{Error, ErrorKind};
use spv_base::Fail;
use std::alloc::Global;

/// What the matches ask for, where they are those of a command line that `clap` takes.
fn request_in<'a>(matches: &ArgMatches<'a>) -> Option<Request<'a>>
    requires { IsFound (subcommand_rows_of matches.now) }
    ensures { MatchOption result ⊥ (IsIn (subcommand_rows_of matches.now)) }
{
    let (command, arguments) = matches.subcommand()?;
    if command == "debug" {
        return Some(Request::Debug {
            binary: arguments.get_str("MODULE")?,
            setup: arguments.get_str("SETUP")?,
        });
    }
    if command == "check" {
        return Some(Request::Check {
            binary: arguments.get_str("MODULE")?,
        });
    }
    if command == "make" {
        return Some(Request::Make {
            number: arguments.get_one::<u32>("N")?,
        });
    }
    if command == "text" {
        return Some(Request::Text {
            binary: arguments.get_str("MODULE")?,
        });
    }
    None
}

/// What is told of words that `clap` doesn't take: the text of help, where they ask for it.
fn help<'a>(alloc: Global, error: &Error) -> Result<Request<'a>, Fail<FaultyWords>>
    ensures asked { IfOk result (λ request. IsHelp request × (kind_of error.now ≡ ErrorKind.DisplayHelp)) }
    ensures faulty { (refusal : _) → result ≡ Err (Refused refusal) → (kind_of error.now ≢ ErrorKind.DisplayHelp) × (kind_of error.now ≢ ErrorKind.OutOfMemory) }
{
    match error.kind() {
        ErrorKind::OutOfMemory => Err(Fail::NoMemory),
        ErrorKind::DisplayHelp => Ok(Request::Help {
            text: format!(in alloc; "{error}")?,
        }),
        _ => Err(Fail::Refused(FaultyWords)),
    }
}

/// What the words of the command line ask for. The first of them is the program's name. Which of them are taken, and what is found in them,
/// is what `clap` says of this command line; words that it doesn't take ask for help or are faulty, as it says too.
pub fn read<'a>(alloc: Global, words: &'a [String]) -> Result<Request<'a>, Fail<FaultyWords>>
    ensures asked { IfOk result (Ask words.now) }
    ensures faulty { (refusal : _) → result ≡ Err (Refused refusal) → AreFaulty words.now }
{
    match command(alloc)?.try_get_matches_from(words) {
        Ok(matches) => match request_in(&matches) {
            Some(request) => Ok(request),
            None => unreachable!(),
        },
        Err(error) => help(alloc, &error),
    }
}
