//! The command line of the program, as a command of `clap`.
ghost use Rattle.std.specs.Prelude.{◌≡◌, IfOk, false};
ghost use Rattle.clap.specs.Words.{app_of, rule_of};
ghost use Rattle.clap.specs.declared.builder.command.Command.TheViews.{out-Command};
ghost use Rattle.spv_arguments.specs.CommandLine.{required, required_number, with_one, debug_command, check_command, make_command, text_command, spvdbg};

use clap::{Arg, Command, value_parser};
use std::alloc::{AllocError, Global};

/// A positional that has to be there.
fn required<'a>(alloc: Global, name: &'a str) -> Arg<'a>
    ensures rule { rule_of result ≡ required name.entry.now }
    ensures local { result.global ≡ false }
{
    Arg::new(alloc, name).required(true)
}

/// One that is a number from 1 to 64.
fn required_number<'a>(alloc: Global, name: &'a str) -> Arg<'a>
    ensures rule { rule_of result ≡ required_number name.entry.now }
    ensures local { result.global ≡ false }
{
    required(alloc, name).value_parser(value_parser!(u32).range(1..=64))
}

/// A subcommand with one positional.
fn with_one<'a>(alloc: Global, name: &'a str, arg: Arg<'a>) -> Result<Command<'a>, AllocError>
    requires { arg.global ≡ false }
    ensures app { IfOk result (λ c. app_of c ≡ with_one name.entry.now (rule_of arg.entry)) }
    ensures local { IfOk result (λ c. (out-Command c).has_globals ≡ false) }
{
    Command::new(alloc, name).arg(arg)
}

/// `debug MODULE SETUP`.
fn debug_command<'a>(alloc: Global) -> Result<Command<'a>, AllocError>
    ensures app { IfOk result (λ c. app_of c ≡ debug_command) }
    ensures local { IfOk result (λ c. (out-Command c).has_globals ≡ false) }
{
    with_one(alloc, "debug", required(alloc, "MODULE"))?.arg(required(alloc, "SETUP"))
}

/// `check MODULE`.
fn check_command<'a>(alloc: Global) -> Result<Command<'a>, AllocError>
    ensures app { IfOk result (λ c. app_of c ≡ check_command) }
    ensures local { IfOk result (λ c. (out-Command c).has_globals ≡ false) }
{
    with_one(alloc, "check", required(alloc, "MODULE"))
}

/// `make N`.
fn make_command<'a>(alloc: Global) -> Result<Command<'a>, AllocError>
    ensures app { IfOk result (λ c. app_of c ≡ make_command) }
    ensures local { IfOk result (λ c. (out-Command c).has_globals ≡ false) }
{
    with_one(alloc, "make", required_number(alloc, "N"))
}

/// `text MODULE`.
fn text_command<'a>(alloc: Global) -> Result<Command<'a>, AllocError>
    ensures app { IfOk result (λ c. app_of c ≡ text_command) }
    ensures local { IfOk result (λ c. (out-Command c).has_globals ≡ false) }
{
    with_one(alloc, "text", required(alloc, "MODULE"))
}

/// The command line: one of these subcommands.
pub fn command<'a>(alloc: Global) -> Result<Command<'a>, AllocError>
    ensures { IfOk result (λ c. app_of c ≡ spvdbg) }
{
    Command::new(alloc, "spvdbg")
        .subcommand_required(true)
        .subcommand(debug_command(alloc)?)?
        .subcommand(check_command(alloc)?)?
        .subcommand(make_command(alloc)?)?
        .subcommand(text_command(alloc)?)
}
