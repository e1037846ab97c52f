//! The command that a line is.
ghost use Rattle.std.specs.Prelude.{◌≡◌, ◌<◌, ◌+◌, ◌⊎◌, ℕ, List, length, Result, Ok, MatchOption, MatchResult};
ghost use Rattle.spv_base.specs.Answers.{Answers};
ghost use Rattle.spv_base.specs.declared.causes.CmdRefusal.{CmdRefusal};
ghost use Rattle.spv_cmd.specs.declared.command.Command.{Command as AnyCommand};
ghost use Rattle.spv_line.specs.Words.{words_in};
ghost use Rattle.spv_cmd.specs.Commands.{command_of, refused, IsUnknown};
ghost use Rattle.spv_cmd.specs.Grammar.{row, spelling, is_built, Means, IsLine};
ghost use Rattle.spv_cmd.specs.Answers.{Reads, IsDue, IsAnswer, IsRefused, IsFirstRefused, IsBlank, IsSplit};

use crate::arguments::{count, halt, none, number, path, place, positive, stretch};
use crate::command::Command;
use crate::keywords::{Keyword, find_keyword};
use spv_base::{CmdRefusal, Fail};
use spv_line::next_word;
use std::alloc::Global;

/// No command has this word.
const UNKNOWN_COMMAND: CmdRefusal = CmdRefusal { code: 1 };

/// How many bytes a line may have.
const LONGEST_LINE: usize = 4096;

/// The line has more than 4,096 bytes.
const LINE_TOO_LONG: CmdRefusal = CmdRefusal { code: 11 };

/// What a line begins with: the keyword that its first word is, whether its command is built, and what stands behind it. A line
/// without words has none.
fn split(line: &[u8]) -> Result<Option<(Keyword, bool, &[u8])>, CmdRefusal>
    ensures { MatchResult result
        (λ first. MatchOption first (IsBlank line.now) (λ parts. IsSplit line.now parts.0 parts.2.now × (parts.1 ≡ is_built (spelling parts.0))))
        (λ refusal. IsFirstRefused line.now refusal.code) }
{
    if line.len() > LONGEST_LINE {
        return Err(LINE_TOO_LONG);
    }
    match next_word(line) {
        None => Ok(None),
        Some((word, arguments)) => match find_keyword(word) {
            None => Err(UNKNOWN_COMMAND),
            Some((keyword, built)) => Ok(Some((keyword, built, arguments))),
        },
    }
}

/// The command that a line is, of all that the grammar has. A line is refused that has more than 4,096 bytes (C11), whose first
/// word is no command's (C1), or whose other words aren't the command's arguments (C2).
pub fn parse(alloc: Global, line: &[u8]) -> Result<Command, Fail<CmdRefusal>>
    ensures due { IsAnswer line.now result }
    ensures answered { (due : Result AnyCommand CmdRefusal) → IsDue line.now due → Answers due result }
{
    match split(line)? {
        None => Ok(Command::Empty),
        Some((keyword, _, arguments)) => command(alloc, keyword, arguments),
    }
}

/// The command that a line is, of those that are built: the first word of another is refused (C1), whatever follows it.
pub fn parse_built(alloc: Global, line: &[u8]) -> Result<Command, Fail<CmdRefusal>>
    ensures { Answers (command_of line.now) result }
{
    match split(line)? {
        None => Ok(Command::Empty),
        Some((keyword, built, arguments)) => {
            if !built {
                return Err(Fail::Refused(UNKNOWN_COMMAND));
            }
            command(alloc, keyword, arguments)
        }
    }
}

/// The commands that are built are those of the grammar. A line is refused as the grammar refuses it, but that its first word is
/// unknown (C1) where its command isn't built, whatever follows it.
pub fn built_commands_are_commands()
    ensures command { (line : List ℕ) (command : AnyCommand) → command_of line ≡ Ok command → IsLine line command }
    ensures line { (line : List ℕ) (command : AnyCommand) → IsLine line command → ¬ IsUnknown line → command_of line ≡ Ok command }
    ensures refused { (line : List ℕ) (code : ℕ) → command_of line ≡ refused code → ((code ≡ 1) × IsUnknown line) ⊎ IsRefused line code }
    ensures unknown { (line : List ℕ) → IsUnknown line → command_of line ≡ refused 1 }
{}

/// The command with this keyword and these arguments.
fn command(alloc: Global, keyword: Keyword, arguments: &[u8]) -> Result<Command, Fail<CmdRefusal>>
    requires { 0 < length arguments.now → length (spelling keyword) + length arguments.now < 4096 }
    ensures { Reads (Means (row keyword).1 (words_in arguments.now)) result }
{
    match keyword {
        Keyword::Goto => Ok(Command::Goto(number(arguments)?)),
        Keyword::Fwd => Ok(Command::Fwd(positive(arguments)?)),
        Keyword::Back => Ok(Command::Back(positive(arguments)?)),
        Keyword::Stepi => Ok(Command::Stepi(count(arguments)?)),
        Keyword::Rstepi => Ok(Command::Rstepi(count(arguments)?)),
        Keyword::Step => none(arguments, Command::Step),
        Keyword::Next => none(arguments, Command::Next),
        Keyword::Finish => none(arguments, Command::Finish),
        Keyword::Rstep => none(arguments, Command::Rstep),
        Keyword::Rnext => none(arguments, Command::Rnext),
        Keyword::Rfinish => none(arguments, Command::Rfinish),
        Keyword::Continue => none(arguments, Command::Continue),
        Keyword::Rcontinue => none(arguments, Command::Rcontinue),
        Keyword::Where => none(arguments, Command::Place),
        Keyword::Group => none(arguments, Command::Group),
        Keyword::Focus => Ok(Command::Focus(number(arguments)?)),
        Keyword::Bt => none(arguments, Command::Bt),
        Keyword::Frame => Ok(Command::Frame(number(arguments)?)),
        Keyword::Locals => none(arguments, Command::Locals),
        Keyword::Globals => none(arguments, Command::Globals),
        Keyword::Print => Ok(Command::Print(path(alloc, arguments)?)),
        Keyword::Regs => none(arguments, Command::Regs),
        Keyword::List => none(arguments, Command::List),
        Keyword::Break => Ok(Command::Break(place(alloc, arguments)?)),
        Keyword::Delete => Ok(Command::Delete(number(arguments)?)),
        Keyword::Watch => Ok(Command::Watch(path(alloc, arguments)?)),
        Keyword::Unwatch => Ok(Command::Unwatch(number(arguments)?)),
        Keyword::Info => none(arguments, Command::Info),
        Keyword::Tally => none(arguments, Command::Tally),
        Keyword::Drop => Ok(Command::DropProbe(number(arguments)?)),
        Keyword::Halt => halt(arguments),
        Keyword::Order => Ok(Command::Order(stretch(arguments)?)),
        Keyword::Quit => none(arguments, Command::Quit),
    }
}
