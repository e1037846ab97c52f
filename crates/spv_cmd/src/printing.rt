//! The canonical line of a command.
ghost use Rattle.std.specs.Prelude.{◌≡◌, ◌<◌, ◌≤◌, ◌++◌, ◌∷◌, true, length, decimal, IfOk, OnOk};
ghost use Rattle.spv_base.specs.Answers.{Answers};
ghost use Rattle.spv_cmd.specs.Paths.{is_path, path_text, part_text, parts_text};
ghost use Rattle.spv_cmd.specs.Places.{is_place, place_text};
ghost use Rattle.spv_cmd.specs.Grammar.{spelling, IsLine};
ghost use Rattle.spv_cmd.specs.Lines.{written, HasForm, line_of};

use crate::command::{
    BreakPlace, Command, Count, PathPart, PathParts, PathText, Stretch, ValuePath,
};
use crate::keywords::{Keyword, spelling};
use crate::parsing::parse;
use spv_base::{CmdRefusal, Fail, NoMemory, Text};
use spv_line::push_number;
use std::alloc::Global;

/// The canonical line of a command: its words with one space between them, numbers without leading zeros, and a number
/// that may be left out written out. It has at most 4,096 bytes, and is a line of the command.
#[tactic(auto, using(crate::proofs::LineLemmas::line_again))]
pub fn print(alloc: Global, command: &Command) -> Result<Text, NoMemory>
    ensures text { IfOk result (λ text. text ≡ line_of command.now) }
    ensures line { IfOk result (λ text. IsLine text command.now) }
{
    let mut text = Vec::new(alloc);
    push_command(alloc, &mut text, command)?;
    Ok(Text::from_vec(text))
}

/// What is printed is read as the same command.
pub fn read_again(alloc: Global, command: &Command) -> Result<Command, Fail<CmdRefusal>>
    ensures { Answers (Ok command.now) result }
{
    let text = print(alloc, command)?;
    parse(alloc, text.as_slice())
}

/// Appends the line of a command.
fn push_command(alloc: Global, text: &mut Vec<u8>, command: &Command) -> Result<(), NoMemory>
    ensures text { OnOk result (text.new.items ≡ text.old.items ++ line_of command.now) }
    ensures form { HasForm (written command.now) }
{
    match command {
        Command::Empty => Ok(()),
        Command::Goto(n) => push_keyword_number(alloc, text, Keyword::Goto, *n),
        Command::Fwd(n) => push_count(alloc, text, Keyword::Fwd, *n),
        Command::Back(n) => push_count(alloc, text, Keyword::Back, *n),
        Command::Stepi(n) => push_count(alloc, text, Keyword::Stepi, *n),
        Command::Rstepi(n) => push_count(alloc, text, Keyword::Rstepi, *n),
        Command::Step => push_word(text, Keyword::Step),
        Command::Next => push_word(text, Keyword::Next),
        Command::Finish => push_word(text, Keyword::Finish),
        Command::Rstep => push_word(text, Keyword::Rstep),
        Command::Rnext => push_word(text, Keyword::Rnext),
        Command::Rfinish => push_word(text, Keyword::Rfinish),
        Command::Continue => push_word(text, Keyword::Continue),
        Command::Rcontinue => push_word(text, Keyword::Rcontinue),
        Command::Place => push_word(text, Keyword::Where),
        Command::Group => push_word(text, Keyword::Group),
        Command::Focus(n) => push_keyword_number(alloc, text, Keyword::Focus, *n),
        Command::Bt => push_word(text, Keyword::Bt),
        Command::Frame(n) => push_keyword_number(alloc, text, Keyword::Frame, *n),
        Command::Locals => push_word(text, Keyword::Locals),
        Command::Globals => push_word(text, Keyword::Globals),
        Command::Print(path) => push_path(alloc, text, Keyword::Print, path),
        Command::Regs => push_word(text, Keyword::Regs),
        Command::List => push_word(text, Keyword::List),
        Command::Break(place) => push_place(alloc, text, Keyword::Break, place),
        Command::Delete(n) => push_keyword_number(alloc, text, Keyword::Delete, *n),
        Command::Watch(path) => push_path(alloc, text, Keyword::Watch, path),
        Command::Unwatch(n) => push_keyword_number(alloc, text, Keyword::Unwatch, *n),
        Command::Info => push_word(text, Keyword::Info),
        Command::Tally => push_word(text, Keyword::Tally),
        Command::DropProbe(n) => push_keyword_number(alloc, text, Keyword::Drop, *n),
        Command::Halt { k, n } => push_numbers(alloc, text, Keyword::Halt, *k, *n),
        Command::Order(stretch) => push_stretch(alloc, text, Keyword::Order, *stretch),
        Command::Quit => push_word(text, Keyword::Quit),
    }
}

/// Appends a keyword.
fn push_word(text: &mut Vec<u8>, keyword: Keyword) -> Result<(), NoMemory>
    ensures { OnOk result (text.new.items ≡ text.old.items ++ spelling keyword) }
{
    text.extend_from_slice(spelling(keyword))?;
    Ok(())
}

/// Appends a keyword and a number.
fn push_keyword_number(
    alloc: Global,
    text: &mut Vec<u8>,
    keyword: Keyword,
    number: u32,
) -> Result<(), NoMemory>
    ensures text { OnOk result (text.new.items ≡ text.old.items ++ (spelling keyword ++ 32 ∷ decimal number)) }
    ensures range { number ≤ 4294967295 }
{
    text.extend_from_slice(spelling(keyword))?;
    text.extend_from_slice(b" ")?;
    push_number(alloc, text, u64::from(number))
}

/// Appends a keyword and a number of at least 1.
fn push_count(
    alloc: Global,
    text: &mut Vec<u8>,
    keyword: Keyword,
    count: Count,
) -> Result<(), NoMemory>
    ensures text { OnOk result (text.new.items ≡ text.old.items ++ (spelling keyword ++ 32 ∷ decimal count)) }
    ensures least { 1 ≤ count }
    ensures range { count ≤ 4294967295 }
{
    push_keyword_number(alloc, text, keyword, count.get())
}

/// Appends a keyword, a number, and one of at least 1.
fn push_numbers(
    alloc: Global,
    text: &mut Vec<u8>,
    keyword: Keyword,
    number: u32,
    count: Count,
) -> Result<(), NoMemory>
    ensures text { OnOk result (text.new.items ≡ text.old.items ++ (spelling keyword ++ 32 ∷ (decimal number ++ 32 ∷ decimal count))) }
    ensures number { number ≤ 4294967295 }
    ensures least { 1 ≤ count }
    ensures range { count ≤ 4294967295 }
{
    push_keyword_number(alloc, text, keyword, number)?;
    text.extend_from_slice(b" ")?;
    push_number(alloc, text, u64::from(count.get()))
}

/// Appends a keyword, and the two numbers of a stretch.
fn push_stretch(
    alloc: Global,
    text: &mut Vec<u8>,
    keyword: Keyword,
    stretch: Stretch,
) -> Result<(), NoMemory>
    ensures text { OnOk result (text.new.items ≡ text.old.items ++ (spelling keyword ++ 32 ∷ (decimal stretch.0 ++ 32 ∷ decimal stretch.1))) }
    ensures some { stretch.0 < stretch.1 }
    ensures range { stretch.1 ≤ 4294967295 }
{
    let end = stretch.end();
    push_keyword_number(alloc, text, keyword, stretch.start())?;
    text.extend_from_slice(b" ")?;
    push_number(alloc, text, u64::from(end))
}

/// Appends a part of a path.
fn push_part(alloc: Global, text: &mut Vec<u8>, part: &PathPart) -> Result<(), NoMemory>
    ensures { OnOk result (text.new.items ≡ text.old.items ++ part_text part.now) }
{
    match part {
        PathPart::Member(name) => {
            text.extend_from_slice(b".")?;
            text.extend_from_slice(name.as_slice())?;
            Ok(())
        }
        PathPart::Index(n) => {
            text.extend_from_slice(b"[")?;
            push_number(alloc, text, u64::from(*n))?;
            text.extend_from_slice(b"]")?;
            Ok(())
        }
    }
}

/// Appends the parts of a path.
fn push_parts(alloc: Global, text: &mut Vec<u8>, parts: &PathParts) -> Result<(), NoMemory>
    ensures { OnOk result (text.new.items ≡ text.old.items ++ parts_text parts.now) }
{
    for part in parts.as_slice() {
        push_part(alloc, text, part)?;
    }
    Ok(())
}

/// Appends the text of a path.
pub fn push_path_text(alloc: Global, text: &mut Vec<u8>, path: &PathText) -> Result<(), NoMemory>
    ensures { OnOk result (text.new.items ≡ text.old.items ++ path_text path.now) }
{
    match path {
        PathText::Name { name, parts } => {
            text.extend_from_slice(name.as_slice())?;
            push_parts(alloc, text, parts)
        }
        PathText::Id(id) => {
            text.extend_from_slice(b"%")?;
            push_number(alloc, text, u64::from(*id))
        }
    }
}

/// Appends a keyword and a path.
fn push_path(
    alloc: Global,
    text: &mut Vec<u8>,
    keyword: Keyword,
    path: &ValuePath,
) -> Result<(), NoMemory>
    ensures text { OnOk result (text.new.items ≡ text.old.items ++ (spelling keyword ++ 32 ∷ path_text path.now)) }
    ensures form { is_path path.now ≡ true }
    ensures short { length (path_text path.now) ≤ 4090 }
{
    let path = path.text();
    text.extend_from_slice(spelling(keyword))?;
    text.extend_from_slice(b" ")?;
    push_path_text(alloc, text, path)
}

/// Appends the text of a line of a source file.
fn push_place_text(alloc: Global, text: &mut Vec<u8>, place: &BreakPlace) -> Result<(), NoMemory>
    ensures { OnOk result (text.new.items ≡ text.old.items ++ place_text place.now) }
{
    if let Some(file) = place.file() {
        text.extend_from_slice(file.as_slice())?;
        text.extend_from_slice(b":")?;
    }
    push_number(alloc, text, u64::from(place.line()))
}

/// Appends a keyword and a line of a source file.
fn push_place(
    alloc: Global,
    text: &mut Vec<u8>,
    keyword: Keyword,
    place: &BreakPlace,
) -> Result<(), NoMemory>
    ensures text { OnOk result (text.new.items ≡ text.old.items ++ (spelling keyword ++ 32 ∷ place_text place.now)) }
    ensures form { is_place place.now ≡ true }
    ensures short { length (place_text place.now) ≤ 4090 }
{
    let _line = place.line();
    let _file = place.file();
    text.extend_from_slice(spelling(keyword))?;
    text.extend_from_slice(b" ")?;
    push_place_text(alloc, text, place)
}
