//! The lines of commands: what command a line is, and the canonical line of a command.
#![tactic(auto)]

mod arguments;
mod command;
mod keywords;
mod numbers;
mod parsing;
mod paths;
mod places;
mod printing;

pub use command::{BreakPlace, Command, Count, PathPart, PathParts, PathText, Stretch, ValuePath};
pub use keywords::{Keyword, keywords_differ};
pub use numbers::number;
pub use parsing::{built_commands_are_commands, parse, parse_built};
pub use printing::{print, push_path_text, read_again};
