//! The commands.
use crate::paths::path;
use crate::places::place;
use spv_base::{Bytes, CmdRefusal, Fail, Items};
use std::alloc::Global;
use std::marker::Model;

/// A number of at least 1.
#[derive(Clone, Copy)]
pub struct Count {
    number: u32,
}

impl Model for Count {
    ghost use Rattle.std.specs.Prelude.{ℕ, ◌≤◌};

    ghost Value = { ℕ };

    ghost view = { λ c. c.number };

    ghost invariant = { λ c. 1 ≤ c.number };

    ghost inverse = { λ n. record { number = n } };
}

impl Count {
    ghost use Rattle.std.specs.Prelude.{◌≡◌, ◌≤◌};

    /// This number.
    pub fn new(number: u32) -> Count
        requires { 1 ≤ number }
        ensures { result ≡ number }
    {
        Count { number }
    }

    /// The number, at least 1.
    pub fn get(self) -> u32
        ensures number { result ≡ self }
        ensures least { 1 ≤ result }
    {
        self.number
    }
}

/// The events of a run from a number on, before a greater one.
#[derive(Clone, Copy)]
pub struct Stretch {
    start: u32,
    end: u32,
}

impl Model for Stretch {
    ghost use Rattle.std.specs.Prelude.{ℕ, ◌<◌};

    ghost Value = { ℕ × ℕ };

    ghost view = { λ s. (s.start, s.end) };

    ghost invariant = { λ s. s.start < s.end };

    ghost inverse = { λ p. record { start = p.0; end = p.1 } };
}

impl Stretch {
    ghost use Rattle.std.specs.Prelude.{◌≡◌, ◌<◌, ◌≤◌};

    /// The events from `start` on, before `end`.
    pub fn new(start: u32, end: u32) -> Stretch
        requires { start < end }
        ensures { result ≡ (start, end) }
    {
        Stretch { start, end }
    }

    /// The number of the first event.
    pub fn start(self) -> u32
        ensures number { result ≡ self.0 }
        ensures some { self.0 < self.1 }
    {
        self.start
    }

    /// The number behind that of the last event.
    pub fn end(self) -> u32
        ensures number { result ≡ self.1 }
        ensures range { self.1 ≤ 4294967295 }
    {
        self.end
    }
}

/// A part of a path: `.member` or `[index]`.
#[derive(Drop)]
pub enum PathPart {
    /// `.member`: the name of a member.
    Member(Bytes),
    /// `[index]`: the number of an element.
    Index(u32),
}

/// The parts of a path, the outermost first.
pub type PathParts = Items<PathPart>;

/// What a path names: a variable or a part of it, or the result with this id.
#[derive(Drop)]
pub enum PathText {
    /// A name, and the parts behind it.
    Name { name: Bytes, parts: PathParts },
    /// `%id`
    Id(u32),
}

/// A path as a command can have it: its names are names, and its text has at most 4,090 bytes, so that a line of 4,096
/// has room for the word before it.
#[derive(Drop)]
pub struct ValuePath {
    text: PathText,
}

impl Model for ValuePath {
    ghost use Rattle.std.specs.Prelude.{◌≡◌, ◌≤◌, length, true};
    ghost use Rattle.spv_cmd.specs.declared.command.PathText.{PathText};

    ghost Value = { PathText };

    ghost use Rattle.spv_cmd.specs.Paths.{is_path, path_text};

    ghost view = { λ p. p.text };

    ghost invariant = { λ p. (is_path p.text ≡ true) × (length (path_text p.text) ≤ 4090) };
}

impl ValuePath {
    ghost use Rattle.std.specs.Prelude.{◌≡◌, ◌≤◌, true, length};
    ghost use Rattle.spv_cmd.specs.Paths.{IsPath, is_path, path_text};
    ghost use Rattle.spv_cmd.specs.Answers.{Reads};

    /// The path that a word is.
    #[tactic(auto, using(crate::proofs::PathLemmas::path_form))]
    pub fn read(alloc: Global, word: &[u8]) -> Result<ValuePath, Fail<CmdRefusal>>
        requires { length word.now ≤ 4090 }
        ensures { Reads (λ path. IsPath path word.now) result }
    {
        let text = path(alloc, word)?;
        Ok(ValuePath { text })
    }

    /// What it names.
    pub fn text(&self) -> &PathText
        ensures text { result.now ≡ self.now }
        ensures form { is_path self.now ≡ true }
        ensures short { length (path_text self.now) ≤ 4090 }
    {
        &self.text
    }
}

/// A line of a source file, as a command can have it: a file that is named has a name of at least one byte and no space,
/// and the text has at most 4,090 bytes.
#[derive(Drop)]
pub struct BreakPlace {
    file: Option<Bytes>,
    line: u32,
}

impl Model for BreakPlace {
    ghost use Rattle.std.specs.Prelude.{ℕ, List, Option, ◌≡◌, ◌≤◌, length, true};

    ghost Value = { Option (List ℕ) × ℕ };

    ghost use Rattle.spv_cmd.specs.Places.{is_place, place_text};

    ghost view = { λ p. (p.file, p.line) };

    ghost invariant = { λ p. (is_place (p.file, p.line) ≡ true) × (length (place_text (p.file, p.line)) ≤ 4090) };
}

impl BreakPlace {
    ghost use Rattle.std.specs.Prelude.{◌≡◌, ◌≤◌, true, length, option_copied};
    ghost use Rattle.std.specs.List.{list_all};
    ghost use Rattle.spv_line.specs.Words.{is_other};
    ghost use Rattle.spv_cmd.specs.Places.{IsPlace, is_place, place_text};
    ghost use Rattle.spv_cmd.specs.Answers.{Reads};

    /// The line that a word is.
    #[tactic(auto, using(crate::proofs::PlaceLemmas::place_form))]
    pub fn read(alloc: Global, word: &[u8]) -> Result<BreakPlace, Fail<CmdRefusal>>
        requires short { length word.now ≤ 4090 }
        requires whole { list_all is_other word.now ≡ true }
        ensures { Reads (λ place. IsPlace place word.now) result }
    {
        let (file, line) = place(alloc, word)?;
        Ok(BreakPlace { file, line })
    }

    /// The name of the file, where one is named: at least one byte, and no space.
    pub fn file(&self) -> Option<&Bytes>
        ensures file { option_copied result ≡ self.now.0 }
        ensures form { is_place self.now ≡ true }
    {
        self.file.as_ref()
    }

    /// The number of the line.
    pub fn line(&self) -> u32
        ensures line { result ≡ self.now.1 }
        ensures short { length (place_text self.now) ≤ 4090 }
    {
        self.line
    }
}

/// A command. Numbers are of 32 bits.
#[derive(Drop)]
pub enum Command {
    /// A line without words.
    Empty,
    /// `goto n`: to position n.
    Goto(u32),
    /// `fwd n`: n events forward.
    Fwd(Count),
    /// `back n`: n events back.
    Back(Count),
    /// `stepi n`: n events of the focus forward.
    Stepi(Count),
    /// `rstepi n`: n events of the focus back.
    Rstepi(Count),
    /// `step`: to the next line of the focus.
    Step,
    /// `next`: to the next line, over calls.
    Next,
    /// `finish`: out of the frame.
    Finish,
    /// `rstep`: back to the line before.
    Rstep,
    /// `rnext`: back to the line before, over calls.
    Rnext,
    /// `rfinish`: back out of the frame.
    Rfinish,
    /// `continue`: to the next break, watch or halt that hits.
    Continue,
    /// `rcontinue`: back to the last break, watch or halt that hit.
    Rcontinue,
    /// `where`: where the focus stands.
    Place,
    /// `group`: where each invocation stands.
    Group,
    /// `focus i`: looks at invocation i.
    Focus(u32),
    /// `bt`: the frames.
    Bt,
    /// `frame k`: looks at frame k.
    Frame(u32),
    /// `locals`: the variables of the frame.
    Locals,
    /// `globals`: the variables of the module.
    Globals,
    /// `print path`: the value that a path names.
    Print(ValuePath),
    /// `regs`: the results that have a value.
    Regs,
    /// `list`: the lines of the source about the frame's.
    List,
    /// `break line` or `break file:line`: stops at a line.
    Break(BreakPlace),
    /// `delete k`: removes break k.
    Delete(u32),
    /// `watch path`: stops where the bits that a path names change.
    Watch(ValuePath),
    /// `unwatch k`: removes watch k.
    Unwatch(u32),
    /// `info`: the size of the module and of the run.
    Info,
    /// `tally`: how many events each probe hit.
    Tally,
    /// `drop k`: drops probe k.
    DropProbe(u32),
    /// `halt k n`: stops where the tally of probe k comes to a multiple of n.
    Halt { k: u32, n: Count },
    /// `order a b`: what the order of the events from a on, before b, is worth.
    Order(Stretch),
    /// `quit`: ends the session.
    Quit,
}
