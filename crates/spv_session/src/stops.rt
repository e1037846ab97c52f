//! The replies to the commands on breaks and watches.
ghost use Rattle.std.specs.Prelude.{◌≡◌, ◌++◌, ℕ, IfOk, MatchResult, OnOk, OnErr, Some, option_copied};
ghost use Rattle.std.specs.Option.{option_and_then};
ghost use Rattle.spv_paths.specs.Kept.{kept_named};
ghost use Rattle.spv_session.specs.Reply.{break_in, break_told, delete_told, file_with, refuses, told_refusal, told_reply, told_with, unwatch_told, watch_in, watch_told, watch_with};
ghost use Rattle.spv_session.specs.Variables.{key_in, named};
ghost use Rattle.spv_session.specs.Shown.{line_file};
ghost use Rattle.spv_session.specs.View.{IsEither};

use crate::frames::NO_SUCH_NAME;
use crate::session::Core;
use crate::texts::{push_break, push_deleted, push_unwatched, push_watch, refusal_line};
use spv_base::{CmdRefusal, Fail, NoMemory};
use spv_cmd::{BreakPlace, PathParts, PathText, ValuePath};
use spv_dbg::ShownFrame;
use spv_paths::Named;
use spv_stops::WatchKey;

/// The command names no line at which code begins.
const NO_CODE: CmdRefusal = CmdRefusal { code: 8 };

/// What a watch looks at, and the line of what that holds.
#[derive(Drop)]
pub(crate) struct Watched {
    key: WatchKey,
    line: Vec<u8>,
}

/// The file of a shown frame, where it has a line.
fn line_file(frame: Option<&ShownFrame>) -> Option<&[u8]>
    ensures { option_copied result ≡ option_and_then line_file (option_copied frame.entry) }
{
    match frame {
        Some(frame) if frame.line != 0 => Some(frame.file.as_slice()),
        _ => None,
    }
}

/// The file of a break: the one that is named, else that of a shown frame.
fn file_for<'a>(place: &'a BreakPlace, frame: Option<&'a ShownFrame>) -> Option<&'a [u8]>
    ensures { option_copied result ≡ file_with (option_copied frame.entry) place.now.0 }
{
    match place.file() {
        Some(file) => Some(file.as_slice()),
        None => line_file(frame),
    }
}

/// What a watch of a part of a variable looks at, which was found where a frame is shown or none is.
fn key_of(focus: u32, frame: Option<&ShownFrame>, named: &Named<'_>) -> WatchKey
    ensures { result ≡ key_in focus (option_copied frame.entry) (kept_named named.now) }
{
    let (local, depth, function, inlined) = match frame {
        Some(frame) if named.is_local => (true, frame.depth, frame.function, frame.inlined),
        _ => (false, 0, 0, 0),
    };
    WatchKey {
        local,
        inv: focus,
        depth,
        function,
        variable: named.variable,
        inlined,
        first: named.start,
        count: named.end.saturating_sub(named.start),
    }
}

impl Core {
    /// Keeps a break at a line, and appends its number and where it is; or a refusal, where no code begins there or the list is full.
    pub(crate) fn add_break(
        &mut self,
        place: &BreakPlace,
        text: &mut Vec<u8>,
    ) -> Result<(), NoMemory>
        ensures text { OnOk result (text.new.items ≡ text.old.items ++ (told_reply self.old.view (break_told place.now self.old.view)).0) }
        ensures view { OnOk result (self.new.view ≡ (told_reply self.old.view (break_told place.now self.old.view)).1) }
        ensures same { OnErr result (IsEither self.new.view self.old.view (told_reply self.old.view (break_told place.now self.old.view)).1) }
        ensures group { self.new.view.group ≡ self.old.view.group }
        ensures kept { self.new.kept ≡ self.old.kept }
        ensures dropped { self.new.view.dropped ≡ self.old.view.dropped }
        ensures limit { self.new.limit ≡ self.old.limit }
        ensures refused { (code : ℕ) → told_refusal (break_told place.now self.old.view) ≡ Some code → self.new ≡ self.old }
    {
        let frame = self.selected()?;
        match file_for(place, frame.as_ref()) {
            None => Ok(text.extend_from_slice(refusal_line(NO_CODE))?),
            Some(file) => self.add_break_in(file, place.line(), text),
        }
    }

    /// The same, where the file is known.
    fn add_break_in(&mut self, file: &[u8], line: u32, text: &mut Vec<u8>) -> Result<(), NoMemory>
        ensures text { OnOk result (text.new.items ≡ text.old.items ++ (told_reply self.old.view (break_in self.old.view line file.now)).0) }
        ensures view { OnOk result (self.new.view ≡ (told_reply self.old.view (break_in self.old.view line file.now)).1) }
        ensures same { OnErr result (IsEither self.new.view self.old.view (told_reply self.old.view (break_in self.old.view line file.now)).1) }
        ensures group { self.new.view.group ≡ self.old.view.group }
        ensures kept { self.new.kept ≡ self.old.kept }
        ensures dropped { self.new.view.dropped ≡ self.old.view.dropped }
        ensures limit { self.new.limit ≡ self.old.limit }
        ensures refused { (code : ℕ) → told_refusal (break_in self.old.view line file.now) ≡ Some code → self.new ≡ self.old }
    {
        let heads = self.info.lines.heads(self.alloc, file, line)?;
        match self.breaks.add(file, line, heads) {
            Ok(number) => push_break(self.alloc, text, number, file, line),
            Err(Fail::Refused(refusal)) => Ok(text.extend_from_slice(refusal_line(refusal))?),
            Err(Fail::NoMemory) => Err(NoMemory),
        }
    }

    /// Removes a break, and appends that it is gone; or a refusal, where there is none with this number.
    pub(crate) fn delete_break(&mut self, number: u32, text: &mut Vec<u8>) -> Result<(), NoMemory>
        ensures text { OnOk result (text.new.items ≡ text.old.items ++ (told_reply self.old.view (delete_told number self.old.view)).0) }
        ensures view { OnOk result (self.new.view ≡ (told_reply self.old.view (delete_told number self.old.view)).1) }
        ensures same { OnErr result (IsEither self.new.view self.old.view (told_reply self.old.view (delete_told number self.old.view)).1) }
        ensures group { self.new.view.group ≡ self.old.view.group }
        ensures kept { self.new.kept ≡ self.old.kept }
        ensures dropped { self.new.view.dropped ≡ self.old.view.dropped }
        ensures limit { self.new.limit ≡ self.old.limit }
        ensures refused { (code : ℕ) → told_refusal (delete_told number self.old.view) ≡ Some code → self.new ≡ self.old }
    {
        match self.breaks.remove(number) {
            Ok(()) => push_deleted(self.alloc, text, number),
            Err(refusal) => Ok(text.extend_from_slice(refusal_line(refusal))?),
        }
    }

    /// Keeps a watch of what a path names, and appends its number and what it holds; or a refusal.
    pub(crate) fn add_watch(&mut self, path: &ValuePath, text: &mut Vec<u8>) -> Result<(), NoMemory>
        ensures text { OnOk result (text.new.items ≡ text.old.items ++ (told_reply self.old.view (watch_told path.now self.old.view)).0) }
        ensures view { OnOk result (self.new.view ≡ (told_reply self.old.view (watch_told path.now self.old.view)).1) }
        ensures same { OnErr result (IsEither self.new.view self.old.view (told_reply self.old.view (watch_told path.now self.old.view)).1) }
        ensures group { self.new.view.group ≡ self.old.view.group }
        ensures kept { self.new.kept ≡ self.old.kept }
        ensures dropped { self.new.view.dropped ≡ self.old.view.dropped }
        ensures limit { self.new.limit ≡ self.old.limit }
        ensures refused { (code : ℕ) → told_refusal (watch_told path.now self.old.view) ≡ Some code → self.new ≡ self.old }
    {
        match self.watched(path.text())? {
            Err(refusal) => Ok(text.extend_from_slice(refusal_line(refusal))?),
            Ok(watched) => self.add_watched(watched.key, watched.line.as_slice(), text),
        }
    }

    /// What a watch of what a path names looks at, and the line of it; or why it can't be watched.
    fn watched(&self, path: &PathText) -> Result<Result<Watched, CmdRefusal>, NoMemory>
        ensures { IfOk result (λ due. MatchResult due (λ watched. watch_told path.now self.now.view ≡ watch_with self.now.view watched.key watched.line.items)
            (λ refusal. watch_told path.now self.now.view ≡ refuses refusal.code)) }
    {
        match path {
            PathText::Id(_) => Ok(Err(NO_SUCH_NAME)),
            PathText::Name { name, parts } => self.watched_part(path, name.as_slice(), parts),
        }
    }

    /// The same of a part of a variable.
    fn watched_part(
        &self,
        path: &PathText,
        name: &[u8],
        parts: &PathParts,
    ) -> Result<Result<Watched, CmdRefusal>, NoMemory>
        ensures { IfOk result (λ due. MatchResult due
            (λ watched. told_with (watch_in self.now.view path.now) (named self.now.view name.now parts.now) ≡ watch_with self.now.view watched.key watched.line.items)
            (λ refusal. told_with (watch_in self.now.view path.now) (named self.now.view name.now parts.now) ≡ refuses refusal.code)) }
    {
        let selected = self.selected()?;
        let frame = selected.as_ref();
        let sight = self.sight(frame);
        match sight.named(&self.info.variables, name, parts)? {
            Err(refusal) => Ok(Err(refusal)),
            Ok(named) => {
                let key = key_of(self.focus, frame, &named);
                let mut line = Vec::new(self.alloc);
                sight.push_path(self.alloc, &mut line, path, named)?;
                Ok(Ok(Watched { key, line }))
            }
        }
    }

    /// Keeps a watch with this key, and appends its number and this line; or a refusal, where the list is full.
    fn add_watched(
        &mut self,
        key: WatchKey,
        line: &[u8],
        text: &mut Vec<u8>,
    ) -> Result<(), NoMemory>
        ensures text { OnOk result (text.new.items ≡ text.old.items ++ (told_reply self.old.view (watch_with self.old.view key line.now)).0) }
        ensures view { OnOk result (self.new.view ≡ (told_reply self.old.view (watch_with self.old.view key line.now)).1) }
        ensures same { OnErr result (IsEither self.new.view self.old.view (told_reply self.old.view (watch_with self.old.view key line.now)).1) }
        ensures group { self.new.view.group ≡ self.old.view.group }
        ensures kept { self.new.kept ≡ self.old.kept }
        ensures dropped { self.new.view.dropped ≡ self.old.view.dropped }
        ensures limit { self.new.limit ≡ self.old.limit }
        ensures refused { (code : ℕ) → told_refusal (watch_with self.old.view key line.now) ≡ Some code → self.new ≡ self.old }
    {
        match self.watches.add(key) {
            Ok(number) => push_watch(self.alloc, text, number, line),
            Err(Fail::Refused(refusal)) => Ok(text.extend_from_slice(refusal_line(refusal))?),
            Err(Fail::NoMemory) => Err(NoMemory),
        }
    }

    /// Removes a watch, and appends that it is gone; or a refusal, where there is none with this number.
    pub(crate) fn delete_watch(&mut self, number: u32, text: &mut Vec<u8>) -> Result<(), NoMemory>
        ensures text { OnOk result (text.new.items ≡ text.old.items ++ (told_reply self.old.view (unwatch_told number self.old.view)).0) }
        ensures view { OnOk result (self.new.view ≡ (told_reply self.old.view (unwatch_told number self.old.view)).1) }
        ensures same { OnErr result (IsEither self.new.view self.old.view (told_reply self.old.view (unwatch_told number self.old.view)).1) }
        ensures group { self.new.view.group ≡ self.old.view.group }
        ensures kept { self.new.kept ≡ self.old.kept }
        ensures dropped { self.new.view.dropped ≡ self.old.view.dropped }
        ensures limit { self.new.limit ≡ self.old.limit }
        ensures refused { (code : ℕ) → told_refusal (unwatch_told number self.old.view) ≡ Some code → self.new ≡ self.old }
    {
        match self.watches.remove(number) {
            Ok(()) => push_unwatched(self.alloc, text, number),
            Err(refusal) => Ok(text.extend_from_slice(refusal_line(refusal))?),
        }
    }
}
