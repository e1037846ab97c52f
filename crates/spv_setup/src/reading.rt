//! The reading of a setup, line by line.
ghost use Rattle.std.specs.Prelude.{◌≡◌, ◌≤◌, ◌<◌, ◌++◌, ◌∷◌, [], Ok, OnOk, option_copied};
ghost use Rattle.spv_base.specs.Answers.{after};
ghost use Rattle.spv_setup.specs.Rows.{meaning};
ghost use Rattle.spv_setup.specs.declared.line.Line.TheVariants as says;
ghost use Rattle.spv_setup.specs.Lines.{lines_in, left_length};
ghost use Rattle.spv_setup.specs.Settings as spec;
ghost use Rattle.spv_setup.specs.Reading.{IsIndexed, Leaves};

use crate::line::{Content, Line, LineFault, Version, Workgroup};
use crate::lines::next_line;
use crate::rows::read_line;
use crate::settings::{Buffer, Push, Run, Settings};
use spv_base::{Bytes, Fail, Items, Overrides, Places, SetupRefusal};
use std::alloc::Global;
use std::collections::BTreeSet;

/// There was such a line before.
const REPEATED: Fail<LineFault> = Fail::Refused(LineFault::Repeated);

/// What was read, and which SpecIds and which buffers it names.
#[derive(Drop)]
pub struct Reader {
    pub settings: Settings,
    ids: BTreeSet<u32>,
    bindings: BTreeSet<(u32, u32)>,
}

impl Reader {
    /// Nothing was read.
    pub fn new(alloc: Global) -> Reader
        ensures settings { result.settings ≡ spec.no_settings }
        ensures indexed { IsIndexed result.ids result.bindings result.settings }
    {
        Reader {
            settings: Settings {
                entry: None,
                group: None,
                overrides: Overrides::new(alloc),
                override_lines: Places::new(alloc),
                buffers: Items::new(alloc),
                push: None,
                runs: Items::new(alloc),
                finished_count: false,
            },
            ids: BTreeSet::new(alloc),
            bindings: BTreeSet::new(alloc),
        }
    }

    fn set_entry(&mut self, line: u32, name: Bytes) -> Result<(), Fail<LineFault>>
        requires { IsIndexed self.old.ids self.old.bindings self.old.settings }
        ensures settings { Leaves (spec.added line (says.Entry name) self.old.settings) self.new.settings result }
        ensures indexed { OnOk result (IsIndexed self.new.ids self.new.bindings self.new.settings) }
    {
        if self.settings.entry.is_some() {
            return Err(REPEATED);
        }
        self.settings.entry = Some(name);
        Ok(())
    }

    fn set_group(&mut self, line: u32, group: Workgroup) -> Result<(), Fail<LineFault>>
        requires { IsIndexed self.old.ids self.old.bindings self.old.settings }
        ensures settings { Leaves (spec.added line (says.Group group) self.old.settings) self.new.settings result }
        ensures indexed { OnOk result (IsIndexed self.new.ids self.new.bindings self.new.settings) }
    {
        if self.settings.group.is_some() {
            return Err(REPEATED);
        }
        self.settings.group = Some(group);
        Ok(())
    }

    fn set_push(&mut self, line: u32, bytes: Bytes) -> Result<(), Fail<LineFault>>
        requires { IsIndexed self.old.ids self.old.bindings self.old.settings }
        ensures settings { Leaves (spec.added line (says.Push bytes) self.old.settings) self.new.settings result }
        ensures indexed { OnOk result (IsIndexed self.new.ids self.new.bindings self.new.settings) }
    {
        if self.settings.push.is_some() {
            return Err(REPEATED);
        }
        self.settings.push = Some(Push { line, bytes });
        Ok(())
    }

    fn add_override(&mut self, line: u32, id: u32, value: i128) -> Result<(), Fail<LineFault>>
        requires { IsIndexed self.old.ids self.old.bindings self.old.settings }
        ensures settings { Leaves (spec.added line (says.Spec id value) self.old.settings) self.new.settings result }
        ensures indexed { OnOk result (IsIndexed self.new.ids self.new.bindings self.new.settings) }
    {
        if !self.ids.insert(id)? {
            return Err(REPEATED);
        }
        self.settings.overrides.push((id, value))?;
        self.settings.override_lines.push(line)?;
        Ok(())
    }

    fn add_buffer(
        &mut self,
        line: u32,
        set: u32,
        binding: u32,
        content: Content,
    ) -> Result<(), Fail<LineFault>>
        requires { IsIndexed self.old.ids self.old.bindings self.old.settings }
        ensures settings { Leaves (spec.added line (says.Buffer set binding content) self.old.settings) self.new.settings result }
        ensures indexed { OnOk result (IsIndexed self.new.ids self.new.bindings self.new.settings) }
    {
        if !self.bindings.insert((set, binding))? {
            return Err(REPEATED);
        }
        self.settings.buffers.push(Buffer {
            line,
            set,
            binding,
            content,
        })?;
        Ok(())
    }

    fn add_run(&mut self, run: Run) -> Result<(), Fail<LineFault>>
        requires { IsIndexed self.old.ids self.old.bindings self.old.settings }
        ensures settings { Leaves (Ok (record self.old.settings { runs = self.old.settings.runs ++ run ∷ [] })) self.new.settings result }
        ensures indexed { OnOk result (IsIndexed self.new.ids self.new.bindings self.new.settings) }
    {
        self.settings.runs.push(run)?;
        Ok(())
    }

    fn count_finished(&mut self, line: u32) -> Result<(), Fail<LineFault>>
        requires { IsIndexed self.old.ids self.old.bindings self.old.settings }
        ensures settings { Leaves (spec.added line says.FinishedCount self.old.settings) self.new.settings result }
        ensures indexed { OnOk result (IsIndexed self.new.ids self.new.bindings self.new.settings) }
    {
        if self.settings.finished_count {
            return Err(REPEATED);
        }
        self.settings.finished_count = true;
        Ok(())
    }

    /// Adds what a line says. It is refused where there was such a line before, and there may be one alone.
    fn add(&mut self, line: u32, it: Line) -> Result<(), Fail<LineFault>>
        requires { IsIndexed self.old.ids self.old.bindings self.old.settings }
        ensures settings { Leaves (spec.added line it self.old.settings) self.new.settings result }
        ensures indexed { OnOk result (IsIndexed self.new.ids self.new.bindings self.new.settings) }
    {
        match it {
            Line::Entry(name) => self.set_entry(line, name),
            Line::Group(group) => self.set_group(line, group),
            Line::Spec { id, value } => self.add_override(line, id, value),
            Line::Buffer {
                set,
                binding,
                content,
            } => self.add_buffer(line, set, binding, content),
            Line::Push(bytes) => self.set_push(line, bytes),
            Line::Move { invocation, count } => self.add_run(Run::Move {
                line,
                invocation,
                count,
            }),
            Line::Rounds(count) => self.add_run(Run::Rounds(count)),
            Line::FinishedCount => self.count_finished(line),
        }
    }

    /// Reads a line after the first.
    fn read(
        &mut self,
        alloc: Global,
        version: Version,
        number: u32,
        text: &[u8],
    ) -> Result<(), Fail<LineFault>>
        requires { IsIndexed self.old.ids self.old.bindings self.old.settings }
        ensures settings { Leaves (after (meaning version text.now) (spec.with_meaning number self.old.settings)) self.new.settings result }
        ensures indexed { OnOk result (IsIndexed self.new.ids self.new.bindings self.new.settings) }
    {
        match read_line(alloc, version, text)? {
            None => Ok(()),
            Some(line) => self.add(number, line),
        }
    }

    /// Reads the line of a number, or is refused there.
    #[tactic(auto, unfolding(crate::specs::Settings::line_after))]
    fn read_at(
        &mut self,
        alloc: Global,
        version: Version,
        number: u32,
        text: &[u8],
    ) -> Result<(), Fail<SetupRefusal>>
        requires { IsIndexed self.old.ids self.old.bindings self.old.settings }
        ensures settings { Leaves (spec.line_after version number text.now self.old.settings) self.new.settings result }
        ensures indexed { OnOk result (IsIndexed self.new.ids self.new.bindings self.new.settings) }
    {
        match self.read(alloc, version, number, text) {
            Ok(()) => Ok(()),
            Err(Fail::Refused(fault)) => Err(Fail::Refused(SetupRefusal {
                code: fault.code(),
                line: number,
            })),
            Err(Fail::NoMemory) => Err(Fail::NoMemory),
        }
    }

    /// Reads the lines after the first, or is refused at the lowest that is.
    pub fn read_lines(
        &mut self,
        alloc: Global,
        version: Version,
        text: Option<&[u8]>,
    ) -> Result<(), Fail<SetupRefusal>>
        requires indexed { IsIndexed self.old.ids self.old.bindings self.old.settings }
        requires short { left_length (option_copied text) ≤ 67108864 }
        ensures { Leaves (spec.lines_after version 2 (lines_in (option_copied text.entry)) self.old.settings) self.new.settings result }
    {
        let mut number: u32 = 1;
        let mut left = text;
        while let Some(text) = left {
            let (line, rest) = next_line(text);
            number += 1;
            self.read_at(alloc, version, number, line)?;
            left = rest;
        }
        Ok(())
    }
}
