//! The setup of a run, as its text sets it.
ghost use Rattle.std.specs.Prelude.{◌≡◌, ◌≤◌, ◌<◌, None, OnOk, length, option_copied};
ghost use Rattle.spv_base.specs.Answers.{Answers};
ghost use Rattle.spv_line.specs.Words.{words_in};
ghost use Rattle.spv_setup.specs.Settings as spec;
ghost use Rattle.spv_setup.specs.Schedule.{check_moves, schedule_of, stray_line};

use crate::line::{Version, Workgroup};
use crate::lines::next_line;
use crate::reading::Reader;
use crate::rows::two_words;
use crate::schedule::{Schedule, check_moves};
use crate::settings::{Buffer, Push, Settings};
use spv_base::{Fail, Items, Overrides, Places, SetupRefusal};
use std::alloc::Global;
use std::marker::Model;

/// The first line is another than `spvdbg-setup 1` and `spvdbg-setup 2`.
const OTHER_HEAD: Fail<SetupRefusal> = Fail::Refused(SetupRefusal { code: 1, line: 1 });

/// The workgroup that runs where the text names none.
const ONLY_GROUP: Workgroup = Workgroup {
    place: (0, 0, 0),
    number: (1, 1, 1),
};

/// The version that a word names.
fn version_in(word: &[u8]) -> Option<Version>
    ensures { result ≡ spec.version_in word.now }
{
    if word == b"1".as_slice() {
        Some(Version::One)
    } else if word == b"2".as_slice() {
        Some(Version::Two)
    } else {
        None
    }
}

/// The version that the first line names: `spvdbg-setup 1` or `spvdbg-setup 2`.
#[tactic(auto, using(crate::proofs::RowLemmas::no_version))]
fn version_of(line: &[u8]) -> Option<Version>
    ensures { result ≡ spec.version_of (words_in line.now) }
{
    let (name, version) = two_words(line)?;
    if name == b"spvdbg-setup".as_slice() {
        version_in(version)
    } else {
        None
    }
}

/// What a setup's text sets, each list in the order of the lines.
#[derive(Drop)]
pub struct Setup {
    settings: Settings,
}

impl Model for Setup {
    ghost use Rattle.spv_setup.specs.declared.settings.Settings.{Settings as Set};

    ghost Value = { Set };

    ghost view = { λ s. s.settings };
}

impl Setup {
    /// Reads the text of a setup, of at most 67,108,864 bytes. Refuses the lowest line that is refused: the first line is
    /// another than `spvdbg-setup 1` and `spvdbg-setup 2` (S1), a word is unknown or the number of words wrong (S2), a number or a hexadecimal word
    /// has a wrong form or range (S3), or there was such a line before and there may be one alone (S4).
    #[tactic(auto, unfolding(crate::specs::Settings::settings_of))]
    pub fn parse(alloc: Global, text: &[u8]) -> Result<Setup, Fail<SetupRefusal>>
        requires { length text.now ≤ 67108864 }
        ensures { Answers (spec.settings_of text.now) result }
    {
        let (first, rest) = next_line(text);
        let version = version_of(first).ok_or(OTHER_HEAD)?;
        let mut reader = Reader::new(alloc);
        reader.read_lines(alloc, version, rest)?;
        Ok(Setup {
            settings: reader.settings,
        })
    }

    /// The name of the entry point, where one is given.
    pub fn entry(&self) -> Option<&[u8]>
        ensures { option_copied result ≡ self.now.entry }
    {
        match &self.settings.entry {
            None => None,
            Some(name) => Some(name.as_slice()),
        }
    }

    /// The numbers for SpecIds.
    pub fn overrides(&self) -> &Overrides
        ensures { result.now ≡ self.now.overrides }
    {
        &self.settings.overrides
    }

    /// The line of each number for a SpecId, in the same order.
    pub fn override_lines(&self) -> &Places
        ensures { result.now ≡ self.now.override_lines }
    {
        &self.settings.override_lines
    }

    /// The numbers of the workgroup that runs, and how many workgroups there are.
    pub fn group(&self) -> Workgroup
        ensures { result ≡ spec.group_of self.now }
    {
        self.settings.group.unwrap_or(ONLY_GROUP)
    }

    /// The buffers that are given.
    pub fn buffers(&self) -> &Items<Buffer>
        ensures { result.now ≡ self.now.buffers }
    {
        &self.settings.buffers
    }

    /// The push constants, where they are given.
    pub fn push(&self) -> Option<&Push>
        ensures { option_copied result ≡ self.now.push }
    {
        self.settings.push.as_ref()
    }

    /// Whether finished invocations count as arrived at a barrier.
    pub fn finished_count(&self) -> bool
        ensures { result ≡ self.now.finished_count }
    {
        self.settings.finished_count
    }

    /// Looks whether each `move` names an invocation that exists. Else S5 at the lowest line that doesn't.
    pub fn check_moves(&self, invocations: u32) -> Result<(), SetupRefusal>
        ensures due { result ≡ check_moves invocations self.now.runs }
        ensures exist { OnOk result (stray_line invocations self.now.runs ≡ None) }
    {
        check_moves(invocations, self.settings.runs.as_slice())
    }

    /// The schedule for so many invocations, at least 1, which each `move` names one of. Refuses more than 4,194,304 entries
    /// (S9).
    pub fn schedule(&self, alloc: Global, invocations: u32) -> Result<Schedule, Fail<SetupRefusal>>
        requires some { 0 < invocations }
        requires exist { stray_line invocations self.now.runs ≡ None }
        ensures { Answers (schedule_of invocations self.now.runs) result }
    {
        Schedule::of(alloc, invocations, self.settings.runs.as_slice())
    }
}
