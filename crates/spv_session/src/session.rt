//! A kit of probes beside a group, and the replies to lines of input.
ghost use Rattle.std.specs.Prelude.{◌≡◌, ◌≢◌, [], ℕ, ◌<◌, ◌≤◌, ◌+◌, ◌++◌, List, All, IfOk, Ok, Some, OnOk, OnErr, map, max, slice_get, vec_len, if◌then◌else◌};
ghost use Rattle.std.specs.Option.{option_map_or};
ghost use Rattle.spv_base.specs.Prefix.{IsPrefixOf};
ghost use Rattle.spv_cmd.specs.Commands.{command_of};
ghost use Rattle.spv_group.specs.Group.{end_in, group_at, invocations_in, state_in, window_in};
ghost use Rattle.spv_probe.specs.Kits.{tests_of};
ghost use Rattle.spv_state.specs.State.{frames_of};
ghost use Rattle.spv_session.specs.Costs.{act_cost, cost_by, kept_by, line_kept};
ghost use Rattle.spv_session.specs.Reply.{act_of, does_quit, focus_told, frame_told, group_reply, info_reply, invocation_reply, is_quit, line_refusal, line_reply, lines_told, place_reply, refusal_by, registers_told, reply_by, select_told, told_refusal, told_reply};
ghost use Rattle.spv_session.specs.Shown.{focus_frames};
ghost use Rattle.spv_session.specs.Texts.{refusal_line, registers_text};
ghost use Rattle.spv_session.specs.View.{IsEither, IsKitOf, Settings, first_viewing, focus_on, undoing_in};
ghost use Rattle.spv_session.specs.declared.session.Next.TheVariants as answers;

use crate::debug_info::DebugInfo;
use crate::frames::NO_SOURCE_TEXT;
use crate::info::{Info, module_words, push_info};
use crate::motions::Aim;
use crate::registers::push_registers;
use crate::texts::{push_invocation, push_position, refusal_line};
use spv_base::{CmdRefusal, Fail, NoMemory, Probe, Steps};
use spv_cmd::{Command, parse_built};
use spv_dbg::ShownFrame;
use spv_group::Group;
use spv_probe::Kit;
use spv_search::{Backward, Forward};
use spv_source::{frame_line, source_lines};
use spv_state::laws::top_frames_are_sound;
use spv_stops::{Breaks, Halts, Watches};
use std::alloc::Global;
use std::marker::Model;
use std::sync::ledger::Ledger;

/// The command names an invocation that doesn't exist.
const NO_SUCH_INVOCATION: CmdRefusal = CmdRefusal { code: 3 };

/// Whether the session goes on after a line.
#[derive(Clone, Copy)]
pub enum Next {
    Go,
    Quit,
}

/// The command that a line is, or why it is refused.
fn read(alloc: Global, line: &[u8]) -> Result<Result<Command, CmdRefusal>, NoMemory>
    ensures { IfOk result (λ read. read ≡ command_of line.now) }
{
    match parse_built(alloc, line) {
        Ok(command) => Ok(Ok(command)),
        Err(Fail::Refused(refusal)) => Ok(Err(refusal)),
        Err(Fail::NoMemory) => Err(NoMemory),
    }
}

/// A group, about which lines of input ask, the debug information of its module, the invocation and the shown frame that replies speak of,
/// what motions stop at, and the numbers of the probes that were dropped.
pub struct Core {
    pub(crate) alloc: Global,
    pub(crate) group: Group,
    pub(crate) info: DebugInfo,
    pub(crate) focus: u32,
    pub(crate) frame: u32,
    pub(crate) breaks: Breaks,
    pub(crate) watches: Watches,
    pub(crate) halts: Halts,
    pub(crate) dropped: Vec<u32>,
}

// Written out, so that it is proved once: a derived drop is proved again in each function that lets go of such a value.
impl Drop for Core {
    fn drop(self) {
        let Core {
            alloc: _,
            group,
            info,
            focus: _,
            frame: _,
            breaks,
            watches,
            halts,
            dropped,
        } = self;
        drop(group);
        drop(info);
        drop(breaks);
        drop(watches);
        drop(halts);
        drop(dropped);
    }
}

impl Model for Core {
    ghost use Rattle.std.specs.Prelude.{◌≡◌, ◌≤◌, ◌<◌};
    ghost use Rattle.spv_group.specs.Group.{end_in, invocations_in};
    ghost use Rattle.spv_paths.specs.Variables.{variables_of};
    ghost use Rattle.spv_scopes.specs.Lines.{lines_of};
    ghost use Rattle.spv_search.specs.Keys.{tables_in};
    ghost use Rattle.spv_session.specs.Typing.{typing_in};
    ghost use Rattle.spv_session.specs.View.{Viewing, first_view};

    ghost Value = { Viewing };

    ghost view = { λ s. record { view = record (first_view s.group.group) { focus = s.focus; frame = s.frame; breaks = s.breaks; watches = s.watches; halts = s.halts; dropped = s.dropped.items }; kept = s.group.kept; limit = s.group.limit } };

    ghost invariant = { λ s. (s.group.group.position ≤ end_in s.group.group) × (s.focus < invocations_in s.group.group)
        × (s.info.tables ≡ tables_in s.group.group) × (s.info.lines ≡ lines_of s.group.group.program.accepted (tables_in s.group.group))
        × (s.info.variables ≡ variables_of (tables_in s.group.group)) × (s.info.sizes ≡ typing_in s.group.group.program.accepted) };
}

impl Core {
    /// A group at its start, with the invocation 0 as the focus and its innermost frame.
    fn open(alloc: Global, group: Group) -> Result<Core, NoMemory>
        requires { group.group.position ≡ 0 }
        ensures { IfOk result (λ core. core ≡ first_viewing group) }
    {
        let _invocations = group.invocations();
        let info = DebugInfo::of(alloc, group.module().accepted())?;
        Ok(Core {
            alloc,
            group,
            info,
            focus: 0,
            frame: 0,
            breaks: Breaks::new(alloc),
            watches: Watches::new(alloc),
            halts: Halts::new(alloc),
            dropped: Vec::new(alloc),
        })
    }

    /// Answers a line, as the session's call of this name says.
    #[tactic(auto, using(crate::proofs::ReplyLemmas::same_view), unfolding(crate::specs::Reply::line_reply, crate::specs::Reply::is_quit, crate::specs::Reply::line_refusal, crate::specs::Costs::cost_by, crate::specs::Costs::line_kept))]
    fn command<L: Ledger>(
        &mut self,
        kit: &mut Kit,
        line: &[u8],
        out: &mut Vec<u8>,
        steps: &mut Steps<L>,
    ) -> Result<Next, NoMemory>
        requires { (settings : Settings) × IsKitOf (λ p. (⟦<dyn Probe as Probe>⟧ p.vtable).tally p.value) (λ p. (⟦<dyn Probe as Probe>⟧ p.vtable).test p.value) settings self.old.view kit.old.boxes.items }
        ensures text { OnOk result (out.new.items ≡ out.old.items ++ (line_reply (tests_of (λ p. (⟦<dyn Probe as Probe>⟧ p.vtable).test p.value) kit.old.boxes.items) self.old.view line.now).0) }
        ensures view { OnOk result (self.new.view ≡ (line_reply (tests_of (λ p. (⟦<dyn Probe as Probe>⟧ p.vtable).test p.value) kit.old.boxes.items) self.old.view line.now).1) }
        ensures next { IfOk result (λ next. next ≡ (if is_quit line.now then answers.Quit else answers.Go)) }
        ensures front { OnErr result ((text : List ℕ) × (out.new.items ≡ out.old.items ++ text) × IsPrefixOf text (line_reply (tests_of (λ p. (⟦<dyn Probe as Probe>⟧ p.vtable).test p.value) kit.old.boxes.items) self.old.view line.now).0) }
        ensures group { self.new.view.group ≡ group_at self.new.view.group.position self.old.view.group }
        ensures limit { self.new.limit ≡ self.old.limit }
        ensures kept { self.new.kept ≤ max (line_kept self.old line.now) (window_in (undoing_in self.new)) }
        ensures same { IsEither self.new.view self.old.view (line_reply (tests_of (λ p. (⟦<dyn Probe as Probe>⟧ p.vtable).test p.value) kit.old.boxes.items) self.old.view line.now).1 }
        ensures within { self.new.view.group.position ≤ end_in self.old.view.group }
        ensures refused { (code : ℕ) → line_refusal (tests_of (λ p. (⟦<dyn Probe as Probe>⟧ p.vtable).test p.value) kit.old.boxes.items) self.old.view line.now ≡ Some code
            → (code ≢ 13 → (self.new ≡ self.old) × (kit.new.boxes.items ≡ kit.old.boxes.items)) × OnOk result (out.new.items ≡ out.old.items ++ refusal_line code) }
        ensures kit { (settings : Settings) → IsKitOf (λ p. (⟦<dyn Probe as Probe>⟧ p.vtable).tally p.value) (λ p. (⟦<dyn Probe as Probe>⟧ p.vtable).test p.value) settings self.old.view kit.old.boxes.items
            → IsKitOf (λ p. (⟦<dyn Probe as Probe>⟧ p.vtable).tally p.value) (λ p. (⟦<dyn Probe as Probe>⟧ p.vtable).test p.value) settings self.new.view kit.new.boxes.items }
        ensures counted { steps.old ≤ steps.new }
        ensures cost { steps.new ≤ steps.old + cost_by (tests_of (λ p. (⟦<dyn Probe as Probe>⟧ p.vtable).test p.value) kit.old.boxes.items) (line_kept self.old line.now) self.old.view line.now }
    {
        let mut text = Vec::new(self.alloc);
        let command = read(self.alloc, line)?;
        let next = self.answer(kit, &command, &mut text, steps)?;
        out.extend_from_slice(&text)?;
        Ok(next)
    }

    /// Carries a command out, and makes the text of its reply.
    fn answer<L: Ledger>(
        &mut self,
        kit: &mut Kit,
        command: &Result<Command, CmdRefusal>,
        text: &mut Vec<u8>,
        steps: &mut Steps<L>,
    ) -> Result<Next, NoMemory>
        requires { (settings : Settings) × IsKitOf (λ p. (⟦<dyn Probe as Probe>⟧ p.vtable).tally p.value) (λ p. (⟦<dyn Probe as Probe>⟧ p.vtable).test p.value) settings self.old.view kit.old.boxes.items }
        ensures text { OnOk result (text.new.items ≡ text.old.items ++ (reply_by (tests_of (λ p. (⟦<dyn Probe as Probe>⟧ p.vtable).test p.value) kit.old.boxes.items) self.old.view (act_of command.now)).0) }
        ensures view { OnOk result (self.new.view ≡ (reply_by (tests_of (λ p. (⟦<dyn Probe as Probe>⟧ p.vtable).test p.value) kit.old.boxes.items) self.old.view (act_of command.now)).1) }
        ensures next { IfOk result (λ next. next ≡ (if does_quit (act_of command.now) then answers.Quit else answers.Go)) }
        ensures group { self.new.view.group ≡ group_at self.new.view.group.position self.old.view.group }
        ensures limit { self.new.limit ≡ self.old.limit }
        ensures kept { self.new.kept ≤ max (kept_by self.old (act_of command.now)) (window_in (undoing_in self.new)) }
        ensures same { OnErr result (IsEither self.new.view self.old.view (reply_by (tests_of (λ p. (⟦<dyn Probe as Probe>⟧ p.vtable).test p.value) kit.old.boxes.items) self.old.view (act_of command.now)).1) }
        ensures within { self.new.view.group.position ≤ end_in self.old.view.group }
        ensures refused { (code : ℕ) → refusal_by (tests_of (λ p. (⟦<dyn Probe as Probe>⟧ p.vtable).test p.value) kit.old.boxes.items) self.old.view (act_of command.now) ≡ Some code → code ≢ 13 → (self.new ≡ self.old) × (kit.new.boxes.items ≡ kit.old.boxes.items) }
        ensures kit { (settings : Settings) → IsKitOf (λ p. (⟦<dyn Probe as Probe>⟧ p.vtable).tally p.value) (λ p. (⟦<dyn Probe as Probe>⟧ p.vtable).test p.value) settings self.old.view kit.old.boxes.items
            → IsKitOf (λ p. (⟦<dyn Probe as Probe>⟧ p.vtable).tally p.value) (λ p. (⟦<dyn Probe as Probe>⟧ p.vtable).test p.value) settings self.new.view kit.new.boxes.items }
        ensures counted { steps.old ≤ steps.new }
        ensures cost { steps.new ≤ steps.old + act_cost (tests_of (λ p. (⟦<dyn Probe as Probe>⟧ p.vtable).test p.value) kit.old.boxes.items) (kept_by self.old (act_of command.now)) self.old.view (act_of command.now) }
    {
        let from = self.group.position();
        match command {
            Err(refusal) => text.extend_from_slice(refusal_line(*refusal))?,
            Ok(Command::Quit) => return Ok(Next::Quit),
            Ok(Command::Place) => self.push_place(text, self.focus)?,
            Ok(Command::Group) => self.push_group(text)?,
            Ok(Command::Focus(inv)) => self.look_at(*inv, text)?,
            Ok(Command::Bt) => self.push_frames(text)?,
            Ok(Command::Frame(number)) => self.select(*number, text)?,
            Ok(Command::Regs) => self.push_registers(text)?,
            Ok(Command::List) => self.push_lines(text)?,
            Ok(Command::Info) => self.push_info(text)?,
            Ok(Command::Locals) => self.push_locals(text)?,
            Ok(Command::Globals) => self.push_globals(text)?,
            Ok(Command::Print(path)) => self.push_path(text, path)?,
            Ok(Command::Break(place)) => self.add_break(place, text)?,
            Ok(Command::Delete(number)) => self.delete_break(*number, text)?,
            Ok(Command::Watch(path)) => self.add_watch(path, text)?,
            Ok(Command::Unwatch(number)) => self.delete_watch(*number, text)?,
            Ok(Command::Tally) => self.push_tallies(kit, text)?,
            Ok(Command::DropProbe(number)) => self.drop_probe(kit, *number, text)?,
            Ok(Command::Halt { k, n }) => self.set_halt(kit, *k, *n, text)?,
            Ok(Command::Order(stretch)) => self.order(kit, *stretch, text, steps)?,
            Ok(Command::Goto(position)) => self.go(kit, Aim::at(*position), text, steps)?,
            Ok(Command::Fwd(count)) => {
                self.go(kit, Aim::forward(from, count.get()), text, steps)?
            }
            Ok(Command::Back(count)) => self.go(kit, Aim::back(from, count.get()), text, steps)?,
            Ok(Command::Stepi(count)) => {
                self.walk_on(kit, Forward::Stepi(count.get()), text, steps)?
            }
            Ok(Command::Rstepi(count)) => {
                self.search_back(kit, Backward::Rstepi(count.get()), text, steps)?
            }
            Ok(Command::Step) => self.walk_on(kit, Forward::Step, text, steps)?,
            Ok(Command::Next) => self.walk_on(kit, Forward::Next, text, steps)?,
            Ok(Command::Finish) => self.walk_on(kit, Forward::Finish, text, steps)?,
            Ok(Command::Rstep) => self.search_back(kit, Backward::Rstep, text, steps)?,
            Ok(Command::Rnext) => self.walk_back(kit, Backward::Rnext, text, steps)?,
            Ok(Command::Rfinish) => self.walk_back(kit, Backward::Rfinish, text, steps)?,
            Ok(Command::Continue) => self.search_on(kit, Forward::Continue, text, steps)?,
            Ok(Command::Rcontinue) => self.search_back(kit, Backward::Rcontinue, text, steps)?,
            Ok(_) => {}
        }
        Ok(Next::Go)
    }

    /// Makes an invocation the focus, and appends where it stands; or a refusal, where there is no such invocation.
    fn look_at(&mut self, inv: u32, text: &mut Vec<u8>) -> Result<(), NoMemory>
        ensures text { OnOk result (text.new.items ≡ text.old.items ++ (told_reply self.old.view (focus_told inv self.old.view)).0) }
        ensures view { OnOk result (self.new.view ≡ (told_reply self.old.view (focus_told inv self.old.view)).1) }
        ensures err { OnErr result (self.new ≡ self.old) }
        ensures group { self.new.view.group ≡ self.old.view.group }
        ensures kept { self.new.kept ≡ self.old.kept }
        ensures dropped { self.new.view.dropped ≡ self.old.view.dropped }
        ensures limit { self.new.limit ≡ self.old.limit }
        ensures refused { (code : ℕ) → told_refusal (focus_told inv self.old.view) ≡ Some code → self.new ≡ self.old }
    {
        if inv >= self.group.invocations() {
            text.extend_from_slice(refusal_line(NO_SUCH_INVOCATION))?;
            return Ok(());
        }
        self.push_place(text, inv)?;
        self.focus = inv;
        self.frame = 0;
        Ok(())
    }

    /// Selects a shown frame of the focus, and appends its line; or a refusal, where there is no such frame.
    fn select(&mut self, number: u32, text: &mut Vec<u8>) -> Result<(), NoMemory>
        ensures text { OnOk result (text.new.items ≡ text.old.items
            ++ (told_reply self.old.view (frame_told (select_told number self.old.view) (focus_frames self.old.view) number)).0) }
        ensures view { OnOk result (self.new.view ≡ (told_reply self.old.view (frame_told (select_told number self.old.view) (focus_frames self.old.view) number)).1) }
        ensures err { OnErr result (self.new ≡ self.old) }
        ensures group { self.new.view.group ≡ self.old.view.group }
        ensures kept { self.new.kept ≡ self.old.kept }
        ensures dropped { self.new.view.dropped ≡ self.old.view.dropped }
        ensures limit { self.new.limit ≡ self.old.limit }
        ensures refused { (code : ℕ) → told_refusal (frame_told (select_told number self.old.view) (focus_frames self.old.view) number) ≡ Some code → self.new ≡ self.old }
    {
        match self.focus_frame(number)? {
            Err(refusal) => text.extend_from_slice(refusal_line(refusal))?,
            Ok(frame) => {
                frame_line(self.alloc, number, &frame, text)?;
                self.frame = number;
            }
        }
        Ok(())
    }

    /// Appends the registers of the call that the selected frame is of.
    fn push_registers(&self, text: &mut Vec<u8>) -> Result<(), NoMemory>
        ensures { OnOk result (text.new.items ≡ text.old.items
            ++ (told_reply self.now.view (frame_told (registers_told self.now.view) (focus_frames self.now.view) self.now.view.frame)).0) }
    {
        match self.focus_frame(self.frame)? {
            Err(refusal) => text.extend_from_slice(refusal_line(refusal))?,
            Ok(frame) => self.push_registers_at(text, frame.depth)?,
        }
        Ok(())
    }

    /// Appends the registers of the focus's call at a depth.
    fn push_registers_at(&self, text: &mut Vec<u8>, depth: u32) -> Result<(), NoMemory>
        ensures { OnOk result (text.new.items ≡ text.old.items
            ++ option_map_or (registers_text self.now.view.group.program.accepted) (slice_get (frames_of (state_in self.now.view.group) self.now.view.focus) depth) []) }
    {
        top_frames_are_sound();
        match self.group.world().whole().stack(self.focus).frame(depth) {
            None => Ok(()),
            Some(frame) => push_registers(self.alloc, text, self.group.module(), frame),
        }
    }

    /// Appends the lines of the source around the selected frame.
    fn push_lines(&self, text: &mut Vec<u8>) -> Result<(), NoMemory>
        ensures { OnOk result (text.new.items ≡ text.old.items
            ++ (told_reply self.now.view (frame_told (lines_told self.now.view) (focus_frames self.now.view) self.now.view.frame)).0) }
    {
        match self.focus_frame(self.frame)? {
            Err(refusal) => text.extend_from_slice(refusal_line(refusal))?,
            Ok(frame) => self.push_lines_around(text, &frame)?,
        }
        Ok(())
    }

    /// Appends the lines of the source around a shown frame, or a refusal where there are none.
    fn push_lines_around(&self, text: &mut Vec<u8>, frame: &ShownFrame) -> Result<(), NoMemory>
        ensures { OnOk result (text.new.items ≡ text.old.items ++ (told_reply self.now.view (lines_told self.now.view frame.now)).0) }
    {
        let source = self.info.tables.source(frame.file.as_slice());
        if !source_lines(self.alloc, source, frame.line, text)? {
            text.extend_from_slice(refusal_line(NO_SOURCE_TEXT))?;
        }
        Ok(())
    }

    /// Appends what the module and its run have in numbers.
    fn push_info(&self, text: &mut Vec<u8>) -> Result<(), NoMemory>
        ensures { OnOk result (text.new.items ≡ text.old.items ++ info_reply self.now.view.group) }
    {
        let insts = self.group.module().accepted().insts();
        let info = Info {
            words: module_words(insts)?,
            instructions: insts.len() as u64,
            ignored: self.info.tables.ignored(),
            invocations: u64::from(self.group.invocations()),
            entries: self.group.schedule().len(),
        };
        push_info(self.alloc, text, info)
    }

    /// Appends the line of each invocation, in the order of their numbers.
    fn push_group(&self, text: &mut Vec<u8>) -> Result<(), NoMemory>
        ensures { OnOk result (text.new.items ≡ text.old.items ++ group_reply self.now.view.group) }
    {
        for inv in 0..self.group.invocations() {
            self.push_invocation(text, inv)?;
        }
        Ok(())
    }

    /// Appends how far an invocation is, and where it stands.
    fn push_invocation(&self, text: &mut Vec<u8>, inv: u32) -> Result<(), NoMemory>
        requires { inv < invocations_in self.now.view.group }
        ensures { OnOk result (text.new.items ≡ text.old.items ++ invocation_reply self.now.view.group inv) }
    {
        let status = self.group.status(inv);
        let frame = self.innermost(inv)?;
        push_invocation(self.alloc, text, inv, status, frame.as_ref())
    }

    /// Appends the position, and where an invocation stands there.
    pub(crate) fn push_place(&self, text: &mut Vec<u8>, inv: u32) -> Result<(), NoMemory>
        requires { inv < invocations_in self.now.view.group }
        ensures { OnOk result (text.new.items ≡ text.old.items ++ place_reply (focus_on inv self.now.view)) }
    {
        let frame = self.innermost(inv)?;
        push_position(self.alloc, text, self.group.position(), inv, frame.as_ref())
    }
}

/// A kit of probes that follows a run, and beside it the group that lines of input ask about.
#[derive(Drop)]
pub struct Session {
    pub kit: Kit,
    pub core: Core,
}

impl Session {
    /// A session over a group at its start, with the invocation 0 as its focus, and with the probes that are handed in.
    pub fn open(
        alloc: Global,
        group: Group,
        probes: Vec<Box<dyn Probe>>,
    ) -> Result<Session, NoMemory>
        requires position { group.group.position ≡ 0 }
        requires few { vec_len probes ≤ 16 }
        requires unused { All (λ p. tally p ≡ 0) probes.items }
        ensures core { IfOk result (λ s. s.core ≡ first_viewing group) }
        ensures kit { IfOk result (λ s. s.kit.boxes.items ≡ map Some probes.items) }
        ensures follows { IfOk result (λ s. IsKitOf (λ p. tally p) (λ p. test p) (map (λ p. Some (test p)) probes.items) s.core.view s.kit.boxes.items) }
        ensures tests { IfOk result (λ s. tests_of (λ p. test p) s.kit.boxes.items ≡ map (λ p. Some (test p)) probes.items) }
        ensures own { IfOk result (λ s. IsKitOf (λ p. tally p) (λ p. test p) (tests_of (λ p. test p) s.kit.boxes.items) s.core.view s.kit.boxes.items) }
    {
        Ok(Session {
            kit: Kit::new(alloc, probes)?,
            core: Core::open(alloc, group)?,
        })
    }

    /// Answers a line: appends the reply. Only motions and `order` take steps: forth one for each event, and at most one more; back none to a
    /// number and at most one else, where the events that it looks at are kept. Else it makes events from the start on: those before the
    /// number, or twice as many as aren't kept; and where a probe is told of them, all before the position, or three times as many as aren't
    /// kept and one. `order` goes to its events and back, so it may change how far back events are kept, also where it is refused (C13). After
    /// want of memory a front of the reply was appended, the group is at some position of its run, and all else of the view is the old one's
    /// or the reply's.
    ///
    /// The probes follow the run: whatever was answered, each that isn't dropped has its setting, and the count of the events before the
    /// position, with their lines, that it hits.
    pub fn command<L: Ledger>(
        &mut self,
        line: &[u8],
        out: &mut Vec<u8>,
        steps: &mut Steps<L>,
    ) -> Result<Next, NoMemory>
        requires { (settings : Settings) × IsKitOf (λ p. (⟦<dyn Probe as Probe>⟧ p.vtable).tally p.value) (λ p. (⟦<dyn Probe as Probe>⟧ p.vtable).test p.value) settings self.old.core.view self.old.kit.boxes.items }
        ensures text { OnOk result (out.new.items ≡ out.old.items ++ (line_reply (tests_of (λ p. (⟦<dyn Probe as Probe>⟧ p.vtable).test p.value) self.old.kit.boxes.items) self.old.core.view line.now).0) }
        ensures view { OnOk result (self.new.core.view ≡ (line_reply (tests_of (λ p. (⟦<dyn Probe as Probe>⟧ p.vtable).test p.value) self.old.kit.boxes.items) self.old.core.view line.now).1) }
        ensures next { IfOk result (λ next. next ≡ (if is_quit line.now then answers.Quit else answers.Go)) }
        ensures front { OnErr result ((text : List ℕ) × (out.new.items ≡ out.old.items ++ text) × IsPrefixOf text (line_reply (tests_of (λ p. (⟦<dyn Probe as Probe>⟧ p.vtable).test p.value) self.old.kit.boxes.items) self.old.core.view line.now).0) }
        ensures group { self.new.core.view.group ≡ group_at self.new.core.view.group.position self.old.core.view.group }
        ensures limit { self.new.core.limit ≡ self.old.core.limit }
        ensures kept { self.new.core.kept ≤ max (line_kept self.old.core line.now) (window_in (undoing_in self.new.core)) }
        ensures same { IsEither self.new.core.view self.old.core.view (line_reply (tests_of (λ p. (⟦<dyn Probe as Probe>⟧ p.vtable).test p.value) self.old.kit.boxes.items) self.old.core.view line.now).1 }
        ensures within { self.new.core.view.group.position ≤ end_in self.old.core.view.group }
        ensures refused { (code : ℕ) → line_refusal (tests_of (λ p. (⟦<dyn Probe as Probe>⟧ p.vtable).test p.value) self.old.kit.boxes.items) self.old.core.view line.now ≡ Some code
            → (code ≢ 13 → (self.new.core ≡ self.old.core) × (self.new.kit.boxes.items ≡ self.old.kit.boxes.items)) × OnOk result (out.new.items ≡ out.old.items ++ refusal_line code) }
        ensures follows { (settings : Settings) → IsKitOf (λ p. (⟦<dyn Probe as Probe>⟧ p.vtable).tally p.value) (λ p. (⟦<dyn Probe as Probe>⟧ p.vtable).test p.value) settings self.old.core.view self.old.kit.boxes.items
            → IsKitOf (λ p. (⟦<dyn Probe as Probe>⟧ p.vtable).tally p.value) (λ p. (⟦<dyn Probe as Probe>⟧ p.vtable).test p.value) settings self.new.core.view self.new.kit.boxes.items }
        ensures counted { steps.old ≤ steps.new }
        ensures cost { steps.new ≤ steps.old + cost_by (tests_of (λ p. (⟦<dyn Probe as Probe>⟧ p.vtable).test p.value) self.old.kit.boxes.items) (line_kept self.old.core line.now) self.old.core.view line.now }
    {
        self.core.command(&mut self.kit, line, out, steps)
    }
}
