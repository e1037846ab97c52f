//! The replies to the commands on variables and ids.
ghost use Rattle.std.specs.Prelude.{◌≡◌, ◌++◌, OnOk, Some, option_copied};
ghost use Rattle.std.specs.List.{flat_map};
ghost use Rattle.spv_cmd.specs.declared.command.PathText.TheVariants as path;
ghost use Rattle.spv_expr.specs.Typing.{typing_of};
ghost use Rattle.spv_group.specs.Group.{state_in};
ghost use Rattle.spv_paths.specs.Variables.{locals};
ghost use Rattle.spv_session.specs.Reply.{frame_told, globals_reply, locals_told, part_told, print_told, told_reply};
ghost use Rattle.spv_search.specs.Keys.{tables_in};
ghost use Rattle.spv_session.specs.Shown.{focus_frames};
ghost use Rattle.spv_session.specs.Variables.{focus_calls, line_in, named, selected};

use crate::frames::NO_SUCH_NAME;
use crate::session::Core;
use crate::sights::{Sight, push_id_line};
use crate::texts::refusal_line;
use spv_base::NoMemory;
use spv_cmd::{PathParts, PathText, ValuePath};
use spv_dbg::ShownFrame;
use spv_expr::Events;
use spv_ids::id_text;

impl Core {
    /// Where variables of the focus are read, with a shown frame or none.
    pub(crate) fn sight<'a>(&'a self, frame: Option<&'a ShownFrame>) -> Sight<'a>
        ensures tables { result.tables.now ≡ tables_in self.now.view.group }
        ensures typed { result.sizes.now ≡ typing_of result.memory.now }
        ensures memory { result.memory.now ≡ (state_in self.now.view.group).memory }
        ensures inv { result.inv ≡ self.now.view.focus }
        ensures stack { result.stack.now ≡ focus_calls self.now.view }
        ensures frame { result.frame ≡ frame.entry }
    {
        let state = self.group.world().whole();
        Sight {
            tables: &self.info.tables,
            sizes: &self.info.sizes,
            memory: state.memory(),
            stack: state.stack(self.focus),
            inv: self.focus,
            frame,
        }
    }

    /// Appends the variables that are seen from the selected frame.
    pub(crate) fn push_locals(&self, text: &mut Vec<u8>) -> Result<(), NoMemory>
        ensures { OnOk result (text.new.items ≡ text.old.items
            ++ (told_reply self.now.view (frame_told (locals_told self.now.view) (focus_frames self.now.view) self.now.view.frame)).0) }
    {
        match self.focus_frame(self.frame)? {
            Err(refusal) => text.extend_from_slice(refusal_line(refusal))?,
            Ok(frame) => self.push_locals_of(text, &frame)?,
        }
        Ok(())
    }

    /// Appends the variables that are seen from a shown frame.
    fn push_locals_of(&self, text: &mut Vec<u8>, frame: &ShownFrame) -> Result<(), NoMemory>
        ensures { OnOk result (text.new.items ≡ text.old.items ++ flat_map (line_in self.now.view (Some frame.now)) (locals (tables_in self.now.view.group) frame.now.scope)) }
    {
        let ids = self
            .info
            .variables
            .locals(self.alloc, &self.info.tables, frame.scope)?;
        let sight = self.sight(Some(frame));
        let events = Events::of(self.alloc, sight.tables, sight.stack, sight.frame)?;
        sight.push_variables(self.alloc, text, Some(&events), ids.as_slice())
    }

    /// Appends the globals.
    pub(crate) fn push_globals(&self, text: &mut Vec<u8>) -> Result<(), NoMemory>
        ensures { OnOk result (text.new.items ≡ text.old.items ++ globals_reply self.now.view) }
    {
        let frame = self.selected()?;
        self.sight(frame.as_ref())
            .push_variables(self.alloc, text, None, self.info.variables.globals())
    }

    /// Appends what a path names, or why it names nothing.
    pub(crate) fn push_path(&self, text: &mut Vec<u8>, path: &ValuePath) -> Result<(), NoMemory>
        ensures { OnOk result (text.new.items ≡ text.old.items ++ (told_reply self.now.view (print_told path.now self.now.view)).0) }
    {
        let selected = self.selected()?;
        let frame = selected.as_ref();
        match path.text() {
            PathText::Id(id) => self.push_id(text, frame, *id),
            PathText::Name { name, parts } => {
                self.push_part(text, frame, path.text(), name.as_slice(), parts)
            }
        }
    }

    /// Appends the part of a variable that the parts of a path name, or why there is none.
    fn push_part(
        &self,
        text: &mut Vec<u8>,
        frame: Option<&ShownFrame>,
        path: &PathText,
        name: &[u8],
        parts: &PathParts,
    ) -> Result<(), NoMemory>
        requires { option_copied frame ≡ selected self.now.view }
        ensures { OnOk result (text.new.items ≡ text.old.items ++ (told_reply self.now.view (part_told self.now.view path.now (named self.now.view name.now parts.now))).0) }
    {
        let sight = self.sight(frame);
        match sight.named(&self.info.variables, name, parts)? {
            Err(refusal) => Ok(text.extend_from_slice(refusal_line(refusal))?),
            Ok(named) => sight.push_path(self.alloc, text, path, named),
        }
    }

    /// Appends what an id stands for in the call of a frame, or that it stands for nothing there.
    fn push_id(
        &self,
        text: &mut Vec<u8>,
        frame: Option<&ShownFrame>,
        id: u32,
    ) -> Result<(), NoMemory>
        requires { option_copied frame ≡ selected self.now.view }
        ensures { OnOk result (text.new.items ≡ text.old.items ++ (told_reply self.now.view (print_told (path.Id id) self.now.view)).0) }
    {
        let depth = match frame {
            Some(frame) => Some(frame.depth),
            None => None,
        };
        let mut value = Vec::new(self.alloc);
        let module = self.group.module();
        let state = self.group.world().whole();
        if !id_text(self.alloc, module, state, self.focus, depth, id, &mut value)? {
            text.extend_from_slice(refusal_line(NO_SUCH_NAME))?;
            return Ok(());
        }
        push_id_line(self.alloc, text, id, value.as_slice())
    }
}
