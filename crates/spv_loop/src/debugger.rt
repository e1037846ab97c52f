//! What answers lines of input.
ghost use Rattle.std.specs.Prelude.{◌≡◌, ◌≤◌, ◌+◌, ◌++◌, IfOk, OnOk, max, if◌then◌else◌};
ghost use Rattle.spv_group.specs.Group.{group_at, window_in};
ghost use Rattle.spv_session.specs.Costs.{line_cost, line_kept};
ghost use Rattle.spv_session.specs.Reply.{reply, is_quit};
ghost use Rattle.spv_session.specs.View.{Settings, Viewing, undoing_in};
ghost use Rattle.spv_session.specs.declared.session.Next.TheVariants as answers;

use spv_base::{NoMemory, Steps};
use spv_session::Next;
use std::sync::ledger::Ledger;

/// A debugger: it replies to lines of input about a view, by the settings that its probes were handed in with.
///
/// The crate above has it for sessions: the borrow checker takes no call with boxed probes at a type whose `impl` of a trait stands in
/// another crate and names them.
pub trait Debugger {
    /// The view, and how far back it can undo.
    ghost viewing: { Self → Viewing };

    /// The tests of the probes that are there.
    ghost tests: { Self → Settings };

    /// It has the probes of these settings that weren't dropped, and each has counted the events before the view's position.
    ghost follows: { Settings → Self → Type 0 };

    /// Answers a line: appends the reply.
    fn command<L: Ledger>(
        &mut self,
        line: &[u8],
        out: &mut Vec<u8>,
        steps: &mut Steps<L>,
    ) -> Result<Next, NoMemory>
        requires { (settings : Settings) × follows settings self.old }
        ensures text { (settings : Settings) → follows settings self.old
            → OnOk result (out.new.items ≡ out.old.items ++ (reply settings (viewing self.old).view line.now).0) }
        ensures view { (settings : Settings) → follows settings self.old → OnOk result ((viewing self.new).view ≡ (reply settings (viewing self.old).view line.now).1) }
        ensures next { IfOk result (λ next. next ≡ (if is_quit line.now then answers.Quit else answers.Go)) }
        ensures group { (viewing self.new).view.group ≡ group_at (viewing self.new).view.group.position (viewing self.old).view.group }
        ensures limit { (viewing self.new).limit ≡ (viewing self.old).limit }
        ensures kept { (viewing self.new).kept ≤ max (line_kept (viewing self.old) line.now) (window_in (undoing_in (viewing self.new))) }
        ensures follows { (settings : Settings) → follows settings self.old → follows settings self.new }
        ensures counted { steps.old ≤ steps.new }
        ensures cost { (settings : Settings) → follows settings self.old
            → steps.new ≤ steps.old + line_cost settings (line_kept (viewing self.old) line.now) (viewing self.old).view line.now };
}
