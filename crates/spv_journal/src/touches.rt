//! What an event did, told by its changes without undoing them.
ghost use Rattle.std.specs.Prelude.{◌≡◌, List, ◌∷◌, ◌++◌, [], IfSome, IsSome, true};
ghost use Rattle.spv_undo.specs.OldValues.{popped};
ghost use Rattle.spv_undo.specs.declared.entries.Entry.{Entry as AnyEntry};
ghost use Rattle.spv_undo.specs.declared.entries.Entry.TheVariants.{EventAppended, FramePushed};
ghost use Rattle.spv_journal.specs.Touches.{IsTouchOf};

use spv_undo::Entry;

/// Whether a frame came or went.
#[derive(Clone, Copy)]
pub enum FrameChange {
    /// There are as many as before.
    Same,
    /// One came.
    Pushed,
    /// The top one went.
    Popped,
}

/// What an event did.
#[derive(Clone, Copy)]
pub struct Touch {
    /// Whether variables were stored to.
    pub stores: bool,
    /// How many debug events the top frame passed.
    pub events: u32,
    /// Whether a frame came or went.
    pub frames: FrameChange,
}

impl Touch {
    /// The same with a variable that was stored to before.
    fn with_store(self) -> Touch
        ensures { result ≡ record self { stores = true } }
    {
        Touch {
            stores: true,
            ..self
        }
    }

    /// The same with a debug event that was passed before; none where a frame came or went since, so that it was another one's.
    fn with_event(self) -> Option<Touch>
        ensures { IfSome result (λ t. (es : List AnyEntry) → IsTouchOf es self → IsTouchOf (es ++ EventAppended ∷ []) t) }
    {
        match self.frames {
            FrameChange::Same => Some(Touch {
                events: self.events.checked_add(1)?,
                ..self
            }),
            FrameChange::Pushed | FrameChange::Popped => None,
        }
    }

    /// The same with a frame that came before; none where another one came or went since.
    fn with_pushed(self) -> Option<Touch>
        ensures { IfSome result (λ t. (es : List AnyEntry) → IsTouchOf es self → IsTouchOf (es ++ FramePushed ∷ []) t) }
    {
        match self.frames {
            FrameChange::Same => Some(Touch {
                frames: FrameChange::Pushed,
                ..self
            }),
            FrameChange::Pushed | FrameChange::Popped => None,
        }
    }

    /// The same with a frame that went before; none where another one came or went since.
    fn with_popped(self, entry: &Entry) -> Option<Touch>
        requires { IsSome (popped entry.now) }
        ensures { IfSome result (λ t. (es : List AnyEntry) → IsTouchOf es self → IsTouchOf (es ++ entry.now ∷ []) t) }
    {
        match self.frames {
            FrameChange::Same => Some(Touch {
                frames: FrameChange::Popped,
                ..self
            }),
            FrameChange::Pushed | FrameChange::Popped => None,
        }
    }

    /// The same with a change before; none where they are of another form: a frame comes or goes once, and no debug event is older.
    pub(crate) fn with(self, entry: &Entry) -> Option<Touch>
        ensures { IfSome result (λ t. (es : List AnyEntry) → IsTouchOf es self → IsTouchOf (es ++ entry.now ∷ []) t) }
    {
        match entry {
            Entry::EventAppended => self.with_event(),
            Entry::FramePushed => self.with_pushed(),
            Entry::FramePopped(_) => self.with_popped(entry),
            Entry::Leaf { .. } => Some(self.with_store()),
            Entry::Part(_) => Some(self.with_store()),
            _ => Some(self),
        }
    }
}
