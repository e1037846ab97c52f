//! Laws of the bits of values and of variables.
ghost use Rattle.std.specs.Prelude.{◌≡◌, ◌++◌, ℕ, List, Option, false};
ghost use Rattle.std.specs.List.{All};
ghost use Rattle.spv_base.specs.Bits.{bits};
ghost use Rattle.spv_base.specs.declared.values.PassedEvent.{PassedEvent};
ghost use Rattle.spv_base.specs.declared.values.Value.{Value};
ghost use Rattle.spv_dbg.specs.declared.frames.ShownFrame.{ShownFrame};
ghost use Rattle.spv_dbg.specs.Tables.{Tables};
ghost use Rattle.spv_frame.specs.Stacks.{Stacked};
ghost use Rattle.spv_mem.specs.Memory.{Held as Memory};
ghost use Rattle.spv_types.specs.Rows.{leaves};
ghost use Rattle.spv_expr.specs.Bits.{bits_of, events_in, variable_bit};
ghost use Rattle.spv_expr.specs.Groups.{is_event_of};

/// The bits of a value are those of its leaves in order.
pub fn bits_are_those_of_leaves()
    ensures { (v : Value) → bits v ≡ bits_of (leaves v) }
{}

/// A variable has the same bits in two stacks where the real frame of the shown frame has passed the same events.
pub fn bits_are_by_events()
    ensures { (m : Memory) (inv : ℕ) (t : Tables) (s u : Stacked) (f : Option ShownFrame) (id : ℕ) → events_in s f ≡ events_in u f
        → (j : ℕ) → variable_bit m inv t s f id j ≡ variable_bit m inv t u f id j }
{}

/// So it has where one of them has passed more events, which are of other variables.
pub fn other_events_tell_nothing()
    ensures { (m : Memory) (inv : ℕ) (t : Tables) (s u : Stacked) (f : Option ShownFrame) (id : ℕ) (more : List PassedEvent) → events_in u f ≡ events_in s f ++ more
        → All (λ e. is_event_of t id e.word ≡ false) more → (j : ℕ) → variable_bit m inv t s f id j ≡ variable_bit m inv t u f id j }
{}
