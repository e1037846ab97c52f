//! Who is told of the events that a group takes back.
ghost use Rattle.std.specs.Prelude.{List, [], ◌∷◌, ◌++◌, OnOk};
ghost use Rattle.spv_base.specs.declared.happenings.Happening.{Happening};

use spv_base::{Happening, NoMemory};

/// Who is told of events. What was told stands for nothing where the call that told it finds no memory.
pub trait Witness {
    /// How it stands once it has been told of these events, in their order.
    ghost follows: { List Happening → Self → Type 0 };

    /// Is told of an event.
    fn tell(&mut self, happening: &Happening) -> Result<(), NoMemory>
        ensures { (before : List Happening) → follows before self.old → OnOk result (follows (before ++ happening.now ∷ []) self.new) };
}
