//! Events that are taken back.
ghost use Rattle.std.specs.Prelude.{◌≡◌, [], IfOk};

use spv_base::{Happening, NoMemory};
use spv_group::Witness;
use std::alloc::Global;

/// Events in their order.
#[derive(Drop)]
pub(crate) struct Past {
    pub(crate) events: Vec<Happening>,
}

impl Past {
    /// None, with room for so many.
    pub(crate) fn with_room(alloc: Global, count: usize) -> Result<Past, NoMemory>
        ensures { IfOk result (λ past. past.events.items ≡ []) }
    {
        Ok(Past {
            events: Vec::with_capacity(alloc, count)?,
        })
    }
}

impl Witness for Past {
    ghost follows = { λ events it. it.events.items ≡ events };

    fn tell(&mut self, happening: &Happening) -> Result<(), NoMemory> {
        self.events.push(*happening)?;
        Ok(())
    }
}
