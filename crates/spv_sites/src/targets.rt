//! Where stores go.
ghost use Rattle.std.specs.Prelude.{◌≡◌, [], IfOk};

use spv_base::{NoMemory, Pointer, Root};
use std::alloc::Global;
use std::marker::Model;

/// What a pointer leads to: a whole variable, or a part of one. What leads into a variable is boxed, so that an effect is small.
#[derive(Drop)]
pub enum Place {
    Whole(Root),
    Part(Box<Pointer>),
}

/// Where a store goes. Contracts see the pointer that leads there.
#[derive(Drop)]
pub struct Target {
    pub place: Place,
}

impl Model for Target {
    ghost use Rattle.spv_base.specs.contracts.values.Pointer.{the_row};
    ghost use Rattle.spv_base.specs.declared.values.Pointer.{Pointer as Reference};
    ghost use Rattle.spv_sites.specs.Targets.{leading_to};

    ghost Value = { Reference };

    ghost coded = { the_row.coded };

    ghost view = { λ t. leading_to t.place };
}

impl Target {
    /// A whole variable. It takes no memory.
    pub fn whole(root: Root) -> Target
        ensures { result ≡ record { root = root; path = [] } }
    {
        Target {
            place: Place::Whole(root),
        }
    }

    /// Where a pointer leads. It takes no memory where that is a whole variable.
    pub fn of(alloc: Global, pointer: Pointer) -> Result<Target, NoMemory>
        ensures { IfOk result (λ target. target ≡ pointer) }
    {
        if pointer.path.as_slice().is_empty() {
            return Ok(Target::whole(pointer.root));
        }
        Ok(Target {
            place: Place::Part(Box::new(alloc, pointer)?),
        })
    }

    /// The variable.
    pub fn root(&self) -> Root
        ensures { result ≡ self.now.root }
    {
        match &self.place {
            Place::Whole(root) => *root,
            Place::Part(pointer) => pointer.root,
        }
    }
}
