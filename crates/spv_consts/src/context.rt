//! What the constants of a module are read by.
ghost use Rattle.std.specs.Prelude.{◌≡◌};
ghost use Rattle.spv_consts.specs.Context.{has_undef_before, is_undef_before};
ghost use Rattle.spv_consts.specs.Overrides.{override_of};

use crate::overrides::spec_id_of;
use spv_base::Inst;
use spv_index::{Index, Table};
use spv_ops::op;
use std::marker::Model;

/// The index of a module, and the overrides that hold.
#[derive(Drop)]
pub(crate) struct Context<'a> {
    pub(crate) index: &'a Index,
    pub(crate) held: Table<i128>,
}

impl<'a> Model for Context<'a> {
    ghost use Rattle.spv_consts.specs.Context as spec;

    ghost Value = { spec.Context };

    ghost view = { λ c. record { all = c.index.now.insts; held = c.held } };
}

fn is_undef_before(word: u32, inst: &Inst) -> bool
    ensures { result ≡ is_undef_before word inst.now }
{
    inst.op == op::UNDEF && inst.word < word
}

impl<'a> Context<'a> {
    /// Whether an id is an OpUndef before a word.
    pub(crate) fn has_undef_before(&self, word: u32, id: u32) -> bool
        ensures { result ≡ has_undef_before self.now word id }
    {
        match self.index.defining(id) {
            Some(inst) => is_undef_before(word, inst),
            None => false,
        }
    }

    /// The number that overrides a constant.
    pub(crate) fn override_of(&self, inst: &Inst) -> Option<i128>
        ensures { result ≡ override_of self.now.all self.now.held inst.now }
    {
        let spec = spec_id_of(self.index, inst)?;
        self.held.get(spec)
    }
}
