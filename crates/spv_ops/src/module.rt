//! A decoded module: its instructions and the Bound of its ids.
ghost use Rattle.std.specs.Prelude.{◌≡◌, ◌↔◌, ◌<◌, ◌≤◌, IsTrue, MatchOption};
ghost use Rattle.std.specs.List.{AllByRecursion};
ghost use Rattle.spv_base.specs.Order.{Ascend};
ghost use Rattle.spv_ops.specs.Module.{IsDecoded};

use spv_base::Inst;
use std::marker::Model;

/// The greatest Bound of a module's ids.
pub const GREATEST_BOUND: u32 = 1_048_576;

/// The words of a module are below this number: a module has at most 4 MiB.
pub const WORD_LIMIT: u32 = 1_048_576;

/// The instructions of a module, whose words ascend, and the Bound of its ids (SPIR-V 1.6 section 2.3).
#[derive(Drop)]
pub struct DecodedModule {
    insts: Vec<Inst>,
    bound: u32,
}

impl Model for DecodedModule {
    ghost use Rattle.spv_ops.specs.Module.{Decoded, IsDecoded};

    ghost Value = { Decoded };

    ghost view = { λ m. record { insts = m.insts.items; bound = m.bound } };

    ghost invariant = { λ m. IsDecoded (record { insts = m.insts.items; bound = m.bound }) };
}

/// Whether each instruction stands behind the one before, and none past 4 MiB.
fn stand_in_order(insts: &[Inst]) -> bool
    ensures { IsTrue result ↔ (Ascend 0 insts.now × AllByRecursion (λ i. i.word < 1048576) insts.now) }
{
    let mut next = 0;
    for inst in insts {
        if inst.word < next || inst.word >= WORD_LIMIT {
            return false;
        }
        next = inst.word + 1;
    }
    true
}

impl DecodedModule {
    /// The module with these instructions, where their words ascend and are below 1,048,576, and its Bound is at most 1,048,576.
    pub fn of(insts: Vec<Inst>, bound: u32) -> Option<DecodedModule>
        ensures { MatchOption result (¬ (IsDecoded (record { insts = insts.items; bound = bound }))) (λ m. m ≡ record { insts = insts.items; bound = bound }) }
    {
        if bound > GREATEST_BOUND || !stand_in_order(&insts) {
            return None;
        }
        Some(DecodedModule { insts, bound })
    }

    /// The instructions, in their order.
    pub fn insts(&self) -> &[Inst]
        ensures insts { result.now ≡ self.now.insts }
        ensures decoded { IsDecoded self.now }
    {
        self.insts.as_slice()
    }

    /// The Bound: every id of a module in order is below it. It is at most 1,048,576.
    pub fn bound(&self) -> u32
        ensures bound { result ≡ self.now.bound }
        ensures limit { result ≤ 1048576 }
    {
        self.bound
    }
}
