//! What is told of a module that is only checked.
ghost use Rattle.spv_base.specs.Answers.{Answers};
ghost use Rattle.spv_app.specs.Checking.{checking};

use crate::acceptance::accepted;
use spv_base::{Fail, Refusal};
use spv_words::words;
use std::alloc::Global;
use std::fmt;

/// How much an accepted module holds.
#[derive(Clone, Copy)]
pub struct Report {
    /// The number of its words, with the header's.
    pub words: usize,
    /// The number of its instructions.
    pub instructions: usize,
}

impl fmt::Display for Report {
    ghost use Rattle.std.specs.Prelude.{Some};
    ghost use Rattle.spv_app.specs.Checking.{report_text};

    ghost output = { λ report. Some (report_text report) };

    fn fmt<W: fmt::Write>(&self, f: &mut fmt::Formatter<W>) -> fmt::Result {
        let Report {
            words,
            instructions,
        } = *self;
        write!(f, "accepted: words {words}, instructions {instructions}")
    }
}

/// How much the module of these bytes holds, or the first rule that is broken.
#[tactic(auto, unfolding(crate::specs::Checking::checking))]
pub fn check_bytes(alloc: Global, bytes: &[u8]) -> Result<Report, Fail<Refusal>>
    ensures { Answers (checking bytes.now) result }
{
    let list = words(alloc, bytes)?;
    let module = accepted(alloc, &list)?;
    Ok(Report {
        words: list.items().len(),
        instructions: module.insts().len(),
    })
}
