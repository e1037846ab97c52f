//! What each id of a module stands for, and from where it can be named (SPIR-V 1.6 section 2.16.1).
ghost use Rattle.std.specs.Prelude.{◌≡◌, option_copied};
ghost use Rattle.spv_sections.specs.Definitions as spec;

use crate::kinds::Kind;
use spv_base::Inst;
use spv_index::Index;
use spv_index::positions::{Position, Standing};
use spv_ops::op;

/// From where an id can be named, and which ids an instruction can name.
#[derive(Clone, Copy)]
pub enum Home {
    /// Of an instruction: it can name each id, also one of a function that it doesn't stand in.
    Anywhere,
    /// Of an id: it can be named from anywhere. Of an instruction: it stands in no function.
    Module,
    /// Within the function whose OpFunction has this word number.
    Within(u32),
}

/// What an id stands for, from where it can be named, and the word of the instruction that defines it.
#[derive(Clone, Copy)]
pub struct Definition {
    pub kind: Kind,
    pub home: Home,
    pub word: u32,
}

impl Home {
    /// Where an instruction stands.
    pub fn of(position: Position) -> Home
        ensures { result ≡ spec.home_of position }
    {
        if position.stage.in_function() {
            Home::Within(position.function_word)
        } else {
            Home::Module
        }
    }

    /// Whether an id of another home can be named from here.
    pub fn sees(self, other: Home) -> bool
        ensures { result ≡ spec.sees self other }
    {
        match (self, other) {
            (Home::Anywhere, _) => true,
            (_, Home::Anywhere) => true,
            (_, Home::Module) => true,
            (Home::Module, Home::Within(_)) => false,
            (Home::Within(here), Home::Within(there)) => here == there,
        }
    }
}

impl Definition {
    /// What the result of an instruction at a position stands for.
    fn of(position: Position, inst: &Inst) -> Definition
        ensures { result ≡ spec.definition_at position inst.now }
    {
        Definition {
            kind: Kind::of(position.stage.in_function(), inst.op),
            home: if inst.op == op::FUNCTION {
                Home::Module
            } else {
                Home::of(position)
            },
            word: inst.word,
        }
    }

    /// What an id stands for that is defined by an instruction with a standing.
    fn of_parts(inst: Option<&Inst>, standing: Option<Standing>) -> Option<Definition>
        ensures { result ≡ spec.by_parts (option_copied inst.entry) standing }
    {
        let inst = inst?;
        let standing = standing?;
        Some(Definition::of(standing.position, inst))
    }

    /// The first definition of an id below the Bound.
    pub fn first(index: &Index, id: u32) -> Option<Definition>
        ensures { result ≡ spec.first index.now id }
    {
        let limit = index.bound();
        if !is_below(limit, id) {
            return None;
        }
        Definition::of_parts(index.defining(id), index.standing(id))
    }
}

/// Whether a number is an id below a Bound.
fn is_below(bound: u32, id: u32) -> bool
    ensures { result ≡ spec.is_id bound id }
{
    0 < id && id < bound
}

/// Whether a number is an id below the Bound.
pub fn is_id(index: &Index, id: u32) -> bool
    ensures { result ≡ spec.is_id index.now.bound id }
{
    is_below(index.bound(), id)
}
