//! The instructions of a module, each with where it stands and what it is there.
ghost use Rattle.std.specs.Prelude.{◌≡◌, ◌<◌, ◌+◌, ◌∷◌, ◌&&◌, drop, length, map, slice_index_or};
ghost use Rattle.spv_index.specs.Classes.{is_executable};
ghost use Rattle.spv_index.specs.Positions as spec;

use crate::classes::Class;
use crate::positions::{Position, Standing};
use spv_base::Inst;
use std::marker::Model;

/// An instruction with where it stands and what it is there.
#[derive(Drop)]
pub struct Stand<'a> {
    pub position: Position,
    pub class: Class,
    pub inst: &'a Inst,
}

impl<'a> Stand<'a> {
    /// Whether a run stops at it: an executable in a block.
    pub fn is_stop(&self) -> bool
        ensures { result ≡ (is_executable self.now.class && spec.in_block self.now.position.stage) }
    {
        self.class.is_executable() && self.position.stage.in_block()
    }
}

/// The instructions of a module, each with where it stands.
#[derive(Drop)]
pub struct Stands<'a> {
    insts: &'a [Inst],
    standings: &'a [Standing],
}

impl<'a> Model for Stands<'a> {
    ghost use Rattle.std.specs.Prelude.{◌≡◌, List, map};
    ghost use Rattle.spv_index.specs.Positions as spec;

    ghost Value = { List spec.Stand };

    ghost view = { λ x. spec.stands_of x.insts.now };

    ghost invariant = { λ x. x.standings.now ≡ map spec.standing (spec.stands_of x.insts.now) };
}

fn standing_at(standings: &[Standing], n: usize) -> Standing
    requires { n < length standings.now }
    ensures { result ≡ slice_index_or standings.now n result }
{
    standings[n]
}

fn inst_at(insts: &[Inst], n: usize) -> &Inst
    requires { n < length insts.now }
    ensures { result.now ≡ slice_index_or insts.now n result.now }
{
    &insts[n]
}

impl<'a> Stands<'a> {
    /// The instructions of a module with their standings.
    pub fn of(insts: &'a [Inst], standings: &'a [Standing]) -> Stands<'a>
        requires { standings.now ≡ map spec.standing (spec.stands_of insts.now) }
        ensures { result ≡ spec.stands_of insts.now }
    {
        Stands { insts, standings }
    }

    /// How many there are.
    pub fn len(&self) -> usize
        ensures { result ≡ length self.now }
    {
        self.insts.len()
    }

    /// The one with this number, counted from 0.
    pub fn at(&self, n: usize) -> Stand<'a>
        requires { n < length self.now }
        ensures { drop n self.now ≡ record { position = result.position; class = result.class; inst = result.inst.now } ∷ drop (n + 1) self.now }
    {
        let standing = standing_at(self.standings, n);
        Stand {
            position: standing.position,
            class: standing.class,
            inst: inst_at(self.insts, n),
        }
    }
}
