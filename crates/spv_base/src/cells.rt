//! Scalars with their marks.
ghost use Rattle.std.specs.Prelude.{◌≡◌};
ghost use Rattle.spv_base.specs.Cell.{defined_number};

use std::marker::Model;

/// A scalar of `width` bits, or an undefined one, whose bits are 0.
///
/// The width is 8, 16, 32 or 64 for an integer and 1 for a Boolean; the bits are below 2 ^ width.
#[derive(Clone, Copy, PartialEq, Eq)]
pub struct Cell {
    pub bits: u64,
    pub width: u8,
    pub defined: bool,
}

impl Model for Cell {
    ghost use Rattle.spv_base.specs.Cell as spec;
    ghost use Rattle.spv_base.specs.Cell.{IsCell};

    ghost Value = { spec.Cell };

    ghost view = { λ c. record { bits = c.bits; width = c.width; defined = c.defined } };

    ghost invariant = { λ c. IsCell (record { bits = c.bits; width = c.width; defined = c.defined }) };

    ghost inverse = { λ l. record { bits = l.bits; width = l.width; defined = l.defined } };
}

impl Cell {
    /// The number, if it is defined.
    pub fn number(self) -> Option<u64>
        ensures { result ≡ defined_number self }
    {
        if self.defined { Some(self.bits) } else { None }
    }
}
