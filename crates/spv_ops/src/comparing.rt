//! Whether instructions and operands are the same.
ghost use Rattle.std.specs.Prelude.{◌≡◌, ◌↔◌, IsTrue};

use spv_base::{Inst, Operand};

fn is_same(a: &Operand, b: &Operand) -> bool
    ensures { IsTrue result ↔ (a.now ≡ b.now) }
{
    match (a, b) {
        (Operand::Id(a), Operand::Id(b)) => *a == *b,
        (Operand::Lit(a), Operand::Lit(b)) => *a == *b,
        (Operand::Text(a), Operand::Text(b)) => a.as_slice() == b.as_slice(),
        _ => false,
    }
}

fn are_same(a: &[Operand], b: &[Operand]) -> bool
    ensures { IsTrue result ↔ (a.now ≡ b.now) }
{
    let mut rest_a = a;
    let mut rest_b = b;
    while let ([first_a, more_a @ ..], [first_b, more_b @ ..]) = (rest_a, rest_b) {
        if !is_same(first_a, first_b) {
            return false;
        }
        rest_a = more_a;
        rest_b = more_b;
    }
    rest_a.is_empty() && rest_b.is_empty()
}

/// Whether two instructions are the same.
pub fn is_same_inst(a: &Inst, b: &Inst) -> bool
    ensures { IsTrue result ↔ (a.now ≡ b.now) }
{
    a.word == b.word
        && a.op == b.op
        && a.ty == b.ty
        && a.id == b.id
        && are_same(a.operands.as_slice(), b.operands.as_slice())
}
