//! Opcodes by their names.
ghost use Rattle.std.specs.Prelude.{◌≡◌, ◌≢◌, ◌↔◌, ℕ, map, Some, IsTrue, MatchOption};
ghost use Rattle.std.specs.List.{AllByRecursion};
ghost use Rattle.spv_ops.specs.Grammar.{row_of};
ghost use Rattle.spv_ops.specs.Opcodes.{Row};
ghost use Rattle.spv_text.specs.Names.{IsAmong};
ghost use Rattle.spv_text.specs.Reading.{IsOpcode};

use crate::fronts::after;
use spv_ops::{Opcode, all_opcodes};

/// Whether an opcode has this name, which is without `Op`.
fn is_named(opcode: &Opcode, name: &[u8]) -> bool
    ensures { IsTrue result ↔ (opcode.now.1.now ≡ name.now) }
{
    opcode.1.as_bytes() == name
}

/// The opcode of a table with this name.
fn found_in(table: &[Opcode], name: &[u8]) -> Option<Opcode>
    ensures { MatchOption result
        (AllByRecursion (λ (row : Row). row.1 ≢ name.now) (map (λ o. (o.0, o.1.now, o.2, o.3.now, o.4)) table.now))
        (λ o. IsAmong (o.0, o.1.now, o.2, o.3.now, o.4) (map (λ o. (o.0, o.1.now, o.2, o.3.now, o.4)) table.now) × (o.1.now ≡ name.now)) }
{
    for opcode in table {
        if is_named(opcode, name) {
            return Some(*opcode);
        }
    }
    None
}

/// The opcode with this name, which has `Op` before it.
pub fn opcode_named(name: &[u8]) -> Option<Opcode>
    ensures { MatchOption result
        ((op : ℕ) → IsOpcode op name.now → ⊥)
        (λ o. (row_of o.0 ≡ Some (o.0, o.1.now, o.2, o.3.now, o.4)) × IsOpcode o.0 name.now) }
{
    let short = after(name, b"Op")?;
    found_in(all_opcodes(), short)
}
