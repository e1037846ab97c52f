//! The operations on a field of bits.
ghost use Rattle.std.specs.Prelude.{◌≡◌, ℕ, ◌+◌, ◌/◌, ◌%◌, ◌^◌, ◌<◌, ◌≤◌};
ghost use Rattle.std.specs.Int.{bit_at};
ghost use Rattle.spv_alu.specs.Integers.{IsWidth, signed};
ghost use Rattle.spv_alu.specs.Fields.{inserted_bit, field_result, field_defined, field_lane, field_op};

use crate::integers::{greatest, signed};
use crate::results::{defined_if, integer, signed_integer, undefined};
use spv_base::Cell;
use spv_ops::op;

/// An operation on a field of bits.
#[derive(Clone, Copy)]
pub enum FieldOp {
    BitFieldInsert,
    BitFieldSExtract,
    BitFieldUExtract,
}

impl FieldOp {
    /// The operation of an opcode, if it is one of these.
    #[tactic(auto, unfolding(crate::specs::Fields::field_op))]
    pub fn of(opcode: u16) -> Option<FieldOp>
        ensures { result ≡ field_op opcode }
    {
        match opcode {
            op::BIT_FIELD_INSERT => Some(FieldOp::BitFieldInsert),
            op::BIT_FIELD_S_EXTRACT => Some(FieldOp::BitFieldSExtract),
            op::BIT_FIELD_U_EXTRACT => Some(FieldOp::BitFieldUExtract),
            _ => None,
        }
    }

    /// The lane of the operation. Only an insertion looks at `insert`.
    pub fn apply(self, base: Cell, insert: Cell, offset: Cell, count: Cell) -> Cell
        requires { IsWidth base.width }
        ensures lane { result ≡ field_lane self base insert offset count }
        ensures width { result.width ≡ base.width }
    {
        let defined = self.is_defined(base, insert, offset, count);
        let result = self.result(base.bits, insert.bits, offset.bits, count.bits, base.width);
        defined_if(defined, result)
    }

    /// Whether the operands that it has are defined.
    #[tactic(auto, unfolding(crate::specs::Fields::field_defined))]
    fn is_defined(self, base: Cell, insert: Cell, offset: Cell, count: Cell) -> bool
        ensures { result ≡ field_defined self base.defined insert.defined offset.defined count.defined }
    {
        match self {
            FieldOp::BitFieldInsert => {
                base.defined && insert.defined && offset.defined && count.defined
            }
            FieldOp::BitFieldSExtract | FieldOp::BitFieldUExtract => {
                base.defined && offset.defined && count.defined
            }
        }
    }

    /// The result at the bits of the operands.
    #[tactic(auto, unfolding(crate::specs::Fields::field_row))]
    fn result(self, base: u64, insert: u64, offset: u64, count: u64, width: u8) -> Cell
        requires { IsWidth width }
        ensures lane { result ≡ field_result self width base insert offset count }
        ensures width { result.width ≡ width }
    {
        if offset > width as u64 || count > width as u64 - offset {
            return undefined(width);
        }
        let (offset, count) = (offset as u8, count as u8);
        match self {
            FieldOp::BitFieldInsert => integer(inserted(base, insert, offset, count), width),
            FieldOp::BitFieldSExtract => signed_integer(signed_field(base, offset, count), width),
            FieldOp::BitFieldUExtract => integer(field(base, offset, count), width),
        }
    }
}

/// The base with the lowest bits of `insert` in the field.
fn inserted(base: u64, insert: u64, offset: u8, count: u8) -> u64
    requires { offset + count ≤ 64 }
    ensures { (i : ℕ) → i < 64 → bit_at result i ≡ inserted_bit base insert offset count i }
{
    if count == 0 {
        return base;
    }
    let mask = greatest(count) << offset;
    base & !mask | insert << offset & mask
}

/// The bits of a field.
fn field(base: u64, offset: u8, count: u8) -> u64
    requires { offset + count ≤ 64 }
    ensures { result ≡ base / 2 ^ offset % 2 ^ count }
{
    if count == 0 {
        0
    } else {
        base >> offset & greatest(count)
    }
}

/// The bits of a field, read as signed.
fn signed_field(base: u64, offset: u8, count: u8) -> i64
    requires { offset + count ≤ 64 }
    ensures { result ≡ signed count (base / 2 ^ offset % 2 ^ count) }
{
    if count == 0 {
        0
    } else {
        signed(field(base, offset, count), count)
    }
}
