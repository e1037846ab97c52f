//! Entries of changes, by what was there before.
ghost use Rattle.std.specs.Prelude.{◌≡◌, IfErr, IfOk, IsSome, OnErr, OnOk, Some, length, option_copied, option_map};
ghost use Rattle.spv_frame.specs.Registers.{marked};
ghost use Rattle.spv_journal.specs.Entries.{Keeps, KeepsFrame};
ghost use Rattle.spv_undo.specs.OldValues.{KeepsPart, KeepsPointer, KeepsValue, popped};
ghost use Rattle.spv_mem.specs.Memory.{MayStore, load_of};
ghost use Rattle.spv_types.specs.Rows.{leaves};

use crate::journal::Journal;
use spv_base::{NoMemory, Pointer};
use spv_state::Whole;
use spv_state::held::HeldPointer;
use spv_undo::Entry;
use spv_undo::entries::{OldFrame, OldPart, OldValue};
use spv_values::{Row, Single};
use std::alloc::Global;

/// The entry of a store where a pointer leads, after it was made, by a copy of the value that was there.
fn part_entry(
    alloc: Global,
    whole: &Whole,
    i: u32,
    pointer: &Pointer,
    row: &Row,
) -> Result<Entry, NoMemory>
    requires there { IsSome (load_of whole.now.memory i pointer.now) }
    requires may { ∥ MayStore whole.now.memory i pointer.now row.now ∥₁ }
    ensures { IfOk result (KeepsPart i pointer.now row.now whole.now) }
{
    let old = OldPart {
        place: pointer.copy(alloc)?,
        row: Row::of_part(alloc, &row.as_part())?,
    };
    Ok(Entry::Part(Box::new(alloc, old)?))
}

/// Adds the entry of a store where a pointer leads, after it was made, by the value that was there.
#[inline(always)]
pub(crate) fn keep_part(
    alloc: Global,
    journal: &mut Journal,
    whole: &Whole,
    i: u32,
    pointer: &Pointer,
    row: &Row,
) -> Result<(), NoMemory>
    requires making { IsSome journal.old.gathered }
    requires there { IsSome (load_of whole.now.memory i pointer.now) }
    requires may { ∥ MayStore whole.now.memory i pointer.now row.now ∥₁ }
    ensures ok { OnOk result (Keeps (KeepsPart i pointer.now row.now whole.now) journal.old journal.new) }
    ensures err { OnErr result (journal.new ≡ journal.old) }
{
    let entry = part_entry(alloc, whole, i, pointer, row)?;
    journal.add(entry)
}

/// The entry of a register of more cells than one, or of none, by the value that it had.
fn row_entry(alloc: Global, number: usize, row: &Row) -> Result<Entry, NoMemory>
    ensures { IfOk result (KeepsValue number (Some row.now) (length (leaves row.now))) }
{
    let old = OldValue {
        number,
        row: Row::of_part(alloc, &row.as_part())?,
    };
    Ok(Entry::RowRegister(Box::new(alloc, old)?))
}

/// Adds the entry of a register by the value that it had.
#[inline(always)]
fn keep_value(
    alloc: Global,
    journal: &mut Journal,
    number: usize,
    row: &Row,
) -> Result<(), NoMemory>
    requires { IsSome journal.old.gathered }
    ensures ok { OnOk result (Keeps (KeepsValue number (Some row.now) (length (leaves row.now))) journal.old journal.new) }
    ensures err { OnErr result (journal.new ≡ journal.old) }
{
    if row.len() == 1 {
        return journal.change_register(number, Single::of_part(&row.as_part()));
    }
    let entry = row_entry(alloc, number, row)?;
    journal.add(entry)
}

/// Adds the entry of a register by the value that it had, if a mark says that it had one.
#[inline(always)]
pub(crate) fn keep_held(
    alloc: Global,
    journal: &mut Journal,
    number: usize,
    row: &Row,
    has: bool,
) -> Result<(), NoMemory>
    requires { IsSome journal.old.gathered }
    ensures ok { OnOk result (Keeps (KeepsValue number (marked row.now has) (length (leaves row.now))) journal.old journal.new) }
    ensures err { OnErr result (journal.new ≡ journal.old) }
{
    if has {
        keep_value(alloc, journal, number, row)
    } else {
        journal.add(Entry::NoValue(number))
    }
}

/// A pointer in a box.
fn boxed(alloc: Global, pointer: Option<&Pointer>) -> Result<Option<Box<Pointer>>, NoMemory>
    ensures { IfOk result (λ held. option_map (λ b. b.value) held ≡ option_copied pointer.entry) }
{
    match pointer {
        Some(pointer) => Ok(Some(Box::new(alloc, pointer.copy(alloc)?)?)),
        None => Ok(None),
    }
}

/// The entry of a register that takes a pointer.
pub(crate) fn pointer_entry(alloc: Global, held: &HeldPointer) -> Result<Entry, NoMemory>
    ensures { IfOk result (λ e. KeepsPointer held.now.number (option_copied held.now.pointer) e) }
{
    Ok(Entry::PointerRegister {
        number: held.number,
        held: boxed(alloc, held.pointer)?,
    })
}

/// The frame of the entry of a frame that was left.
fn frame_of(entry: Entry) -> OldFrame
    requires { IsSome (popped entry) }
    ensures { popped entry ≡ Some result }
{
    match entry {
        Entry::FramePopped(left) => Box::into_inner(left),
        _ => unreachable!(),
    }
}

/// Adds the entry of a frame that was left, or hands the frame back.
pub(crate) fn keep_frame(
    alloc: Global,
    journal: &mut Journal,
    left: OldFrame,
) -> Result<(), OldFrame>
    requires { IsSome journal.old.gathered }
    ensures ok { OnOk result (KeepsFrame left journal.old journal.new) }
    ensures err { OnErr result (journal.new ≡ journal.old) }
    ensures handed { IfErr result (λ l. l ≡ left) }
{
    let boxed = match Box::new(alloc, left) {
        Ok(boxed) => boxed,
        Err(failed) => return Err(failed.value),
    };
    match journal.push(Entry::FramePopped(boxed)) {
        Ok(()) => Ok(()),
        Err(entry) => Err(frame_of(entry)),
    }
}
