//! Changes that are undone. It takes no memory.
ghost use Rattle.std.specs.Prelude.{◌≡◌, [], Some, length, option_map};
ghost use Rattle.spv_undo.specs.Entries.{variable_item};
ghost use Rattle.spv_undo.specs.Undo.{CanUndo, CanUndoAll, undo, undo_all};
ghost use Rattle.spv_undo.specs.declared.entries.Entry.TheVariants.{CellRegister, RowRegister};
ghost use Rattle.spv_mem.specs.Memory.{load_of};
ghost use Rattle.spv_types.specs.Rows.{leaves};

use crate::entries::{Entry, OldFrame, OldPart, OldValue};
use spv_base::{Ghost, Path, Pointer, Root};
use spv_state::Whole;
use spv_values::Single;
use std::collections::VecDeque;

/// The path that leads to the whole of a variable, for proofs.
pub(crate) fn no_path() -> Ghost<Path>
    ensures { result.value ≡ [] }
{
    Ghost::of()
}

/// What is in a box, if there is one.
fn unboxed(held: Option<Box<Pointer>>) -> Option<Pointer>
    ensures { result ≡ option_map (λ b. b.value) held }
{
    match held {
        Some(pointer) => Some(Box::into_inner(pointer)),
        None => None,
    }
}

/// Puts back what a register of one cell had.
pub fn put_cell(whole: &mut Whole, inv: u32, number: usize, value: Single)
    requires { CanUndo inv (CellRegister number value) whole.old }
    ensures { whole.new ≡ undo inv (CellRegister number value) whole.old }
{
    let mut held = value;
    let mut has = true;
    whole.exchange_cell(inv, number, &mut held, &mut has);
}

/// Exchanges the value of a whole variable of one cell. Inlined: it is called at every store of a predecoded instruction.
#[inline(always)]
pub fn exchange_variable(whole: &mut Whole, inv: u32, root: Root, value: &mut Single)
    requires { CanUndo inv (variable_item root value.old) whole.old }
    ensures after { whole.new ≡ undo inv (variable_item root value.old) whole.old }
    ensures handed { load_of whole.old.memory inv (record { root = root; path = [] }) ≡ Some value.new }
    ensures one { length (leaves value.old) ≡ 1 }
{
    let _cell = value.cell();
    let path = no_path();
    whole.exchange_single(inv, root, 0, &path, value);
}

/// Puts back what a register of another number of cells had.
fn put_row(whole: &mut Whole, inv: u32, register: Box<OldValue>)
    requires { CanUndo inv (RowRegister register) whole.old }
    ensures { whole.new ≡ undo inv (RowRegister register) whole.old }
{
    let OldValue { number, mut row } = Box::into_inner(register);
    let mut has = true;
    whole.exchange_value(inv, number, &mut row, &mut has);
}

/// Undoes one change of an invocation.
pub fn undo(whole: &mut Whole, inv: u32, entry: Entry)
    requires { CanUndo inv entry whole.old }
    ensures { whole.new ≡ undo inv entry whole.old }
{
    match entry {
        Entry::Leaf {
            root,
            leaf,
            path,
            value,
        } => {
            let mut held = value;
            whole.exchange_single(inv, root, leaf as usize, &path, &mut held);
        }
        Entry::Part(part) => {
            let OldPart { place, mut row } = Box::into_inner(part);
            whole.store(inv, &place, &mut row);
        }
        Entry::NoValue(number) => whole.clear_value(inv, number),
        Entry::CellRegister { number, value } => put_cell(whole, inv, number, value),
        Entry::RowRegister(register) => put_row(whole, inv, register),
        Entry::PointerRegister { number, held } => {
            let mut pointer = unboxed(held);
            whole.exchange_pointer(inv, number, &mut pointer);
        }
        Entry::FramePushed => whole.leave(inv),
        Entry::FramePopped(left) => {
            let OldFrame { frame, locals } = Box::into_inner(left);
            whole.enter(inv, frame, locals);
        }
        Entry::PcMoved(pc) => {
            whole.set_pc(inv, pc);
        }
        Entry::EventAppended => whole.drop_event(inv),
        Entry::StatusChanged(status) => {
            whole.set_status(inv, status);
        }
        Entry::BarrierOpened(word) => whole.close_barrier(word),
    }
}

/// Undoes changes of an invocation, the first of them first.
pub fn undo_gathered(whole: &mut Whole, inv: u32, gathered: &mut VecDeque<Entry>)
    requires { CanUndoAll inv gathered.old.items whole.old }
    ensures whole { whole.new ≡ undo_all inv gathered.old.items whole.old }
    ensures gathered { gathered.new.items ≡ [] }
{
    while let Some(entry) = gathered.pop_front() {
        undo(whole, inv, entry);
    }
}
