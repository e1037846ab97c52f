//! Marks of events, with the small changes that lie in them.
ghost use Rattle.std.specs.Prelude.{◌≡◌, ◌<◌, ◌≤◌, ◌∷◌, ◌++◌, [], OnOk, if◌then◌else◌, true};
ghost use Rattle.std.specs.Option.{option_to_list};
ghost use Rattle.std.specs.VecDeque.{deque_capacity, deque_len};
ghost use Rattle.spv_base.specs.Cell.{IsCell};
ghost use Rattle.spv_journal.specs.Marks.{cell_in, happening_in, is_change, is_store, items_of, data_of, register_item, with_item};
ghost use Rattle.spv_undo.specs.Entries.{variable_item};
ghost use Rattle.spv_journal.specs.Rings.{mark_size};
ghost use Rattle.spv_journal.specs.Touches.{IsTouchOf};
ghost use Rattle.spv_undo.specs.Undo.{CanUndoAll, undo_all};
ghost use Rattle.spv_undo.specs.declared.entries.Entry.TheVariants.{CellRegister, PcMoved, StatusChanged};
ghost use Rattle.spv_types.specs.Rows.{leaves};

use crate::touches::{FrameChange, Touch};
use spv_base::{Cell, Ghost, Happening, Kind, NoMemory, Root, Value};
use spv_state::Whole;
use spv_statuses::Status;
use spv_undo::Entry;
use spv_undo::entries::variable_entry;
use spv_undo::undoing::{exchange_variable, put_cell};
use spv_values::trees::same;
use spv_values::{Part, Single};
use std::collections::VecDeque;
use std::marker::Model;

/// What was changed, of which the mark holds what it was.
#[derive(Clone, Copy)]
pub(crate) enum Change {
    /// Nothing.
    Nothing,
    /// A register of one cell that had no value, by its number.
    Blank(u32),
    /// A register of one cell that had a value, by its number.
    Register(u32),
    /// A variable of one cell.
    Variable(Root),
    /// The invocation's status, and it was this.
    Status(Status),
}

impl Change {
    /// Whether it is one.
    #[inline(always)]
    fn is_some(&self) -> bool
        ensures { result ≡ is_change self.now }
    {
        match self {
            Change::Nothing => false,
            Change::Blank(_) | Change::Register(_) | Change::Variable(_) | Change::Status(_) =>
                true,
        }
    }

    /// Whether it is one of a variable.
    #[inline(always)]
    fn is_store(&self) -> bool
        ensures { result ≡ is_store self.now }
    {
        match self {
            Change::Variable(_) => true,
            Change::Nothing | Change::Blank(_) | Change::Register(_) | Change::Status(_) => false,
        }
    }
}

/// A mark as it lies in memory. The fields of what happened and of the cell stand apart, so that one byte alone is left over.
#[derive(Clone, Copy)]
struct MarkData {
    /// The cell's, where a register or a variable had a value.
    bits: u64,
    /// What happened.
    inv: u32,
    word: u32,
    root: u32,
    line: u32,
    /// How many changes of the event lie beside it.
    beside: u32,
    change: Change,
    kind: Kind,
    /// The cell's.
    width: u8,
    defined: bool,
    /// Whether the top frame moved from the word of what happened.
    moved: bool,
}

/// A mark is written at every event, so its size is bounded here.
const _: () = prove!(size_of::<MarkData>() <= 48);

impl MarkData {
    /// A mark of no changes.
    #[inline(always)]
    fn of(happening: Happening) -> MarkData
        ensures { result ≡ data_of happening }
    {
        let Happening {
            inv,
            kind,
            word,
            root,
            line,
        } = happening;
        MarkData {
            bits: 0,
            inv,
            word,
            root,
            line,
            beside: 0,
            change: Change::Nothing,
            kind,
            width: 1,
            defined: false,
            moved: false,
        }
    }

    /// The same with a cell that was changed.
    #[inline(always)]
    fn with(self, change: Change, cell: Cell) -> MarkData
        ensures { result ≡ record self { bits = cell.bits; change = change; width = cell.width; defined = cell.defined } }
    {
        let Cell {
            bits,
            width,
            defined,
        } = cell;
        MarkData {
            bits,
            change,
            width,
            defined,
            ..self
        }
    }

    /// The cell.
    #[inline(always)]
    fn cell(&self) -> Cell
        requires { IsCell (cell_in self.now) }
        ensures { result ≡ cell_in self.now }
    {
        Cell {
            bits: self.bits,
            width: self.width,
            defined: self.defined,
        }
    }

    /// What happened.
    #[inline(always)]
    fn happening(&self) -> Happening
        ensures { result ≡ happening_in self.now }
    {
        Happening {
            inv: self.inv,
            kind: self.kind,
            word: self.word,
            root: self.root,
            line: self.line,
        }
    }
}

/// The mark of an event, and up to two of its changes: most events set a register or a variable of one cell and move the pc,
/// and so need no entries.
#[derive(Drop)]
pub(crate) struct Mark {
    data: MarkData,
    /// The value of the cell that the register or the variable had.
    tree: Ghost<Value>,
}

impl Model for Mark {
    ghost use Rattle.std.specs.Coded.{codes};
    ghost use Rattle.spv_journal.specs.Marks.{IsTree, Marked, cell_in, happening_in, items_of};
    ghost use Rattle.spv_undo.specs.contracts.entries.Entry as entry;

    ghost Value = { Marked };

    ghost coded = { Prim.hlevel (codes, entry.the_row.coded) };

    ghost view = { λ m. record { happening = happening_in m.data; items = items_of m.data.moved m.data.word m.data.change m.tree.value; beside = m.data.beside } };

    ghost invariant = { λ m. IsTree m.data.change (cell_in m.data) m.tree.value };
}

/// A cell as the value of a tree.
#[inline(always)]
pub(crate) fn single(cell: Cell, tree: &Ghost<Value>) -> Single
    requires { leaves tree.now.value ≡ cell ∷ [] }
    ensures { result ≡ tree.now.value }
{
    let cells = [cell];
    Single::of_part(&Part::with_tree(cells.as_slice(), same(tree)))
}

/// The tree of a value of one cell.
pub(crate) fn tree_of(tree: &Ghost<Value>, value: &Single) -> Ghost<Value>
    ensures { result.value ≡ value.now }
{
    tree.by(value, tree)
}

/// Puts an entry before all, if there is one.
fn put(gathered: &mut VecDeque<Entry>, entry: Option<Entry>)
    requires { deque_len gathered.old < deque_capacity gathered.old }
    ensures items { gathered.new.items ≡ option_to_list entry ++ gathered.old.items }
    ensures capacity { deque_capacity gathered.new ≡ deque_capacity gathered.old }
{
    if let Some(entry) = entry {
        gathered.push_front_reserved(entry);
    }
}

impl Mark {
    /// The mark of an event that has no changes.
    #[inline(always)]
    pub(crate) fn of(happening: Happening) -> Mark
        ensures { result ≡ record { happening = happening; items = []; beside = 0 } }
    {
        Mark {
            data: MarkData::of(happening),
            tree: Ghost::of(),
        }
    }

    /// The mark of an event that set a register of one cell and moved the pc from its word, by the number of the register and the value that
    /// it had, if a mark says that it had one.
    #[inline(always)]
    pub(crate) fn of_register(happening: Happening, number: u32, value: &Single, has: bool) -> Mark
        ensures { result ≡ record { happening = happening; items = PcMoved happening.word ∷ register_item number value.now has ∷ []; beside = 0 } }
    {
        let change = if has {
            Change::Register(number)
        } else {
            Change::Blank(number)
        };
        Mark::of_cell(happening, change, value)
    }

    /// The mark of an event that set a variable of one cell and moved the pc from its word, by the value that the variable had.
    #[inline(always)]
    pub(crate) fn of_variable(happening: Happening, root: Root, value: &Single) -> Mark
        ensures { result ≡ record { happening = happening; items = PcMoved happening.word ∷ variable_item root value.now ∷ []; beside = 0 } }
    {
        Mark::of_cell(happening, Change::Variable(root), value)
    }

    /// The mark of an event that changed what has a cell and moved the pc from its word, by the value that there was.
    #[inline(always)]
    fn of_cell(happening: Happening, change: Change, value: &Single) -> Mark
        ensures { result ≡ record { happening = happening; items = items_of true happening.word change value.now; beside = 0 } }
    {
        let none = Ghost::of();
        let data = MarkData {
            moved: true,
            ..MarkData::of(happening).with(change, value.cell())
        };
        Mark {
            data,
            tree: tree_of(&none, value),
        }
    }

    /// The same mark again.
    #[inline(always)]
    pub(crate) fn again(&self) -> Mark
        ensures { result ≡ self.now }
    {
        Mark {
            data: self.data,
            tree: same(&self.tree),
        }
    }

    /// What happened.
    #[inline(always)]
    pub(crate) fn happening(&self) -> Happening
        ensures { result ≡ self.now.happening }
    {
        self.data.happening()
    }

    /// How many changes of the event lie beside it.
    #[inline(always)]
    pub(crate) fn beside(&self) -> usize
        ensures { result ≡ self.now.beside }
    {
        self.data.beside as usize
    }

    /// How much it counts, with the entries that it stands for.
    #[inline(always)]
    pub(crate) fn size(&self) -> usize
        ensures size { result ≡ mark_size self.now }
        ensures few { result ≤ 3 }
    {
        1 + usize::from(self.data.moved) + usize::from(self.data.change.is_some())
    }

    /// Says how many changes of the event lie beside it.
    #[inline(always)]
    pub(crate) fn set_beside(&mut self, beside: u32)
        ensures { self.new ≡ record self.old { beside = beside } }
    {
        self.data.beside = beside;
    }

    /// What its changes did.
    #[inline(always)]
    pub(crate) fn touch(&self) -> Touch
        ensures { IsTouchOf self.now.items result }
    {
        Touch {
            stores: self.data.change.is_store(),
            events: 0,
            frames: FrameChange::Same,
        }
    }

    /// Takes a move of the pc from where it was, where there is room for it, and says whether it did.
    #[inline(always)]
    pub(crate) fn move_pc(&mut self, pc: u32) -> bool
        ensures { self.new ≡ (if result then with_item (PcMoved pc) self.old else self.old) }
    {
        let free = !self.data.moved && pc == self.data.word;
        let room = match self.data.change {
            Change::Nothing | Change::Blank(_) | Change::Register(_) | Change::Variable(_) => free,
            Change::Status(_) => false,
        };
        if room {
            self.data.moved = true;
        }
        room
    }

    /// Takes the value that a register had, by the number of the register, where there is room for it, and says whether it did.
    #[inline(always)]
    pub(crate) fn change_register(&mut self, number: usize, value: &Single) -> bool
        ensures { self.new ≡ (if result then with_item (CellRegister number value.now) self.old else self.old) }
    {
        if !self.data.moved
            && !self.data.change.is_some()
            && let Ok(number) = u32::try_from(number)
        {
            self.data = self.data.with(Change::Register(number), value.cell());
            self.tree = tree_of(&self.tree, value);
            return true;
        }
        false
    }

    /// Takes the status that the invocation had, where there is room for it, and says whether it did.
    #[inline(always)]
    pub(crate) fn change_status(&mut self, status: Status) -> bool
        ensures { self.new ≡ (if result then with_item (StatusChanged status) self.old else self.old) }
    {
        let room = !self.data.change.is_some();
        if room {
            self.data.change = Change::Status(status);
        }
        room
    }

    /// Its changes, the newer one first.
    fn entries(&self) -> (Option<Entry>, Option<Entry>)
        ensures { self.now.items ≡ option_to_list result.0 ++ option_to_list result.1 }
    {
        let moved = if self.data.moved {
            Some(Entry::PcMoved(self.data.word))
        } else {
            None
        };
        match self.data.change {
            Change::Nothing => (moved, None),
            Change::Blank(number) => (moved, Some(Entry::NoValue(number as usize))),
            Change::Register(number) => {
                let value = single(self.data.cell(), &self.tree);
                let number = number as usize;
                (moved, Some(Entry::CellRegister { number, value }))
            }
            Change::Variable(root) => {
                let value = single(self.data.cell(), &self.tree);
                (moved, Some(variable_entry(root, value)))
            }
            Change::Status(status) => (Some(Entry::StatusChanged(status)), moved),
        }
    }

    /// Undoes its changes, the newer one first: a register or a variable is set before the pc moves, and a status
    /// after it.
    pub(crate) fn undo(&self, whole: &mut Whole)
        requires { CanUndoAll self.now.happening.inv self.now.items whole.old }
        ensures { whole.new ≡ undo_all self.now.happening.inv self.now.items whole.old }
    {
        let inv = self.data.inv;
        if let Change::Status(status) = self.data.change {
            whole.set_status(inv, status);
        }
        if self.data.moved {
            whole.set_pc(inv, self.data.word);
        }
        match self.data.change {
            Change::Blank(number) => whole.clear_value(inv, number as usize),
            Change::Register(number) => {
                let value = single(self.data.cell(), &self.tree);
                put_cell(whole, inv, number as usize, value);
            }
            Change::Variable(root) => {
                let mut value = single(self.data.cell(), &self.tree);
                exchange_variable(whole, inv, root, &mut value);
            }
            Change::Nothing | Change::Status(_) => {}
        }
    }

    /// Moves its changes before others. Where memory runs out nothing changes.
    fn move_into(&mut self, gathered: &mut VecDeque<Entry>) -> Result<(), NoMemory>
        ensures happening { self.new.happening ≡ self.old.happening }
        ensures same { self.new.items ++ gathered.new.items ≡ self.old.items ++ gathered.old.items }
        ensures ok { OnOk result (self.new.items ≡ []) }
    {
        gathered.reserve(2)?;
        let (newer, older) = self.entries();
        put(gathered, older);
        put(gathered, newer);
        self.data.moved = false;
        self.data.change = Change::Nothing;
        Ok(())
    }

    /// Has no changes then: they lie before others. Where memory runs out nothing changes.
    #[inline(always)]
    pub(crate) fn empty_into(&mut self, gathered: &mut VecDeque<Entry>) -> Result<(), NoMemory>
        ensures happening { self.new.happening ≡ self.old.happening }
        ensures same { self.new.items ++ gathered.new.items ≡ self.old.items ++ gathered.old.items }
        ensures ok { OnOk result (self.new.items ≡ []) }
    {
        if !self.data.moved && !self.data.change.is_some() {
            return Ok(());
        }
        self.move_into(gathered)
    }
}
