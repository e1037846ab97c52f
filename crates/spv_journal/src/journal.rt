//! The journal: the newest events that there is room for, each with what undoes it.
ghost use Rattle.std.specs.Prelude.{◌≡◌, ◌<◌, ◌≤◌, ◌∷◌, [], IfErr, IfOk, IfSome, IsSome, None, OnErr, OnOk, length, option_map};
ghost use Rattle.std.specs.Option.{IsSomeAnd, option_map_or};
ghost use Rattle.std.specs.VecDeque.{deque_capacity, deque_len};
ghost use Rattle.spv_journal.specs.Events.{begun, fitting, newest, older, opened, pushed, size};
ghost use Rattle.spv_journal.specs.Rings.{event_of};
ghost use Rattle.spv_journal.specs.Touches.{IsTouchOf};
ghost use Rattle.spv_journal.specs.Undo.{CanUndoNewest, before};
ghost use Rattle.spv_undo.specs.declared.entries.Entry.TheVariants.{CellRegister, PcMoved, StatusChanged};

use crate::marks::Mark;
use crate::rings::Ring;
use crate::touches::Touch;
use spv_base::{Happening, Kind, NoMemory};
use spv_state::Whole;
use spv_statuses::Status;
use spv_undo::Entry;
use spv_undo::undoing::undo_gathered;
use spv_values::Single;
use std::alloc::Global;
use std::collections::VecDeque;
use std::marker::Model;

/// The newest events that there is room for, with what undoes them. Contracts see the events, the newest first, the one that is
/// being made, and how many marks and entries there is room for.
#[derive(Drop)]
pub struct Journal {
    ring: Ring,
    /// Whether an event is being made.
    making: bool,
    /// The mark of the event that is being made. It stays in its place, so that an event is copied once.
    mark: Mark,
    /// Those of its changes that don't lie in the mark, the newest first.
    gathered: VecDeque<Entry>,
}

impl Model for Journal {
    ghost use Rattle.std.specs.Prelude.{◌≡◌, ◌≤◌, [], false};
    ghost use Rattle.std.specs.Coded.{codes};
    ghost use Rattle.spv_journal.specs.Events.{Kept};
    ghost use Rattle.spv_journal.specs.Rings.{made};
    ghost use Rattle.spv_undo.specs.contracts.entries.Entry as entry;

    ghost Value = { Kept };

    ghost coded = { Prim.hlevel (codes, entry.the_row.coded) };

    ghost view = { λ j. record { ring = j.ring.events; gathered = made j.making j.mark j.gathered.items; limit = j.ring.limit } };

    ghost invariant = { λ j. (1 ≤ j.ring.limit) × (j.making ≡ false → j.gathered.items ≡ []) };
}

/// Makes room for a change more of an event that is made, before all. Where memory runs out nothing changes.
#[inline(always)]
fn make_room(mark: &mut Mark, gathered: &mut VecDeque<Entry>) -> Result<(), NoMemory>
    ensures same { event_of mark.new gathered.new.items ≡ event_of mark.old gathered.old.items }
    ensures ok { OnOk result (mark.new.items ≡ []) }
    ensures room { OnOk result (deque_len gathered.new < deque_capacity gathered.new) }
{
    mark.empty_into(gathered)?;
    if gathered.len() == gathered.capacity() {
        gathered.reserve(1)?;
    }
    Ok(())
}

impl Journal {
    /// No events, with room for so many marks and entries. There is no memory for 4,294,967,296 and more.
    pub fn new(alloc: Global, limit: usize) -> Result<Journal, NoMemory>
        requires { 1 ≤ limit }
        ensures { IfOk result (λ j. j ≡ record { ring = []; gathered = None; limit = limit }) }
    {
        Ok(Journal {
            ring: Ring::new(alloc, limit)?,
            making: false,
            mark: Mark::of(Happening {
                inv: 0,
                kind: Kind::Idle,
                word: 0,
                root: 0,
                line: 0,
            }),
            gathered: VecDeque::new(alloc),
        })
    }

    /// Begins an event. Where memory runs out nothing changes.
    pub fn mark(&mut self, happening: Happening) -> Result<(), NoMemory>
        requires { self.old.gathered ≡ None }
        ensures ok { OnOk result (self.new ≡ record self.old { gathered = begun happening }) }
        ensures err { OnErr result (self.new ≡ self.old) }
    {
        self.mark = Mark::of(happening);
        self.making = true;
        Ok(())
    }

    /// Adds an entry to the event that is being made, or hands it back where memory runs out.
    pub fn push(&mut self, entry: Entry) -> Result<(), Entry>
        requires { IsSome self.old.gathered }
        ensures ok { OnOk result (self.new ≡ record self.old { gathered = option_map (pushed entry) self.old.gathered }) }
        ensures err { OnErr result (self.new ≡ self.old) }
        ensures handed_back { IfErr result (λ e. e ≡ entry) }
    {
        match make_room(&mut self.mark, &mut self.gathered) {
            Ok(()) => {
                self.gathered.push_front_reserved(entry);
                Ok(())
            }
            Err(_error) => Err(entry),
        }
    }

    /// Adds an entry to the event that is being made. Where memory runs out nothing changes.
    #[inline(always)]
    pub(crate) fn add(&mut self, entry: Entry) -> Result<(), NoMemory>
        requires { IsSome self.old.gathered }
        ensures ok { OnOk result (self.new ≡ record self.old { gathered = option_map (pushed entry) self.old.gathered }) }
        ensures err { OnErr result (self.new ≡ self.old) }
    {
        make_room(&mut self.mark, &mut self.gathered)?;
        self.gathered.push_front_reserved(entry);
        Ok(())
    }

    /// The same, apart from the way that most events go: they need no entry, and their cells are copied whole there.
    #[inline(never)]
    fn add_apart(&mut self, entry: Entry) -> Result<(), NoMemory>
        requires { IsSome self.old.gathered }
        ensures ok { OnOk result (self.new ≡ record self.old { gathered = option_map (pushed entry) self.old.gathered }) }
        ensures err { OnErr result (self.new ≡ self.old) }
    {
        self.add(entry)
    }

    /// Adds a move of the pc to the event that is being made, by the pc that was. Where memory runs out nothing changes.
    #[inline(always)]
    pub(crate) fn move_pc(&mut self, pc: u32) -> Result<(), NoMemory>
        requires { IsSome self.old.gathered }
        ensures ok { OnOk result (self.new ≡ record self.old { gathered = option_map (pushed (PcMoved pc)) self.old.gathered }) }
        ensures err { OnErr result (self.new ≡ self.old) }
    {
        if self.mark.move_pc(pc) {
            return Ok(());
        }
        self.add(Entry::PcMoved(pc))
    }

    /// Adds the value that a register of one cell had, by the number of the register, to the event that is being made. Where memory runs
    /// out nothing changes.
    #[inline(always)]
    pub(crate) fn change_register(&mut self, number: usize, value: Single) -> Result<(), NoMemory>
        requires { IsSome self.old.gathered }
        ensures ok { OnOk result (self.new ≡ record self.old { gathered = option_map (pushed (CellRegister number value)) self.old.gathered }) }
        ensures err { OnErr result (self.new ≡ self.old) }
    {
        if self.mark.change_register(number, &value) {
            return Ok(());
        }
        self.add_apart(Entry::CellRegister { number, value })
    }

    /// Adds the status that the invocation had to the event that is being made. Where memory runs out nothing changes.
    #[inline(always)]
    pub(crate) fn change_status(&mut self, status: Status) -> Result<(), NoMemory>
        requires { IsSome self.old.gathered }
        ensures ok { OnOk result (self.new ≡ record self.old { gathered = option_map (pushed (StatusChanged status)) self.old.gathered }) }
        ensures err { OnErr result (self.new ≡ self.old) }
    {
        if self.mark.change_status(status) {
            return Ok(());
        }
        self.add(Entry::StatusChanged(status))
    }

    /// Keeps an event that is whole in its mark, and as many of the oldest go as have to. It takes no memory. Inlined: it is called once an
    /// event.
    #[inline(always)]
    pub(crate) fn keep(&mut self, mark: Mark)
        requires none { self.old.gathered ≡ None }
        requires whole { mark.beside ≡ 0 }
        ensures { self.new ≡ record self.old { ring = fitting self.old.limit (event_of mark [] ∷ self.old.ring) } }
    {
        self.ring.keep(mark);
    }

    /// The event that is being made is whole: it is kept, and as many of the oldest go as have to. It takes no memory. Inlined: it is
    /// called at each event that is not made at once.
    #[inline(always)]
    pub fn seal(&mut self)
        requires { IsSome self.old.gathered }
        ensures { self.new ≡ record self.old { ring = fitting self.old.limit (opened self.old.gathered self.old.ring); gathered = None } }
    {
        self.making = false;
        self.ring.put(&mut self.mark, &mut self.gathered);
    }

    /// Undoes the event that is being made, or else the newest, its newest entry first. None exactly where there is none. The older ones stay
    /// as they are. It takes no memory.
    pub fn unwind(&mut self, whole: &mut Whole) -> Option<Happening>
        requires { CanUndoNewest (opened self.old.gathered self.old.ring) whole.old }
        ensures whole { whole.new ≡ option_map_or (λ v. before v whole.old) (newest (opened self.old.gathered self.old.ring)) whole.old }
        ensures journal { self.new ≡ record self.old { ring = older (opened self.old.gathered self.old.ring); gathered = None } }
        ensures happening { result ≡ option_map (λ v. v.happening) (newest (opened self.old.gathered self.old.ring)) }
    {
        if self.making {
            self.making = false;
            let happening = self.mark.happening();
            self.mark.undo(whole);
            undo_gathered(whole, happening.inv, &mut self.gathered);
            Some(happening)
        } else {
            self.ring.undo(whole)
        }
    }

    /// What the newest event that is kept did; none where there is none, and where its changes are of another form. Inlined: it is called
    /// once an event.
    #[inline(always)]
    pub(crate) fn touch(&self) -> Option<Touch>
        ensures { IfSome result (λ t. IsSomeAnd (newest self.now.ring) (λ v. IsTouchOf v.changes t)) }
    {
        self.ring.touch()
    }

    /// How much the marks and entries that are kept count.
    pub fn len(&self) -> usize
        ensures len { result ≡ size self.now.ring }
        ensures within { result ≤ self.now.limit }
        ensures some { 1 ≤ self.now.limit }
    {
        self.ring.len()
    }

    /// How many events are kept.
    pub fn marks(&self) -> u64
        ensures { result ≡ length self.now.ring }
    {
        self.ring.marks()
    }
}
