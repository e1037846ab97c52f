//! The rings of a journal: the marks of its events, and beside them their changes, the newest first.
ghost use Rattle.std.specs.Prelude.{◌≡◌, ◌<◌, ◌≤◌, ◌+◌, ◌-◌, ◌^◌, ◌++◌, ◌∷◌, [], IfOk, IfSome, List, None, drop, length, option_map, take};
ghost use Rattle.std.specs.Option.{IsSomeAnd, option_map_or};
ghost use Rattle.spv_undo.specs.Entries.{count};
ghost use Rattle.spv_journal.specs.Events.{fitting, newest, older, size, size_of};
ghost use Rattle.spv_journal.specs.Rings.{but_oldest, event_of};
ghost use Rattle.spv_journal.specs.Touches.{IsTouchOf};
ghost use Rattle.spv_undo.specs.Undo.{CanUndoAll, undo_all};
ghost use Rattle.spv_undo.specs.declared.entries.Entry.{Entry as AnyEntry};
ghost use Rattle.spv_journal.specs.Undo.{CanUndoNewest, before};

use crate::marks::Mark;
use crate::touches::Touch;
use circular_buffer::HeapCircularBuffer;
use spv_base::{Happening, NoMemory};
use spv_state::Whole;
use spv_undo::Entry;
use spv_undo::undoing::undo;
use std::alloc::Global;
use std::collections::VecDeque;
use std::marker::Model;

/// Undoes the first changes of an invocation, so many, takes them away, and says how much they counted.
fn undo_first(
    whole: &mut Whole,
    inv: u32,
    entries: &mut HeapCircularBuffer<Entry>,
    many: usize,
) -> usize
    requires there { many ≤ length entries.old.items }
    requires can { CanUndoAll inv (take many entries.old.items) whole.old }
    requires bounded { count entries.old.items < 2 ^ 32 }
    ensures whole { whole.new ≡ undo_all inv (take many entries.old.items) whole.old }
    ensures entries { entries.new.items ≡ drop many entries.old.items }
    ensures capacity { entries.new.capacity ≡ entries.old.capacity }
    ensures counted { result ≡ count (take many entries.old.items) }
{
    let mut counted = 0;
    for _number in 0..many {
        match entries.pop_front() {
            Some(entry) => {
                counted += entry.count();
                undo(whole, inv, entry);
            }
            None => unreachable!(),
        }
    }
    counted
}

/// Drops the last change, if there is one, and says how much it counted. Apart from the way that most events go, which have none beside
/// their marks.
#[inline(never)]
fn drop_one(entries: &mut HeapCircularBuffer<Entry>) -> usize
    ensures entries { entries.new.items ≡ take (length entries.old.items - 1) entries.old.items }
    ensures capacity { entries.new.capacity ≡ entries.old.capacity }
    ensures counted { result + count entries.new.items ≡ count entries.old.items }
{
    match entries.pop_back() {
        Some(entry) => entry.count(),
        None => 0,
    }
}

/// Drops the last changes, so many, and says how much they counted.
fn drop_last(entries: &mut HeapCircularBuffer<Entry>, many: usize) -> usize
    requires there { many ≤ length entries.old.items }
    requires bounded { count entries.old.items < 2 ^ 32 }
    ensures entries { entries.new.items ≡ take (length entries.old.items - many) entries.old.items }
    ensures capacity { entries.new.capacity ≡ entries.old.capacity }
    ensures counted { result + count entries.new.items ≡ count entries.old.items }
{
    let mut counted = 0;
    for _number in 0..many {
        counted += drop_one(entries);
    }
    counted
}

/// Puts a change before all, where there is room for it. Apart, as `drop_one` is.
#[inline(never)]
fn put_one(entries: &mut HeapCircularBuffer<Entry>, entry: Entry)
    requires { length entries.old.items < entries.old.capacity }
    ensures entries { entries.new.items ≡ entry ∷ entries.old.items }
    ensures capacity { entries.new.capacity ≡ entries.old.capacity }
{
    entries.push_front(entry);
}

/// Puts the changes of an event before all, where there is room for them.
fn put_all(entries: &mut HeapCircularBuffer<Entry>, gathered: &mut VecDeque<Entry>)
    requires { length entries.old.items + length gathered.old.items ≤ entries.old.capacity }
    ensures entries { entries.new.items ≡ gathered.old.items ++ entries.old.items }
    ensures capacity { entries.new.capacity ≡ entries.old.capacity }
    ensures gathered { gathered.new.items ≡ [] }
{
    while let Some(entry) = gathered.pop_back() {
        put_one(entries, entry);
    }
}

/// How much may be kept beside an event that is to be kept, if there is room for the event itself.
#[inline(always)]
fn room_beside(limit: usize, mark: &Mark, gathered: &VecDeque<Entry>) -> Option<usize>
    ensures room { IfSome result (λ room. room + size_of (event_of mark.now gathered.now.items) ≡ limit) }
    ensures none { result ≡ None → limit < size_of (event_of mark.now gathered.now.items) }
{
    let mut room = limit.checked_sub(mark.size())?;
    for entry in gathered.iter() {
        room = room.checked_sub(entry.count())?;
    }
    Some(room)
}

/// What changes of an event did of which the newer ones did this, and so many of the older ones stand first here; none where they are of
/// another form. Apart, as `drop_one` is.
#[inline(never)]
fn touch_beside(newer: Touch, entries: &HeapCircularBuffer<Entry>, many: usize) -> Option<Touch>
    ensures { IfSome result (λ t. (es : List AnyEntry) → IsTouchOf es newer → IsTouchOf (es ++ take many entries.now.items) t) }
{
    let mut touch = newer;
    for number in 0..many {
        touch = touch.with(entries.get(number)?)?;
    }
    Some(touch)
}

/// The marks of events, and the changes that don't lie in them in another ring, so that an event is dropped by its mark. Contracts see the
/// events, the newest first, and how many marks and entries there is room for. What lies in a mark is counted as an entry, and an entry
/// by the leaves that it puts back.
#[derive(Drop)]
pub(crate) struct Ring {
    marks: HeapCircularBuffer<Mark>,
    entries: HeapCircularBuffer<Entry>,
    held: usize,
}

impl Model for Ring {
    ghost use Rattle.std.specs.Prelude.{◌≡◌};
    ghost use Rattle.std.specs.Coded.{codes};
    ghost use Rattle.spv_journal.specs.Rings.{IsRing, Ringed, events};
    ghost use Rattle.spv_undo.specs.contracts.entries.Entry as entry;

    ghost Value = { Ringed };

    ghost coded = { Prim.hlevel (codes, entry.the_row.coded) };

    ghost view = { λ r. record { events = events r.marks.items r.entries.items; limit = r.entries.capacity } };

    ghost invariant = { λ r. (r.marks.capacity ≡ r.entries.capacity) × IsRing r.marks.items r.entries.items r.entries.capacity r.held };
}

impl Ring {
    /// No events, with room for so many marks and entries. There is no memory for 4,294,967,296 and more.
    pub(crate) fn new(alloc: Global, limit: usize) -> Result<Ring, NoMemory>
        ensures { IfOk result (λ r. r ≡ record { events = []; limit = limit }) }
    {
        if limit > u32::MAX as usize {
            return Err(NoMemory);
        }
        Ok(Ring {
            marks: HeapCircularBuffer::with_capacity(alloc, limit)?,
            entries: HeapCircularBuffer::with_capacity(alloc, limit)?,
            held: 0,
        })
    }

    /// How much the marks and entries that are kept count.
    #[inline(always)]
    pub(crate) fn len(&self) -> usize
        ensures len { result ≡ size self.now.events }
        ensures within { result ≤ self.now.limit }
    {
        self.held
    }

    /// How many events are kept.
    pub(crate) fn marks(&self) -> u64
        ensures { result ≡ length self.now.events }
    {
        self.marks.len() as u64
    }

    /// Takes all events away. Apart, as `drop_one` is.
    #[inline(never)]
    fn clear(&mut self)
        ensures events { self.new.events ≡ [] }
        ensures limit { self.new.limit ≡ self.old.limit }
    {
        self.marks.clear();
        self.entries.clear();
        self.held = 0;
    }

    /// Takes the oldest event away, which is there.
    fn drop_oldest(&mut self)
        requires { 0 < length self.old.events }
        ensures events { self.new.events ≡ but_oldest self.old.events }
        ensures size { size self.new.events < size self.old.events }
        ensures limit { self.new.limit ≡ self.old.limit }
    {
        match self.marks.pop_back() {
            Some(mark) => {
                let counted = drop_last(&mut self.entries, mark.beside());
                self.held -= mark.size() + counted;
            }
            None => unreachable!(),
        }
    }

    /// Takes the oldest events away, as many as have to go for no more than so many marks and entries to be left.
    fn make_room(&mut self, room: usize)
        ensures events { self.new.events ≡ fitting room self.old.events }
        ensures size { size self.new.events ≤ room }
        ensures limit { self.new.limit ≡ self.old.limit }
    {
        while self.len() > room {
            self.drop_oldest();
        }
    }

    /// Puts an event before all, where there is room for it, and takes as many of the oldest away as have to go. Inlined: it is called
    /// at each event that is not made at once.
    #[inline(always)]
    pub(crate) fn put(&mut self, mark: &mut Mark, gathered: &mut VecDeque<Entry>)
        ensures events { self.new.events ≡ fitting self.old.limit (event_of mark.old gathered.old.items ∷ self.old.events) }
        ensures limit { self.new.limit ≡ self.old.limit }
        ensures gathered { gathered.new.items ≡ [] }
    {
        let limit = self.entries.capacity();
        match room_beside(limit, mark, gathered) {
            Some(room) => {
                self.make_room(room);
                self.held += limit - room;
                mark.set_beside(gathered.len() as u32);
                self.marks.push_front(mark.again());
                put_all(&mut self.entries, gathered);
            }
            None => {
                self.clear();
                gathered.clear();
            }
        }
    }

    /// The same for an event that is whole in its mark. Inlined: it is called at each event that is made at once.
    #[inline(always)]
    pub(crate) fn keep(&mut self, mark: Mark)
        requires { mark.beside ≡ 0 }
        ensures events { self.new.events ≡ fitting self.old.limit (event_of mark [] ∷ self.old.events) }
        ensures limit { self.new.limit ≡ self.old.limit }
    {
        let limit = self.entries.capacity();
        let need = mark.size();
        if need > limit {
            self.clear();
        } else {
            self.make_room(limit - need);
            self.held += need;
            self.marks.push_front(mark);
        }
    }

    /// What the newest event did; none where there is none, and where its changes are of another form. Inlined: it is called once an event.
    #[inline(always)]
    pub(crate) fn touch(&self) -> Option<Touch>
        ensures { IfSome result (λ t. IsSomeAnd (newest self.now.events) (λ v. IsTouchOf v.changes t)) }
    {
        let mark = self.marks.front()?;
        let touch = mark.touch();
        match mark.beside() {
            0 => Some(touch),
            many => touch_beside(touch, &self.entries, many),
        }
    }

    /// Undoes the newest event, if there is one, its newest change first.
    pub(crate) fn undo(&mut self, whole: &mut Whole) -> Option<Happening>
        requires { CanUndoNewest self.old.events whole.old }
        ensures whole { whole.new ≡ option_map_or (λ v. before v whole.old) (newest self.old.events) whole.old }
        ensures events { self.new.events ≡ older self.old.events }
        ensures limit { self.new.limit ≡ self.old.limit }
        ensures happening { result ≡ option_map (λ v. v.happening) (newest self.old.events) }
    {
        let mark = self.marks.pop_front()?;
        let happening = mark.happening();
        mark.undo(whole);
        let counted = undo_first(whole, happening.inv, &mut self.entries, mark.beside());
        self.held -= mark.size() + counted;
        Some(happening)
    }
}
