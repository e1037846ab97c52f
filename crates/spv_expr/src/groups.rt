//! The events that a frame has passed, by the variables that they are of, so that each of many variables is read off its own alone.
ghost use Rattle.std.specs.Prelude.{◌≡◌, ◌==◌, ◌++◌, ◌+◌, ◌<◌, ◌^◌, ℕ, [], ◌∷◌, IfOk, OnOk, filter, if◌then◌else◌, length, option_copied};
ghost use Rattle.spv_expr.specs.Bits as bits;
ghost use Rattle.spv_expr.specs.Groups as spec;

use crate::events::{Instance, event_at, meant};
use crate::lists::EventList;
use crate::locals::local_bits;
use crate::variables::{events_in, global, global_bits, inlined_in};
use crate::views::View;
use spv_base::NoMemory;
use spv_dbg::{Bit, DebugInst, DebugTables, ShownFrame};
use spv_frame::{DebugEvent, Stack};
use spv_mem::Memory;
use spv_parts::operand;
use std::alloc::Global;
use std::collections::BTreeMap;
use std::marker::Model;

/// The variable that an event is of.
fn variable_of(tables: &DebugTables, debug: &DebugInst) -> u32
    ensures { result ≡ spec.variable_of tables.now debug.now }
{
    meant(tables, 0, operand(debug, 0)).variable
}

/// The variable that the event at a word is of.
fn variable_at(tables: &DebugTables, word: u32) -> Option<u32>
    ensures { result ≡ spec.variable_at tables.now word }
{
    let debug = event_at(tables, word)?;
    Some(variable_of(tables, debug))
}

/// Whether the event at a word is of the variable that an id stands for, whatever its InlinedAt is.
pub fn is_of_variable(tables: &DebugTables, word: u32, variable: u32) -> bool
    ensures { result ≡ spec.is_event_of tables.now variable word }
{
    match variable_at(tables, word) {
        Some(of) => of == meant(tables, 0, variable).variable,
        None => false,
    }
}

/// Adds a number to those of a variable.
fn add(
    alloc: Global,
    groups: &mut BTreeMap<u32, Vec<usize>>,
    variable: u32,
    n: usize,
) -> Result<(), NoMemory>
    ensures { OnOk result ((other : ℕ) → spec.under groups.new other ≡ spec.under groups.old other ++ (if variable == other then n ∷ [] else [])) }
{
    groups.entry(variable)?.or_insert(Vec::new(alloc)).push(n)?;
    Ok(())
}

/// Adds the number of an event to those of its variable.
fn add_event(
    alloc: Global,
    tables: &DebugTables,
    groups: &mut BTreeMap<u32, Vec<usize>>,
    events: &[DebugEvent],
    n: usize,
) -> Result<(), NoMemory>
    requires { n < length events.now }
    ensures { OnOk result ((variable : ℕ) → spec.under groups.new variable ≡ spec.under groups.old variable ++ spec.chosen tables.now variable events.now n) }
{
    match variable_at(tables, events[n].word()) {
        Some(variable) => add(alloc, groups, variable, n),
        None => Ok(()),
    }
}

/// The numbers under a variable.
fn numbers_under(groups: &BTreeMap<u32, Vec<usize>>, variable: u32) -> &[usize]
    ensures { result.now ≡ spec.under groups.now variable }
{
    match groups.get(&variable) {
        Some(numbers) => numbers.as_slice(),
        None => &[],
    }
}

/// The numbers of events by their variables. Each is looked at once.
fn grouped(
    alloc: Global,
    tables: &DebugTables,
    events: &[DebugEvent],
) -> Result<BTreeMap<u32, Vec<usize>>, NoMemory>
    ensures { IfOk result (λ groups. spec.AreGroups tables.now events.now (length events.now) groups) }
{
    let mut groups = BTreeMap::new(alloc);
    for n in 0..events.len() {
        add_event(alloc, tables, &mut groups, events, n)?;
    }
    Ok(groups)
}

/// The events that the real frame of a shown frame has passed, by the variables that they are of. Contracts see where they are told.
#[derive(Drop)]
pub struct Events<'a> {
    tables: &'a DebugTables,
    stack: &'a Stack,
    frame: Option<&'a ShownFrame>,
    groups: BTreeMap<u32, Vec<usize>>,
}

impl<'a> Model for Events<'a> {
    ghost use Rattle.std.specs.Prelude.{length, option_copied};
    ghost use Rattle.std.specs.Coded.{codes};
    ghost use Rattle.spv_base.specs.contracts.values.Value as value;
    ghost use Rattle.spv_expr.specs.Bits.{events_in};
    ghost use Rattle.spv_expr.specs.Groups.{AreGroups, Context};

    ghost Value = { Context };

    ghost coded = { Prim.hlevel (codes, value.the_row.coded) };

    ghost view = { λ e. record { tables = e.tables.now; stack = e.stack.now; frame = option_copied e.frame } };

    ghost invariant = { λ e. AreGroups e.tables.now (events_in e.stack.now (option_copied e.frame)) (length (events_in e.stack.now (option_copied e.frame))) e.groups };
}

impl<'a> Events<'a> {
    /// Those of a shown frame, and none where no frame is shown.
    pub fn of(
        alloc: Global,
        tables: &'a DebugTables,
        stack: &'a Stack,
        frame: Option<&'a ShownFrame>,
    ) -> Result<Events<'a>, NoMemory>
        ensures { IfOk result (λ events. events ≡ record { tables = tables.now; stack = stack.now; frame = option_copied frame.entry }) }
    {
        let groups = grouped(alloc, tables, events_in(stack, frame))?;
        Ok(Events {
            tables,
            stack,
            frame,
            groups,
        })
    }

    /// Those of a variable.
    fn of_variable(&self, variable: u32) -> EventList<'_>
        ensures { result ≡ filter (spec.is_about self.now.tables variable) (bits.events_in self.now.stack self.now.frame) }
    {
        let numbers = numbers_under(&self.groups, variable);
        EventList::picked(events_in(self.stack, self.frame), numbers)
    }

    /// So many bits from one on of a local variable.
    fn own_bits(
        &self,
        alloc: Global,
        view: &View<'_>,
        instance: Instance,
        first: u64,
        count: u64,
    ) -> Result<Vec<Bit>, NoMemory>
        requires same { view.now.tables.now ≡ self.now.tables }
        requires fits { first + count < 2 ^ 64 }
        ensures { IfOk result (λ bs. bits.AreBits (bits.local_bit view.now.memory.now view.now.inv self.now.tables (bits.events_in self.now.stack self.now.frame) instance) first count bs.items) }
    {
        let own = self.of_variable(instance.variable);
        local_bits(alloc, view, instance, &own, first, count)
    }

    /// So many bits from one on of a variable, as `variable_bits` gives them.
    pub fn variable_bits(
        &self,
        alloc: Global,
        memory: &Memory,
        inv: u32,
        variable: u32,
        first: u64,
        count: u64,
    ) -> Result<Vec<Bit>, NoMemory>
        requires { first + count < 2 ^ 64 }
        ensures { IfOk result (λ bs. bits.AreBits (bits.variable_bit memory.now inv self.now.tables self.now.stack self.now.frame variable) first count bs.items) }
    {
        let view = View {
            tables: self.tables,
            memory,
            inv,
        };
        if let Some(debug) = global(self.tables, variable) {
            return global_bits(alloc, &view, None, debug, first, count);
        }
        let instance = meant(self.tables, inlined_in(self.frame), variable);
        self.own_bits(alloc, &view, instance, first, count)
    }
}
