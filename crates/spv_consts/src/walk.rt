//! What is known of a module's constants up to an instruction.
ghost use Rattle.std.specs.Prelude.{◌≡◌, ◌≤◌, [], ◌∷◌, ◌++◌, IfOk, IsTrue, OnOk};
ghost use Rattle.spv_consts.specs.Lengths.{with_array};
ghost use Rattle.spv_consts.specs.State as spec;
ghost use Rattle.spv_consts.specs.Steps.{cells_with, with_type};
ghost use Rattle.spv_consts.specs.Values.{null_of};

use crate::context::Context;
use crate::lengths::is_unset;
use crate::table::ConstTable;
use crate::values::append_blank;
use spv_base::{Cell, Inst, NoMemory};
use spv_types::limits::{form_limit, known_limit};
use spv_types::{Limit, TypeTable};
use std::alloc::Global;
use std::marker::Model;

/// The types with the lengths set so far, the values so far, what the types that were passed count as, and the cells of
/// all constants so far.
#[derive(Drop)]
pub(crate) struct Walk {
    pub(crate) types: TypeTable,
    pub(crate) values: ConstTable,
    pub(crate) limits: Vec<Limit>,
    pub(crate) cells: u64,
}

impl Model for Walk {
    ghost use Rattle.std.specs.Prelude.{length};
    ghost use Rattle.std.specs.Coded.{codes};
    ghost use Rattle.spv_types.specs.Limits.{AreLimits};
    ghost use Rattle.spv_consts.specs.State as spec;

    ghost Value = { spec.State };

    ghost coded = { Prim.hlevel (codes) };

    ghost view = { λ w. record { types = w.types; values = w.values; known = length w.limits.items; cells = w.cells } };

    ghost invariant = { λ w. AreLimits w.types w.limits.items };
}

impl Walk {
    /// Before the first instruction.
    pub(crate) fn new(alloc: Global, types: TypeTable) -> Walk
        ensures { result ≡ record { types = types; values = []; known = 0; cells = 0 } }
    {
        Walk {
            types,
            values: ConstTable::new(alloc),
            limits: Vec::new(alloc),
            cells: 0,
        }
    }

    /// Whether an id is that of the first type that was not passed.
    pub(crate) fn is_next(&self, id: u32) -> bool
        ensures { result ≡ spec.is_next self.now id }
    {
        match self.types.number(id) {
            Some(number) => number == self.limits.len(),
            None => false,
        }
    }

    /// Whether an id is a constant, or an OpUndef, before a word.
    pub(crate) fn is_operand(&self, context: &Context, word: u32, id: u32) -> bool
        ensures { result ≡ spec.is_operand context.now self.now word id }
    {
        self.values.value(id).is_some() || context.has_undef_before(word, id)
    }

    /// Appends the cells of a constant or an OpUndef.
    pub(crate) fn append_operand(
        &self,
        cells: &mut Vec<Cell>,
        context: &Context,
        id: u32,
    ) -> Result<(), NoMemory>
        ensures { OnOk result (cells.new.items ≡ cells.old.items ++ spec.operand_cells context.now self.now id) }
    {
        match self.values.value(id) {
            Some(row) => Ok(cells.extend_from_slice(row.cells)?),
            None => match context.index.result_type(id) {
                Some(ty) => append_blank(cells, &self.types, false, ty),
                None => Ok(()),
            },
        }
    }

    /// Whether an operand is a constant, or an OpUndef, before a word.
    pub(crate) fn is_given(&self, context: &Context, word: u32, id: Option<u32>) -> bool
        ensures { result ≡ spec.is_given context.now self.now word id }
    {
        match id {
            Some(id) => self.is_operand(context, word, id),
            None => false,
        }
    }

    /// Appends the cells of an operand, and none where it is no id.
    pub(crate) fn append_given(
        &self,
        cells: &mut Vec<Cell>,
        context: &Context,
        id: Option<u32>,
    ) -> Result<(), NoMemory>
        ensures { OnOk result (cells.new.items ≡ cells.old.items ++ spec.given_cells context.now self.now id) }
    {
        match id {
            Some(id) => self.append_operand(cells, context, id),
            None => Ok(()),
        }
    }

    /// Gives a length to the array type that comes next.
    pub(crate) fn with_array(mut self, id: u32, length: u32) -> Walk
        requires { 1 ≤ length }
        ensures { result ≡ with_array self id length }
    {
        if self.is_next(id) && is_unset(&self.types, id) {
            self.types.set_length(id, length);
        }
        self
    }

    /// The cells of all constants with one more, of a type.
    pub(crate) fn cells_with(&self, ty: u32) -> u64
        ensures { result ≡ cells_with self.now ty }
    {
        self.cells
            .saturating_add(known_limit(&self.types, self.limits.as_slice(), ty).cells)
    }

    /// Passes the type that comes next.
    pub(crate) fn pass_type(mut self, id: u32) -> Result<Walk, NoMemory>
        requires { IsTrue (spec.is_next self id) }
        ensures { IfOk result (λ walk. walk ≡ with_type self) }
    {
        let Some(form) = self.types.form(id) else {
            return Ok(self);
        };
        let limit = form_limit(&self.types, self.limits.as_slice(), form);
        self.limits.push(limit)?;
        Ok(self)
    }

    /// Adds a null constant.
    pub(crate) fn with_null(self, inst: &Inst) -> Result<Walk, NoMemory>
        ensures { IfOk result (λ walk. walk ≡ record self { values = self.values ++ (inst.now.id, record { ty = inst.now.ty; cells = null_of self.types inst.now.ty }) ∷ []; cells = cells_with self inst.now.ty }) }
    {
        let cells = self.cells_with(inst.ty);
        let room = cells.saturating_sub(self.cells);
        let Walk {
            types,
            values,
            limits,
            ..
        } = self;
        let values = values.with_null(&types, inst.id, inst.ty, room)?;
        Ok(Walk {
            types,
            values,
            limits,
            cells,
        })
    }

    /// Adds a constant of these leaves.
    pub(crate) fn with_row(self, inst: &Inst, row: &[Cell]) -> Result<Walk, NoMemory>
        ensures { IfOk result (λ walk. walk ≡ record self { values = self.values ++ (inst.now.id, record { ty = inst.now.ty; cells = row.now }) ∷ []; cells = cells_with self inst.now.ty }) }
    {
        let cells = self.cells_with(inst.ty);
        let Walk {
            types,
            values,
            limits,
            ..
        } = self;
        let values = values.with_row(inst.id, inst.ty, row)?;
        Ok(Walk {
            types,
            values,
            limits,
            cells,
        })
    }
}
