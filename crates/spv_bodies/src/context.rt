//! The validation context: what the rules of function bodies ask about.
ghost use Rattle.std.specs.Prelude.{◌≡◌, option_copied};
ghost use Rattle.spv_index.specs.Definitions.{defining};
ghost use Rattle.spv_types.specs.Types.{form_of};
ghost use Rattle.spv_bodies.specs.Context as spec;

use spv_base::{Inst, Operand};
use spv_consts::ConstTable;
use spv_index::{Index, Table, id_in, id_operand};
use spv_ops::storage_class::STORAGE_BUFFER;
use spv_sections::declares_variable_pointers;
use spv_types::constants::is_constant;
use spv_types::queries::{Pointed, is_integer, pointee};
use spv_types::{Form, TypeTable};
use std::marker::Model;

/// The types, the values of the constants and the index of a module, and whether it declares variable pointers.
#[derive(Drop)]
pub struct Context<'a> {
    types: &'a TypeTable,
    consts: &'a ConstTable,
    index: &'a Index,
    pointers: bool,
}

impl<'a> Model for Context<'a> {
    ghost use Rattle.std.specs.Coded.{codes};
    ghost use Rattle.spv_base.specs.contracts.values.Value as tree;
    ghost use Rattle.spv_index.specs.Classes.{sets_of};
    ghost use Rattle.spv_bodies.specs.Context.{Known};

    ghost Value = { Known };

    ghost coded = { Prim.hlevel (codes, tree.the_row.coded) };

    ghost view = { λ c. record {
      types = c.types.now;
      consts = c.consts.now;
      insts = c.index.now.insts;
      sets = sets_of c.index.now.insts;
      pointers = c.pointers;
    } };
}

impl<'a> Context<'a> {
    /// The context of a module with these types and constants.
    pub fn of(types: &'a TypeTable, consts: &'a ConstTable, index: &'a Index) -> Context<'a>
        ensures { result ≡ spec.known_of types.now consts.now index.now.insts }
    {
        Context {
            types,
            consts,
            index,
            pointers: declares_variable_pointers(index.insts()),
        }
    }

    /// The types of the module.
    pub fn types(&self) -> &TypeTable
        ensures { result.now ≡ self.now.types }
    {
        self.types
    }

    /// The values of the constants.
    pub fn consts(&self) -> &ConstTable
        ensures { result.now ≡ self.now.consts }
    {
        self.consts
    }

    /// The instruction that defines an id.
    pub fn defining(&self, id: u32) -> Option<&Inst>
        ensures { option_copied result ≡ defining self.now.insts id }
    {
        self.index.defining(id)
    }

    /// The imported sets, each with whether it has no meaning at run time.
    pub fn sets(&self) -> &Table<bool>
        ensures { result.now ≡ self.now.sets }
    {
        self.index.sets()
    }

    /// The form of a type.
    pub fn form(&self, ty: u32) -> Option<&Form>
        ensures { option_copied result ≡ form_of self.now.types ty }
    {
        self.types.form(ty)
    }

    /// The type of an id.
    pub fn type_of(&self, id: u32) -> Option<u32>
        ensures { result ≡ spec.type_of self.now id }
    {
        self.index.result_type(id)
    }

    /// The type of an id's constant. An OpUndef is none.
    pub fn constant_in(&self, id: u32) -> Option<u32>
        ensures { result ≡ spec.constant_in self.now id }
    {
        match self.index.defining(id) {
            Some(inst) if is_constant(inst.op) => Some(inst.ty),
            _ => None,
        }
    }

    /// Whether the module declares variable pointers.
    pub fn pointers(&self) -> bool
        ensures { result ≡ self.now.pointers }
    {
        self.pointers
    }

    /// Whether phis, selects, calls and returns may give a value of a type: of any but a pointer type, and with variable
    /// pointers a pointer into a StorageBuffer too.
    pub fn is_given(&self, form: Option<&Form>) -> bool
        ensures { result ≡ spec.is_given self.now (option_copied form.entry) }
    {
        match form {
            Some(Form::Pointer { class, .. }) => self.pointers && *class == STORAGE_BUFFER,
            _ => true,
        }
    }

    /// The type of the id that an operand is.
    pub fn type_in(&self, operand: &Operand) -> Option<u32>
        ensures { result ≡ spec.type_in self.now operand.now }
    {
        self.type_of(id_in(operand)?)
    }

    /// The type of the id at a place among the operands.
    pub fn type_at(&self, inst: &Inst, place: usize) -> Option<u32>
        ensures { result ≡ spec.type_at self.now inst.now place }
    {
        self.type_of(id_operand(inst, place)?)
    }

    /// The form of that type.
    pub fn form_at(&self, inst: &Inst, place: usize) -> Option<&Form>
        ensures { option_copied result ≡ spec.form_at self.now inst.now place }
    {
        match self.type_at(inst, place) {
            Some(ty) => self.form(ty),
            None => None,
        }
    }

    /// Whether the operand at a place is a scalar integer.
    pub fn is_integer_at(&self, inst: &Inst, place: usize) -> bool
        ensures { result ≡ spec.is_integer_at self.now inst.now place }
    {
        is_integer(self.form_at(inst, place))
    }

    /// Where the pointer at a place among the operands leads.
    pub fn pointee_at(&self, inst: &Inst, place: usize) -> Option<Pointed>
        ensures { result ≡ spec.pointee_at self.now inst.now place }
    {
        pointee(self.form_at(inst, place))
    }

    /// The type of the constant at a place among the operands.
    pub fn constant_at(&self, inst: &Inst, place: usize) -> Option<u32>
        ensures { result ≡ spec.constant_at self.now inst.now place }
    {
        self.constant_in(id_operand(inst, place)?)
    }
}

/// Whether a type is of pointers into a StorageBuffer.
pub fn is_buffer_pointer(form: Option<&Form>) -> bool
    ensures { result ≡ spec.is_buffer_pointer (option_copied form.entry) }
{
    match form {
        Some(Form::Pointer { class, .. }) => *class == STORAGE_BUFFER,
        _ => false,
    }
}
