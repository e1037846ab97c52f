//! Plans that grow by a register at a time.
ghost use Rattle.std.specs.Prelude.{◌≡◌, [], IfOk, OnOk, Some, true};
ghost use Rattle.spv_types.specs.Cells.{cells_of};
ghost use Rattle.spv_frame.specs.Plans.{AreApart};
ghost use Rattle.spv_frame.specs.Registers.{ids};
ghost use Rattle.spv_plans.specs.Drafts.{Grows, with_place, with_pointer, with_value};
ghost use Rattle.spv_plans.specs.Registers as spec;

use spv_base::{Inst, NoMemory};
use spv_frame::{Place, Plan};
use spv_ops::op;
use spv_types::TypeTable;
use spv_types::queries::{is_pointer, is_void};
use std::alloc::Global;
use std::marker::Model;

/// A plan as far as the instructions of its function are read.
#[derive(Drop)]
pub struct Draft {
    function: u32,
    first: u32,
    parameters: Vec<Place>,
    values: Vec<(u32, u32)>,
    pointers: Vec<u32>,
    types: Vec<(u32, u32)>,
}

impl Model for Draft {
    ghost use Rattle.spv_frame.specs.Registers.{Planned};

    ghost Value = { Planned };

    ghost view = { λ d. record { function = d.function; first = d.first; parameters = d.parameters.items; values = d.values.items; pointers = d.pointers.items; types = d.types.items } };
}

/// Whether an instruction has a register: a parameter does, and a result of a type that isn't void, but not an OpVariable or an
/// OpLabel.
fn is_register(types: &TypeTable, inst: &Inst) -> bool
    ensures { result ≡ spec.is_register types.now inst.now }
{
    inst.id != 0
        && inst.ty != 0
        && (inst.op == op::FUNCTION_PARAMETER
            || !is_void(types.form(inst.ty)) && inst.op != op::VARIABLE && inst.op != op::LABEL)
}

/// The number of cells of a type that has one within the limits.
fn cells_of(types: &TypeTable, ty: u32) -> u32
    requires { spec.is_counted types.now ty ≡ true }
    ensures { cells_of types.now ty ≡ Some result }
{
    match types.cells(ty) {
        Some(cells) => cells as u32,
        None => unreachable!(),
    }
}

impl Draft {
    /// The plan of a function without registers.
    pub fn new(alloc: Global, function: u32, first: u32) -> Draft
        ensures { result ≡ record { function = function; first = first; parameters = []; values = []; pointers = []; types = [] } }
    {
        Draft {
            function,
            first,
            parameters: Vec::new(alloc),
            values: Vec::new(alloc),
            pointers: Vec::new(alloc),
            types: Vec::new(alloc),
        }
    }

    /// Notes where a parameter's register lies.
    fn add_place(&mut self, inst: &Inst, place: Place) -> Result<(), NoMemory>
        ensures { OnOk result (self.new ≡ with_place self.old inst.now place) }
    {
        if inst.op == op::FUNCTION_PARAMETER {
            self.parameters.push(place)?;
        }
        Ok(())
    }

    /// Adds a register of a pointer.
    fn add_pointer(&mut self, inst: &Inst) -> Result<(), NoMemory>
        ensures { OnOk result (self.new ≡ with_pointer self.old inst.now) }
    {
        let place = Place::Pointer(self.pointers.len());
        self.add_place(inst, place)?;
        self.pointers.push(inst.id)?;
        self.types.push((inst.id, inst.ty))?;
        Ok(())
    }

    /// Adds a register of a value with so many cells.
    fn add_value(&mut self, inst: &Inst, cells: u32) -> Result<(), NoMemory>
        ensures { OnOk result (self.new ≡ with_value self.old inst.now cells) }
    {
        let place = Place::Value(self.values.len());
        self.add_place(inst, place)?;
        self.values.push((inst.id, cells))?;
        self.types.push((inst.id, inst.ty))?;
        Ok(())
    }

    /// Adds the register of an instruction, where it has one.
    pub fn add(&mut self, types: &TypeTable, inst: &Inst) -> Result<(), NoMemory>
        requires { spec.is_register types.now inst.now ≡ true → spec.is_counted types.now inst.now.ty ≡ true }
        ensures { OnOk result (Grows types.now inst.now self.old self.new) }
    {
        if !is_register(types, inst) {
            return Ok(());
        }
        if is_pointer(types.form(inst.ty)) {
            self.add_pointer(inst)
        } else {
            self.add_value(inst, cells_of(types, inst.ty))
        }
    }

    /// The plan.
    pub fn finish(&self, alloc: Global) -> Result<Plan, NoMemory>
        requires values { AreApart (ids self.now.values) }
        requires pointers { AreApart self.now.pointers }
        ensures { IfOk result (λ plan. plan ≡ self.now) }
    {
        Plan::new(
            alloc,
            self.function,
            self.first,
            self.parameters.as_slice(),
            self.values.as_slice(),
            self.pointers.as_slice(),
            self.types.as_slice(),
        )
    }
}
