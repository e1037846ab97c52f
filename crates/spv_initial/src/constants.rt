//! Variables that begin undefined, or with the value of a constant (SPIR-V 1.6 section 3.42.8, OpVariable).
ghost use Rattle.std.specs.Prelude.{◌≡◌, IfOk, IfSome, option_map};
ghost use Rattle.spv_consts.specs.Trees.{value_at};
ghost use Rattle.spv_mem.specs.Blanks.{blank_of};
ghost use Rattle.spv_mem.specs.Targets.{elements_in};
ghost use Rattle.spv_types.specs.Rows.{leaves};
ghost use Rattle.spv_initial.specs.Values.{Suits, initialized, initializer_of, local_value};

use crate::variables::Declared;
use spv_base::{Cell, Ghost, NoMemory, Value};
use spv_consts::Row as Constant;
use spv_mem::Variable;
use spv_mem::parts::{last_part, part_count};
use spv_ops::storage_class;
use spv_types::TypeTable;
use spv_valid::Module;
use spv_values::Row;
use std::alloc::Global;

/// The leaves of a value of a type.
#[derive(Clone, Copy)]
struct Leaves<'a> {
    types: &'a TypeTable,
    ty: u32,
    cells: &'a [Cell],
}

impl<'a> Leaves<'a> {
    /// The tree of the value, for proofs.
    fn tree(&self) -> Ghost<Value>
        ensures { result.value ≡ value_at self.now.types.now self.now.ty self.now.cells.now }
    {
        let tree = Ghost::of();
        self.tree_by(&tree)
    }

    fn tree_by(&self, tree: &Ghost<Value>) -> Ghost<Value>
        ensures { result.value ≡ value_at self.now.types.now self.now.ty self.now.cells.now }
    {
        tree.by(self, tree)
    }

    /// How many parts the last part has.
    #[tactic(auto, using(crate::proofs::LeafLemmas::constant_elements))]
    fn elements(&self) -> Result<u32, NoMemory>
        ensures { IfOk result (λ n. n ≡ elements_in (value_at self.now.types.now self.now.ty self.now.cells.now)) }
    {
        let Some((limit, form)) = self.types.found(self.types.len(), self.ty) else {
            return Ok(0);
        };
        let Some(part) = last_part(form, 0) else {
            return Ok(0);
        };
        match self.types.found(limit, part) {
            Some((_, form)) => part_count(form, 0),
            None => Ok(0),
        }
    }

    /// The variable that holds the value.
    fn variable(&self, alloc: Global) -> Result<Variable, NoMemory>
        requires { leaves (value_at self.now.types.now self.now.ty self.now.cells.now) ≡ self.now.cells.now }
        ensures { IfOk result (λ variable. variable ≡ value_at self.now.types.now self.now.ty self.now.cells.now) }
    {
        let count = self.elements()?;
        let cells = Vec::from_slice(alloc, self.cells)?;
        Ok(Variable::new(Row::with_tree(cells, self.tree()), count))
    }
}

/// The undefined value of a variable's type, in which a runtime array has no elements.
pub fn undefined(
    alloc: Global,
    types: &TypeTable,
    declared: &Declared,
) -> Result<Variable, NoMemory>
    ensures value { IfOk result (λ variable. variable ≡ blank_of types.now 0 declared.now.target) }
    ensures suits { IfOk result (Suits types.now declared.now) }
{
    let variable = Variable::blank(alloc, types, declared.target, 0)?;
    Ok(variable)
}

/// The initializer of a variable: a constant of the variable's type.
fn initializer_of<'a>(accepted: &'a Module, declared: &Declared) -> Option<Constant<'a>>
    ensures { option_map (λ r. record { ty = r.ty; cells = r.cells.now }) result ≡ initializer_of accepted.now declared.now }
{
    let row = accepted.constant(declared.initializer?)?;
    if row.ty == declared.target {
        Some(row)
    } else {
        None
    }
}

/// The value of a variable's initializer, or else the undefined value of the variable's type.
pub fn initialized(
    alloc: Global,
    accepted: &Module,
    declared: &Declared,
) -> Result<Variable, NoMemory>
    ensures value { IfOk result (λ variable. variable ≡ initialized accepted.now declared.now) }
    ensures suits { IfOk result (Suits accepted.now.types declared.now) }
{
    let _insts = accepted.insts();
    let types = accepted.types();
    match initializer_of(accepted, declared) {
        Some(row) => {
            let ty = row.ty;
            let cells = row.cells;
            Leaves { types, ty, cells }.variable(alloc)
        }
        None => undefined(alloc, types, declared),
    }
}

/// What a variable begins with that a frame has: the value of its initializer, or else the undefined value. None exactly where it is no
/// such variable.
pub fn local(
    alloc: Global,
    accepted: &Module,
    declared: &Declared,
) -> Result<Option<Variable>, NoMemory>
    ensures value { IfOk result (λ variable. variable ≡ local_value accepted.now declared.now) }
    ensures suits { IfOk result (λ variable. IfSome variable (Suits accepted.now.types declared.now)) }
{
    if declared.class == storage_class::FUNCTION {
        Ok(Some(initialized(alloc, accepted, declared)?))
    } else {
        Ok(None)
    }
}
