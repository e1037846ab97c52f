//! The lengths of runtime arrays (SPIR-V 1.6 section 3.42.8, OpArrayLength).
ghost use Rattle.std.specs.Prelude.{◌≡◌, ℕ, IfOk, Ok, OnOk, Some, ok_or};
ghost use Rattle.spv_base.specs.Answers.{Answers};
ghost use Rattle.spv_base.specs.declared.values.Pointer.{Pointer as Reference};
ghost use Rattle.spv_base.specs.declared.values.Value.{Scalar};
ghost use Rattle.spv_index.specs.Operands.{literal_operand};
ghost use Rattle.spv_operands.specs.Operands.{IsPlain, shown};
ghost use Rattle.spv_state.specs.Actions.{action_of};
ghost use Rattle.spv_sites.specs.Effects.{pointer};
ghost use Rattle.spv_sites.specs.Lengths as lengths;
ghost use Rattle.spv_sites.specs.Planned.{IsDue, IsTaken, PlannedFits};
ghost use Rattle.spv_sites.specs.Sites as spec;
ghost use Rattle.spv_sites.specs.declared.causes.Cause.TheVariants.{OutOfBounds};

use crate::kept::length_is_kept;
use spv_base::{Cell, Fail, NoMemory, Pointer, Root};
use spv_index::literal_operand;
use spv_operands::Operand;
use spv_sites::{Cause, Control, Effect, Gain, Site};
use spv_state::Action;
use spv_values::Row;
use spv_values::trees::scalar;

/// Whether a variable is one that the workgroup shares.
fn is_shared(root: Root) -> bool
    ensures { result ≡ lengths.is_shared root }
{
    match root {
        Root::Shared(_) => true,
        Root::Private(_) | Root::Local { .. } => false,
    }
}

/// Puts a scalar into a row. It takes memory only where the row never had room for a cell.
#[tactic(auto, using(spv_types::proofs::Exports::leaves_scalar))]
fn put_scalar(cell: Cell, row: &mut Row) -> Result<(), NoMemory>
    ensures { OnOk result (row.new ≡ Scalar cell) }
{
    let tree = scalar(&row.as_part().tree(), &cell);
    let mut cells = row.take_cells();
    cells.clear();
    cells.push(cell)?;
    *row = Row::with_tree(cells, tree);
    Ok(())
}

/// How many elements the runtime array has that is a member of the block which a pointer names. F3 where it names no part of memory.
fn elements(site: &Site, p: &Pointer, member: u32) -> Result<u32, Fail<Cause>>
    requires { ∥ spec.LeadsToArray site.now.state.memory p.now member ∥₁ }
    ensures { Answers (ok_or (lengths.elements_at site.now.state site.now.inv p.now member) OutOfBounds) result }
{
    let memory = site.memory();
    if !is_shared(p.root) {
        return Err(Fail::Refused(Cause::OutOfBounds));
    }
    match memory.load(site.inv(), p) {
        Ok(_) => Ok(memory.array_length(p, member)),
        Err(_) => Err(Fail::Refused(Cause::OutOfBounds)),
    }
}

/// The number that the register takes.
fn length(site: &Site, at: &Operand) -> Result<u32, Fail<Cause>>
    requires plain { IsPlain at.now }
    requires array { (q : Reference) (member : ℕ) → pointer (shown at.now) ≡ Ok q → literal_operand site.now.inst 1 ≡ Some member
        → ∥ spec.LeadsToArray site.now.state.memory q member ∥₁ }
    ensures { Answers (lengths.length_of site.now.state site.now.inv site.now.inst (shown at.now)) result }
{
    let Some(reference) = at.pointer(site.alloc()) else {
        return Err(Fail::Refused(Cause::OutOfBounds));
    };
    let Some(member) = literal_operand(site.inst(), 1) else {
        return Err(Fail::Refused(Cause::OutOfBounds));
    };
    elements(site, reference.pointer(), member)
}

/// OpArrayLength: the register takes the number of elements.
pub fn array_length(site: &Site, row: &mut Row) -> Result<Effect, Fail<Cause>>
    requires { action_of site.now.inst ≡ Action.ArrayLength }
    ensures due { IsDue (spec.due site.now) row.new result }
    ensures fits { PlannedFits site.now.program site.now.state site.now.inv site.now.inst row.new result }
    ensures taken { IfOk result (λ e. IsTaken site.now.state site.now.inv e row.new) }
{
    length_is_kept(site);
    site.is_reached();
    let _insts = site.accepted().insts();
    let block = site.operand(0)?;
    let count = length(site, &block)?;
    let cell = Cell {
        bits: u64::from(count),
        width: 32,
        defined: true,
    };
    put_scalar(cell, row)?;
    Ok(Effect {
        store: None,
        gain: Gain::Row,
        control: Control::Next,
    })
}
