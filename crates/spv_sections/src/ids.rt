//! The rules of ids (SPIR-V 1.6 sections 2.2.1, 2.4 and 2.16.1).
ghost use Rattle.std.specs.Prelude.{◌≡◌};
ghost use Rattle.std.specs.List.{flat_map, list_all};
ghost use Rattle.spv_types.specs.Build.{unless_refused};
ghost use Rattle.spv_sections.specs.Ids as spec;

use crate::definitions::{Definition, Home, is_id};
use crate::kinds::{Uses, Wanted};
use spv_base::{Inst, Operand, Refusal};
use spv_index::Index;
use spv_index::classes::Class;
use spv_index::positions::Position;
use spv_index::stands::Stands;
use spv_ops::{Head, op, opcode_of};

/// The code of the rules of ids as numbers.
const NUMBER_CODE: u8 = 8;

/// The code of the rules of what ids stand for.
const NAMING_CODE: u8 = 9;

/// From where an instruction names ids.
#[derive(Clone, Copy)]
pub struct Scope {
    /// The function that it stands in, if any.
    pub home: Home,
    /// The word that the ids have to be defined before, if any.
    pub before: Option<u32>,
}

/// What stands before the operands of an opcode.
#[tactic(auto, unfolding(crate::specs::Ids::head_of))]
fn head_of(op: u16) -> Head
    ensures { result ≡ spec.head_of op }
{
    match opcode_of(op) {
        Some(opcode) => opcode.2,
        None => Head::Plain,
    }
}

fn has_result(op: u16) -> bool
    ensures { result ≡ spec.has_result (spec.head_of op) }
{
    matches!(head_of(op), Head::Result | Head::TypedResult)
}

fn has_type(op: u16) -> bool
    ensures { result ≡ spec.has_type (spec.head_of op) }
{
    matches!(head_of(op), Head::TypedResult)
}

/// The operands that the rules look at: of an instruction with no meaning at run time the set and the number.
fn looked_at(class: Class, inst: &Inst) -> &[Operand]
    ensures { result.now ≡ spec.looked_at class inst.now }
{
    let operands = inst.operands.as_slice();
    if matches!(class, Class::Line) && inst.op == op::EXT_INST && operands.len() > 2 {
        &operands[..2]
    } else {
        operands
    }
}

/// Whether an opcode names ids that may be defined later, before the functions too.
fn names_later(op: u16) -> bool
    ensures { result ≡ spec.names_later op }
{
    matches!(
        op,
        op::NAME
            | op::MEMBER_NAME
            | op::ENTRY_POINT
            | op::EXECUTION_MODE
            | op::DECORATE
            | op::MEMBER_DECORATE
            | op::EXECUTION_MODE_ID
    )
}

/// How many ids an operand is.
fn id_count(operand: &Operand) -> usize
    ensures { result ≡ spec.id_count operand.now }
{
    match operand {
        Operand::Id(_) => 1,
        Operand::Lit(_) | Operand::Text(_) => 0,
    }
}

/// Whether an id was defined by an instruction before this word.
fn is_before(word: u32, definition: Option<Definition>) -> bool
    ensures { result ≡ spec.is_before word definition }
{
    match definition {
        Some(definition) => definition.word < word,
        None => false,
    }
}

impl Scope {
    /// The scope of an instruction at a position.
    fn of(position: Position, inst: &Inst) -> Scope
        ensures { result ≡ spec.scope_of position inst.now }
    {
        let names_later = position.stage.in_function()
            || inst.op == op::FUNCTION
            || names_later(inst.op);
        Scope {
            home: if inst.op == op::EXECUTION_MODE_ID {
                Home::Anywhere
            } else {
                Home::of(position)
            },
            before: if names_later { None } else { Some(inst.word) },
        }
    }

    /// Whether a definition at this word is early enough.
    fn is_early(self, word: u32) -> bool
        ensures { result ≡ spec.is_early self.before word }
    {
        match self.before {
            Some(before) => word < before,
            None => true,
        }
    }

    /// Whether a definition can be named from here, and is of what is wanted.
    fn serves(self, wanted: Wanted, definition: Option<Definition>) -> bool
        ensures { result ≡ spec.serves self wanted definition }
    {
        match definition {
            Some(definition) => wanted.fits(definition.kind)
                && self.home.sees(definition.home)
                && self.is_early(definition.word),
            None => false,
        }
    }
}

fn is_result(index: &Index, inst: &Inst) -> bool
    ensures { result ≡ spec.is_result index.now inst.now }
{
    if inst.id == 0 {
        return !has_result(inst.op);
    }
    is_id(index, inst.id) && !is_before(inst.word, Definition::first(index, inst.id))
}

fn is_type_id(index: &Index, inst: &Inst) -> bool
    ensures { result ≡ spec.is_type_id index.now inst.now }
{
    if inst.ty == 0 {
        return !has_type(inst.op);
    }
    is_id(index, inst.ty)
}

fn is_operand(index: &Index, operand: &Operand) -> bool
    ensures { result ≡ spec.is_operand index.now.bound operand.now }
{
    match operand {
        Operand::Id(id) => is_id(index, *id),
        Operand::Lit(_) | Operand::Text(_) => true,
    }
}

fn are_operands(index: &Index, operands: &[Operand]) -> bool
    ensures { result ≡ list_all (spec.is_operand index.now.bound) operands.now }
{
    operands.iter().all(|operand| is_operand(index, operand))
}

/// Whether the ids of an instruction are in order as numbers.
fn is_numbered(index: &Index, class: Class, inst: &Inst) -> bool
    ensures { result ≡ spec.is_numbered index.now class inst.now }
{
    is_result(index, inst) && is_type_id(index, inst) && are_operands(index, looked_at(class, inst))
}

/// Whether an id is of what is wanted.
fn names(index: &Index, scope: Scope, wanted: Wanted, id: u32) -> bool
    ensures { result ≡ spec.names index.now scope wanted id }
{
    wanted.is_anything() || scope.serves(wanted, Definition::first(index, id))
}

fn operand_names(index: &Index, scope: Scope, wanted: Wanted, operand: &Operand) -> bool
    ensures { result ≡ spec.operand_names index.now scope wanted operand.now }
{
    match operand {
        Operand::Id(id) => names(index, scope, wanted, *id),
        Operand::Lit(_) | Operand::Text(_) => true,
    }
}

fn operands_name(index: &Index, scope: Scope, uses: Uses, operands: &[Operand]) -> bool
    ensures { result ≡ spec.operands_name index.now scope uses 0 operands.now }
{
    let mut number = 0;
    for operand in operands {
        if !operand_names(index, scope, uses.wanted(number), operand) {
            return false;
        }
        number += id_count(operand);
    }
    true
}

/// Whether the result type of an instruction and the ids of its operands are of what is wanted.
fn is_naming(index: &Index, scope: Scope, class: Class, inst: &Inst) -> bool
    ensures { result ≡ spec.is_naming index.now scope class inst.now }
{
    (inst.ty == 0 || names(index, scope, Wanted::DeclaredType, inst.ty))
        && operands_name(index, scope, Uses::of(inst.op), looked_at(class, inst))
}

/// Refuses an instruction whose ids are not in order.
#[tactic(auto, unfolding(crate::specs::Ids::breaches_at))]
fn check_inst(index: &Index, scope: Scope, class: Class, inst: &Inst) -> Result<(), Refusal>
    ensures { result ≡ unless_refused tt (spec.breaches_at index.now scope class inst.now) }
{
    if !is_numbered(index, class, inst) {
        return Err(Refusal {
            code: NUMBER_CODE,
            word: inst.word,
        });
    }
    if !is_naming(index, scope, class, inst) {
        return Err(Refusal {
            code: NAMING_CODE,
            word: inst.word,
        });
    }
    Ok(())
}

/// Refuses the first instruction whose ids are not in order.
fn check_all(index: &Index, stands: &Stands) -> Result<(), Refusal>
    ensures { result ≡ unless_refused tt (flat_map (spec.breaches_of index.now) stands.now) }
{
    for n in 0..stands.len() {
        let stand = stands.at(n);
        let scope = Scope::of(stand.position, stand.inst);
        check_inst(index, scope, stand.class, stand.inst)?;
    }
    Ok(())
}

/// Checks the ids of a module.
///
/// Refuses M8 at an instruction with an id that is 0, at or over the Bound, or defined before, and M9 at one that names
/// an id which isn't defined where it can be named, or stands for something else than the operand asks: of several the one
/// at the lowest word, and at one word M8.
#[tactic(auto, unfolding(crate::specs::Ids::ids_of))]
pub fn check_ids(index: &Index) -> Result<(), Refusal>
    ensures { result ≡ spec.ids_of index.now }
{
    check_all(index, &index.stands())
}
