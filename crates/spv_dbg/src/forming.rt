//! Which debug instructions are well-formed: by the table of kinds, where they stand, and the limits on types.
ghost use Rattle.std.specs.Prelude.{◌≡◌};
ghost use Rattle.spv_dbg.specs.Forming as spec;

use crate::insts::{DebugInst, operand_of};
use crate::kinds::{FRAGMENT, More, Role, is_in_blocks_alone, kind_of, operands_of};
use crate::literals::{literal_of, string_of};
use crate::marks::{Mark, known};
use crate::measures::{Measure, measure_of, operands_from};
use spv_ops::debug_info::{EXPRESSION, OPERATION};
use spv_valid::Module;

/// The most bits of a type's values.
const MOST_BITS: u64 = 268_435_456;

/// How deep a type may be nested.
const MOST_NESTING: u64 = 64;

/// Whether an id is an earlier debug instruction that a role asks for.
fn leads_to(module: &Module, marks: &[Option<Mark>], role: Role, id: u32) -> bool
    ensures { result ≡ spec.leads_to module.now marks.now role id }
{
    match known(module, marks, id) {
        Some(mark) => role.takes(mark.number),
        None => false,
    }
}

/// Whether an operand is what it has to be.
fn fits(module: &Module, marks: &[Option<Mark>], role: Role, id: u32) -> bool
    ensures { result ≡ spec.fits module.now marks.now role id }
{
    match role {
        Role::Any => true,
        Role::Literal => literal_of(module, id).is_some(),
        Role::Text => string_of(module.index(), id).is_some(),
        Role::DebugType
        | Role::Scope
        | Role::Source
        | Role::InlinedAt
        | Role::Local
        | Role::Variable
        | Role::Expression
        | Role::Operation => leads_to(module, marks, role, id),
    }
}

/// Whether each role has an operand, which is what it has to be.
fn all_fit(module: &Module, marks: &[Option<Mark>], mut roles: &[Role], mut ids: &[u32]) -> bool
    ensures { result ≡ spec.all_fit module.now marks.now roles.entry.now ids.entry.now }
{
    while let [role, more_roles @ ..] = roles {
        let [id, more_ids @ ..] = ids else {
            return false;
        };
        if !fits(module, marks, *role, *id) {
            return false;
        }
        roles = more_roles;
        ids = more_ids;
    }
    true
}

/// Whether each operand is what it has to be.
fn each_fits(module: &Module, marks: &[Option<Mark>], role: Role, mut ids: &[u32]) -> bool
    ensures { result ≡ spec.more_fit module.now marks.now (More.Many role) ids.entry.now }
{
    while let [id, more @ ..] = ids {
        if !fits(module, marks, role, *id) {
            return false;
        }
        ids = more;
    }
    true
}

/// Whether each operand of each whole pair is what it has to be.
fn pairs_fit(
    module: &Module,
    marks: &[Option<Mark>],
    first: Role,
    second: Role,
    mut ids: &[u32],
) -> bool
    ensures { result ≡ spec.pairs_fit module.now marks.now first second ids.entry.now }
{
    while let [a, b, more @ ..] = ids {
        if !fits(module, marks, first, *a) || !fits(module, marks, second, *b) {
            return false;
        }
        ids = more;
    }
    true
}

/// Whether what stands behind the operands that are asked for is what it has to be.
fn more_fit(module: &Module, marks: &[Option<Mark>], more: More, ids: &[u32]) -> bool
    ensures { result ≡ spec.more_fit module.now marks.now more ids.now }
{
    match more {
        More::Nothing => true,
        More::Optional(role) => match ids {
            [] => true,
            [id, ..] => fits(module, marks, role, *id),
        },
        More::Many(role) => each_fits(module, marks, role, ids),
        More::Pairs(first, second) => pairs_fit(module, marks, first, second, ids),
    }
}

/// Whether an instruction with a number has the operands of its kind.
#[tactic(auto, unfolding(crate::specs::Forming::has_operands))]
fn operands_fit(module: &Module, marks: &[Option<Mark>], number: u32, ids: &[u32]) -> bool
    ensures { result ≡ spec.has_operands module.now marks.now number ids.now }
{
    match kind_of(number) {
        Some((roles, more)) => all_fit(module, marks, roles, ids)
            && more_fit(module, marks, more, operands_from(ids, roles.len())),
        None => false,
    }
}

/// The OpCode of the Operation with an id.
fn opcode_of(module: &Module, id: u32) -> Option<u32>
    ensures { result ≡ spec.opcode_of module.now id }
{
    let inst = module.index().defining(id)?;
    literal_of(module, operand_of(inst, 0))
}

/// Whether an Operation has what its OpCode asks, and nothing behind it.
fn is_operation(module: &Module, marks: &[Option<Mark>], ids: &[u32]) -> bool
    ensures { result ≡ spec.is_operation module.now marks.now ids.now }
{
    let [code, ids @ ..] = ids else {
        return false;
    };
    let Some(opcode) = literal_of(module, *code) else {
        return false;
    };
    match operands_of(opcode) {
        Some(roles) => ids.len() == roles.len() && all_fit(module, marks, roles, ids),
        None => false,
    }
}

/// Whether each Operation of an Expression but the last is no Fragment.
fn fragment_is_last(module: &Module, mut ids: &[u32]) -> bool
    ensures { result ≡ spec.fragment_is_last module.now ids.entry.now }
{
    while let [id, more @ ..] = ids {
        if more.is_empty() {
            return true;
        }
        if opcode_of(module, *id) == Some(FRAGMENT) {
            return false;
        }
        ids = more;
    }
    true
}

/// Whether an Operation or an Expression keeps the rules that only these have.
fn is_exact(module: &Module, marks: &[Option<Mark>], number: u32, ids: &[u32]) -> bool
    ensures { result ≡ spec.is_exact module.now marks.now number ids.now }
{
    match number {
        OPERATION => is_operation(module, marks, ids),
        EXPRESSION => fragment_is_last(module, ids),
        _ => true,
    }
}

fn is_within(measure: Measure) -> bool
    ensures { result ≡ spec.is_within measure }
{
    measure.bits <= MOST_BITS && measure.nesting <= MOST_NESTING
}

/// Whether the operands and the place of a debug instruction are right, in a block or not.
fn is_right(module: &Module, marks: &[Option<Mark>], inside: bool, debug: &DebugInst) -> bool
    ensures { result ≡ spec.is_right module.now marks.now inside debug.now }
{
    let ids = debug.operands.as_slice();
    operands_fit(module, marks, debug.number, ids)
        && (inside || !is_in_blocks_alone(debug.number))
        && is_exact(module, marks, debug.number, ids)
}

/// What is kept of a debug instruction, in a block or not, where it is well-formed.
pub(crate) fn mark_of(
    module: &Module,
    marks: &[Option<Mark>],
    inside: bool,
    debug: &DebugInst,
) -> Option<Mark>
    ensures { result ≡ spec.mark_of module.now marks.now inside debug.now }
{
    if !is_right(module, marks, inside, debug) {
        return None;
    }
    let measure = measure_of(module, marks, debug.number, debug.operands.as_slice());
    if !is_within(measure) {
        return None;
    }
    Some(Mark {
        number: debug.number,
        bits: measure.bits,
        nesting: measure.nesting,
    })
}
