//! The order inside functions (SPIR-V 1.6 sections 2.4 and 2.16.1): parameters, blocks, terminators, variables and phis.
ghost use Rattle.std.specs.Prelude.{◌≡◌, ◌++◌};
ghost use Rattle.std.specs.List.{flat_map};
ghost use Rattle.spv_base.specs.Lowest.{lowest};
ghost use Rattle.spv_index.specs.Positions.{outside};
ghost use Rattle.spv_cfg.specs.Layout as spec;

use spv_base::{Inst, lower};
use spv_index::classes::Class;
use spv_index::positions::Position;
use spv_index::stands::Stands;

/// The OpLabel of the block at hand, where it has no terminator and should have ended.
fn unended(position: Position, class: Class) -> Option<u32>
    ensures { result ≡ lowest (spec.unended position class) }
{
    if class.ends_block() && position.stage.in_block() {
        Some(position.block_word)
    } else {
        None
    }
}

/// Whether the function at hand lacks its OpFunctionEnd or a block.
fn is_lacking(position: Position, class: Class) -> bool
    ensures { result ≡ spec.is_lacking position class }
{
    match class {
        Class::Function => position.stage.in_function(),
        Class::End => position.stage.is_head(),
        Class::Parameter
        | Class::Label
        | Class::Line
        | Class::Phi
        | Class::Variable
        | Class::Terminator
        | Class::Passed
        | Class::Executable => false,
    }
}

/// The OpFunction of the function at hand, where it lacks its OpFunctionEnd or a block.
fn lacking(position: Position, class: Class) -> Option<u32>
    ensures { result ≡ lowest (spec.lacking position class) }
{
    if is_lacking(position, class) {
        Some(position.function_word)
    } else {
        None
    }
}

/// Whether such an instruction may stand at a position in a function.
fn may_stand(position: Position, class: Class) -> bool
    ensures { result ≡ spec.may_stand position class }
{
    match class {
        Class::Function | Class::End | Class::Label | Class::Line => true,
        Class::Parameter => position.stage.is_head(),
        Class::Phi => position.stage.among_phis(),
        Class::Variable => position.first && position.stage.among_variables(),
        Class::Terminator | Class::Passed | Class::Executable => position.stage.in_block(),
    }
}

/// The instruction, where it may not stand at its position.
fn misplaced(position: Position, class: Class, inst: &Inst) -> Option<u32>
    ensures { result ≡ lowest (spec.misplaced (record { position = position; class = class; inst = inst.now })) }
{
    if position.stage.in_function() && !may_stand(position, class) {
        Some(inst.word)
    } else {
        None
    }
}

/// The lowest word where the order is broken at an instruction.
fn breach_at(position: Position, class: Class, inst: &Inst) -> Option<u32>
    ensures { result ≡ lowest (spec.layout_breach (record { position = position; class = class; inst = inst.now })) }
{
    let missing = lower(lacking(position, class), misplaced(position, class, inst));
    lower(unended(position, class), missing)
}

/// The lowest word where the last function is not finished.
fn unfinished(position: Position) -> Option<u32>
    ensures { result ≡ lowest (spec.unfinished position) }
{
    lower(
        unended(position, Class::Function),
        lacking(position, Class::Function),
    )
}

/// The lowest word where the order inside a function is broken.
pub fn layout_breach(stands: &Stands) -> Option<u32>
    ensures { result ≡ lowest (flat_map spec.layout_breach stands.now ++ spec.unfinished (spec.behind outside stands.now)) }
{
    let mut least = None;
    let mut position = Position::outside();
    for n in 0..stands.len() {
        let stand = stands.at(n);
        least = lower(least, breach_at(stand.position, stand.class, stand.inst));
        position = stand.position.after(stand.class, stand.inst);
    }
    lower(least, unfinished(position))
}
