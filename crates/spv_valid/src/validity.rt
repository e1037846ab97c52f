//! What accepted modules give to a run over them.
ghost use Rattle.spv_valid.specs.Acceptance.{Accepted, IsAccepted};
ghost use Rattle.spv_valid.specs.Validity.{IsValid};

use spv_bodies::instructions_keep_their_rules;
use spv_cfg::laws::{
    each_block_is_entered, functions_are_entered, runs_go_on, targets_are_entered,
};
use spv_consts::laws::constants::constants_have_the_shapes_of_their_types;
use spv_consts::laws::limits::types_and_constants_keep_limits;
use spv_sections::laws::{ids_stand_for_what_is_asked, results_are_defined_once};

/// A law, with nothing to run: the ids, types, constants, blocks and bodies of an accepted module are what a run over it needs.
pub fn accepted_modules_are_valid()
    ensures { (a : Accepted) → IsAccepted a → IsValid a }
{
    ids_stand_for_what_is_asked();
    results_are_defined_once();
    constants_have_the_shapes_of_their_types();
    types_and_constants_keep_limits();
    each_block_is_entered();
    targets_are_entered();
    functions_are_entered();
    runs_go_on();
    instructions_keep_their_rules();
}
