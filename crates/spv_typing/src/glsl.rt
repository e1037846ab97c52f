//! Whether the types of the operands of an instruction of GLSL.std.450 fit the type of its result.
ghost use Rattle.std.specs.Prelude.{◌≡◌};
ghost use Rattle.spv_base.specs.Options.{holds};
ghost use Rattle.spv_typing.specs.Glsl as spec;
ghost use Rattle.spv_typing.specs.Operands.{operand_type};
ghost use Rattle.spv_typing.specs.Rules.{rule_count};

use crate::fitting::fits_rule;
use crate::operands::OperandTypes;
use crate::rules::Rule;
use spv_ops::glsl;
use spv_types::TypeTable;

/// The rule of an instruction's number; none where there is no such instruction.
pub fn glsl_rule(number: u32) -> Option<Rule>
    ensures { result ≡ spec.glsl_rule number }
{
    match number {
        glsl::S_ABS | glsl::S_SIGN | glsl::FIND_I_LSB | glsl::FIND_S_MSB | glsl::FIND_U_MSB => Some(
            Rule::Integer,
        ),
        glsl::U_MIN | glsl::S_MIN | glsl::U_MAX | glsl::S_MAX => Some(Rule::Integers),
        glsl::U_CLAMP | glsl::S_CLAMP => Some(Rule::Clamp),
        _ => None,
    }
}

/// Whether a rule has so many operands.
fn has_count(rule: Rule, count: usize) -> bool
    ensures { result ≡ holds count (rule_count rule) }
{
    match rule.count() {
        Some(n) => n as usize == count,
        None => false,
    }
}

/// Whether so many operands of these types fit the outcome of an instruction of GLSL.std.450, by its number.
pub fn fits_glsl_types(
    types: &TypeTable,
    number: u32,
    count: usize,
    outcome: u32,
    tys: OperandTypes,
) -> bool
    ensures { result ≡ spec.fits_glsl types.now number count outcome (operand_type tys) }
{
    match glsl_rule(number) {
        Some(rule) => has_count(rule, count) && fits_rule(types, rule, outcome, tys),
        None => false,
    }
}
