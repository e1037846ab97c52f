//! What fitting operands mean: the rules as the specification words them.
ghost use Rattle.std.specs.Prelude.{◌≡◌, ◌↔◌, ◌≤◌, ℕ, Option, Some, true};
ghost use Rattle.spv_types.specs.Types.{Types};
ghost use Rattle.spv_typing.specs.declared.rules.Rule.{Rule};
ghost use Rattle.spv_typing.specs.Fitting.{fits};
ghost use Rattle.spv_typing.specs.Glsl.{fits_glsl, glsl_rule};
ghost use Rattle.spv_typing.specs.Laws.{IsTyped};
ghost use Rattle.spv_typing.specs.Rules.{is_constant_operation, operand_count, rule_count, rule_of};

/// Operands fit a result exactly where all have the types that the rule of the opcode, or of the GLSL.std.450 number, names.
pub fn fitting_operands_are_typed()
    ensures fit { (ts : Types) (op ty : ℕ) (types : ℕ → Option ℕ) → (fits ts op ty types ≡ true)
        ↔ ((rule : Rule) × (rule_of op ≡ Some rule) × IsTyped ts rule ty types) }
    ensures glsl { (ts : Types) (number count ty : ℕ) (types : ℕ → Option ℕ) → (fits_glsl ts number count ty types ≡ true)
        ↔ ((rule : Rule) × (glsl_rule number ≡ Some rule) × (rule_count rule ≡ Some count) × IsTyped ts rule ty types) }
{}

/// An operation that computes constants has one, two or three operands.
pub fn constants_have_operands()
    ensures { (op : ℕ) → is_constant_operation op ≡ true → (n : ℕ) × (operand_count op ≡ Some n) × (1 ≤ n) × (n ≤ 3) }
{}
