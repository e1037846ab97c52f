//! The labels of switches (SPIR-V 1.6 section 3.42.17, OpSwitch).
ghost use Rattle.std.specs.Prelude.{◌≡◌, ◌==◌, [], ◌∷◌, ℕ, drop, find, option_map, true};
ghost use Rattle.std.specs.List.{list_all};
ghost use Rattle.spv_cfg.specs.Branches as cfg;
ghost use Rattle.spv_cfg.specs.Operands.{is_literal, literals_in};
ghost use Rattle.spv_sites.specs.Branches as spec;

use spv_base::{Inst, Operand};
use spv_cfg::{at_width, selector_width};
use spv_index::{id_operand, operands_from};
use spv_valid::Module;

/// The word that an operand is.
fn word(operand: &Operand) -> u32
    requires { is_literal operand.now ≡ true }
    ensures { literals_in (operand.now ∷ []) ≡ result ∷ [] }
{
    match operand {
        Operand::Lit(word) => *word,
        Operand::Id(_) | Operand::Text(_) => unreachable!(),
    }
}

/// The label beside the literal of one word that is a number of a width.
fn label_by_word(width: u32, operands: &[Operand], number: u64) -> Option<u32>
    requires { list_all is_literal operands.now ≡ true }
    ensures { result ≡ option_map (λ (c : ℕ × ℕ). c.1) (find (λ (c : ℕ × ℕ). cfg.at_width width c.0 == number) (cfg.cases_by_word (literals_in operands.now))) }
{
    let mut rest = operands;
    'cases: while let [literal, label, more @ ..] = rest {
        if at_width(width, u64::from(word(literal))) == number {
            return Some(word(label));
        }
        rest = more;
    }
    None
}

/// The label beside the literal of two words, the low one first, that is a number of a width.
fn label_by_two(width: u32, operands: &[Operand], number: u64) -> Option<u32>
    requires { list_all is_literal operands.now ≡ true }
    ensures { result ≡ option_map (λ (c : ℕ × ℕ). c.1) (find (λ (c : ℕ × ℕ). cfg.at_width width c.0 == number) (cfg.cases_by_two (literals_in operands.now))) }
{
    let mut rest = operands;
    'cases: while let [low, high, label, more @ ..] = rest {
        let literal = u64::from(word(low)) + u64::from(word(high)) * 0x1_0000_0000;
        if at_width(width, literal) == number {
            return Some(word(label));
        }
        rest = more;
    }
    None
}

/// The label of the case of a number.
fn case_label(width: u32, inst: &Inst, number: u64) -> Option<u32>
    requires { list_all is_literal (drop 2 inst.now.operands) ≡ true }
    ensures { result ≡ option_map (λ (c : ℕ × ℕ). c.1) (spec.case_of width inst.now number) }
{
    let operands = operands_from(inst, 2);
    if width == 64 {
        label_by_two(width, operands, number)
    } else {
        label_by_word(width, operands, number)
    }
}

/// The label of the case of a number, else the default.
pub(crate) fn switch_label(accepted: &Module, inst: &Inst, number: u64) -> Option<u32>
    requires { list_all is_literal (drop 2 inst.now.operands) ≡ true }
    ensures { result ≡ spec.switch_label accepted.now.insts inst.now number }
{
    match case_label(selector_width(accepted.index(), inst), inst, number) {
        Some(label) => Some(label),
        None => id_operand(inst, 1),
    }
}
