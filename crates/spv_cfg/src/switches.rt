//! The literals and labels of switches (SPIR-V 1.6, OpSwitch).
ghost use Rattle.std.specs.Prelude.{◌≡◌, ◌++◌, IfOk, map};
ghost use Rattle.std.specs.Option.{option_to_list};
ghost use Rattle.spv_index.specs.Operands as operands;
ghost use Rattle.spv_cfg.specs.Branches as spec;

use crate::distinct::are_distinct;
use crate::operands::{are_literals, literals_in};
use spv_base::{Inst, NoMemory};
use spv_index::{id_operand, operands_from};
use std::alloc::Global;

/// The words behind the selector and the default.
fn case_words(alloc: Global, inst: &Inst) -> Result<Vec<u32>, NoMemory>
    ensures { IfOk result (λ words. words.items ≡ spec.case_words inst.now) }
{
    literals_in(alloc, operands_from(inst, 2))
}

/// Pairs of a literal of one word and a label.
pub fn cases_by_word(alloc: Global, words: &[u32]) -> Result<Vec<(u64, u32)>, NoMemory>
    ensures { IfOk result (λ cases. cases.items ≡ spec.cases_by_word words.now) }
{
    let mut cases = Vec::new(alloc);
    let mut rest = words;
    'forth: while let [word, label, more @ ..] = rest {
        cases.push((u64::from(*word), *label))?;
        rest = more;
    }
    Ok(cases)
}

/// Pairs of a literal of two words, the low one first, and a label.
fn cases_by_two(alloc: Global, words: &[u32]) -> Result<Vec<(u64, u32)>, NoMemory>
    ensures { IfOk result (λ cases. cases.items ≡ spec.cases_by_two words.now) }
{
    let mut cases = Vec::new(alloc);
    let mut rest = words;
    'forth: while let [low, high, label, more @ ..] = rest {
        let literal = u64::from(*low) + u64::from(*high) * 0x1_0000_0000;
        cases.push((literal, *label))?;
        rest = more;
    }
    Ok(cases)
}

fn cases(alloc: Global, width: u32, words: &[u32]) -> Result<Vec<(u64, u32)>, NoMemory>
    ensures { IfOk result (λ cases. cases.items ≡ spec.cases width words.now) }
{
    if width == 64 {
        cases_by_two(alloc, words)
    } else {
        cases_by_word(alloc, words)
    }
}

fn are_whole(width: u32, words: &[u32]) -> bool
    ensures { result ≡ spec.are_whole width words.now }
{
    if width == 64 {
        words.len() % 3 == 0
    } else {
        words.len() % 2 == 0
    }
}

/// A literal of a switch as a number of the selector's width.
pub fn at_width(width: u32, literal: u64) -> u64
    ensures { result ≡ spec.at_width width literal }
{
    match width {
        8 => literal % 256,
        16 => literal % 65536,
        _ => literal,
    }
}

/// The literals of some cases as numbers of the selector's width.
fn literals_of(alloc: Global, width: u32, cases: &[(u64, u32)]) -> Result<Vec<u64>, NoMemory>
    ensures { IfOk result (λ literals. literals.items ≡ map (λ c. spec.at_width width c.0) cases.now) }
{
    let mut literals = Vec::new(alloc);
    for case in cases {
        literals.push(at_width(width, case.0))?;
    }
    Ok(literals)
}

/// Whether all behind the selector and the default are words, which are whole pairs, and no literal stands twice.
pub fn is_switch_right(alloc: Global, width: u32, inst: &Inst) -> Result<bool, NoMemory>
    ensures { IfOk result (λ right. right ≡ spec.is_switch_right width inst.now) }
{
    let words = case_words(alloc, inst)?;
    let cases = cases(alloc, width, words.as_slice())?;
    let literals = literals_of(alloc, width, cases.as_slice())?;
    let distinct = are_distinct(alloc, literals.as_slice())?;
    let literal = are_literals(operands_from(inst, 2));
    Ok(literal && are_whole(width, words.as_slice()) && distinct)
}

/// A label, where there is one.
pub fn label_list(alloc: Global, label: Option<u32>) -> Result<Vec<u32>, NoMemory>
    ensures { IfOk result (λ labels. labels.items ≡ option_to_list label) }
{
    let mut labels = Vec::new(alloc);
    if let Some(label) = label {
        labels.push(label)?;
    }
    Ok(labels)
}

/// A default, and the labels of the cases.
fn labels_in(
    alloc: Global,
    default: Option<u32>,
    cases: &[(u64, u32)],
) -> Result<Vec<u32>, NoMemory>
    ensures { IfOk result (λ labels. labels.items ≡ option_to_list default ++ map (λ c. c.1) cases.now) }
{
    let mut labels = label_list(alloc, default)?;
    for case in cases {
        labels.push(case.1)?;
    }
    Ok(labels)
}

/// The default and the labels of the cases.
pub fn switch_targets(alloc: Global, width: u32, inst: &Inst) -> Result<Vec<u32>, NoMemory>
    ensures { IfOk result (λ targets. targets.items ≡ option_to_list (operands.id_operand inst.now 1) ++ map (λ c. c.1) (spec.cases width (spec.case_words inst.now))) }
{
    let words = case_words(alloc, inst)?;
    let cases = cases(alloc, width, words.as_slice())?;
    labels_in(alloc, id_operand(inst, 1), cases.as_slice())
}
