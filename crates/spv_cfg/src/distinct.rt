//! Numbers that stand more than once.
ghost use Rattle.std.specs.Prelude.{◌≡◌, IfOk};
ghost use Rattle.spv_cfg.specs.Branches as spec;
ghost use Rattle.spv_cfg.specs.Phis.{distinct as once};

use spv_base::NoMemory;
use std::alloc::Global;
use std::collections::BTreeSet;

/// Whether no number stands twice.
pub fn are_distinct(alloc: Global, numbers: &[u64]) -> Result<bool, NoMemory>
    ensures { IfOk result (λ distinct. distinct ≡ spec.are_distinct numbers.now) }
{
    let mut seen = BTreeSet::new(alloc);
    let mut distinct = true;
    let mut i = numbers.len();
    'back: while i > 0 {
        i -= 1;
        let is_new = seen.insert(numbers[i])?;
        distinct = is_new && distinct;
    }
    Ok(distinct)
}

/// Each number once.
pub fn distinct(alloc: Global, numbers: &[u32]) -> Result<Vec<u32>, NoMemory>
    ensures { IfOk result (λ distinct. distinct.items ≡ once numbers.now) }
{
    let mut seen = BTreeSet::new(alloc);
    let mut distinct = Vec::new(alloc);
    let mut i = numbers.len();
    'back: while i > 0 {
        i -= 1;
        if seen.insert(numbers[i])? {
            distinct.push(numbers[i])?;
        }
    }
    Ok(distinct)
}
