//! The executables of each block, and which one comes after which.
ghost use Rattle.std.specs.Prelude.{◌≡◌, IfOk};
ghost use Rattle.std.specs.List.{flat_map};
ghost use Rattle.spv_cfg.specs.Executables as spec;

use spv_base::NoMemory;
use spv_index::Table;
use spv_index::stands::Stands;
use std::alloc::Global;

/// The executables of all blocks: the label of the block, and the word of the executable.
pub fn executables_of(alloc: Global, stands: &Stands) -> Result<Vec<(u32, u32)>, NoMemory>
    ensures { IfOk result (λ executables. executables.items ≡ flat_map spec.executable_of stands.now) }
{
    let mut executables = Vec::new(alloc);
    for n in 0..stands.len() {
        let stand = stands.at(n);
        if stand.is_stop() {
            executables.push((stand.position.label, stand.inst.word))?;
        }
    }
    Ok(executables)
}

/// Each executable with the one after it in its block.
pub fn followers_of(
    alloc: Global,
    executables: &[(u32, u32)],
) -> Result<Table<Option<u32>>, NoMemory>
    ensures { IfOk result (λ followers. followers ≡ spec.followers_of executables.now) }
{
    let mut followers = Vec::new(alloc);
    let mut rest = executables;
    'forth: while let [(label, word), more @ ..] = rest {
        followers.push((*word, following(*label, more)))?;
        rest = more;
    }
    Table::new(alloc, followers)
}

/// The first of these executables, where it is in the block with this label.
fn following(label: u32, rest: &[(u32, u32)]) -> Option<u32>
    ensures { result ≡ spec.following label rest.now }
{
    match rest {
        [] => None,
        [e, ..] => if e.0 == label { Some(e.1) } else { None },
    }
}
