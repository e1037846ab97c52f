//! The bytes that a setup gives, by the lines that give them.
ghost use Rattle.std.specs.Prelude.{◌≡◌, ℕ, IfOk};
ghost use Rattle.std.specs.BTreeMap.{get};
ghost use Rattle.spv_index.specs.Keys.{pair_cmp};
ghost use Rattle.spv_fit.specs.Given as due;

use spv_base::NoMemory;
use spv_setup::{Buffer, Content, Push};
use std::alloc::Global;
use std::collections::BTreeMap;

/// Bytes that a line gives: how many, and the line.
#[derive(Clone, Copy)]
pub struct Given {
    pub line: u32,
    pub bytes: u64,
}

/// How many bytes a line gives.
fn bytes_in(content: &Content) -> u64
    ensures { result ≡ due.bytes_in content.now }
{
    match content {
        Content::Hex(bytes) => bytes.len() as u64,
        Content::Zero(count) => *count as u64,
    }
}

impl Given {
    /// The bytes of the push constants.
    pub fn of_push(push: &Push) -> Given
        ensures { result ≡ due.push_given push.now }
    {
        Given {
            line: push.line,
            bytes: push.bytes.len() as u64,
        }
    }
}

/// The bytes of the buffers, by descriptor set and binding. The first buffer of a pair counts.
pub fn given_by_pairs(
    alloc: Global,
    buffers: &[Buffer],
) -> Result<BTreeMap<(u32, u32), Given>, NoMemory>
    ensures { IfOk result (λ map. (set binding : ℕ) → get pair_cmp map (set, binding) ≡ due.given_at buffers.now set binding) }
{
    let mut map = BTreeMap::new(alloc);
    let mut n = buffers.len();
    'back: while n > 0 {
        n -= 1;
        let buffer = &buffers[n];
        let given = Given {
            line: buffer.line,
            bytes: bytes_in(&buffer.content),
        };
        map.insert((buffer.set, buffer.binding), given)?;
    }
    Ok(map)
}
