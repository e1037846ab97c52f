//! Literal operands, as numbers of components and as paths.
ghost use Rattle.std.specs.Prelude.{◌≡◌, IfOk, length, unwrap_or};
ghost use Rattle.spv_index.specs.Operands.{literal_in};
ghost use Rattle.spv_results.specs.Results.{numbers};

use spv_base::{NoMemory, Operand, Path};
use spv_index::literal_in;
use std::alloc::Global;

/// The number that a literal is.
fn number(operand: &Operand) -> u32
    ensures { result ≡ unwrap_or (literal_in operand.now) 0 }
{
    literal_in(operand).unwrap_or(0)
}

/// The numbers that literals are, put into a place for them.
pub(crate) fn put_numbers(operands: &[Operand], into: &mut [u32])
    requires { length into.old ≡ length operands.now }
    ensures { into.new ≡ numbers operands.now }
{
    for i in 0..into.len() {
        into[i] = number(&operands[i]);
    }
}

/// The path that literals name. It takes no memory for up to eight.
pub(crate) fn path_of(alloc: Global, operands: &[Operand]) -> Result<Path, NoMemory>
    ensures { IfOk result (λ path. path ≡ numbers operands.now) }
{
    let mut path = Path::new(alloc);
    for operand in operands {
        path.push(u64::from(number(operand)))?;
    }
    Ok(path)
}
