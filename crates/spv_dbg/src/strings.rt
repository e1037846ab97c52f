//! The strings of a module, kept for the operands that name them.
ghost use Rattle.std.specs.Prelude.{◌≡◌, ◌++◌, IfOk, OnOk};
ghost use Rattle.spv_dbg.specs.Tables as spec;

use crate::literals::text_in;
use crate::texts::Text;
use spv_base::{Inst, NoMemory};
use spv_index::Keyed;
use std::alloc::Global;

/// Adds the string that an instruction defines, if it does.
fn add_string(alloc: Global, inst: &Inst, strings: &mut Vec<(u32, Text)>) -> Result<(), NoMemory>
    ensures { OnOk result (strings.new.items ≡ strings.old.items ++ spec.string_entry inst.now) }
{
    if let Some(text) = text_in(inst) {
        strings.push((inst.id, Text::from_slice(alloc, text)?))?;
    }
    Ok(())
}

/// The strings of these instructions.
pub(crate) fn strings_of(alloc: Global, insts: &[Inst]) -> Result<Keyed<Text>, NoMemory>
    ensures { IfOk result (λ strings. strings ≡ spec.strings_of insts.now) }
{
    let mut strings = Vec::new(alloc);
    for inst in insts {
        add_string(alloc, inst, &mut strings)?;
    }
    Keyed::of(alloc, strings)
}
