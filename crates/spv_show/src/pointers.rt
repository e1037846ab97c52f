//! The text of a pointer.
ghost use Rattle.std.specs.Prelude.{◌≡◌, ◌++◌, ℕ, Option, OnErr, OnOk};
ghost use Rattle.std.specs.List.{flat_map};
ghost use Rattle.spv_base.specs.declared.values.Root.{Root as Origin};
ghost use Rattle.spv_base.specs.declared.values.Value.{Ptr};
ghost use Rattle.spv_types.specs.Shapes.{HasShape};
ghost use Rattle.spv_types.specs.Types.{Types};
ghost use Rattle.spv_show.specs.Pointers.{index_text, pointer_text};
ghost use Rattle.spv_show.specs.Texts.{value_text};

use spv_alu::integers::signed;
use spv_base::{NoMemory, Pointer};
use spv_line::push_number;
use std::alloc::Global;

/// Appends the text of a pointer, which is that of the value at its type: `&%ROOT`, and `[I]` for each of its indexes, read as signed. After
/// want of memory nothing was appended.
#[tactic(auto, using(crate::proofs::PointerLemmas::pointer_is))]
pub fn pointer_text(alloc: Global, pointer: &Pointer, out: &mut Vec<u8>) -> Result<(), NoMemory>
    ensures ok { OnOk result (out.new.items ≡ out.old.items ++ pointer_text pointer.now) }
    ensures err { OnErr result (out.new.items ≡ out.old.items) }
    ensures value { (ts : Types) (roots : Origin → Option ℕ) (id : ℕ) → HasShape ts roots id (Ptr pointer.now) → value_text ts id (Ptr pointer.now) ≡ pointer_text pointer.now }
{
    let mut text = Vec::new(alloc);
    push_pointer(alloc, &mut text, pointer)?;
    out.extend_from_slice(&text)?;
    Ok(())
}

/// Appends a pointer.
fn push_pointer(alloc: Global, text: &mut Vec<u8>, pointer: &Pointer) -> Result<(), NoMemory>
    ensures { OnOk result (text.new.items ≡ text.old.items ++ pointer_text pointer.now) }
{
    text.extend_from_slice(b"&%")?;
    push_number(alloc, text, u64::from(pointer.root.id()))?;
    push_indexes(alloc, text, pointer.path.as_slice())
}

/// Appends an index, read as signed.
fn push_index(alloc: Global, text: &mut Vec<u8>, index: u64) -> Result<(), NoMemory>
    ensures { OnOk result (text.new.items ≡ text.old.items ++ index_text index) }
{
    text.extend_from_slice(b"[")?;
    text.extend_from_slice(signed(index, 64).to_string(alloc)?.as_bytes())?;
    text.extend_from_slice(b"]")?;
    Ok(())
}

/// Appends indexes.
fn push_indexes(alloc: Global, text: &mut Vec<u8>, indexes: &[u64]) -> Result<(), NoMemory>
    ensures { OnOk result (text.new.items ≡ text.old.items ++ flat_map index_text indexes.now) }
{
    for index in indexes {
        push_index(alloc, text, *index)?;
    }
    Ok(())
}
