//! Access chains: pointers with further indexes (SPIR-V 1.6 section 3.42.8, OpAccessChain and OpPtrAccessChain).
ghost use Rattle.std.specs.Prelude.{◌≡◌, ◌-◌, ◌^◌, ◌≤◌, ◌==◌, ◌++◌, IfOk, map, option_copied, if◌then◌else◌, false};
ghost use Rattle.std.specs.Option.{option_map_or};
ghost use Rattle.spv_base.specs.Entries.{reads};
ghost use Rattle.spv_base.specs.Variables.{root_id};
ghost use Rattle.spv_mem.specs.Chains.{Chains, PtrChains, all_defined, chooses_element, extended, extend, is_array, moved};

use crate::places::reached_type;
use crate::storage::Memory;
use spv_base::{Cell, MemErr, NoMemory, Path, Pointer};
use spv_types::{Form, TypeTable};
use std::alloc::Global;

/// Whether each index is defined.
fn all_defined(indexes: &[Cell]) -> bool
    ensures { result ≡ all_defined indexes.now }
{
    indexes.iter().all(|index| index.defined)
}

/// The greatest number of a width, up to 64 bits.
fn greatest(width: u8) -> u64
    requires { width ≤ 64 }
    ensures { result ≡ 2 ^ width - 1 }
{
    if width == 0 {
        0
    } else {
        u64::MAX >> (64 - width)
    }
}

/// An index, read as signed, in 64 bits.
fn extended(index: Cell) -> u64
    ensures { result ≡ extended index }
{
    let greatest = greatest(index.width);
    if index.bits <= greatest - index.bits {
        index.bits
    } else {
        index.bits + (u64::MAX - greatest)
    }
}

/// The path with further indexes.
fn extended_path(mut path: Path, indexes: &[Cell]) -> Result<Path, NoMemory>
    ensures { IfOk result (λ new. new ≡ extend path indexes.now) }
{
    for index in indexes {
        path.push(extended(*index))?;
    }
    Ok(path)
}

/// The pointer with further indexes.
fn chained_pointer(alloc: Global, p: &Pointer, indexes: &[Cell]) -> Result<Pointer, NoMemory>
    ensures { IfOk result (λ q. q ≡ record { root = p.now.root; path = extend p.now.path indexes.now }) }
{
    let path = extended_path(p.path.copy(alloc)?, indexes)?;
    Ok(Pointer { root: p.root, path })
}

/// The pointer with further indexes, each sign-extended to 64 bits. Whether they lead to a part is looked at by the access.
///
/// `UndefinedIndex` exactly where an index is not defined.
pub fn chain(alloc: Global, p: &Pointer, indexes: &[Cell]) -> Result<Pointer, MemErr>
    ensures { Chains p.now indexes.now result }
{
    if !all_defined(indexes) {
        return Err(MemErr::UndefinedIndex);
    }
    match chained_pointer(alloc, p, indexes) {
        Ok(pointer) => Ok(pointer),
        Err(NoMemory) => Err(MemErr::NoMemory),
    }
}

/// Whether a type is an array, whether the type or the memory tells how many elements it has.
fn is_array(form: Option<&Form>) -> bool
    ensures { result ≡ is_array (option_copied form.entry) }
{
    matches!(form, Some(Form::Array { .. } | Form::Runtime { .. }))
}

/// Whether the last index of a path from a type chooses an element of an array.
fn chooses_element(types: &TypeTable, ty: u32, path: &[u64]) -> bool
    ensures { result ≡ chooses_element types.now ty path.now }
{
    let Some((_last, front)) = path.split_last() else {
        return false;
    };
    match reached_type(types, ty, front) {
        Some(whole) => is_array(types.form(whole)),
        None => false,
    }
}

/// The path with its last index further by a number, modulo 2^64.
fn moved(alloc: Global, path: &[u64], distance: u64) -> Result<Path, NoMemory>
    ensures { IfOk result (λ new. new ≡ moved path.now distance) }
{
    let Some((last, front)) = path.split_last() else {
        return Ok(Path::new(alloc));
    };
    let mut new = Path::from_slice(alloc, front)?;
    new.push(last.wrapping_add(distance))?;
    Ok(new)
}

/// The pointer from another element on, with further indexes.
fn moved_pointer(
    alloc: Global,
    p: &Pointer,
    distance: u64,
    indexes: &[Cell],
) -> Result<Pointer, NoMemory>
    ensures { IfOk result (λ q. q ≡ record { root = p.now.root; path = extend (if distance == 0 then p.now.path else moved p.now.path distance) indexes.now }) }
{
    if distance == 0 {
        return chained_pointer(alloc, p, indexes);
    }
    let path = extended_path(moved(alloc, p.path.as_slice(), distance)?, indexes)?;
    Ok(Pointer { root: p.root, path })
}

impl Memory {
    /// Whether the last index of a pointer chooses an element of an array, by the type of its variable.
    fn has_elements(&self, p: &Pointer) -> bool
        ensures { result ≡ option_map_or (λ type. chooses_element self.now.types type p.now.path) (reads (root_id p.now.root) self.now.targets) false }
    {
        match self.targets.get(p.root.id()) {
            Some(target) => chooses_element(self.types.as_ref(), target.ty, p.path.as_slice()),
            None => false,
        }
    }

    /// The pointer from another element on: its last index is further by the element, read as signed and modulo 2^64, and further
    /// indexes follow, each sign-extended to 64 bits. An element of 0 leaves the path as it is. Whether there are such parts is looked
    /// at by the access.
    ///
    /// `UndefinedIndex` exactly where the element or an index is not defined. `OutOfBounds` exactly where all are defined, the element
    /// is not 0, and the path is empty or its last index does not choose an element of an array.
    #[tactic(auto, unfolding(crate::specs::Chains::ptr_moved))]
    pub fn ptr_chain(
        &self,
        alloc: Global,
        pointer: &Pointer,
        element: Cell,
        indexes: &[Cell],
    ) -> Result<Pointer, MemErr>
        ensures { PtrChains self.now pointer.now element indexes.now result }
    {
        if !element.defined || !all_defined(indexes) {
            return Err(MemErr::UndefinedIndex);
        }
        let distance = extended(element);
        if distance != 0 && !self.has_elements(pointer) {
            return Err(MemErr::OutOfBounds);
        }
        match moved_pointer(alloc, pointer, distance, indexes) {
            Ok(moved) => Ok(moved),
            Err(NoMemory) => Err(MemErr::NoMemory),
        }
    }
}
