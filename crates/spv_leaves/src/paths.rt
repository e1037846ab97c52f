//! The path to a leaf of a type, by how many leaves types have.
ghost use Rattle.std.specs.Prelude.{◌≡◌, ◌++◌, ◌<◌, IfOk, OnOk};
ghost use Rattle.spv_types.specs.Cells.{cells_of};
ghost use Rattle.spv_leaves.specs.Paths.{element_path, leaf_path, members_path, path_among, path_step};

use spv_base::{NoMemory, Path};
use spv_types::{Form, Member, TypeTable};
use std::alloc::Global;

/// The path to the leaf with a number of a variable whose value is of a type: at each level the number of the part in which it lies.
#[tactic(auto, unfolding(crate::specs::Paths::leaf_path))]
pub fn leaf_path(alloc: Global, types: &TypeTable, ty: u32, leaf: u32) -> Result<Path, NoMemory>
    ensures { IfOk result (λ path. path ≡ leaf_path types.now ty leaf) }
{
    let mut path = Path::new(alloc);
    push_among(types, types.len(), ty, u64::from(leaf), &mut path)?;
    Ok(path)
}

/// Appends the path to a leaf of a type among the first types.
#[cycle(path)]
#[tactic(auto, using(crate::proofs::PathLemmas::path_among_is))]
fn push_among(
    types: &TypeTable,
    limit: usize,
    ty: u32,
    leaf: u64,
    path: &mut Path,
) -> Result<(), NoMemory>
    requires { leaf < 4294967296 }
    ensures { OnOk result (path.new ≡ path.old ++ path_among types.now limit ty leaf) }
{
    match types.found(limit, ty) {
        None => Ok(()),
        Some((n, form)) => push_form(types, n, form, leaf, path),
    }
}

/// Appends the path to a leaf of a form whose parts are among the first types.
#[cycle(path)]
fn push_form(
    types: &TypeTable,
    limit: usize,
    form: &Form,
    leaf: u64,
    path: &mut Path,
) -> Result<(), NoMemory>
    requires { leaf < 4294967296 }
    ensures { OnOk result (path.new ≡ path.old ++ path_step types.now (path_among types.now limit) form.now leaf) }
{
    match form {
        Form::Void | Form::Bool | Form::Int { .. } | Form::Pointer { .. } | Form::Function { .. } =>
            Ok(()),
        Form::Vector { component, .. } => push_element(types, limit, *component, leaf, path),
        Form::Array { element, .. } | Form::Runtime { element, .. } => {
            push_element(types, limit, *element, leaf, path)
        }
        Form::Struct { members, .. } => push_member(types, limit, members.as_slice(), leaf, path),
    }
}

/// Appends the path to a leaf of a row of elements.
#[cycle(path)]
fn push_element(
    types: &TypeTable,
    limit: usize,
    element: u32,
    leaf: u64,
    path: &mut Path,
) -> Result<(), NoMemory>
    requires { leaf < 4294967296 }
    ensures { OnOk result (path.new ≡ path.old ++ element_path (cells_of types.now) (path_among types.now limit) element leaf) }
{
    match types.cells(element) {
        None | Some(0) => Ok(()),
        Some(cells) => {
            path.push(leaf / cells)?;
            push_among(types, limit, element, leaf % cells, path)
        }
    }
}

/// Appends the path to a leaf of some members.
#[cycle(path)]
fn push_member(
    types: &TypeTable,
    limit: usize,
    members: &[Member],
    leaf: u64,
    path: &mut Path,
) -> Result<(), NoMemory>
    requires { leaf < 4294967296 }
    ensures { OnOk result (path.new ≡ path.old ++ members_path (cells_of types.now) (path_among types.now limit) 0 members.now leaf) }
{
    let mut left = leaf;
    for (k, member) in members.iter().enumerate() {
        match types.cells(member.ty) {
            Some(cells) if cells <= left => left -= cells,
            _ => {
                path.push(k as u64)?;
                return push_among(types, limit, member.ty, left, path);
            }
        }
    }
    Ok(())
}
