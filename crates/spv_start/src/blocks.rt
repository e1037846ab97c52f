//! The values that variables of blocks begin with, as rows.
ghost use Rattle.std.specs.Prelude.{◌≡◌, ◌++◌, ◌<◌, ◌≤◌, ◌*◌, ◌+◌, ◌^◌, IfOk, OnOk, length};
ghost use Rattle.std.specs.List.{flat_map};
ghost use Rattle.spv_types.specs.Rows.{leaves};
ghost use Rattle.spv_start.specs.Blocks.{read_among, read_members, read_row, read_step, value_in};

use crate::numbers::scalar_at;
use spv_base::{Cell, NoMemory};
use spv_types::places::{elements_in, scalar_bytes};
use spv_types::{Form, Member, TypeTable};
use std::alloc::Global;

/// So many bytes, of which those behind the ones written out are 0, as values of types.
#[derive(Clone, Copy)]
struct Reader<'a> {
    types: &'a TypeTable,
    bytes: &'a [u8],
    size: u64,
}

impl<'a> Reader<'a> {
    /// Appends the row of the type with an id, where it is among the first `limit` types, that begins at a place.
    #[tactic(auto, using(crate::proofs::BlockLemmas::read_among_is))]
    #[cycle(reads)]
    fn among(&self, cells: &mut Vec<Cell>, limit: usize, ty: u32, at: u128) -> Result<(), NoMemory>
        requires { at + limit * 2 ^ 64 + 8 < 2 ^ 128 }
        ensures { OnOk result (cells.new.items ≡ cells.old.items ++ leaves (read_among self.now.types.now self.now.bytes.now self.now.size limit ty at)) }
    {
        match self.types.found(limit, ty) {
            Some((n, form)) => self.of_form(cells, n, form, at),
            None => Ok(()),
        }
    }

    /// Appends the row of a form whose parts are among the first types, that begins at a place.
    #[cycle(reads)]
    fn of_form(
        &self,
        cells: &mut Vec<Cell>,
        limit: usize,
        form: &Form,
        at: u128,
    ) -> Result<(), NoMemory>
        requires { at + limit * 2 ^ 64 + 2 ^ 64 + 8 < 2 ^ 128 }
        ensures { OnOk result (cells.new.items ≡ cells.old.items ++ leaves (read_step self.now.types.now self.now.bytes.now self.now.size (read_among self.now.types.now self.now.bytes.now self.now.size limit) form.now at)) }
    {
        match form {
            Form::Bool => Ok(cells.push(Cell {
                bits: 0,
                width: 1,
                defined: false,
            })?),
            Form::Int { width, .. } => Ok(cells.push(scalar_at(self.bytes, at, *width))?),
            Form::Vector { component, count } => {
                let stride = scalar_bytes(self.types, *component);
                self.row(cells, limit, *component, at, stride, u64::from(*count))
            }
            Form::Array {
                element,
                length,
                stride,
            } => {
                self.row(
                    cells,
                    limit,
                    *element,
                    at,
                    stride.unwrap_or(0),
                    u64::from(length.unwrap_or(0)),
                )
            }
            Form::Runtime { element, stride } => {
                let count = elements_in(self.size, at, *stride);
                self.row(cells, limit, *element, at, stride.unwrap_or(0), count)
            }
            Form::Struct { members, .. } => self.of_members(cells, limit, members.as_slice(), at),
            Form::Void => Ok(()),
            Form::Pointer { .. } => Ok(()),
            Form::Function { .. } => Ok(()),
        }
    }

    /// Appends the rows of so many values of a type among the first, each a stride behind the one before it.
    #[cycle(reads)]
    fn row(
        &self,
        cells: &mut Vec<Cell>,
        limit: usize,
        ty: u32,
        at: u128,
        stride: u32,
        count: u64,
    ) -> Result<(), NoMemory>
        requires { at + count * stride + limit * 2 ^ 64 + 8 < 2 ^ 128 }
        ensures { OnOk result (cells.new.items ≡ cells.old.items ++ flat_map leaves (read_row (read_among self.now.types.now self.now.bytes.now self.now.size limit ty) at stride count)) }
    {
        let mut place = at;
        let mut left = count;
        'each: while left > 0 {
            left -= 1;
            self.among(cells, limit, ty, place)?;
            place += u128::from(stride);
        }
        Ok(())
    }

    /// Appends the rows of the members of a struct that begins at a place, whose types are among the first.
    #[cycle(reads)]
    fn of_members(
        &self,
        cells: &mut Vec<Cell>,
        limit: usize,
        members: &[Member],
        at: u128,
    ) -> Result<(), NoMemory>
        requires { at + limit * 2 ^ 64 + 2 ^ 64 + 8 < 2 ^ 128 }
        ensures { OnOk result (cells.new.items ≡ cells.old.items ++ flat_map leaves (read_members (read_among self.now.types.now self.now.bytes.now self.now.size limit) at members.now)) }
    {
        for member in members {
            let offset = member.offset.unwrap_or(0);
            self.among(cells, limit, member.ty, at + u128::from(offset))?;
        }
        Ok(())
    }
}

/// How many cells a member of a block has, where a runtime array has as many elements as fit so many bytes.
fn member_room(types: &TypeTable, size: u64, member: &Member) -> u64 {
    match types.form(member.ty) {
        Some(Form::Runtime { element, stride }) => {
            let at = u128::from(member.offset.unwrap_or(0));
            let count = elements_in(size, at, *stride);
            types.cells(*element).unwrap_or(0).saturating_mul(count)
        }
        _ => types.cells(member.ty).unwrap_or(0),
    }
}

/// How many cells some members of a block have.
fn members_room(types: &TypeTable, size: u64, members: &[Member]) -> u64 {
    let mut room: u64 = 0;
    for member in members {
        room = room.saturating_add(member_room(types, size, member));
    }
    room
}

/// How many cells are reserved for the row of a block of so many bytes: as many as it has, and no more than there are bytes, of
/// which each cell has one or more.
fn room(types: &TypeTable, size: u64, ty: u32) -> u64
    ensures { result ≤ size }
{
    let cells = match types.form(ty) {
        Some(Form::Struct { members, .. }) => members_room(types, size, members.as_slice()),
        _ => types.cells(ty).unwrap_or(0),
    };
    cells.min(size)
}

/// The row of a type that a block of so many bytes is, of which those behind the ones written out are 0. Integers lie with the lowest
/// byte first, members at their offsets and elements a stride apart; a runtime array has as many elements as fit.
#[tactic(auto, unfolding(crate::specs::Blocks::value_in))]
pub fn read(
    alloc: Global,
    types: &TypeTable,
    bytes: &[u8],
    size: u64,
    ty: u32,
) -> Result<Vec<Cell>, NoMemory>
    ensures { IfOk result (λ cells. cells.items ≡ leaves (value_in types.now bytes.now size ty)) }
{
    let mut cells = Vec::with_capacity(alloc, room(types, size, ty) as usize)?;
    Reader { types, bytes, size }.among(&mut cells, types.len(), ty, 0)?;
    Ok(cells)
}
