//! The layout of a text by a debug type.
ghost use Rattle.std.specs.Prelude.{◌≡◌, ◌+◌, ◌<◌, ◌==◌, ◌&&◌, false, OnOk, option_copied};
ghost use Rattle.spv_dbg.specs.Tables.{with_id};
ghost use Rattle.spv_parts.specs.Composites.{members};
ghost use Rattle.spv_parts.specs.Kept.{kept_part};
ghost use Rattle.spv_parts.specs.Parts as parts;
ghost use Rattle.spv_print.specs.Layouts as spec;

use crate::leaves::Leaf;
use crate::pieces::Piece;
use crate::sheets::Sheet;
use spv_base::NoMemory;
use spv_dbg::{DebugInst, DebugTables};
use spv_ops::debug_info::*;
use spv_parts::{
    TypePart, as_array, literal, member_type, members, operand, part_bits, plain, type_bits, whole,
};
use std::alloc::Global;

/// The bits of a TypeBasic that begin with one.
fn leaf_at(tables: &DebugTables, first: u64, debug: &DebugInst) -> Leaf
    ensures { result ≡ spec.leaf_at tables.now first debug.now }
{
    Leaf {
        first,
        size: literal(tables, operand(debug, 1)),
        encoding: literal(tables, operand(debug, 2)),
    }
}

/// A TypeBasic of 1 to 64 bits.
fn if_basic<'a>(tables: &DebugTables, debug: &'a DebugInst) -> Option<&'a DebugInst>
    ensures { option_copied result ≡ spec.if_basic tables.now debug.now }
{
    if debug.number == TYPE_BASIC && leaf_at(tables, 0, debug).is_shown() {
        Some(debug)
    } else {
        None
    }
}

/// The TypeBasic of 1 to 64 bits that a type is, seen through each TypeQualifier and Typedef.
fn basic_of(tables: &DebugTables, ty: u32) -> Option<&DebugInst>
    ensures { option_copied result ≡ spec.basic_of tables.now ty }
{
    if_basic(tables, tables.get(plain(tables, ty))?)
}

/// How many whole elements there are in so many bits.
fn whole_in(tables: &DebugTables, bits: u64, element: TypePart<'_>) -> u64
    ensures { result ≡ spec.whole_in bits (parts.part_bits tables.now (kept_part element.entry)) }
{
    if part_bits(tables, element) == 0 {
        return 0;
    }
    let mut whole = bits / type_bits(tables, element.base);
    for count in element.counts {
        whole /= u64::from(literal(tables, *count));
    }
    whole
}

/// Whether the element with a number of so many is the last part of a value, where they are its last part or not.
fn is_last(last: bool, number: u64, count: u64) -> bool
    requires { number < count }
    ensures { result ≡ (last && number + 1 == count) }
{
    last && number + 1 == count
}

/// The debug types of a module, and how many bits a value has.
#[derive(Clone, Copy)]
pub(crate) struct Writer<'a> {
    pub(crate) alloc: Global,
    pub(crate) tables: &'a DebugTables,
    pub(crate) size: u64,
}

impl<'a> Writer<'a> {
    /// Puts a part of a type that is nested at most so many deep. It is the last of the value or not.
    #[cycle(writes)]
    pub(crate) fn part(
        &self,
        sheet: &mut Sheet,
        depth: u32,
        last: bool,
        part: TypePart<'_>,
    ) -> Result<(), NoMemory>
        requires { spec.is_full sheet.old ≡ false }
        ensures { OnOk result (sheet.new ≡ spec.put_part self.now.tables.now self.now.size depth last (kept_part part.entry) sheet.old) }
    {
        if depth == 0 {
            return sheet.put_unavailable();
        }
        match as_array(self.tables, part) {
            Some(array) => self.array(sheet, depth - 1, last, array),
            None => self.of_plain(sheet, depth - 1, last, part),
        }
    }

    /// Puts an array by some Counts.
    #[cycle(writes)]
    fn array(
        &self,
        sheet: &mut Sheet,
        depth: u32,
        last: bool,
        array: TypePart<'_>,
    ) -> Result<(), NoMemory>
        requires { spec.is_full sheet.old ≡ false }
        ensures { OnOk result (sheet.new ≡ spec.put_array self.now.tables.now self.now.size (spec.put_part self.now.tables.now self.now.size depth) last array.entry.base array.entry.counts.now sheet.old) }
    {
        let Some((count, counts)) = array.counts.split_first() else {
            return sheet.put_unavailable();
        };
        let element = TypePart {
            base: array.base,
            counts,
        };
        let count = self.count_at(sheet, last, *count, element);
        self.list(sheet, depth, last, count, element)
    }

    /// How many elements a Count gives.
    fn count_at(&self, sheet: &Sheet, last: bool, count: u32, element: TypePart<'_>) -> u64
        ensures { result ≡ spec.count_at self.now.tables.now self.now.size last count (kept_part element.entry) sheet.now }
    {
        let number = u64::from(literal(self.tables, count));
        if last && number == 0 {
            whole_in(
                self.tables,
                self.size.saturating_sub(sheet.taken()),
                element,
            )
        } else {
            number
        }
    }

    /// Puts so many parts, as a list.
    #[cycle(writes)]
    fn list(
        &self,
        sheet: &mut Sheet,
        depth: u32,
        last: bool,
        count: u64,
        element: TypePart<'_>,
    ) -> Result<(), NoMemory>
        requires { spec.is_full sheet.old ≡ false }
        ensures { OnOk result (sheet.new ≡ spec.put_list (λ l. spec.put_part self.now.tables.now self.now.size depth l (kept_part element.entry)) last count sheet.old) }
    {
        sheet.put(Piece::OpenList)?;
        if count == 0 {
            return sheet.put_leaf(Piece::CloseList, 0);
        }
        self.elements(sheet, depth, last, count, element)?;
        sheet.put(Piece::CloseList)
    }

    /// Puts so many parts, one behind another.
    #[cycle(writes)]
    fn elements(
        &self,
        sheet: &mut Sheet,
        depth: u32,
        last: bool,
        count: u64,
        element: TypePart<'_>,
    ) -> Result<(), NoMemory>
        ensures { OnOk result (sheet.new ≡ spec.put_elements (λ l. spec.put_part self.now.tables.now self.now.size depth l (kept_part element.entry)) last 0 count sheet.old) }
    {
        for number in 0..count {
            if sheet.is_full() {
                return sheet.put_rest(number);
            }
            sheet.put_separator(number)?;
            self.part(sheet, depth, is_last(last, number, count), element)?;
        }
        Ok(())
    }

    /// Puts a part that has no elements.
    #[cycle(writes)]
    fn of_plain(
        &self,
        sheet: &mut Sheet,
        depth: u32,
        last: bool,
        part: TypePart<'_>,
    ) -> Result<(), NoMemory>
        requires { spec.is_full sheet.old ≡ false }
        ensures { OnOk result (sheet.new ≡ spec.put_plain self.now.tables.now self.now.size (spec.put_part self.now.tables.now self.now.size depth) last (kept_part part.entry) sheet.old) }
    {
        let ty = plain(self.tables, part.base);
        let Some(debug) = self.tables.get(ty) else {
            return sheet.put_unavailable();
        };
        match debug.number {
            TYPE_BASIC => self.basic(sheet, debug),
            TYPE_ENUM => self.of_enum(sheet, depth, last, ty, operand(debug, 1)),
            TYPE_COMPOSITE => self.of_struct(sheet, depth, last, part),
            _ => sheet.put_unavailable(),
        }
    }

    /// Puts a TypeBasic.
    fn basic(&self, sheet: &mut Sheet, debug: &DebugInst) -> Result<(), NoMemory>
        requires { spec.is_full sheet.old ≡ false }
        ensures { OnOk result (sheet.new ≡ spec.put_basic self.now.tables.now self.now.size debug.now sheet.old) }
    {
        let leaf = leaf_at(self.tables, sheet.taken(), debug);
        sheet.put_leaf(Piece::Basic(leaf), leaf.size)
    }

    /// Puts a TypeEnum, which has an Underlying.
    #[cycle(writes)]
    fn of_enum(
        &self,
        sheet: &mut Sheet,
        depth: u32,
        last: bool,
        ty: u32,
        underlying: u32,
    ) -> Result<(), NoMemory>
        requires { spec.is_full sheet.old ≡ false }
        ensures { OnOk result (sheet.new ≡ spec.put_enum self.now.tables.now self.now.size (spec.put_part self.now.tables.now self.now.size depth) last ty underlying sheet.old) }
    {
        let Some(debug) = basic_of(self.tables, underlying) else {
            return self.part(sheet, depth, last, whole(underlying));
        };
        let leaf = leaf_at(self.tables, sheet.taken(), debug);
        sheet.put_leaf(Piece::Enum(leaf, ty), leaf.size)
    }

    /// Puts a TypeComposite.
    #[cycle(writes)]
    fn of_struct(
        &self,
        sheet: &mut Sheet,
        depth: u32,
        last: bool,
        part: TypePart<'_>,
    ) -> Result<(), NoMemory>
        requires { spec.is_full sheet.old ≡ false }
        ensures { OnOk result (sheet.new ≡ spec.put_struct (λ id l. spec.put_part self.now.tables.now self.now.size depth l (parts.whole (parts.member_type self.now.tables.now id))) last (members self.now.tables.now (kept_part part.entry)) sheet.old) }
    {
        let members = members(self.alloc, self.tables, part)?;
        sheet.put(Piece::OpenStruct)?;
        let ids = members.as_slice();
        if ids.is_empty() {
            return sheet.put_leaf(Piece::CloseStruct, 0);
        }
        self.members(sheet, depth, last, ids)?;
        sheet.put(Piece::CloseStruct)
    }

    /// Puts some members, each under its name.
    #[cycle(writes)]
    fn members(
        &self,
        sheet: &mut Sheet,
        depth: u32,
        last: bool,
        ids: &[u32],
    ) -> Result<(), NoMemory>
        ensures { OnOk result (sheet.new ≡ spec.put_members (λ id l. spec.put_part self.now.tables.now self.now.size depth l (parts.whole (parts.member_type self.now.tables.now id))) last 0 ids.now sheet.old) }
    {
        for (number, id) in ids.iter().enumerate() {
            if sheet.is_full() {
                return sheet.put_rest(number as u64);
            }
            sheet.put_separator(number as u64)?;
            sheet.put(Piece::Name(*id))?;
            let member = whole(member_type(self.tables, *id));
            let last = is_last(last, number as u64, ids.len() as u64);
            self.part(sheet, depth, last, member)?;
        }
        Ok(())
    }
}
