//! The table of the types of a module.
ghost use Rattle.std.specs.Prelude.{◌≡◌, ◌↔◌, ◌<◌, ◌≤◌, ℕ, [], ◌∷◌, ◌++◌, length, Some, None, false, IfOk, IfSome, OnOk, OnErr, IsTrue, option_map, option_copied};
ghost use Rattle.std.specs.Option.{option_map_or};
ghost use Rattle.spv_base.specs.Answers.{Answers};
ghost use Rattle.spv_types.specs.Build.{types_of};
ghost use Rattle.spv_types.specs.Cells.{cells_of};
ghost use Rattle.spv_types.specs.Counted.{IsCounted};
ghost use Rattle.spv_base.specs.Saturation.{saturated};
ghost use Rattle.spv_types.specs.Leaves.{leaf_of};
ghost use Rattle.spv_types.specs.Places.{place_of};
ghost use Rattle.spv_types.specs.Rules.{has_runtime, is_block, is_data, is_runtime, is_scalar, is_sized_data, is_three_words, is_word, last_type};
ghost use Rattle.spv_types.specs.Typing.{with_form};
ghost use Rattle.spv_types.specs.Types.{IsUnset, form_at, form_of, found_among, number_of, with_length};

use crate::counting::{Count, count_at, is_unset, parts_before};
use crate::counts::cells_among;
use crate::forms::{Form, Member};
use crate::leaves::part_at;
use crate::places::place_among;
use crate::rules::{keeps_rules, last_type};
use crate::typing::defined_form;
use spv_base::{Fail, NoMemory, Refusal};
use spv_index::{Firsts, Index};
use std::alloc::Global;
use std::marker::Model;

/// The code of the rules of types.
const TYPE_CODE: u8 = 12;

/// The types of a module, in its order. Contracts see a list of ids, each with its form.
#[derive(Drop)]
pub struct TypeTable {
    entries: Vec<(u32, Form)>,
    /// By id, the number of its first type.
    numbers: Firsts<usize>,
    /// Of the types before the first that was not counted.
    counts: Vec<Count>,
}

impl Model for TypeTable {
    ghost use Rattle.std.specs.Prelude.{◌≡◌, ℕ};
    ghost use Rattle.spv_types.specs.Types.{Types, number_of};
    ghost use Rattle.spv_index.specs.Firsts.{slot};
    ghost use Rattle.spv_types.specs.Counted.{AreCounted};

    ghost Value = { Types };

    ghost view = { λ t. t.entries.items };

    ghost invariant = { λ t. record {
      numbers : (id : ℕ) → slot t.numbers id ≡ number_of t.entries.items id;
      counts : AreCounted t.entries.items t.counts.items;
    } };
}

impl TypeTable {
    /// No types.
    pub fn new(alloc: Global) -> TypeTable
        ensures { result ≡ [] }
    {
        TypeTable {
            entries: Vec::new(alloc),
            numbers: Firsts::new(alloc),
            counts: Vec::new(alloc),
        }
    }

    /// Adds a type at the end. Where its id has a type already, that one stays the id's.
    pub(crate) fn add(&mut self, id: u32, form: Form) -> Result<(), NoMemory>
        ensures ok { OnOk result (self.new ≡ self.old ++ (id, form) ∷ []) }
        ensures err { OnErr result (self.new ≡ self.old) }
    {
        let number = self.entries.len();
        self.entries.push((id, form))?;
        if self.numbers.put(id, number).is_err() {
            self.entries.pop();
            return Err(NoMemory);
        }
        Ok(())
    }

    /// Adds a type at the end, where there is one.
    pub(crate) fn add_form(&mut self, id: u32, form: Option<Form>) -> Result<(), NoMemory>
        ensures { OnOk result (self.new ≡ with_form self.old id form) }
    {
        match form {
            Some(form) => self.add(id, form),
            None => Ok(()),
        }
    }

    /// An equal table.
    pub fn copy(&self, alloc: Global) -> Result<TypeTable, NoMemory>
        ensures { IfOk result (λ table. table ≡ self.now) }
    {
        let mut table = TypeTable::new(alloc);
        for entry in &self.entries {
            table.add(entry.0, entry.1.copy(alloc)?)?;
        }
        table.count(alloc)?;
        Ok(table)
    }

    /// Whether a type is an array whose length is not set.
    pub fn is_unset(&self, ty: u32) -> bool
        ensures { IsTrue result ↔ IsUnset (form_of self.now ty) }
    {
        matches!(self.form(ty), Some(Form::Array { length: None, .. }))
    }

    /// Gives an array its length, once.
    pub fn set_length(&mut self, ty: u32, n: u32)
        requires unset { IsUnset (form_of self.old ty) }
        requires positive { 1 ≤ n }
        ensures { self.new ≡ with_length self.old ty n }
    {
        if let Some(number) = self.number(ty) {
            self.counts.truncate(number);
            if let Form::Array { length, .. } = &mut self.entries[number].1 {
                *length = Some(n);
            }
        }
    }

    /// How many types there are.
    pub fn len(&self) -> usize
        ensures { result ≡ length self.now }
    {
        self.entries.len()
    }

    /// The number of the type with an id.
    pub fn number(&self, id: u32) -> Option<usize>
        ensures { result ≡ number_of self.now id }
    {
        self.numbers.get(id)
    }

    /// The number and the form of the type with an id, where it is among the first `limit` types.
    pub fn found(&self, limit: usize, id: u32) -> Option<(usize, &Form)>
        ensures { option_map (λ r. (r.0, r.1.now)) result ≡ found_among self.now limit id }
    {
        let n = self.number(id)?;
        if n < limit {
            Some((n, &self.entries[n].1))
        } else {
            None
        }
    }

    /// The form of the type with an id.
    pub fn form(&self, id: u32) -> Option<&Form>
        ensures { option_copied result ≡ form_of self.now id }
    {
        let n = self.number(id)?;
        Some(&self.entries[n].1)
    }

    /// The form of the type with a number.
    pub fn form_at(&self, number: usize) -> &Form
        requires { number < length self.now }
        ensures { result.now ≡ form_at self.now number }
    {
        &self.entries[number].1
    }

    /// The types of a module, by the instructions before its functions.
    ///
    /// Refuses M12, at the first instruction that breaks a rule of types, module variables or undefined values.
    pub fn build(alloc: Global, index: &Index) -> Result<TypeTable, Fail<Refusal>>
        ensures { Answers (types_of index.now.insts) result }
    {
        let insts = index.insts();
        let module = &insts[..index.functions_start()];
        let mut table = TypeTable::new(alloc);
        for inst in module {
            let form = defined_form(alloc, index, inst)?;
            if !keeps_rules(&table, index, inst, &form) {
                return Err(Fail::Refused(Refusal {
                    code: TYPE_CODE,
                    word: inst.word,
                }));
            }
            table.add_form(inst.id, form)?;
        }
        table.count(alloc)?;
        Ok(table)
    }

    /// Whether a type is a scalar: a Boolean or an integer.
    pub fn is_scalar(&self, ty: u32) -> bool
        ensures { result ≡ is_scalar (form_of self.now ty) }
    {
        matches!(self.form(ty), Some(Form::Bool | Form::Int { .. }))
    }

    /// Whether a type is of data: not void, a pointer or a function.
    pub fn is_data(&self, ty: u32) -> bool
        ensures { result ≡ is_data (form_of self.now ty) }
    {
        match self.form(ty) {
            None | Some(Form::Void | Form::Pointer { .. } | Form::Function { .. }) => false,
            _ => true,
        }
    }

    /// Whether a type is a runtime array.
    pub fn is_runtime(&self, ty: u32) -> bool
        ensures { result ≡ is_runtime (form_of self.now ty) }
    {
        matches!(self.form(ty), Some(Form::Runtime { .. }))
    }

    /// Whether a type is a struct that is decorated with Block.
    pub fn is_block(&self, ty: u32) -> bool
        ensures { result ≡ is_block (form_of self.now ty) }
    {
        matches!(self.form(ty), Some(Form::Struct { block: true, .. }))
    }

    /// Whether a type is an integer of 32 bits.
    pub fn is_word(&self, ty: u32) -> bool
        ensures { result ≡ is_word (form_of self.now ty) }
    {
        match self.form(ty) {
            Some(Form::Int { width, .. }) => *width == 32,
            _ => false,
        }
    }

    /// Whether a type is a vector of three integers of 32 bits.
    pub fn is_three_words(&self, ty: u32) -> bool
        ensures { result ≡ is_three_words self.now (form_of self.now ty) }
    {
        match self.form(ty) {
            Some(Form::Vector { component, count }) => *count == 3 && self.is_word(*component),
            _ => false,
        }
    }

    /// Whether the last of some members is a runtime array.
    fn ends_in_runtime(&self, members: &[Member]) -> bool
        ensures { result ≡ option_map_or (λ ty. is_runtime (form_of self.now ty)) (last_type members.now) false }
    {
        match last_type(members) {
            Some(ty) => self.is_runtime(ty),
            None => false,
        }
    }

    /// Whether a type is a runtime array or has one as its last member.
    pub fn has_runtime(&self, ty: u32) -> bool
        ensures { result ≡ has_runtime self.now ty }
    {
        match self.form(ty) {
            Some(Form::Runtime { .. }) => true,
            Some(Form::Struct { members, .. }) => self.ends_in_runtime(members.as_slice()),
            _ => false,
        }
    }

    /// Whether a type is of data without a runtime array.
    pub fn is_sized_data(&self, ty: u32) -> bool
        ensures { result ≡ is_sized_data self.now ty }
    {
        self.is_data(ty) && !self.has_runtime(ty)
    }

    /// The count of the type with a number, where it was counted.
    pub(crate) fn count_of(&self, number: usize) -> Option<&Count>
        ensures { IfSome result (λ count. IsCounted self.now number count.now) }
    {
        self.counts.get(number)
    }

    /// Counts the type behind those that are counted, and tells whether it could: its parts come before it, and it is no
    /// array without a length.
    fn count_next(&mut self, alloc: Global) -> Result<bool, NoMemory>
        ensures { self.new ≡ self.old }
    {
        let number = self.counts.len();
        if number >= self.len() {
            return Ok(false);
        }
        let form = self.form_at(number);
        if is_unset(form) || !parts_before(self, number, form) {
            return Ok(false);
        }
        let count = count_at(alloc, self, number)?;
        self.counts.push(count)?;
        Ok(true)
    }

    /// Counts the types before the first array without a length. What a type is stays as it was, which is all that the clause
    /// says: where it was counted, its leaves are found without a walk over its parts, and how much quicker is measured.
    pub fn count(&mut self, alloc: Global) -> Result<(), NoMemory>
        ensures { self.new ≡ self.old }
    {
        for _ in self.counts.len()..self.entries.len() {
            if !self.count_next(alloc)? {
                break;
            }
        }
        Ok(())
    }

    /// The number of leaves of a type, or the greatest u64 where there are more; none where it has a runtime array or a
    /// length that is not set.
    #[tactic(auto, unfolding(crate::specs::Cells::cells_of))]
    pub fn cells(&self, ty: u32) -> Option<u64>
        ensures { result ≡ option_map saturated (cells_of self.now ty) }
    {
        cells_among(self, self.len(), ty)
    }

    /// The number of leaves before the part that a path names, or the greatest u64 where there are more; none where the path
    /// is not in the type.
    #[tactic(auto, unfolding(crate::specs::Leaves::leaf_of))]
    pub fn leaf(&self, ty: u32, path: &[u64]) -> Option<u64>
        ensures { result ≡ option_map saturated (leaf_of self.now ty path.now) }
    {
        let Some((first, rest)) = path.split_first() else {
            return Some(0);
        };
        let (before, part) = part_at(self, self.number(ty)?, *first)?;
        let within = self.leaf(part, rest)?;
        Some(before.saturating_add(within))
    }

    /// The byte offset of a leaf in a block, or the greatest u64 where it is further; none where the type has no such leaf.
    #[tactic(auto, unfolding(crate::specs::Places::place_of))]
    pub fn place(&self, ty: u32, leaf: u64) -> Option<u64>
        requires { leaf < 67108864 }
        ensures { result ≡ option_map saturated (place_of self.now ty leaf) }
    {
        place_among(self, self.len(), ty, leaf)
    }
}
