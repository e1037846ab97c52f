//! What each variable of a module begins with, by its storage class (SPIR-V 1.6 sections 3.7 and 3.42.8).
ghost use Rattle.std.specs.Prelude.{◌≡◌, ◌≤◌, IfOk, IfSome, Some, option_copied, ◌<◌, ◌++◌, [], None, OnOk, length, map, replicate, slice_get};
ghost use Rattle.std.specs.BTreeMap.{get};
ghost use Rattle.spv_index.specs.Keys.{pair_cmp};
ghost use Rattle.spv_types.specs.Rules.{is_input};
ghost use Rattle.spv_initial.specs.Values as spec;
ghost use Rattle.std.specs.List.{cons_option, range_with_len};
ghost use Rattle.spv_base.specs.Entries.{change, reads};
ghost use Rattle.spv_base.specs.Variables.{Roots};
ghost use Rattle.spv_valid.specs.Acceptance.{invocations};
ghost use Rattle.spv_initial.specs.Start as start;
ghost use Rattle.spv_initial.specs.Values.{AreNumbers, own_value, shared_value};
ghost use Rattle.spv_initial.specs.Variables.{AreDeclared, Holds, targets_of};

use crate::blocks::{of_bytes, of_content};
use crate::constants::{initialized, undefined};
use crate::memory::without_variables;
use crate::variables::{Declared, targets_of};
use spv_base::NoMemory;
use spv_mem::{Memory, Variable};
use spv_ops::{built_in, decoration, storage_class};
use spv_setup::{Buffer, Setup};
use spv_start::Invocation;
use spv_types::TypeTable;
use spv_valid::Module;
use std::alloc::Global;
use std::collections::BTreeMap;

/// The number of the first buffer with each descriptor set and binding.
pub fn buffer_numbers(
    alloc: Global,
    buffers: &[Buffer],
) -> Result<BTreeMap<(u32, u32), usize>, NoMemory>
    ensures { IfOk result (λ map. spec.AreNumbers buffers.now (λ set binding. get pair_cmp map (set, binding))) }
{
    let mut map = BTreeMap::new(alloc);
    let mut n = buffers.len();
    'back: while n > 0 {
        n -= 1;
        let buffer = &buffers[n];
        map.insert((buffer.set, buffer.binding), n)?;
    }
    Ok(map)
}

/// Whether an Input variable of a type may be a built-in.
fn is_input(types: &TypeTable, kind: u32, target: u32) -> bool
    ensures { result ≡ is_input types.now (Some kind) target }
{
    (((kind == built_in::NUM_WORKGROUPS || kind == built_in::WORKGROUP_ID)
        || (kind == built_in::LOCAL_INVOCATION_ID || kind == built_in::GLOBAL_INVOCATION_ID))
        && types.is_three_words(target))
        || (kind == built_in::LOCAL_INVOCATION_INDEX && types.is_word(target))
}

/// A module and the setup of a run over it, with the number of the first buffer with each descriptor set and binding.
#[derive(Clone, Copy)]
pub struct Opening<'a> {
    pub accepted: &'a Module,
    pub setup: &'a Setup,
    pub numbers: &'a BTreeMap<(u32, u32), usize>,
}

impl<'a> Opening<'a> {
    /// The buffer that a variable names by its descriptor set and binding.
    fn buffer(&self, id: u32) -> Option<&'a Buffer>
        requires { spec.AreNumbers self.now.setup.now.buffers (λ set binding. get pair_cmp self.now.numbers.now (set, binding)) }
        ensures { option_copied result ≡ spec.buffer_of self.now.accepted.now.insts self.now.setup.now.buffers id }
    {
        let index = self.accepted.index();
        let set = index.decoration(id, decoration::DESCRIPTOR_SET)?;
        let binding = index.decoration(id, decoration::BINDING)?;
        let number = self.numbers.get(&(set, binding)).copied()?;
        self.setup.buffers().as_slice().get(number)
    }

    /// The block of a Uniform or StorageBuffer variable.
    fn of_buffer(&self, alloc: Global, declared: &Declared) -> Result<Option<Variable>, NoMemory>
        requires { spec.AreNumbers self.now.setup.now.buffers (λ set binding. get pair_cmp self.now.numbers.now (set, binding)) }
        ensures value { IfOk result (λ variable. variable ≡ spec.buffer_value self.now.accepted.now self.now.setup.now declared.now) }
        ensures suits { IfOk result (λ variable. IfSome variable (spec.Suits self.now.accepted.now.types declared.now)) }
    {
        match self.buffer(declared.id) {
            Some(buffer) => of_content(alloc, self.accepted.types(), declared, &buffer.content),
            None => Ok(None),
        }
    }

    /// The block of a PushConstant variable.
    fn of_push(&self, alloc: Global, declared: &Declared) -> Result<Option<Variable>, NoMemory>
        ensures value { IfOk result (λ variable. variable ≡ spec.push_value self.now.accepted.now self.now.setup.now declared.now) }
        ensures suits { IfOk result (λ variable. IfSome variable (spec.Suits self.now.accepted.now.types declared.now)) }
    {
        match self.setup.push() {
            Some(push) => of_bytes(
                alloc,
                self.accepted.types(),
                declared,
                push.bytes.as_slice(),
                push.bytes.len() as u64,
            ),
            None => Ok(None),
        }
    }

    /// The invocation with a number.
    fn invocation(&self, index: u32) -> Invocation
        ensures is { result ≡ spec.invocation_of self.now.accepted.now self.now.setup.now index }
        ensures x { 1 ≤ result.size.0 }
        ensures y { 1 ≤ result.size.1 }
        ensures narrow { spec.IsNarrow result }
    {
        let _insts = self.accepted.insts();
        Invocation {
            index,
            size: self.accepted.size(),
            group: self.setup.group(),
        }
    }

    /// The built-in value of an Input variable.
    fn input(
        &self,
        alloc: Global,
        declared: &Declared,
        index: u32,
    ) -> Result<Option<Variable>, NoMemory>
        ensures value { IfOk result (λ variable. variable ≡ spec.input_value self.now.accepted.now self.now.setup.now index declared.now) }
        ensures suits { IfOk result (λ variable. IfSome variable (spec.Suits self.now.accepted.now.types declared.now)) }
    {
        let Some(kind) = self
            .accepted
            .index()
            .decoration(declared.id, decoration::BUILT_IN)
        else {
            return Ok(None);
        };
        if !is_input(self.accepted.types(), kind, declared.target) {
            return Ok(None);
        }
        match self.invocation(index).built_in(alloc, kind)? {
            Some(row) => Ok(Some(Variable::new(row, 0))),
            None => Ok(None),
        }
    }

    /// What a variable begins with that all invocations share: its block, read from a buffer or from the push constants, or, in
    /// Workgroup memory, the undefined value. None exactly where it is no such variable, or has no bytes, or is no Block struct.
    pub fn shared(&self, alloc: Global, declared: &Declared) -> Result<Option<Variable>, NoMemory>
        requires { spec.AreNumbers self.now.setup.now.buffers (λ set binding. get pair_cmp self.now.numbers.now (set, binding)) }
        ensures value { IfOk result (λ variable. variable ≡ spec.shared_value self.now.accepted.now self.now.setup.now declared.now) }
        ensures suits { IfOk result (λ variable. IfSome variable (spec.Suits self.now.accepted.now.types declared.now)) }
    {
        match declared.class {
            storage_class::UNIFORM | storage_class::STORAGE_BUFFER => {
                self.of_buffer(alloc, declared)
            }
            storage_class::PUSH_CONSTANT => self.of_push(alloc, declared),
            storage_class::WORKGROUP => {
                let types = self.accepted.types();
                Ok(Some(undefined(alloc, types, declared)?))
            }
            _ => Ok(None),
        }
    }

    /// What a variable begins with that each invocation has for itself: its built-in value, or, where it is Private, the value of its
    /// initializer, and else the undefined value. None exactly where it is no such variable, or is no built-in of its type.
    pub fn own(
        &self,
        alloc: Global,
        declared: &Declared,
        index: u32,
    ) -> Result<Option<Variable>, NoMemory>
        ensures value { IfOk result (λ variable. variable ≡ spec.own_value self.now.accepted.now self.now.setup.now index declared.now) }
        ensures suits { IfOk result (λ variable. IfSome variable (spec.Suits self.now.accepted.now.types declared.now)) }
    {
        match declared.class {
            storage_class::INPUT => self.input(alloc, declared, index),
            storage_class::PRIVATE => Ok(Some(initialized(alloc, self.accepted, declared)?)),
            _ => Ok(None),
        }
    }

    /// Adds a variable that all invocations share, where it is one that has a value.
    fn add_shared(
        &self,
        alloc: Global,
        memory: &mut Memory,
        declared: &Declared,
    ) -> Result<(), NoMemory>
        requires numbers { AreNumbers self.now.setup.now.buffers (λ set binding. get pair_cmp self.now.numbers.now (set, binding)) }
        requires types { memory.old.types ≡ self.now.accepted.now.types }
        requires holds { Holds self.now.accepted.now.types declared.now }
        requires named { reads declared.now.id memory.old.targets ≡ Some declared.now.target }
        requires fresh { reads declared.now.id memory.old.shared ≡ None }
        ensures { OnOk result (memory.new ≡ record memory.old { shared = memory.old.shared ++ cons_option (start.root declared.now (shared_value self.now.accepted.now self.now.setup.now declared.now)) [] }) }
    {
        let _insts = self.accepted.insts();
        match self.shared(alloc, declared)? {
            Some(variable) => memory.add_shared(declared.id, variable),
            None => Ok(()),
        }
    }

    /// Adds the variables that all invocations share.
    fn add_all_shared(
        &self,
        alloc: Global,
        memory: &mut Memory,
        list: &[Declared],
    ) -> Result<(), NoMemory>
        requires numbers { AreNumbers self.now.setup.now.buffers (λ set binding. get pair_cmp self.now.numbers.now (set, binding)) }
        requires types { memory.old.types ≡ self.now.accepted.now.types }
        requires are { ∥ AreDeclared self.now.accepted.now.types list.now ∥₁ }
        requires targets { memory.old.targets ≡ targets_of list.now }
        requires none { memory.old.shared ≡ [] }
        ensures { OnOk result (memory.new ≡ record memory.old { shared = start.shared_roots self.now.accepted.now self.now.setup.now list.now }) }
    {
        for declared in list {
            self.add_shared(alloc, memory, declared)?;
        }
        Ok(())
    }

    /// Adds a variable that an invocation has for itself, where it is one.
    fn add_own(
        &self,
        alloc: Global,
        memory: &mut Memory,
        declared: &Declared,
        inv: u32,
    ) -> Result<(), NoMemory>
        requires types { memory.old.types ≡ self.now.accepted.now.types }
        requires holds { Holds self.now.accepted.now.types declared.now }
        requires named { reads declared.now.id memory.old.targets ≡ Some declared.now.target }
        requires inside { inv < length memory.old.privates }
        requires fresh { (es : Roots) → slice_get memory.old.privates inv ≡ Some es → reads declared.now.id es ≡ None }
        ensures { OnOk result (memory.new ≡ record memory.old { privates = change inv (λ es. es ++ cons_option (start.root declared.now (own_value self.now.accepted.now self.now.setup.now inv declared.now)) []) memory.old.privates }) }
    {
        let _insts = self.accepted.insts();
        match self.own(alloc, declared, inv)? {
            Some(variable) => memory.add_private(inv, declared.id, variable),
            None => Ok(()),
        }
    }

    /// Adds the variables that an invocation has for itself.
    fn add_all_own(
        &self,
        alloc: Global,
        memory: &mut Memory,
        list: &[Declared],
        inv: u32,
    ) -> Result<(), NoMemory>
        requires types { memory.old.types ≡ self.now.accepted.now.types }
        requires are { ∥ AreDeclared self.now.accepted.now.types list.now ∥₁ }
        requires targets { memory.old.targets ≡ targets_of list.now }
        requires none { slice_get memory.old.privates inv ≡ Some [] }
        ensures { OnOk result (memory.new ≡ record memory.old { privates = change inv (λ _. start.own_roots self.now.accepted.now self.now.setup.now list.now inv) memory.old.privates }) }
    {
        for declared in list {
            self.add_own(alloc, memory, declared, inv)?;
        }
        Ok(())
    }

    /// Adds, for each of so many invocations, the variables that it has for itself.
    fn add_each_own(
        &self,
        alloc: Global,
        memory: &mut Memory,
        list: &[Declared],
        count: u32,
    ) -> Result<(), NoMemory>
        requires types { memory.old.types ≡ self.now.accepted.now.types }
        requires are { ∥ AreDeclared self.now.accepted.now.types list.now ∥₁ }
        requires targets { memory.old.targets ≡ targets_of list.now }
        requires none { memory.old.privates ≡ replicate count [] }
        ensures { OnOk result (memory.new ≡ record memory.old { privates = map (start.own_roots self.now.accepted.now self.now.setup.now list.now) (range_with_len 0 count) }) }
    {
        let mut left = count;
        'each: while left > 0 {
            left -= 1;
            self.add_all_own(alloc, memory, list, left)?;
        }
        Ok(())
    }

    /// The memory of some variables, each with the value that it begins with.
    pub(crate) fn memory(&self, alloc: Global, list: &[Declared]) -> Result<Memory, NoMemory>
        requires numbers { AreNumbers self.now.setup.now.buffers (λ set binding. get pair_cmp self.now.numbers.now (set, binding)) }
        requires are { ∥ AreDeclared self.now.accepted.now.types list.now ∥₁ }
        ensures { IfOk result (λ memory. memory ≡ start.starting_with self.now.accepted.now self.now.setup.now list.now) }
    {
        let mut memory = without_variables(alloc, self.accepted, list)?;
        self.add_all_shared(alloc, &mut memory, list)?;
        self.add_each_own(alloc, &mut memory, list, self.accepted.invocations())?;
        Ok(memory)
    }
}
