//! Memory: loads and stores of parts of variables.
ghost use Rattle.std.specs.Prelude.{◌≡◌, IfOk, [], Err, Ok, option_copied, replicate, if◌then◌else◌, IfSome, OnOk, ℕ, IsSome, Some, option_map, ◌<◌, None, OnErr, length, slice_get, ◌↔◌, IsTrue};
ghost use Rattle.std.specs.Option.{MatchOption};
ghost use Rattle.spv_base.specs.declared.causes.MemErr.TheVariants.{OutOfBounds as Outside};
ghost use Rattle.spv_mem.specs.Memory.{AreTargets, IsMemory, Loads, MayStore, Stores, empty, load_of, root_value, roots_in, IsVariable, IsScalarAt, LoadsCell, NamesArray, StoresCell, member_of, AreVariables, HasRoom, Leaves, entered, with_private, with_shared};
ghost use Rattle.spv_base.specs.Cell.{IsCell, Cell};
ghost use Rattle.spv_mem.specs.Blanks.{blank_in};
ghost use Rattle.spv_mem.specs.Targets.{count_in};
ghost use Rattle.spv_types.specs.declared.forms.Member.{Member as Part};
ghost use Rattle.spv_types.specs.Rows.{leaves};
ghost use Rattle.spv_base.specs.declared.values.Value.{Scalar, out-Value};
ghost use Rattle.spv_types.specs.Shapes.{scalar_in};
ghost use Rattle.spv_base.specs.Entries.{reads};
ghost use Rattle.spv_base.specs.Variables.{Roots};
ghost use Rattle.spv_base.specs.declared.values.Root.TheVariants.{Shared};
ghost use Rattle.spv_mem.specs.Conditions.{integer_width, width_at};
ghost use Rattle.spv_mem.specs.Singles.{NamesRow};

use crate::cells::cell_of;
use crate::conditions::integer_width;
use crate::entries::{Locals, Roots, lists_copied};
use crate::levels::{Levels, exchange_at, exchange_level, levels_copied};
use crate::places::{Place, is_array_at, reached_type};
use crate::singles::{exchange_single_at, exchange_single_level, spot_of};
use crate::targets::Targets;
use crate::variables::Variable;
use spv_base::{Cell, Ghost, MemErr, NoMemory, Path, Pointer, Root, Value};
use spv_types::TypeTable;
use spv_values::{Part, Row, Single};
use std::alloc::Global;
use std::marker::Model;
use std::rc::Rc;

/// The variables of a workgroup. Contracts see the types, the types of the variables' values, and the variables as trees.
pub struct Memory {
    pub(crate) types: Rc<TypeTable>,
    pub(crate) targets: Targets,
    pub(crate) shared: Roots,
    pub(crate) privates: Vec<Roots>,
    pub(crate) locals: Vec<Levels>,
}

// Written out, so that it is proved once: a derived drop is proved again in each function that lets go of such a value.
impl Drop for Memory {
    fn drop(self) {
        let Memory {
            types,
            targets,
            shared,
            privates,
            locals,
        } = self;
        drop(types);
        drop(targets);
        drop(shared);
        drop(privates);
        drop(locals);
    }
}

impl Model for Memory {
    ghost use Rattle.std.specs.Prelude.{◌≡◌};
    ghost use Rattle.std.specs.Coded.{codes};
    ghost use Rattle.spv_base.specs.contracts.values.Value as value;
    ghost use Rattle.spv_mem.specs.Memory.{Held, IsMemory};

    ghost Value = { Held };

    ghost coded = { Prim.hlevel (codes, value.the_row.coded) };

    ghost view = { λ m. record { types = m.types.value; targets = m.targets; shared = m.shared; privates = m.privates.items; locals = m.locals.items } };

    ghost invariant = { λ m. ∥ IsMemory (record { types = m.types.value; targets = m.targets; shared = m.shared; privates = m.privates.items; locals = m.locals.items }) ∥₁ };
}

/// What a store answers.
pub(crate) fn answer(there: bool) -> Result<(), MemErr>
    ensures { result ≡ (if there then Ok tt else Err Outside) }
{
    if there {
        Ok(())
    } else {
        Err(MemErr::OutOfBounds)
    }
}

/// So many lists without variables.
fn no_roots(alloc: Global, count: u32) -> Result<Vec<Roots>, NoMemory>
    ensures { IfOk result (λ lists. lists.items ≡ replicate count []) }
{
    let mut lists = Vec::with_capacity(alloc, count as usize)?;
    for _number in 0..count {
        lists.push(Roots::new(alloc))?;
    }
    Ok(lists)
}

/// So many lists without locals, each with room for some.
fn no_levels(alloc: Global, count: u32, room: u32) -> Result<Vec<Levels>, NoMemory>
    ensures { IfOk result (λ lists. lists.items ≡ replicate count (record { list = []; room = room })) }
{
    let mut lists = Vec::with_capacity(alloc, count as usize)?;
    for _number in 0..count {
        lists.push(Levels::new(alloc, room)?)?;
    }
    Ok(lists)
}

impl Memory {
    /// A memory without variables, for so many invocations, each with room for the locals of `depth` frames. The targets name the
    /// variables of the module, local ones too, each with the type of its value.
    pub fn new(
        alloc: Global,
        types: Rc<TypeTable>,
        targets: &[(u32, u32)],
        invocations: u32,
        depth: u32,
    ) -> Result<Memory, NoMemory>
        requires { ∥ AreTargets types.value targets.now ∥₁ }
        ensures { IfOk result (λ m. m ≡ empty types.value targets.now invocations depth) }
    {
        Ok(Memory {
            types,
            targets: Targets::new(alloc, targets)?,
            shared: Roots::new(alloc),
            privates: no_roots(alloc, invocations)?,
            locals: no_levels(alloc, invocations, depth)?,
        })
    }

    /// A fact, with nothing to run: the types are sound, the variables may have theirs, and each has a value of its type.
    pub fn keeps_types(&self)
        ensures { ∥ IsMemory self.now ∥₁ }
    {
        let _types = &self.types;
    }

    /// The list in which the variable stands that a root of an invocation names.
    pub(crate) fn roots(&self, inv: u32, root: Root) -> Option<&Roots>
        ensures { option_copied result ≡ roots_in self.now inv root }
    {
        match root {
            Root::Shared(_) => Some(&self.shared),
            Root::Private(_) => self.privates.get(inv as usize),
            Root::Local { depth, .. } => self.locals.get(inv as usize)?.get(depth),
        }
    }

    /// The part that a pointer of an invocation names.
    pub(crate) fn part(&self, inv: u32, p: &Pointer) -> Option<Part<'_>>
        ensures { result ≡ load_of self.now inv p.now }
    {
        let id = p.root.id();
        let target = self.targets.get(id)?;
        let roots = self.roots(inv, p.root)?;
        roots.load(self.types.as_ref(), target, id, &p.path)
    }

    /// The value of the variable that a root of an invocation names, lent; none where there is no such variable. It takes no memory.
    pub fn whole(&self, inv: u32, root: Root) -> Option<Part<'_>>
        ensures { result ≡ root_value self.now inv root }
    {
        let id = root.id();
        let roots = self.roots(inv, root)?;
        roots.whole(id, self.targets.place(id))
    }

    /// The part that a pointer of an invocation names. It takes no memory.
    ///
    /// `OutOfBounds` exactly where there is no such variable or part.
    pub fn load(&self, inv: u32, p: &Pointer) -> Result<Part<'_>, MemErr>
        ensures { Loads self.now inv p.now result }
    {
        match self.part(inv, p) {
            Some(part) => Ok(part),
            None => Err(MemErr::OutOfBounds),
        }
    }

    /// Exchanges the part that a pointer of an invocation names with a value of its type. It takes no memory, and the same call
    /// undoes it.
    ///
    /// `OutOfBounds` exactly where there is no such variable or part; then nothing changes.
    pub fn store(&mut self, inv: u32, p: &Pointer, row: &mut Row) -> Result<(), MemErr>
        requires { ∥ MayStore self.old inv p.now row.old ∥₁ }
        ensures { Stores self.old inv p.now row.old self.new row.new result }
    {
        let Some(target) = self.targets.get(p.root.id()) else {
            return Err(MemErr::OutOfBounds);
        };
        let types = self.types.as_ref();
        let k = inv as usize;
        match p.root {
            Root::Shared(id) => answer(self.shared.exchange(types, target, id, &p.path, row)),
            Root::Private(id) => answer(exchange_at(
                &mut self.privates,
                k,
                types,
                target,
                id,
                &p.path,
                row,
            )),
            Root::Local { depth, id } => answer(exchange_level(
                &mut self.locals,
                k,
                types,
                target,
                depth,
                id,
                &p.path,
                row,
            )),
        }
    }

    /// What the variable with an id holds before the first store: all its cells are undefined, and a runtime array has so many
    /// elements. None exactly where the targets do not name the id, or name a type that is not one of data.
    pub fn blank(&self, alloc: Global, id: u32, elements: u32) -> Result<Option<Variable>, NoMemory>
        ensures value { IfOk result (λ variable. variable ≡ blank_in self.now id elements) }
        ensures may { IfOk result (λ variable. IfSome variable (λ v. ∥ IsVariable self.now.types self.now.targets id v ∥₁)) }
    {
        let types = self.types.as_ref();
        let Some(target) = self.targets.get(id) else {
            return Ok(None);
        };
        if !types.is_data(target.ty) {
            return Ok(None);
        }
        let variable = Variable::blank(alloc, types, target.ty, elements)?;
        Ok(Some(variable))
    }

    /// The scalar that a pointer of an invocation names. It takes no memory.
    ///
    /// `OutOfBounds` exactly where there is no such variable or part.
    pub fn load_cell(&self, inv: u32, p: &Pointer) -> Result<Cell, MemErr>
        requires { IsScalarAt self.now inv p.now }
        ensures { LoadsCell self.now inv p.now result }
    {
        match self.part(inv, p) {
            Some(part) => Ok(cell_of(&part)),
            None => Err(MemErr::OutOfBounds),
        }
    }

    /// Exchanges the scalar that a pointer of an invocation names with another of its type, and gives the old one. It takes no
    /// memory, and the same call undoes it. The row is a scalar that the caller keeps for such calls; what it holds is lost.
    ///
    /// `OutOfBounds` exactly where there is no such variable or part; then the memory stays as it was.
    #[tactic(auto, using(spv_values::proofs::Exports::scalar_leaf, crate::proofs::CellLemmas::handed_scalar, crate::proofs::CellLemmas::cell_stored, crate::proofs::CellLemmas::cell_refused, crate::proofs::CellLemmas::kept_scalar))]
    pub fn store_cell(
        &mut self,
        inv: u32,
        p: &Pointer,
        cell: Cell,
        row: &mut Row,
    ) -> Result<Cell, MemErr>
        requires scalar { IsScalarAt self.old inv p.now }
        requires may { ∥ MayStore self.old inv p.now (Scalar cell) ∥₁ }
        requires row { IsSome (scalar_in (out-Value row.old)) }
        ensures stores { StoresCell self.old inv p.now cell self.new result }
        ensures row { IsSome (scalar_in (out-Value row.new)) }
    {
        row.put_cell(cell);
        match self.store(inv, p, row) {
            Ok(()) => Ok(cell_of(&row.as_part())),
            Err(error) => Err(error),
        }
    }

    /// How many elements the runtime array has that is a member of the block that a pointer to a shared variable names
    /// (OpArrayLength, SPIR-V 1.6 section 3.42.8). It takes no memory.
    pub fn array_length(&self, p: &Pointer, member: u32) -> u32
        requires { ∥ NamesArray self.now p.now member ∥₁ }
        ensures { (i : ℕ) → option_map count_in (load_of self.now i (member_of p.now member)) ≡ Some result }
    {
        let id = p.root.id();
        self.shared.elements(id, self.targets.place(id))
    }

    /// The cells of a variable, in its order. None exactly where there is no such variable. It takes no memory.
    pub fn root_cells(&self, inv: u32, root: &Root) -> Option<&[Cell]>
        ensures { option_map (λ cells. cells.now) result ≡ option_map leaves (root_value self.now inv root.now) }
    {
        let id = root.id();
        let roots = self.roots(inv, *root)?;
        roots.cells(id, self.targets.place(id))
    }

    /// An equal memory, with room for the locals of as many frames.
    pub fn copy(&self, alloc: Global) -> Result<Memory, NoMemory>
        ensures { IfOk result (λ m. m ≡ self.now) }
    {
        Ok(Memory {
            types: Rc::clone(&self.types)?,
            targets: self.targets.copy(alloc)?,
            shared: self.shared.copy(alloc)?,
            privates: lists_copied(alloc, self.privates.as_slice())?,
            locals: levels_copied(alloc, self.locals.as_slice())?,
        })
    }

    /// Adds a shared variable, which was not there.
    pub fn add_shared(&mut self, id: u32, variable: Variable) -> Result<(), NoMemory>
        requires fresh { reads id self.old.shared ≡ None }
        requires may { ∥ IsVariable self.old.types self.old.targets id variable ∥₁ }
        ensures ok { OnOk result (self.new ≡ with_shared id variable self.old) }
        ensures err { OnErr result (self.new ≡ self.old) }
    {
        self.targets.note(id, self.shared.len());
        self.shared.push(id, variable)
    }

    /// Adds a Private or Input variable of an invocation, which was not there.
    pub fn add_private(&mut self, inv: u32, id: u32, variable: Variable) -> Result<(), NoMemory>
        requires inside { inv < length self.old.privates }
        requires fresh { (es : Roots) → slice_get self.old.privates inv ≡ Some es → reads id es ≡ None }
        requires may { ∥ IsVariable self.old.types self.old.targets id variable ∥₁ }
        ensures ok { OnOk result (self.new ≡ with_private inv id variable self.old) }
        ensures err { OnErr result (self.new ≡ self.old) }
    {
        let roots = &mut self.privates[inv as usize];
        self.targets.note(id, roots.len());
        roots.push(id, variable)
    }

    /// Adds the locals of a frame that is entered.
    pub fn enter_locals(&mut self, inv: u32, locals: Locals) -> Result<(), NoMemory>
        requires inside { inv < length self.old.locals }
        requires may { ∥ AreVariables self.old.types self.old.targets locals ∥₁ }
        ensures ok { OnOk result (self.new ≡ entered inv locals self.old) }
        ensures err { OnErr result (self.new ≡ self.old) }
    {
        locals.note_places(&mut self.targets);
        self.locals[inv as usize].push(locals)
    }

    /// Takes the locals of the last frame away. None exactly where there are none; then nothing changes.
    pub fn leave_locals(&mut self, inv: u32) -> Option<Locals>
        requires { inv < length self.old.locals }
        ensures left { Leaves self.old inv self.new result }
        ensures variables { IfSome result (λ es. ∥ AreVariables self.old.types self.old.targets es ∥₁) }
    {
        self.locals[inv as usize].pop()
    }

    /// Adds the locals of a frame again, where there is room. It takes no memory.
    pub fn give_back_locals(&mut self, inv: u32, locals: Locals)
        requires inside { inv < length self.old.locals }
        requires room { HasRoom self.old inv }
        requires may { ∥ AreVariables self.old.types self.old.targets locals ∥₁ }
        ensures { self.new ≡ entered inv locals self.old }
    {
        self.locals[inv as usize].give_back(locals);
    }

    /// The width of the integers, in bits, that a pointer leads to by the type of its variable. None exactly where it leads to no
    /// integer type, whether there is such a part or not.
    pub fn integer_width(&self, p: &Pointer) -> Option<u32>
        ensures width { result ≡ width_at self.now p.now }
        ensures scalar { IfSome result (λ width. (i : ℕ) → IsScalarAt self.now i p.now) }
        ensures may { IfSome result (λ width. (i : ℕ) (c : Cell) → c.width ≡ width → IsCell c → ∥ MayStore self.now i p.now (Scalar c) ∥₁) }
    {
        let types = self.types.as_ref();
        let id = p.root.id();
        let target = self.targets.get(id)?;
        let ty = reached_type(types, target.ty, p.path.as_slice())?;
        integer_width(types.form(ty))
    }

    /// Whether a pointer names a block in a shared variable, of which a member is a runtime array.
    pub fn names_array(&self, p: &Pointer, member: u32) -> bool
        ensures { IsTrue result ↔ ∥ NamesArray self.now p.now member ∥₁ }
    {
        match p.root {
            Root::Shared(id) => self.shared_array(id, p, member),
            _ => false,
        }
    }

    /// The same, where the variable is the shared one with an id.
    fn shared_array(&self, id: u32, p: &Pointer, member: u32) -> bool
        requires { p.now.root ≡ Shared id }
        ensures { IsTrue result ↔ ∥ NamesArray self.now p.now member ∥₁ }
    {
        if self.is_fresh_shared(id) {
            return false;
        }
        let types = self.types.as_ref();
        let Some(target) = self.targets.get(id) else {
            return false;
        };
        match reached_type(types, target.ty, p.path.as_slice()) {
            Some(block) => is_array_at(types, types.form(block), u64::from(member)),
            None => false,
        }
    }

    /// Whether there is no shared variable with an id.
    pub fn is_fresh_shared(&self, id: u32) -> bool
        ensures { IsTrue result ↔ reads id self.now.shared ≡ None }
    {
        self.shared.has_none(id, self.targets.place(id))
    }

    /// Whether an invocation has no Private or Input variable with an id.
    pub fn is_fresh_private(&self, inv: u32, id: u32) -> bool
        requires { inv < length self.now.privates }
        ensures { IsTrue result ↔ ((es : Roots) → slice_get self.now.privates inv ≡ Some es → reads id es ≡ None) }
    {
        self.privates[inv as usize].has_none(id, self.targets.place(id))
    }

    /// Whether there is an invocation with a number.
    pub fn has_invocation(&self, inv: u32) -> bool
        ensures { IsTrue result ↔ (inv < length self.now.privates) × (inv < length self.now.locals) }
    {
        (inv as usize) < self.privates.len() && (inv as usize) < self.locals.len()
    }

    /// Whether an invocation has room for the locals of a further frame.
    pub fn has_room(&self, inv: u32) -> bool
        requires { inv < length self.now.locals }
        ensures { IsTrue result ↔ HasRoom self.now inv }
    {
        self.locals[inv as usize].has_room()
    }

    /// Where the part that a pointer of an invocation names lies in its variable: the cells before it, and its own. None exactly where
    /// there is no such part. It takes no memory.
    pub fn place(&self, inv: u32, p: &Pointer) -> Option<Place>
        ensures { MatchOption result (load_of self.now inv p.now ≡ None) (λ at. NamesRow self.now inv p.now at.start at.len) }
    {
        let id = p.root.id();
        let target = self.targets.get(id)?;
        let roots = self.roots(inv, p.root)?;
        roots.part_place(self.types.as_ref(), target, id, &p.path)
    }

    /// Exchanges a leaf of a variable, which lies behind so many others and to which a path leads, with a value of one cell and of its
    /// type.
    ///
    /// `OutOfBounds` exactly where there is no such variable or leaf; then nothing changes.
    pub fn exchange_single(
        &mut self,
        inv: u32,
        root: Root,
        leaf: usize,
        path: &Ghost<Path>,
        other: &mut Single,
    ) -> Result<(), MemErr>
        requires names { ∥ NamesRow self.old inv (record { root = root; path = path.now.value }) leaf 1 ∥₁ }
        requires may { ∥ MayStore self.old inv (record { root = root; path = path.now.value }) other.old ∥₁ }
        ensures { Stores self.old inv (record { root = root; path = path.now.value }) other.old self.new other.new result }
    {
        let spot = spot_of(&self.targets, root, leaf);
        let k = inv as usize;
        match root {
            Root::Shared(_id) => answer(self.shared.exchange_single(spot, path, other)),
            Root::Private(_id) => {
                answer(exchange_single_at(&mut self.privates, k, spot, path, other))
            }
            Root::Local { depth, id: _id } => answer(exchange_single_level(
                &mut self.locals,
                k,
                depth,
                spot,
                path,
                other,
            )),
        }
    }
}
