//! Variables of blocks, which are read from bytes (SPIR-V 1.6 section 3.7, Uniform, PushConstant and StorageBuffer).
ghost use Rattle.std.specs.Prelude.{◌≡◌, IfOk, IfSome, true};
ghost use Rattle.spv_mem.specs.Targets.{elements_in};
ghost use Rattle.spv_start.specs.Blocks.{value_in};
ghost use Rattle.spv_types.specs.Rules.{is_block};
ghost use Rattle.spv_types.specs.Types.{form_of};
ghost use Rattle.spv_initial.specs.Values.{Suits, of_bytes, of_content};

use crate::elements::last_count;
use crate::variables::Declared;
use spv_base::{Ghost, NoMemory, Value};
use spv_mem::Variable;
use spv_setup::Content;
use spv_start::blocks::read;
use spv_types::TypeTable;
use spv_types::counting::members_of;
use spv_values::Row;
use std::alloc::Global;

/// So many bytes, of which those behind the ones written out are 0, and the type of what they are.
#[derive(Clone, Copy)]
struct Block<'a> {
    types: &'a TypeTable,
    bytes: &'a [u8],
    size: u64,
    ty: u32,
}

impl<'a> Block<'a> {
    /// The tree of the value, for proofs.
    fn tree(&self) -> Ghost<Value>
        ensures { result.value ≡ value_in self.now.types.now self.now.bytes.now self.now.size self.now.ty }
    {
        let tree = Ghost::of();
        self.tree_by(&tree)
    }

    fn tree_by(&self, tree: &Ghost<Value>) -> Ghost<Value>
        ensures { result.value ≡ value_in self.now.types.now self.now.bytes.now self.now.size self.now.ty }
    {
        tree.by(self, tree)
    }

    /// The value.
    fn row(&self, alloc: Global) -> Result<Row, NoMemory>
        ensures { IfOk result (λ row. row ≡ value_in self.now.types.now self.now.bytes.now self.now.size self.now.ty) }
    {
        let cells = read(alloc, self.types, self.bytes, self.size, self.ty)?;
        Ok(Row::with_tree(cells, self.tree()))
    }

    /// How many parts the last member has.
    fn elements(&self) -> Result<u32, NoMemory>
        requires { is_block (form_of self.now.types.now self.now.ty) ≡ true }
        ensures { IfOk result (λ n. n ≡ elements_in (value_in self.now.types.now self.now.bytes.now self.now.size self.now.ty)) }
    {
        match self.types.found(self.types.len(), self.ty) {
            Some((limit, form)) => last_count(self.types, self.size, limit, members_of(form)),
            None => Ok(0),
        }
    }

    /// The variable that holds the value.
    fn variable(&self, alloc: Global) -> Result<Variable, NoMemory>
        requires { is_block (form_of self.now.types.now self.now.ty) ≡ true }
        ensures { IfOk result (λ variable. variable ≡ value_in self.now.types.now self.now.bytes.now self.now.size self.now.ty) }
    {
        let count = self.elements()?;
        let row = self.row(alloc)?;
        Ok(Variable::new(row, count))
    }
}

/// The block that so many bytes are, of which those behind the ones written out are 0; none where the variable's type is no Block
/// struct. It takes no more memory than its cells.
pub fn of_bytes(
    alloc: Global,
    types: &TypeTable,
    declared: &Declared,
    bytes: &[u8],
    size: u64,
) -> Result<Option<Variable>, NoMemory>
    ensures value { IfOk result (λ variable. variable ≡ of_bytes types.now declared.now.target bytes.now size) }
    ensures suits { IfOk result (λ variable. IfSome variable (Suits types.now declared.now)) }
{
    let ty = declared.target;
    if !types.is_block(ty) {
        return Ok(None);
    }
    let block = Block {
        types,
        bytes,
        size,
        ty,
    };
    let variable = block.variable(alloc)?;
    Ok(Some(variable))
}

/// The block that the bytes of a buffer are.
pub fn of_content(
    alloc: Global,
    types: &TypeTable,
    declared: &Declared,
    content: &Content,
) -> Result<Option<Variable>, NoMemory>
    ensures value { IfOk result (λ variable. variable ≡ of_content types.now declared.now.target content.now) }
    ensures suits { IfOk result (λ variable. IfSome variable (Suits types.now declared.now)) }
{
    match content {
        Content::Hex(bytes) => of_bytes(
            alloc,
            types,
            declared,
            bytes.as_slice(),
            bytes.len() as u64,
        ),
        Content::Zero(count) => of_bytes(alloc, types, declared, &[], u64::from(*count)),
    }
}
