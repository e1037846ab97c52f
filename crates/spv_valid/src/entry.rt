//! The entry point, its function, and the size of its workgroup.
ghost use Rattle.std.specs.Prelude.{◌≡◌, Some, None, find, if◌then◌else◌, option_copied};
ghost use Rattle.spv_base.specs.Entries.{reads};
ghost use Rattle.spv_valid.specs.Entry as spec;

use spv_base::{Cell, Inst, Refusal};
use spv_cfg::Flow;
use spv_consts::ConstTable;
use spv_index::{Index, id_operand, literal_operand, text_operand};
use spv_ops::{built_in, decoration, execution_mode, execution_model, op};
use spv_types::constants::is_constant;
use spv_types::queries::is_void;
use spv_types::{Form, TypeTable};

/// The most invocations of a workgroup.
const MAX_INVOCATIONS: u64 = 1024;

/// A breach of these rules, which stands at the first word.
const ENTRY_BREACH: Refusal = Refusal { code: 17, word: 0 };

/// The function of an entry point, the size of its workgroup, and how many functions the longest chain of calls from it
/// has.
#[derive(Clone, Copy)]
pub struct Entry {
    pub function: u32,
    pub size: (u32, u32, u32),
    pub depth: u32,
}

/// Whether an entry point's execution model is GLCompute.
fn is_compute(inst: &Inst) -> bool
    ensures { result ≡ spec.is_compute inst.now }
{
    literal_operand(inst, 0) == Some(execution_model::GL_COMPUTE)
}

/// Whether an instruction is a GLCompute entry point of this name.
fn is_named(name: &[u8], inst: &Inst) -> bool
    ensures { result ≡ spec.is_named name.now inst.now }
{
    if inst.op != op::ENTRY_POINT || !is_compute(inst) {
        return false;
    }
    match text_operand(inst, 2) {
        Some(text) => text == name,
        None => false,
    }
}

/// The first entry point.
fn first_entry_point(insts: &[Inst]) -> Option<&Inst>
    ensures { option_copied result ≡ find spec.is_entry_point insts.now }
{
    insts.iter().find(|inst| inst.op == op::ENTRY_POINT)
}

/// The first GLCompute entry point of a name.
fn named_entry_point<'a>(insts: &'a [Inst], name: &[u8]) -> Option<&'a Inst>
    ensures { option_copied result ≡ find (spec.is_named name.now) insts.now }
{
    insts.iter().find(|inst| is_named(name, inst))
}

/// Without a name the first entry point, which has to be a GLCompute one; with a name the first GLCompute one of this name.
pub fn entry_point<'a>(insts: &'a [Inst], name: Option<&[u8]>) -> Option<&'a Inst>
    ensures { option_copied result ≡ spec.entry_point insts.now (option_copied name.entry) }
{
    match name {
        Some(name) => named_entry_point(insts, name),
        None => {
            let first = first_entry_point(insts)?;
            if is_compute(first) { Some(first) } else { None }
        }
    }
}

/// Whether a type is that of functions without parameters that return void.
pub fn is_plain(types: &TypeTable, form: Option<&Form>) -> bool
    ensures { result ≡ spec.is_plain types.now (option_copied form.entry) }
{
    match form {
        Some(
            Form::Function {
                returns,
                parameters,
            },
        ) => is_void(types.form(*returns)) && parameters.len() == 0,
        _ => false,
    }
}

/// Whether an instruction begins a function without parameters that returns void.
fn begins_plain(types: &TypeTable, inst: &Inst) -> bool
    ensures { result ≡ spec.begins_plain types.now inst.now }
{
    if inst.op != op::FUNCTION {
        return false;
    }
    match id_operand(inst, 1) {
        Some(ty) => is_plain(types, types.form(ty)),
        None => false,
    }
}

/// Whether the function with an id has no parameters and returns void.
fn is_plain_function(types: &TypeTable, index: &Index, id: u32) -> bool
    ensures { result ≡ spec.is_plain_function types.now index.now.insts id }
{
    match index.defining(id) {
        Some(inst) => begins_plain(types, inst),
        None => false,
    }
}

/// Three numbers, where all are there.
fn all_three(x: Option<u64>, y: Option<u64>, z: Option<u64>) -> Option<(u64, u64, u64)>
    ensures { result ≡ spec.all_three x y z }
{
    Some((x?, y?, z?))
}

/// The numbers of three scalars.
fn numbers_in(cells: &[Cell]) -> Option<(u64, u64, u64)>
    ensures { result ≡ spec.numbers_in cells.now }
{
    match cells {
        [x, y, z] => all_three(x.number(), y.number(), z.number()),
        _ => None,
    }
}

/// The number of one scalar.
fn number_in(cells: &[Cell]) -> Option<u64>
    ensures { result ≡ spec.number_in cells.now }
{
    match cells {
        [x] => x.number(),
        _ => None,
    }
}

/// Whether an instruction is a constant decorated with the built-in WorkgroupSize.
fn is_size_constant(index: &Index, inst: &Inst) -> bool
    ensures { result ≡ spec.is_size_constant index.now.insts inst.now }
{
    is_constant(inst.op)
        && index.decoration(inst.id, decoration::BUILT_IN) == Some(built_in::WORKGROUP_SIZE)
}

/// The first constant decorated with the built-in WorkgroupSize.
fn size_constant<'a>(index: &Index, insts: &'a [Inst]) -> Option<&'a Inst>
    ensures { option_copied result ≡ find (spec.is_size_constant index.now.insts) insts.now }
{
    insts.iter().find(|inst| is_size_constant(index, inst))
}

/// Whether an instruction with an opcode gives an execution mode to the entry point of a function.
fn is_mode(op: u16, mode: u32, function: u32, inst: &Inst) -> bool
    ensures { result ≡ spec.is_mode op mode function inst.now }
{
    inst.op == op && id_operand(inst, 0) == Some(function) && literal_operand(inst, 1) == Some(mode)
}

/// The first instruction that gives an execution mode to the entry point of a function.
fn mode_of(insts: &[Inst], op: u16, mode: u32, function: u32) -> Option<&Inst>
    ensures { option_copied result ≡ find (spec.is_mode op mode function) insts.now }
{
    insts.iter().find(|inst| is_mode(op, mode, function, inst))
}

/// The size that a constant with such cells gives, which has to be a vector of three 32-bit integers.
fn size_in(types: &TypeTable, ty: u32, cells: &[Cell]) -> Option<(u64, u64, u64)>
    ensures { result ≡ spec.size_in types.now (record { ty = ty; cells = cells.now }) }
{
    if types.is_three_words(ty) {
        numbers_in(cells)
    } else {
        None
    }
}

/// The size that a constant gives.
fn constant_size(types: &TypeTable, consts: &ConstTable, inst: &Inst) -> Option<(u64, u64, u64)>
    ensures { result ≡ spec.constant_size types.now consts.now inst.now }
{
    let row = consts.value(inst.id)?;
    size_in(types, row.ty, row.cells)
}

/// The number of a constant with such cells, which has to be a 32-bit integer.
fn word_in(types: &TypeTable, ty: u32, cells: &[Cell]) -> Option<u64>
    ensures { result ≡ spec.word_in types.now (record { ty = ty; cells = cells.now }) }
{
    if types.is_word(ty) {
        number_in(cells)
    } else {
        None
    }
}

/// The number of the constant that is the operand with a number.
fn word_constant(types: &TypeTable, consts: &ConstTable, inst: &Inst, n: usize) -> Option<u64>
    ensures { result ≡ spec.word_constant types.now consts.now inst.now n }
{
    let row = consts.value(id_operand(inst, n)?)?;
    word_in(types, row.ty, row.cells)
}

/// The size that a LocalSizeId gives.
fn size_by_ids(types: &TypeTable, consts: &ConstTable, inst: &Inst) -> Option<(u64, u64, u64)>
    ensures { result ≡ spec.size_by_ids types.now consts.now inst.now }
{
    all_three(
        word_constant(types, consts, inst, 2),
        word_constant(types, consts, inst, 3),
        word_constant(types, consts, inst, 4),
    )
}

/// The size that a LocalSize gives.
fn size_by_literals(inst: &Inst) -> Option<(u64, u64, u64)>
    ensures { result ≡ spec.size_by_literals inst.now }
{
    all_three(
        literal_operand(inst, 2).map(u64::from),
        literal_operand(inst, 3).map(u64::from),
        literal_operand(inst, 4).map(u64::from),
    )
}

/// The size of a workgroup, by a constant decorated WorkgroupSize, else by LocalSizeId, else by LocalSize.
pub fn size_of(
    types: &TypeTable,
    consts: &ConstTable,
    index: &Index,
    function: u32,
) -> Option<(u64, u64, u64)>
    ensures { result ≡ spec.size_of types.now consts.now index.now.insts function }
{
    let insts = index.insts();
    if let Some(inst) = size_constant(index, insts) {
        return constant_size(types, consts, inst);
    }
    if let Some(inst) = mode_of(
        insts,
        op::EXECUTION_MODE_ID,
        execution_mode::LOCAL_SIZE_ID,
        function,
    ) {
        return size_by_ids(types, consts, inst);
    }
    size_by_literals(mode_of(
        insts,
        op::EXECUTION_MODE,
        execution_mode::LOCAL_SIZE,
        function,
    )?)
}

/// The size, where there is at least one invocation in each direction, and at most 1,024 together.
pub fn allowed_size(size: (u64, u64, u64)) -> Option<(u32, u32, u32)>
    ensures { result ≡ (if spec.is_size size then Some size else None) }
{
    let (x, y, z) = size;
    if x < 1 || y < 1 || z < 1 {
        return None;
    }
    if x > MAX_INVOCATIONS || y > MAX_INVOCATIONS || z > MAX_INVOCATIONS {
        return None;
    }
    if x * y * z > MAX_INVOCATIONS {
        return None;
    }
    Some((x as u32, y as u32, z as u32))
}

/// How many functions the longest chain of calls from a function has, where there is such a function.
fn depth_of(flow: &Flow, function: u32) -> Option<u32>
    ensures { result ≡ reads function flow.now.depths }
{
    if flow.is_function(function) {
        Some(flow.depth(function))
    } else {
        None
    }
}

/// The entry whose function has this id, where it keeps the rules.
fn entry_in(
    types: &TypeTable,
    consts: &ConstTable,
    flow: &Flow,
    index: &Index,
    function: u32,
) -> Option<Entry>
    ensures { result ≡ spec.entry_in types.now consts.now flow.now index.now.insts function }
{
    let depth = depth_of(flow, function)?;
    let size = size_of(types, consts, index, function)?;
    if !is_plain_function(types, index, function) {
        return None;
    }
    let size = allowed_size(size)?;
    Some(Entry {
        function,
        size,
        depth,
    })
}

/// The entry of a name, or the first one, where it keeps the rules.
fn entry_named(
    types: &TypeTable,
    consts: &ConstTable,
    flow: &Flow,
    index: &Index,
    name: Option<&[u8]>,
) -> Option<Entry>
    ensures { result ≡ spec.entry_named types.now consts.now flow.now index.now.insts (option_copied name.entry) }
{
    let function = id_operand(entry_point(index.insts(), name)?, 1)?;
    entry_in(types, consts, flow, index, function)
}

/// The entry of a name, or the first one.
///
/// Refuses M17 at the first word: where there is no such entry point with the execution model GLCompute, where its function
/// has parameters or returns a value, and where its workgroup has no size, one with a component 0 or undefined, or one of
/// more than 1,024 invocations.
#[tactic(auto, unfolding(crate::specs::Entry::entry_of))]
pub fn entry_of(
    types: &TypeTable,
    consts: &ConstTable,
    flow: &Flow,
    index: &Index,
    name: Option<&[u8]>,
) -> Result<Entry, Refusal>
    ensures { result ≡ spec.entry_of types.now consts.now flow.now index.now.insts (option_copied name.entry) }
{
    match entry_named(types, consts, flow, index, name) {
        Some(entry) => Ok(entry),
        None => Err(ENTRY_BREACH),
    }
}
