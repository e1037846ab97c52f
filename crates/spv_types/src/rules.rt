//! The rules of types, module variables and undefined values.
ghost use Rattle.std.specs.Prelude.{◌≡◌, ◌==◌, false};
ghost use Rattle.std.specs.Option.{option_map_or};
ghost use Rattle.spv_types.specs.Types.{form_of};
ghost use Rattle.spv_types.specs.Rules.{
  is_class,
  is_input,
  is_type,
  is_width,
  keep_members,
  keeps_form,
  keeps_member,
  keeps_initializer,
  keeps_other,
  keeps_pointer,
  keeps_rules,
  keeps_target,
  last_type,
  names_constant,
};

use crate::constants::is_constant;
use crate::forms::{Form, Member};
use crate::table::TypeTable;
use spv_base::Inst;
use spv_index::{Index, id_operand, literal_operand};
use spv_ops::{built_in, decoration, op, storage_class};

/// Whether an opcode is that of a type.
fn is_type(op: u16) -> bool
    ensures { result ≡ is_type op }
{
    op >= op::TYPE_VOID && op <= op::TYPE_INT
        || op == op::TYPE_VECTOR
        || op >= op::TYPE_ARRAY && op <= op::TYPE_STRUCT
        || op >= op::TYPE_POINTER && op <= op::TYPE_FUNCTION
}

fn is_width(n: u32) -> bool
    ensures { result ≡ is_width n }
{
    matches!(n, 8 | 16 | 32 | 64)
}

fn is_class(n: u32) -> bool
    ensures { result ≡ is_class n }
{
    matches!(
        n,
        storage_class::INPUT
            | storage_class::UNIFORM
            | storage_class::WORKGROUP
            | storage_class::PRIVATE
            | storage_class::FUNCTION
            | storage_class::PUSH_CONSTANT
            | storage_class::STORAGE_BUFFER
    )
}

/// The type of the last member.
pub fn last_type(members: &[Member]) -> Option<u32>
    ensures { result ≡ last_type members.now }
{
    match members.last() {
        Some(member) => Some(member.ty),
        None => None,
    }
}

/// Whether a member is sized data, or, as the last of a Block struct, a runtime array.
fn keeps_member(types: &TypeTable, block: bool, last: bool, ty: u32) -> bool
    ensures { result ≡ keeps_member types.now block last ty }
{
    types.is_sized_data(ty) || last && block && types.is_runtime(ty)
}

/// Whether members keep their rules.
fn keep_members(types: &TypeTable, block: bool, members: &[Member]) -> bool
    ensures { result ≡ keep_members types.now block members.now }
{
    for (n, member) in members.iter().enumerate() {
        if !keeps_member(types, block, n + 1 == members.len(), member.ty) {
            return false;
        }
    }
    true
}

/// Whether a form keeps the rules of types, where its parts are in the table.
fn keeps_form(types: &TypeTable, form: &Form) -> bool
    ensures { result ≡ keeps_form types.now form.now }
{
    match form {
        Form::Void | Form::Bool | Form::Function { .. } => true,
        Form::Int { width, sign } => is_width(*width) && *sign <= 1,
        Form::Vector { component, count } => types.is_scalar(*component)
            && *count >= 2
            && *count <= 4,
        Form::Array { element, .. } | Form::Runtime { element, .. } => types.is_sized_data(
            *element,
        ),
        Form::Struct { members, block } => keep_members(types, *block, members.as_slice()),
        Form::Pointer { class, target } => is_class(*class) && types.is_data(*target),
    }
}

/// Whether an Input variable has a built-in, and the built-in's type.
fn is_input(types: &TypeTable, built_in: Option<u32>, target: u32) -> bool
    ensures { result ≡ is_input types.now built_in target }
{
    match built_in {
        Some(
            built_in::NUM_WORKGROUPS
            | built_in::WORKGROUP_ID
            | built_in::LOCAL_INVOCATION_ID
            | built_in::GLOBAL_INVOCATION_ID,
        ) => types.is_three_words(target),
        Some(built_in::LOCAL_INVOCATION_INDEX) => types.is_word(target),
        _ => false,
    }
}

/// Whether a variable before the functions keeps the rules of its class.
fn keeps_target(types: &TypeTable, index: &Index, inst: &Inst, class: u32, target: u32) -> bool
    ensures { result ≡ keeps_target index.now.insts types.now inst.now class target }
{
    if class == storage_class::FUNCTION
        || types.has_runtime(target) && class != storage_class::STORAGE_BUFFER
    {
        return false;
    }
    if matches!(
        class,
        storage_class::STORAGE_BUFFER | storage_class::UNIFORM | storage_class::PUSH_CONSTANT
    ) && !types.is_block(target)
    {
        return false;
    }
    if class == storage_class::INPUT
        && !is_input(
            types,
            index.decoration(inst.id, decoration::BUILT_IN),
            target,
        )
    {
        return false;
    }
    keeps_initializer(index, class, target, inst)
}

/// Whether a variable before the functions keeps the rules.
fn keeps_variable(types: &TypeTable, index: &Index, inst: &Inst) -> bool
    ensures { result ≡ keeps_pointer index.now.insts types.now inst.now (form_of types.now inst.now.ty) }
{
    match types.form(inst.ty) {
        Some(Form::Pointer { class, target }) => {
            literal_operand(inst, 0) == Some(*class)
                && keeps_target(types, index, inst, *class, *target)
        }
        _ => false,
    }
}

/// Whether an instruction before the functions keeps the rules, where it defines a form or none.
pub(crate) fn keeps_rules(
    types: &TypeTable,
    index: &Index,
    inst: &Inst,
    form: &Option<Form>,
) -> bool
    ensures { result ≡ keeps_other index.now.insts types.now inst.now form.now }
{
    match form {
        Some(form) => keeps_form(types, form),
        None => match inst.op {
            op::VARIABLE => keeps_variable(types, index, inst),
            op::UNDEF => types.is_sized_data(inst.ty),
            op => !is_type(op),
        },
    }
}

/// Whether an initializer is a constant of the target type of a Private variable.
fn keeps_initializer(index: &Index, class: u32, target: u32, inst: &Inst) -> bool
    ensures { result ≡ keeps_initializer index.now.insts class target inst.now }
{
    if inst.operands.len() <= 1 {
        return true;
    }
    class == storage_class::PRIVATE && names_constant(index, target, id_operand(inst, 1))
}

/// Whether an id is there, and is that of a constant of a type.
fn names_constant(index: &Index, ty: u32, id: Option<u32>) -> bool
    ensures { result ≡ option_map_or (names_constant index.now.insts ty) id false }
{
    let Some(id) = id else {
        return false;
    };
    match index.defining(id) {
        Some(inst) => is_constant(inst.op) && inst.ty == ty,
        None => false,
    }
}
